//! What an owner holds: roles, shares, and the scopes of both.
ghost use Rattle.std.specs.Prelude.{◌≡◌, ◌++◌, ◌∷◌, [], map, OnOk, IfOk, if◌then◌else◌};
ghost use Rattle.std.specs.FinMap as finite;
ghost use Rattle.std.specs.List.{flat_map};
ghost use Rattle.scope_names.specs.Actions.{listed};
ghost use Rattle.hub_tables.specs.Lookups.{is_admin};
ghost use Rattle.roles.specs.Naming.{role_scopes};
ghost use Rattle.roles.specs.Rights.{roles_held, shares_received};
ghost use Rattle.roles.specs.Rights as spec;

use crate::naming::names_held;
use crate::received::push_received;
use hub_kit::names::{RoleName, UserName};
use hub_tables::tables::Tables;
use scope_filters::holder::Owner;
use scope_filters::scope::{RawFilter, RawScope};
use scope_names::action::Action;
use std::alloc::{AllocError, Global};

/// The scopes that the owner holds.
pub(crate) fn scopes_held(
    alloc: Global,
    t: &Tables,
    owner: &Owner,
) -> Result<Vec<RawScope>, AllocError>
    ensures { IfOk result (λ scopes. scopes.items ≡ spec.scopes_held t.now owner.now) }
{
    let mut scopes = Vec::new(alloc);
    push_fixed(&mut scopes, t, owner)?;
    push_roles(alloc, &mut scopes, t, owner)?;
    push_shares(alloc, &mut scopes, t, owner)?;
    Ok(scopes)
}

/// Appends the scopes of the fixed roles to none.
fn push_fixed(scopes: &mut Vec<RawScope>, t: &Tables, owner: &Owner) -> Result<(), AllocError>
    requires { scopes.old.items ≡ [] }
    ensures { OnOk result (scopes.new.items ≡ spec.fixed_scopes t.now owner.now) }
{
    match owner {
        Owner::User(user) => {
            push_own(scopes)?;
            push_admin(scopes, t, user)
        }
        Owner::Service(_) => Ok(()),
    }
}

/// Appends `self`.
fn push_own(scopes: &mut Vec<RawScope>) -> Result<(), AllocError>
    ensures { OnOk result (scopes.new.items ≡ scopes.old.items ++ RawScope.SelfScope ∷ []) }
{
    // The check proves no call that hands scopes on, unless the types in them are named beside it.
    let _action: Option<Action> = None;
    let _filter: Option<RawFilter> = None;
    scopes.push(RawScope::SelfScope)?;
    Ok(())
}

/// Appends the scopes of the fixed role `admin`, where the user is one.
fn push_admin(scopes: &mut Vec<RawScope>, t: &Tables, user: &UserName) -> Result<(), AllocError>
    ensures { OnOk result (scopes.new.items ≡ scopes.old.items ++ (if is_admin t.now user.now then spec.admin_scopes else [])) }
{
    if is_admin(t, user) {
        return push_unfiltered(scopes, &table_actions());
    }
    Ok(())
}

/// Whether the user is an admin; who isn't kept is none.
pub fn is_admin(t: &Tables, user: &UserName) -> bool
    ensures { result ≡ is_admin t.now user.now }
{
    match t.user(user) {
        Some(row) => row.admin,
        None => false,
    }
}

/// Appends a scope of each action, without filter.
fn push_unfiltered(scopes: &mut Vec<RawScope>, actions: &[Action]) -> Result<(), AllocError>
    ensures { OnOk result (scopes.new.items ≡ scopes.old.items ++ map (λ action. RawScope.Plain action RawFilter.Unfiltered) actions.now) }
{
    for action in actions {
        scopes.push(RawScope::Plain {
            action: *action,
            filter: RawFilter::Unfiltered,
        })?;
    }
    Ok(())
}

/// Appends the scopes of the roles that the owner holds.
fn push_roles(
    alloc: Global,
    scopes: &mut Vec<RawScope>,
    t: &Tables,
    owner: &Owner,
) -> Result<(), AllocError>
    ensures { OnOk result (scopes.new.items ≡ scopes.old.items ++ flat_map (λ role. role.scopes) (roles_held t.now owner.now)) }
{
    let names = names_held(alloc, t, owner)?;
    t.own_keys();
    push_named(scopes, t, names.as_slice())
}

/// Appends the scopes of the roles of these names.
fn push_named(scopes: &mut Vec<RawScope>, t: &Tables, names: &[RoleName]) -> Result<(), AllocError>
    ensures { OnOk result (scopes.new.items ≡ scopes.old.items ++ flat_map (λ name. role_scopes (finite.get t.now.roles name)) names.now) }
{
    for name in names {
        push_role(scopes, t, name)?;
    }
    Ok(())
}

fn push_role(scopes: &mut Vec<RawScope>, t: &Tables, name: &RoleName) -> Result<(), AllocError>
    ensures { OnOk result (scopes.new.items ≡ scopes.old.items ++ role_scopes (finite.get t.now.roles name.now)) }
{
    match t.role(name) {
        Some(role) => scopes.extend_from_slice(role.scopes.as_slice()),
        None => Ok(()),
    }
}

/// Appends the scopes of the shares that the owner received.
fn push_shares(
    alloc: Global,
    scopes: &mut Vec<RawScope>,
    t: &Tables,
    owner: &Owner,
) -> Result<(), AllocError>
    ensures { OnOk result (scopes.new.items ≡ scopes.old.items ++ flat_map (λ share. share.scopes) (shares_received t.now owner.now)) }
{
    if let Owner::User(user) = owner {
        push_received(alloc, scopes, t, user)?;
    }
    Ok(())
}

/// The actions of the table, none of them a custom one.
#[tactic(auto, unfolding(scope_names::specs::Actions::listed))]
fn table_actions() -> [Action; 45]
    ensures { result ≡ listed }
{
    [
        Action::AccessServers,
        Action::AccessServices,
        Action::AdminUi,
        Action::AdminAuthState,
        Action::AdminGroups,
        Action::AdminRoles,
        Action::AdminServerState,
        Action::AdminServers,
        Action::AdminServices,
        Action::AdminUsers,
        Action::DeleteGroups,
        Action::DeleteServers,
        Action::DeleteUsers,
        Action::Groups,
        Action::GroupsShares,
        Action::ListGroups,
        Action::ListServices,
        Action::ListUsers,
        Action::Proxy,
        Action::ReadGroups,
        Action::ReadGroupsName,
        Action::ReadGroupsShares,
        Action::ReadHub,
        Action::ReadMetrics,
        Action::ReadRoles,
        Action::ReadRolesGroups,
        Action::ReadRolesServices,
        Action::ReadRolesUsers,
        Action::ReadServers,
        Action::ReadServices,
        Action::ReadServicesName,
        Action::ReadShares,
        Action::ReadTokens,
        Action::ReadUsers,
        Action::ReadUsersActivity,
        Action::ReadUsersGroups,
        Action::ReadUsersName,
        Action::ReadUsersShares,
        Action::Servers,
        Action::Shares,
        Action::Shutdown,
        Action::Tokens,
        Action::Users,
        Action::UsersActivity,
        Action::UsersShares,
    ]
}
