//! The roles that name an owner, found by look-ups.
ghost use Rattle.std.specs.Prelude.{◌≡◌, ◌++◌, map, OnOk, IfOk};
ghost use Rattle.std.specs.List.{flat_map};
ghost use Rattle.hub_tables.specs.Lookups.{roles_naming_user, roles_naming_group, groups_of};
ghost use Rattle.roles.specs.Naming.{roles_naming};
ghost use Rattle.roles.specs.Rights.{roles_held};

use hub_kit::names::{GroupName, RoleName, UserName};
use hub_tables::tables::Tables;
use keyed_rows::sorted::Sorted;
use scope_filters::holder::Owner;
use std::alloc::{AllocError, Global};

/// The names of the roles whose rows name the owner, or a group that the owner is in; in order.
pub fn names_held(alloc: Global, t: &Tables, owner: &Owner) -> Result<Sorted<RoleName>, AllocError>
    ensures { IfOk result (λ names. names ≡ map (λ role. role.name) (roles_held t.now owner.now)) }
{
    let names = names_naming(alloc, t, owner)?;
    t.own_keys();
    Ok(Sorted::from_vec(names))
}

fn names_naming(alloc: Global, t: &Tables, owner: &Owner) -> Result<Vec<RoleName>, AllocError>
    ensures { IfOk result (λ names. names.items ≡ roles_naming t.now owner.now) }
{
    match owner {
        Owner::User(user) => names_of_user(alloc, t, user),
        Owner::Service(service) => t.roles_naming_service(alloc, service),
    }
}

/// The names of the roles that name the user, and of those that name each of the user's groups.
fn names_of_user(alloc: Global, t: &Tables, user: &UserName) -> Result<Vec<RoleName>, AllocError>
    ensures { IfOk result (λ names. names.items ≡ roles_naming_user t.now user.now ++ flat_map (roles_naming_group t.now)
        (groups_of t.now user.now)) }
{
    let mut names = t.roles_naming_user(alloc, user)?;
    let groups = t.groups_of(alloc, user)?;
    push_of_groups(alloc, &mut names, t, groups.as_slice())?;
    Ok(names)
}

/// Appends the names of the roles that name each of the groups.
fn push_of_groups(
    alloc: Global,
    names: &mut Vec<RoleName>,
    t: &Tables,
    groups: &[GroupName],
) -> Result<(), AllocError>
    ensures { OnOk result (names.new.items ≡ names.old.items ++ flat_map (roles_naming_group t.now) groups.now) }
{
    for group in groups {
        let more = t.roles_naming_group(alloc, group)?;
        names.extend_from_slice(&more)?;
    }
    Ok(())
}
