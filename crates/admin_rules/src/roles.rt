//! The calls that put and delete roles.
ghost use Rattle.std.specs.Prelude.{◌≡◌, ◌∷◌, [], IfOk, Ok, Some};
ghost use Rattle.std.specs.Option.{option_copied, option_or};
ghost use Rattle.hub_rows.specs.declared.changes.RowChange.TheVariants.{Put};
ghost use Rattle.hub_rows.specs.declared.rows.Row.TheVariants as Row;
ghost use Rattle.admin_rules.specs.declared.refusals.RuleRefusal.TheVariants.{FixedRole};
ghost use Rattle.admin_rules.specs.Rules.{ArePlain, Checks, Says, first_unkept, if_so};
ghost use Rattle.admin_rules.specs.Roles.{delete_role, if_unknown_holder, if_unknown_scope, is_fixed_role, put_role, same_role};
ghost use Rattle.admin_rules.specs.Roles.{unknown_holder};

use crate::groups::unkept_user;
use crate::refusals::{RuleRefusal, check_room};
use crate::rows::one;
use hub_kit::names::{GroupName, RoleName, ServiceName};
use hub_kit::text::Text;
use hub_rows::changes::RowChange;
use hub_rows::records::Role;
use hub_rows::rows::{Row, RowKey};
use hub_tables::tables::Tables;
use scope_filters::known::unknown_scope;
use scope_filters::scope::{RawScope, scope_text};
use scope_names::table::ScopeTable;
use std::alloc::Global;

/// Puts a role, as `PUT /roles/{name}` does. The refusals in their order: `FixedRole`, `UnknownScope`, `UnknownHolder`, and for
/// a new role `Full`. Where the role that is kept is equal, nothing changes.
pub fn put_role(alloc: Global, tables: &Tables, role: &Role) -> Result<Vec<RowChange>, RuleRefusal>
    ensures answer { Says (put_role tables.now role.now) result }
    ensures plain { IfOk result (λ rows. ArePlain rows.items) }
{
    check_role(alloc, tables, role)?;
    match tables.role(&role.name) {
        Some(kept) if same_role(role, kept) => Ok(Vec::new(alloc)),
        Some(_) => put_copy(alloc, role),
        None => {
            check_room(4, tables.limits().roles, tables.count_of_roles() as u64, 1)?;
            put_copy(alloc, role)
        }
    }
}

/// Refuses a role that can't be put, whether or not there is room for one more.
fn check_role(alloc: Global, tables: &Tables, role: &Role) -> Result<(), RuleRefusal>
    ensures { Checks (option_or (if_so (is_fixed_role role.now.name) FixedRole)
        (option_or (if_unknown_scope tables.now.scopes role.now.scopes) (if_unknown_holder tables.now role.now))) result }
{
    if is_fixed_role(&role.name) {
        return Err(RuleRefusal::FixedRole);
    }
    check_scopes(alloc, tables.scope_table(), role.scopes.as_slice())?;
    check_holders(alloc, tables, role)
}

/// The put of a copy of a role.
fn put_copy(alloc: Global, role: &Role) -> Result<Vec<RowChange>, RuleRefusal>
    ensures answer { Says (Ok (Put (Row.Role role.now) ∷ [])) result }
    ensures plain { IfOk result (λ rows. ArePlain rows.items) }
{
    one(alloc, RowChange::Put(Row::Role(role.copy(alloc)?)))
}

/// Whether the role is one that every hub has, and that no call changes: `user` and `admin` (JupyterHub's documentation, "Default roles").
pub fn is_fixed_role(role: &RoleName) -> bool
    ensures { result ≡ is_fixed_role role.now }
{
    role.as_str() == "user" || role.as_str() == "admin"
}

/// Refuses where the custom name of a scope isn't declared.
fn check_scopes(alloc: Global, table: &ScopeTable, scopes: &[RawScope]) -> Result<(), RuleRefusal>
    ensures { Checks (if_unknown_scope table.now scopes.now) result }
{
    match unknown_scope(table, scopes) {
        Some(scope) => Err(RuleRefusal::UnknownScope(scope_text(alloc, scope)?)),
        None => Ok(()),
    }
}

/// Refuses where a holder isn't kept.
fn check_holders(alloc: Global, tables: &Tables, role: &Role) -> Result<(), RuleRefusal>
    ensures { Checks (if_unknown_holder tables.now role.now) result }
{
    match unknown_holder(tables, role) {
        Some(name) => Err(RuleRefusal::UnknownHolder(Text::from_str(alloc, name)?)),
        None => Ok(()),
    }
}

/// The first holder that isn't kept: of the users, then of the groups, then of the services.
fn unknown_holder<'a>(tables: &Tables, role: &'a Role) -> Option<&'a str>
    ensures { option_copied result ≡ unknown_holder tables.now role.now }
{
    if let Some(user) = unkept_user(tables, role.users.as_slice()) {
        return Some(user.as_str());
    }
    if let Some(group) = unkept_group(tables, role.groups.as_slice()) {
        return Some(group.as_str());
    }
    match unkept_service(tables, role.services.as_slice()) {
        Some(service) => Some(service.as_str()),
        None => None,
    }
}

fn unkept_group<'a>(tables: &Tables, groups: &'a [GroupName]) -> Option<&'a GroupName>
    ensures { option_copied result ≡ first_unkept tables.now.groups groups.now }
{
    for group in groups {
        if tables.group(group).is_none() {
            return Some(group);
        }
    }
    None
}

fn unkept_service<'a>(tables: &Tables, services: &'a [ServiceName]) -> Option<&'a ServiceName>
    ensures { option_copied result ≡ first_unkept tables.now.services services.now }
{
    for service in services {
        if tables.service(service).is_none() {
            return Some(service);
        }
    }
    None
}

/// Whether two roles have the same scopes in the same order, and the same holders. Scopes are equal exactly where their texts
/// are, so this is the equality of the roles' records.
fn same_role(a: &Role, b: &Role) -> bool
    ensures { result ≡ same_role a.now b.now }
{
    a.users.as_slice() == b.users.as_slice()
        && a.groups.as_slice() == b.groups.as_slice()
        && a.services.as_slice() == b.services.as_slice()
        && a.scopes.as_slice() == b.scopes.as_slice()
}

/// Deletes a role. `FixedRole` comes for `user` and `admin`, whether or not they are kept. Without such a role nothing changes.
pub fn delete_role(
    alloc: Global,
    tables: &Tables,
    role: &RoleName,
) -> Result<Vec<RowChange>, RuleRefusal>
    ensures answer { Says (delete_role tables.now role.now) result }
    ensures plain { IfOk result (λ rows. ArePlain rows.items) }
{
    if is_fixed_role(role) {
        return Err(RuleRefusal::FixedRole);
    }
    if tables.role(role).is_none() {
        return Ok(Vec::new(alloc));
    }
    one(alloc, RowChange::Remove(RowKey::Role(*role)))
}
