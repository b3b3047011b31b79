//! The calls on roles.
ghost use Rattle.std.specs.Prelude.{◌≡◌, map as over, IfOk, if◌then◌else◌};
ghost use Rattle.std.specs.FinMap as map;
ghost use Rattle.hub_view.specs.Body.{bodies};
ghost use Rattle.hub_machine.specs.Answers.{answer_view};
ghost use Rattle.hub_calls.specs.Facts.{role_at};
ghost use Rattle.hub_calls.specs.RoleCalls as spec;

use crate::bodies::role_at;
use crate::ruled::{answered, carried, refused};
use admin_rules::roles;
use hub_kit::list::List;
use hub_kit::names::{GroupName, RoleName, ServiceName, UserName};
use hub_machine::answer::{Answer, gives, listed};
use hub_machine::machine::Machine;
use hub_rows::records::Role;
use hub_tables::tables::Tables;
use hub_view::{Body, Page, part_of, role_body};
use keyed_rows::sorted::Sorted;
use scope_filters::scope::RawScope;
use scope_meet::admitted::Admitted;
use std::alloc::{AllocError, Global};

/// The role with these lists, its names in order.
pub fn role_of(
    alloc: Global,
    role: &RoleName,
    scopes: &[RawScope],
    users: &[UserName],
    groups: &[GroupName],
    services: &[ServiceName],
) -> Result<Role, AllocError>
    ensures { IfOk result (λ r. r ≡ spec.role_of role.now scopes.now users.now groups.now services.now) }
{
    Ok(Role {
        name: *role,
        groups: Sorted::from_vec(Vec::from_slice(alloc, groups)?),
        scopes: List::from_vec(Vec::from_slice(alloc, scopes)?),
        services: Sorted::from_vec(Vec::from_slice(alloc, services)?),
        users: Sorted::from_vec(Vec::from_slice(alloc, users)?),
    })
}

/// `GET /roles`
pub fn get_roles(alloc: Global, hub: &Machine, page: Page) -> Result<Answer, AllocError>
    ensures { IfOk result (λ answer. answer_view answer ≡ spec.get_roles hub.now page) }
{
    let tables = hub.tables();
    tables.own_keys();
    let rows = tables.roles_by_name();
    let part = part_of(alloc, rows, &Admitted::Every, page)?;
    let bodies = roles_at(alloc, hub, part.names.as_slice())?;
    listed(alloc, page, part.total, bodies, "/roles")
}

/// The bodies of some roles.
fn roles_at(alloc: Global, hub: &Machine, names: &[RoleName]) -> Result<Vec<Body>, AllocError>
    ensures { IfOk result (λ made. bodies made.items ≡ over (role_at hub.now) names.now) }
{
    let mut bodies = Vec::new(alloc);
    for name in names {
        bodies.push(role_at(alloc, hub, name)?)?;
    }
    Ok(bodies)
}

/// `GET /roles/{role}`
pub fn get_role(alloc: Global, hub: &Machine, role: &RoleName) -> Result<Answer, AllocError>
    ensures { IfOk result (λ answer. answer_view answer ≡ spec.get_role hub.now role.now) }
{
    Ok(gives(200, role_at(alloc, hub, role)?))
}

/// 201 for a new role, and 200 for one that is kept.
fn put_status(tables: &Tables, role: &RoleName) -> u16
    ensures { result ≡ (if map.contains_key tables.now.roles role.now then 200 else 201) }
{
    if tables.role(role).is_some() {
        200
    } else {
        201
    }
}

/// `PUT /roles/{role}`
pub fn put_role(alloc: Global, hub: &Machine, role: &Role) -> Result<Answer, AllocError>
    ensures { IfOk result (λ answer. answer_view answer ≡ spec.put_role hub.now role.now) }
{
    let status = put_status(hub.tables(), &role.name);
    match roles::put_role(alloc, hub.tables(), role) {
        Ok(rows) => answered(rows, status, role_body(alloc, role)),
        Err(refusal) => refused(alloc, refusal),
    }
}

/// `DELETE /roles/{role}`
pub fn delete_role(alloc: Global, hub: &Machine, role: &RoleName) -> Result<Answer, AllocError>
    ensures { IfOk result (λ answer. answer_view answer ≡ spec.delete_role hub.now role.now) }
{
    carried(alloc, roles::delete_role(alloc, hub.tables(), role))
}
