//! The bodies of the rows that are kept, as the rights of a caller show them.
ghost use Rattle.std.specs.Prelude.{◌≡◌, IfOk};
ghost use Rattle.hub_view.specs.Body.{body_tokens};
ghost use Rattle.hub_calls.specs.Facts as spec;
ghost use Rattle.hub_calls.specs.Rights.{may_of};

use crate::facts::facts_of;
use hub_kit::names::{GroupName, RoleName, ServiceName, UserName};
use hub_machine::machine::Machine;
use hub_rows::records::{Group, User};
use hub_view::Body;
use scope_filters::grant::Grant;
use std::alloc::{AllocError, Global};

/// A user as the rights show it.
pub fn user_body(
    alloc: Global,
    hub: &Machine,
    rights: &Grant,
    user: &User,
) -> Result<Body, AllocError>
    ensures { IfOk result (λ body. body_tokens body ≡ spec.user_body (may_of hub.now rights.now) hub.now user.now) }
{
    let facts = facts_of(alloc, hub, user)?;
    hub_view::user_body(alloc, hub.tables(), rights, &facts)
}

/// A kept user as the rights show it.
pub fn user_at(
    alloc: Global,
    hub: &Machine,
    rights: &Grant,
    user: &UserName,
) -> Result<Body, AllocError>
    ensures { IfOk result (λ body. body_tokens body ≡ spec.user_at (may_of hub.now rights.now) hub.now user.now) }
{
    match hub.tables().user(user) {
        Some(user) => user_body(alloc, hub, rights, user),
        None => Ok(Body::Nothing),
    }
}

/// A group, which may be about to be put, as the rights show it.
pub fn group_body(
    alloc: Global,
    hub: &Machine,
    rights: &Grant,
    group: &Group,
) -> Result<Body, AllocError>
    ensures { IfOk result (λ body. body_tokens body ≡ spec.group_body (may_of hub.now rights.now) hub.now group.now) }
{
    let roles = hub.tables().roles_naming_group(alloc, &group.name)?;
    hub_view::group_body(alloc, hub.tables(), rights, group, roles.as_slice())
}

/// A kept group as the rights show it.
pub fn group_at(
    alloc: Global,
    hub: &Machine,
    rights: &Grant,
    group: &GroupName,
) -> Result<Body, AllocError>
    ensures { IfOk result (λ body. body_tokens body ≡ spec.group_at (may_of hub.now rights.now) hub.now group.now) }
{
    match hub.tables().group(group) {
        Some(group) => group_body(alloc, hub, rights, group),
        None => Ok(Body::Nothing),
    }
}

/// A service as the rights show it.
pub fn service_body(
    alloc: Global,
    hub: &Machine,
    rights: &Grant,
    service: &ServiceName,
) -> Result<Body, AllocError>
    ensures { IfOk result (λ body. body_tokens body ≡ spec.service_body (may_of hub.now rights.now) hub.now service.now) }
{
    let roles = hub.tables().roles_naming_service(alloc, service)?;
    hub_view::service_body(alloc, hub.tables(), rights, service, roles.as_slice())
}

/// A kept role.
pub fn role_at(alloc: Global, hub: &Machine, role: &RoleName) -> Result<Body, AllocError>
    ensures { IfOk result (λ body. body_tokens body ≡ spec.role_at hub.now role.now) }
{
    match hub.tables().role(role) {
        Some(role) => hub_view::role_body(alloc, role),
        None => Ok(Body::Nothing),
    }
}
