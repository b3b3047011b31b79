//! The calls on roles.
ghost use Rattle.std.specs.Prelude.{◌≡◌, Ok};
ghost use Rattle.http_wire.specs.declared.request.Request.{Request};
ghost use Rattle.serde_json.specs.View.{view};
ghost use Rattle.hub_api.specs.Bodies.{body_of};
ghost use Rattle.hub_api.specs.Refusals.{Gives};
ghost use Rattle.hub_api.specs.Readings as spec;
ghost use Rattle.hub_api.specs.Calls as paths;

use crate::method::Method;
use crate::parts::{body_of, list, name_at, page_of, scope_texts, scopes};
use crate::refusal::ApiRefusal;
use http_wire::request::Request;
use hub_kit::list::List;
use hub_kit::names::{GroupName, RoleName, ServiceName, UserName};
use hub_machine::call::Call;
use hub_paths::Path;
use serde_json::Value;
use std::alloc::Global;

/// `/roles`, by its methods.
pub(crate) fn roles(alloc: Global, method: Method, request: &Request) -> Result<Call, ApiRefusal>
    ensures { Gives result (paths.roles method request.now) }
{
    match method {
        Method::Get => get_roles(alloc, request),
        _ => Err(ApiRefusal::NoMethod),
    }
}

/// The role that the path names.
fn role_at(alloc: Global, request: &Request) -> Result<RoleName, ApiRefusal>
    ensures { Gives result (spec.role_at request.now) }
{
    name_at(alloc, request, Path::Role, "{role}")
}

/// `/roles/{role}`, by its methods.
pub(crate) fn role(alloc: Global, method: Method, request: &Request) -> Result<Call, ApiRefusal>
    ensures { Gives result (paths.role method request.now) }
{
    match method {
        Method::Get => Ok(Call::GetRole {
            role: role_at(alloc, request)?,
        }),
        Method::Put => put_role(alloc, request),
        Method::Delete => Ok(Call::DeleteRole {
            role: role_at(alloc, request)?,
        }),
        _ => Err(ApiRefusal::NoMethod),
    }
}

#[tactic(auto, unfolding(crate::specs::Readings::get_roles))]
fn get_roles(alloc: Global, request: &Request) -> Result<Call, ApiRefusal>
    ensures { Gives result (spec.get_roles request.now) }
{
    Ok(Call::GetRoles {
        page: page_of(alloc, request)?,
    })
}

#[tactic(auto, unfolding(crate::specs::Readings::put_role))]
fn put_role(alloc: Global, request: &Request) -> Result<Call, ApiRefusal>
    ensures { Gives result (spec.put_role request.now) }
{
    let role = role_at(alloc, request)?;
    let body = body_of(alloc, request)?;
    let call = put_role_of(alloc, role, &body);
    drop(body);
    call
}

/// The call that puts a role, by its name and its body. The body is read whole before its scopes are.
#[tactic(auto, unfolding(crate::specs::Readings::put_role))]
fn put_role_of(alloc: Global, role: RoleName, body: &Value) -> Result<Call, ApiRefusal>
    ensures { (q : Request) → spec.role_at q ≡ Ok role → body_of q ≡ Ok (view body.now) → Gives result (spec.put_role q) }
{
    let texts = scope_texts(alloc, body)?;
    let users: List<UserName> = list(alloc, body, "users")?;
    let groups: List<GroupName> = list(alloc, body, "groups")?;
    let services: List<ServiceName> = list(alloc, body, "services")?;
    let scopes = scopes(alloc, &texts)?;
    Ok(Call::PutRole {
        role,
        scopes,
        users,
        groups,
        services,
    })
}
