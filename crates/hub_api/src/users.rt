//! The calls on users.
ghost use Rattle.hub_api.specs.Refusals.{Gives};
ghost use Rattle.hub_api.specs.Readings as spec;
ghost use Rattle.hub_api.specs.Calls as paths;

use crate::method::Method;
use crate::parts::{
    activity_of, body_of, distinct_names, moment, name_at, needed_truth, page_of, truth,
};
use crate::refusal::ApiRefusal;
use http_wire::request::Request;
use hub_kit::names::UserName;
use hub_machine::call::Call;
use hub_paths::Path;
use std::alloc::Global;

/// `/users`, by its methods.
pub(crate) fn users(alloc: Global, method: Method, request: &Request) -> Result<Call, ApiRefusal>
    ensures { Gives result (paths.users method request.now) }
{
    match method {
        Method::Get => get_users(alloc, request),
        Method::Post => post_users(alloc, request),
        _ => Err(ApiRefusal::NoMethod),
    }
}

/// The user that the path names.
fn user_at(alloc: Global, request: &Request) -> Result<UserName, ApiRefusal>
    ensures { Gives result (spec.user_at request.now) }
{
    name_at(alloc, request, Path::User, "{user}")
}

/// `/users/{user}`, by its methods.
pub(crate) fn user(alloc: Global, method: Method, request: &Request) -> Result<Call, ApiRefusal>
    ensures { Gives result (paths.user method request.now) }
{
    match method {
        Method::Get => Ok(Call::GetUser {
            user: user_at(alloc, request)?,
        }),
        Method::Post => Ok(Call::PostUser {
            user: user_at(alloc, request)?,
        }),
        Method::Patch => patch_user(alloc, request),
        Method::Delete => Ok(Call::DeleteUser {
            user: user_at(alloc, request)?,
        }),
        _ => Err(ApiRefusal::NoMethod),
    }
}

/// `/users/{user}/activity`, by its methods.
pub(crate) fn activity(alloc: Global, method: Method, request: &Request) -> Result<Call, ApiRefusal>
    ensures { Gives result (paths.activity method request.now) }
{
    match method {
        Method::Post => post_activity(alloc, request),
        _ => Err(ApiRefusal::NoMethod),
    }
}

#[tactic(auto, unfolding(crate::specs::Readings::get_users))]
fn get_users(alloc: Global, request: &Request) -> Result<Call, ApiRefusal>
    ensures { Gives result (spec.get_users request.now) }
{
    Ok(Call::GetUsers {
        page: page_of(alloc, request)?,
    })
}

#[tactic(auto, unfolding(crate::specs::Readings::post_users))]
fn post_users(alloc: Global, request: &Request) -> Result<Call, ApiRefusal>
    ensures { Gives result (spec.post_users request.now) }
{
    let body = body_of(alloc, request)?;
    let usernames = distinct_names(alloc, &body, "usernames");
    let admin = truth(&body, "admin");
    drop(body);
    Ok(Call::PostUsers {
        usernames: usernames?,
        admin: admin?,
    })
}

#[tactic(auto, unfolding(crate::specs::Readings::patch_user))]
fn patch_user(alloc: Global, request: &Request) -> Result<Call, ApiRefusal>
    ensures { Gives result (spec.patch_user request.now) }
{
    let user = user_at(alloc, request)?;
    let body = body_of(alloc, request)?;
    let admin = needed_truth(&body, "admin");
    drop(body);
    Ok(Call::PatchUser {
        user,
        admin: admin?,
    })
}

#[tactic(auto, unfolding(crate::specs::Readings::post_activity))]
fn post_activity(alloc: Global, request: &Request) -> Result<Call, ApiRefusal>
    ensures { Gives result (spec.post_activity request.now) }
{
    let user: UserName = name_at(alloc, request, Path::Activity, "{user}")?;
    let body = body_of(alloc, request)?;
    let last_activity = moment(alloc, &body, "last_activity");
    let servers = activity_of(alloc, &body, "servers");
    drop(body);
    Ok(Call::PostActivity {
        user,
        last_activity: last_activity?,
        servers: servers?,
    })
}
