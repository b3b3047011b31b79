//! The calls on groups.
ghost use Rattle.hub_api.specs.Refusals.{Gives};
ghost use Rattle.hub_api.specs.Readings as spec;
ghost use Rattle.hub_api.specs.Calls as paths;

use crate::method::Method;
use crate::parts::{body_of, list, name_at, page_of, some_names};
use crate::refusal::ApiRefusal;
use http_wire::request::Request;
use hub_kit::list::List;
use hub_kit::names::{GroupName, UserName};
use hub_machine::call::Call;
use hub_paths::Path;
use std::alloc::Global;

/// `/groups`, by its methods.
pub(crate) fn groups(alloc: Global, method: Method, request: &Request) -> Result<Call, ApiRefusal>
    ensures { Gives result (paths.groups method request.now) }
{
    match method {
        Method::Get => get_groups(alloc, request),
        _ => Err(ApiRefusal::NoMethod),
    }
}

/// The group that the path names.
fn group_at(alloc: Global, request: &Request) -> Result<GroupName, ApiRefusal>
    ensures { Gives result (spec.group_at request.now) }
{
    name_at(alloc, request, Path::Group, "{group}")
}

/// `/groups/{group}`, by its methods.
pub(crate) fn group(alloc: Global, method: Method, request: &Request) -> Result<Call, ApiRefusal>
    ensures { Gives result (paths.group method request.now) }
{
    match method {
        Method::Get => Ok(Call::GetGroup {
            group: group_at(alloc, request)?,
        }),
        Method::Post => post_group(alloc, request),
        Method::Delete => Ok(Call::DeleteGroup {
            group: group_at(alloc, request)?,
        }),
        _ => Err(ApiRefusal::NoMethod),
    }
}

/// `/groups/{group}/users`, by its methods.
pub(crate) fn members(alloc: Global, method: Method, request: &Request) -> Result<Call, ApiRefusal>
    ensures { Gives result (paths.members method request.now) }
{
    match method {
        Method::Post => join_group(alloc, request),
        Method::Delete => leave_group(alloc, request),
        _ => Err(ApiRefusal::NoMethod),
    }
}

#[tactic(auto, unfolding(crate::specs::Readings::get_groups))]
fn get_groups(alloc: Global, request: &Request) -> Result<Call, ApiRefusal>
    ensures { Gives result (spec.get_groups request.now) }
{
    Ok(Call::GetGroups {
        page: page_of(alloc, request)?,
    })
}

#[tactic(auto, unfolding(crate::specs::Readings::post_group))]
fn post_group(alloc: Global, request: &Request) -> Result<Call, ApiRefusal>
    ensures { Gives result (spec.post_group request.now) }
{
    let group = group_at(alloc, request)?;
    let body = body_of(alloc, request)?;
    let users: Result<List<UserName>, ApiRefusal> = list(alloc, &body, "users");
    drop(body);
    Ok(Call::PostGroup {
        group,
        users: users?,
    })
}

/// The group that the path names, and the users that the body names.
#[tactic(auto, unfolding(crate::specs::Readings::members_at))]
fn members_at(alloc: Global, request: &Request) -> Result<(GroupName, List<UserName>), ApiRefusal>
    ensures { Gives result (spec.members_at request.now) }
{
    let group: GroupName = name_at(alloc, request, Path::Members, "{group}")?;
    let body = body_of(alloc, request)?;
    let users = some_names(alloc, &body, "users");
    drop(body);
    Ok((group, users?))
}

fn join_group(alloc: Global, request: &Request) -> Result<Call, ApiRefusal>
    ensures { Gives result (spec.join_group request.now) }
{
    let (group, users) = members_at(alloc, request)?;
    Ok(Call::JoinGroup { group, users })
}

fn leave_group(alloc: Global, request: &Request) -> Result<Call, ApiRefusal>
    ensures { Gives result (spec.leave_group request.now) }
{
    let (group, users) = members_at(alloc, request)?;
    Ok(Call::LeaveGroup { group, users })
}
