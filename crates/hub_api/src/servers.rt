//! The calls on servers.
ghost use Rattle.std.specs.Prelude.{◌≡◌, []};
ghost use Rattle.hub_api.specs.Refusals.{Gives};
ghost use Rattle.hub_api.specs.Readings as spec;
ghost use Rattle.hub_api.specs.Calls as paths;

use crate::method::Method;
use crate::parts::{body_of, name_at, truth};
use crate::refusal::ApiRefusal;
use http_wire::request::Request;
use hub_kit::names::{ServerKey, ServerName, UserName, read_server};
use hub_machine::call::Call;
use hub_paths::Path;
use std::alloc::Global;

/// `/users/{user}/server`, by its methods.
pub(crate) fn default_server(
    alloc: Global,
    method: Method,
    request: &Request,
) -> Result<Call, ApiRefusal>
    ensures { Gives result (paths.default_server method request.now) }
{
    match method {
        Method::Post => Ok(Call::PostServer {
            server: default_server_at(alloc, request)?,
        }),
        Method::Delete => Ok(Call::DeleteServer {
            server: default_server_at(alloc, request)?,
            remove: remove_of(alloc, request)?,
        }),
        _ => Err(ApiRefusal::NoMethod),
    }
}

/// `/users/{user}/servers/{server}`, by its methods.
pub(crate) fn named_server(
    alloc: Global,
    method: Method,
    request: &Request,
) -> Result<Call, ApiRefusal>
    ensures { Gives result (paths.named_server method request.now) }
{
    match method {
        Method::Post => Ok(Call::PostServer {
            server: named_server_at(alloc, request)?,
        }),
        Method::Delete => Ok(Call::DeleteServer {
            server: named_server_at(alloc, request)?,
            remove: remove_of(alloc, request)?,
        }),
        _ => Err(ApiRefusal::NoMethod),
    }
}

/// The default server of the user that the path names.
#[tactic(auto, unfolding(crate::specs::Readings::default_server_at))]
fn default_server_at(alloc: Global, request: &Request) -> Result<ServerKey, ApiRefusal>
    ensures { Gives result (spec.default_server_at request.now) }
{
    let user: UserName = name_at(alloc, request, Path::DefaultServer, "{user}")?;
    Ok(ServerKey {
        user,
        server: default_name(),
    })
}

/// The name of the default server.
fn default_name() -> ServerName
    ensures { result ≡ [] }
{
    match read_server(b"") {
        Ok(name) => name,
        Err(_) => unreachable!(),
    }
}

/// The server that the path names.
#[tactic(auto, unfolding(crate::specs::Readings::named_server_at))]
fn named_server_at(alloc: Global, request: &Request) -> Result<ServerKey, ApiRefusal>
    ensures { Gives result (spec.named_server_at request.now) }
{
    let user: UserName = name_at(alloc, request, Path::NamedServer, "{user}")?;
    let server: ServerName = name_at(alloc, request, Path::NamedServer, "{server}")?;
    Ok(ServerKey { user, server })
}

/// Whether the body says that the server is to go too.
fn remove_of(alloc: Global, request: &Request) -> Result<bool, ApiRefusal>
    ensures { Gives result (spec.remove_of request.now) }
{
    let body = body_of(alloc, request)?;
    let remove = truth(&body, "remove");
    drop(body);
    remove
}
