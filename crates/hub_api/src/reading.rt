//! The call that a request asks.
ghost use Rattle.std.specs.Prelude.{◌≡◌, false};
ghost use Rattle.hub_api.specs.Refusals.{Gives};
ghost use Rattle.hub_api.specs.Calls as spec;
ghost use Rattle.hub_api.specs.Readings as calls;
ghost use Rattle.hub_machine.specs.Draws.{draws};

use crate::grants::{authorize, trade};
use crate::groups::{group, groups, members};
use crate::method::{Method, method_of};
use crate::parts::server_of;
use crate::refusal::ApiRefusal;
use crate::roles::{role, roles};
use crate::servers::{default_server, named_server};
use crate::services::{service, services};
use crate::sharing::{given_codes, given_shares, server_codes, server_shares, shared};
use crate::tokens::{token, tokens};
use crate::users::{activity, user, users};
use http_wire::request::Request;
use hub_machine::call::{Asked, Call};
use hub_paths::{Path, path_of};
use std::alloc::Global;

/// `/`, by its methods.
fn version(method: Method) -> Result<Call, ApiRefusal>
    ensures { result ≡ spec.version method }
{
    match method {
        Method::Get => Ok(Call::GetVersion),
        _ => Err(ApiRefusal::NoMethod),
    }
}

/// `/info`, by its methods.
fn info(method: Method) -> Result<Call, ApiRefusal>
    ensures { result ≡ spec.info method }
{
    match method {
        Method::Get => Ok(Call::GetInfo),
        _ => Err(ApiRefusal::NoMethod),
    }
}

/// `/user`, by its methods.
fn identity(alloc: Global, method: Method, request: &Request) -> Result<Call, ApiRefusal>
    ensures { Gives result (spec.identity method request.now) }
{
    match method {
        Method::Get => get_identity(alloc, request),
        _ => Err(ApiRefusal::NoMethod),
    }
}

#[tactic(auto, unfolding(crate::specs::Readings::get_identity))]
fn get_identity(alloc: Global, request: &Request) -> Result<Call, ApiRefusal>
    ensures { Gives result (calls.get_identity request.now) }
{
    let for_server = server_of(alloc, request)?;
    Ok(Call::GetIdentity { for_server })
}

/// `/proxy`, by its methods. A body is ignored.
fn proxy(method: Method) -> Result<Call, ApiRefusal>
    ensures { result ≡ spec.proxy method }
{
    match method {
        Method::Get => Ok(Call::GetProxy),
        Method::Post => Ok(Call::PostProxy),
        _ => Err(ApiRefusal::NoMethod),
    }
}

/// The call of a path.
fn at_path(alloc: Global, path: Path, method: Method, request: &Request) -> Result<Call, ApiRefusal>
    ensures { Gives result (spec.at_path path method request.now) }
{
    match path {
        Path::Bare | Path::Version => version(method),
        Path::Info => info(method),
        Path::Identity => identity(alloc, method, request),
        Path::Users => users(alloc, method, request),
        Path::User => user(alloc, method, request),
        Path::Activity => activity(alloc, method, request),
        Path::DefaultServer => default_server(alloc, method, request),
        Path::NamedServer => named_server(alloc, method, request),
        Path::Tokens => tokens(alloc, method, request),
        Path::Token => token(alloc, method, request),
        Path::Shared => shared(alloc, method, request),
        Path::GivenShares => given_shares(alloc, method, request),
        Path::DefaultShares | Path::ServerShares => server_shares(alloc, method, request),
        Path::GivenCodes => given_codes(alloc, method, request),
        Path::DefaultCodes | Path::ServerCodes => server_codes(alloc, method, request),
        Path::Groups => groups(alloc, method, request),
        Path::Group => group(alloc, method, request),
        Path::Members => members(alloc, method, request),
        Path::Services => services(alloc, method, request),
        Path::Service => service(alloc, method, request),
        Path::Roles => roles(alloc, method, request),
        Path::Role => role(alloc, method, request),
        Path::Authorize => authorize(alloc, method, request),
        Path::Trade => trade(alloc, method, request),
        Path::Proxy => proxy(method),
    }
}

fn call_of(alloc: Global, path: Option<Path>, request: &Request) -> Result<Call, ApiRefusal>
    ensures { Gives result (spec.call_of path request.now) }
{
    match path {
        Some(path) => at_path(alloc, path, method_of(request.method.as_str()), request),
        None => Err(ApiRefusal::NoPath),
    }
}

/// The call that a request asks, with the token and the revision that it brings, or the first refusal: of its path, its
/// method, the names in its path, its query, its body, its scopes. A call looks at those keys of the query and of the body
/// alone that it has.
#[tactic(auto, unfolding(crate::specs::Calls::call_read))]
pub fn read_call(alloc: Global, request: Request) -> Result<Asked, ApiRefusal>
    ensures { Gives result (spec.call_read request) }
{
    let path = path_of(request.path.as_str());
    match call_of(alloc, path, &request) {
        Ok(call) => Ok(Asked {
            token: request.token,
            seen: request.seen,
            call,
        }),
        Err(refusal) => {
            // in one call, since it has many parts
            drop(request);
            Err(refusal)
        }
    }
}

/// Whether a call draws random bytes before its visit.
pub fn draws(call: &Call) -> bool
    ensures { result ≡ draws call.now }
{
    match call {
        Call::PostServer { .. }
        | Call::PostToken { .. }
        | Call::PostCode { .. }
        | Call::GetAuthorize { .. }
        | Call::PostTrade { .. } => true,
        _ => false,
    }
}
