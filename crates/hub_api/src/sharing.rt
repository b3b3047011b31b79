//! The calls on shares and share codes.
ghost use Rattle.std.specs.Prelude.{◌≡◌, Ok};
ghost use Rattle.http_wire.specs.declared.request.Request.{Request};
ghost use Rattle.hub_kit.specs.declared.names.ServerKey.{ServerKey};
ghost use Rattle.serde_json.specs.View.{view};
ghost use Rattle.hub_api.specs.Bodies.{body_of};
ghost use Rattle.hub_api.specs.Refusals.{Gives};
ghost use Rattle.hub_api.specs.Readings as spec;
ghost use Rattle.hub_api.specs.Calls as paths;

use crate::method::Method;
use crate::parts::{
    body_of, id_of, life, name_at, needed_text, page_of, recipient, scope_texts, scopes,
};
use crate::refusal::ApiRefusal;
use http_wire::request::Request;
use hub_kit::list::List;
use hub_kit::names::{ServerKey, ServerName, UserName};
use hub_machine::call::Call;
use hub_paths::Path;
use hub_rows::keys::Recipient;
use scope_filters::scope::RawScope;
use serde_json::Value;
use shares::lists::{CodesOf, SharesOf};
use std::alloc::Global;

/// `/users/{user}/shared`, by its methods.
pub(crate) fn shared(alloc: Global, method: Method, request: &Request) -> Result<Call, ApiRefusal>
    ensures { Gives result (paths.shared method request.now) }
{
    match method {
        Method::Get => get_shared(alloc, request),
        Method::Post => accept_code(alloc, request),
        _ => Err(ApiRefusal::NoMethod),
    }
}

/// `/shares/{owner}`, by its methods.
pub(crate) fn given_shares(
    alloc: Global,
    method: Method,
    request: &Request,
) -> Result<Call, ApiRefusal>
    ensures { Gives result (paths.given_shares method request.now) }
{
    match method {
        Method::Get => get_given_shares(alloc, request),
        _ => Err(ApiRefusal::NoMethod),
    }
}

/// `/shares/{owner}/{server}`, and `/shares/{owner}/` of the default server, by their methods.
pub(crate) fn server_shares(
    alloc: Global,
    method: Method,
    request: &Request,
) -> Result<Call, ApiRefusal>
    ensures { Gives result (paths.server_shares method request.now) }
{
    match method {
        Method::Get => get_server_shares(alloc, request),
        Method::Post => post_share(alloc, request),
        Method::Patch => patch_share(alloc, request),
        Method::Delete => Ok(Call::DeleteShares {
            server: server_at(alloc, request, Path::ServerShares)?,
        }),
        _ => Err(ApiRefusal::NoMethod),
    }
}

/// `/share-codes/{owner}`, by its methods.
pub(crate) fn given_codes(
    alloc: Global,
    method: Method,
    request: &Request,
) -> Result<Call, ApiRefusal>
    ensures { Gives result (paths.given_codes method request.now) }
{
    match method {
        Method::Get => get_given_codes(alloc, request),
        _ => Err(ApiRefusal::NoMethod),
    }
}

/// `/share-codes/{owner}/{server}`, and `/share-codes/{owner}/` of the default server, by their methods.
pub(crate) fn server_codes(
    alloc: Global,
    method: Method,
    request: &Request,
) -> Result<Call, ApiRefusal>
    ensures { Gives result (paths.server_codes method request.now) }
{
    match method {
        Method::Get => get_server_codes(alloc, request),
        Method::Post => post_code(alloc, request),
        Method::Delete => delete_codes(alloc, request),
        _ => Err(ApiRefusal::NoMethod),
    }
}

/// The server that the path names. Behind a last slash stands the empty name, that of the default server.
#[tactic(auto, unfolding(crate::specs::Readings::server_at))]
fn server_at(alloc: Global, request: &Request, path: Path) -> Result<ServerKey, ApiRefusal>
    ensures { Gives result (spec.server_at path request.now) }
{
    let user: UserName = name_at(alloc, request, path, "{owner}")?;
    let server: ServerName = name_at(alloc, request, path, "{server}")?;
    Ok(ServerKey { user, server })
}

#[tactic(auto, unfolding(crate::specs::Readings::get_shared))]
fn get_shared(alloc: Global, request: &Request) -> Result<Call, ApiRefusal>
    ensures { Gives result (spec.get_shared request.now) }
{
    let user = name_at(alloc, request, Path::Shared, "{user}")?;
    let page = page_of(alloc, request)?;
    let whose = SharesOf::Recipient(user);
    Ok(Call::GetShares { whose, page })
}

#[tactic(auto, unfolding(crate::specs::Readings::accept_code))]
fn accept_code(alloc: Global, request: &Request) -> Result<Call, ApiRefusal>
    ensures { Gives result (spec.accept_code request.now) }
{
    let user = name_at(alloc, request, Path::Shared, "{user}")?;
    let body = body_of(alloc, request)?;
    let code = needed_text(alloc, &body, "code");
    drop(body);
    Ok(Call::AcceptCode { user, code: code? })
}

#[tactic(auto, unfolding(crate::specs::Readings::get_given_shares))]
fn get_given_shares(alloc: Global, request: &Request) -> Result<Call, ApiRefusal>
    ensures { Gives result (spec.get_given_shares request.now) }
{
    let owner = name_at(alloc, request, Path::GivenShares, "{owner}")?;
    let page = page_of(alloc, request)?;
    let whose = SharesOf::Owner(owner);
    Ok(Call::GetShares { whose, page })
}

#[tactic(auto, unfolding(crate::specs::Readings::get_server_shares))]
fn get_server_shares(alloc: Global, request: &Request) -> Result<Call, ApiRefusal>
    ensures { Gives result (spec.get_server_shares request.now) }
{
    let server = server_at(alloc, request, Path::ServerShares)?;
    let page = page_of(alloc, request)?;
    let whose = SharesOf::Server(server);
    Ok(Call::GetShares { whose, page })
}

fn post_share(alloc: Global, request: &Request) -> Result<Call, ApiRefusal>
    ensures { Gives result (spec.post_share request.now) }
{
    let (server, to, scopes) = share_at(alloc, request)?;
    Ok(Call::PostShare { server, to, scopes })
}

fn patch_share(alloc: Global, request: &Request) -> Result<Call, ApiRefusal>
    ensures { Gives result (spec.patch_share request.now) }
{
    let (server, to, scopes) = share_at(alloc, request)?;
    Ok(Call::PatchShare { server, to, scopes })
}

/// A server, with whom it is shared or no longer shared, and the scopes.
#[tactic(auto, unfolding(crate::specs::Readings::share_at))]
fn share_at(
    alloc: Global,
    request: &Request,
) -> Result<(ServerKey, Option<Recipient>, List<RawScope>), ApiRefusal>
    ensures { Gives result (spec.share_at request.now) }
{
    let server = server_at(alloc, request, Path::ServerShares)?;
    let body = body_of(alloc, request)?;
    let share = share_of(alloc, server, &body);
    drop(body);
    share
}

/// The same by the server and the body, which is read whole before its scopes are.
#[tactic(auto, unfolding(crate::specs::Readings::share_at))]
fn share_of(
    alloc: Global,
    server: ServerKey,
    body: &Value,
) -> Result<(ServerKey, Option<Recipient>, List<RawScope>), ApiRefusal>
    ensures { (q : Request) → spec.server_at Path.ServerShares q ≡ Ok server → body_of q ≡ Ok (view body.now)
        → Gives result (spec.share_at q) }
{
    let to = recipient(alloc, body)?;
    let texts = scope_texts(alloc, body)?;
    let scopes = scopes(alloc, &texts)?;
    Ok((server, to, scopes))
}

#[tactic(auto, unfolding(crate::specs::Readings::get_given_codes))]
fn get_given_codes(alloc: Global, request: &Request) -> Result<Call, ApiRefusal>
    ensures { Gives result (spec.get_given_codes request.now) }
{
    let owner = name_at(alloc, request, Path::GivenCodes, "{owner}")?;
    let page = page_of(alloc, request)?;
    let whose = CodesOf::Owner(owner);
    Ok(Call::GetCodes { whose, page })
}

#[tactic(auto, unfolding(crate::specs::Readings::get_server_codes))]
fn get_server_codes(alloc: Global, request: &Request) -> Result<Call, ApiRefusal>
    ensures { Gives result (spec.get_server_codes request.now) }
{
    let server = server_at(alloc, request, Path::ServerCodes)?;
    let page = page_of(alloc, request)?;
    let whose = CodesOf::Server(server);
    Ok(Call::GetCodes { whose, page })
}

#[tactic(auto, unfolding(crate::specs::Readings::post_code))]
fn post_code(alloc: Global, request: &Request) -> Result<Call, ApiRefusal>
    ensures { Gives result (spec.post_code request.now) }
{
    let server = server_at(alloc, request, Path::ServerCodes)?;
    let body = body_of(alloc, request)?;
    let call = post_code_of(alloc, server, &body);
    drop(body);
    call
}

/// The call that asks for a code, by its server and its body. The body is read whole before its scopes are.
#[tactic(auto, unfolding(crate::specs::Readings::post_code))]
fn post_code_of(alloc: Global, server: ServerKey, body: &Value) -> Result<Call, ApiRefusal>
    ensures { (q : Request) → spec.server_at Path.ServerCodes q ≡ Ok server → body_of q ≡ Ok (view body.now)
        → Gives result (spec.post_code q) }
{
    let texts = scope_texts(alloc, body)?;
    let expires_in = life(body, "expires_in")?;
    let scopes = scopes(alloc, &texts)?;
    Ok(Call::PostCode {
        server,
        scopes,
        expires_in,
    })
}

#[tactic(auto, unfolding(crate::specs::Readings::delete_codes))]
fn delete_codes(alloc: Global, request: &Request) -> Result<Call, ApiRefusal>
    ensures { Gives result (spec.delete_codes request.now) }
{
    let server = server_at(alloc, request, Path::ServerCodes)?;
    let id = id_of(alloc, request)?;
    Ok(Call::DeleteCodes { server, id })
}
