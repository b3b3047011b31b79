//! The calls on the tokens of users.
ghost use Rattle.std.specs.Prelude.{◌≡◌, Ok};
ghost use Rattle.http_wire.specs.declared.request.Request.{Request};
ghost use Rattle.serde_json.specs.View.{view};
ghost use Rattle.hub_api.specs.Bodies.{body_of};
ghost use Rattle.hub_api.specs.Refusals.{Gives};
ghost use Rattle.hub_api.specs.Readings as spec;
ghost use Rattle.hub_api.specs.Calls as paths;

use crate::method::Method;
use crate::parts::{body_of, name_at, note, scope_texts, scopes, seconds};
use crate::refusal::ApiRefusal;
use http_wire::request::Request;
use hub_kit::names::UserName;
use hub_machine::call::Call;
use hub_paths::Path;
use serde_json::Value;
use std::alloc::Global;
use token_store::issuing::TokenAsk;

/// `/users/{user}/tokens`, by its methods.
pub(crate) fn tokens(alloc: Global, method: Method, request: &Request) -> Result<Call, ApiRefusal>
    ensures { Gives result (paths.tokens method request.now) }
{
    match method {
        Method::Get => Ok(Call::GetTokens {
            user: owner_at(alloc, request)?,
        }),
        Method::Post => post_token(alloc, request),
        _ => Err(ApiRefusal::NoMethod),
    }
}

/// `/users/{user}/tokens/{id}`, by its methods.
pub(crate) fn token(alloc: Global, method: Method, request: &Request) -> Result<Call, ApiRefusal>
    ensures { Gives result (paths.token method request.now) }
{
    match method {
        Method::Get => {
            let (user, id) = token_at(alloc, request)?;
            Ok(Call::GetToken { user, id })
        }
        Method::Delete => {
            let (user, id) = token_at(alloc, request)?;
            Ok(Call::DeleteToken { user, id })
        }
        _ => Err(ApiRefusal::NoMethod),
    }
}

/// The user whose tokens the path names.
fn owner_at(alloc: Global, request: &Request) -> Result<UserName, ApiRefusal>
    ensures { Gives result (spec.owner_at request.now) }
{
    name_at(alloc, request, Path::Tokens, "{user}")
}

/// The user and the id that the path names. An id has no leading zero.
#[tactic(auto, unfolding(crate::specs::Readings::token_at))]
fn token_at(alloc: Global, request: &Request) -> Result<(UserName, u64), ApiRefusal>
    ensures { Gives result (spec.token_at request.now) }
{
    let user: UserName = name_at(alloc, request, Path::Token, "{user}")?;
    let id: u64 = name_at(alloc, request, Path::Token, "{id}")?;
    Ok((user, id))
}

#[tactic(auto, unfolding(crate::specs::Readings::post_token))]
fn post_token(alloc: Global, request: &Request) -> Result<Call, ApiRefusal>
    ensures { Gives result (spec.post_token request.now) }
{
    let owner = owner_at(alloc, request)?;
    let body = body_of(alloc, request)?;
    let call = post_token_of(alloc, owner, &body);
    drop(body);
    call
}

/// The call that asks for a token, by its owner and its body. The body is read whole before its scopes are.
#[tactic(auto, unfolding(crate::specs::Readings::post_token))]
fn post_token_of(alloc: Global, owner: UserName, body: &Value) -> Result<Call, ApiRefusal>
    ensures { (q : Request) → spec.owner_at q ≡ Ok owner → body_of q ≡ Ok (view body.now) → Gives result (spec.post_token q) }
{
    let texts = scope_texts(alloc, body)?;
    let note = note(alloc, body, "note")?;
    let expires_in = seconds(body, "expires_in")?;
    let scopes = scopes(alloc, &texts)?;
    Ok(Call::PostToken {
        ask: TokenAsk {
            owner,
            scopes,
            note,
            expires_in,
        },
    })
}
