//! The calls of the authorization code grant (RFC 6749, section 4.1).
ghost use Rattle.std.specs.Prelude.{◌≡◌, IfOk};
ghost use Rattle.hub_api.specs.Refusals.{Gives};
ghost use Rattle.hub_api.specs.Readings as spec;
ghost use Rattle.hub_api.specs.Calls as paths;

use crate::method::Method;
use crate::refusal::ApiRefusal;
use http_wire::request::Request;
use hub_machine::call::Call;
use oauth_flow::asks::{AuthorizeAsk, TradeAsk};
use request_parts::query::form_value;
use std::alloc::{AllocError, Global};

/// `/oauth2/authorize`, by its methods.
pub(crate) fn authorize(
    alloc: Global,
    method: Method,
    request: &Request,
) -> Result<Call, ApiRefusal>
    ensures { Gives result (paths.authorize method request.now) }
{
    match method {
        Method::Get => Ok(Call::GetAuthorize {
            ask: authorize_ask(alloc, request)?,
        }),
        _ => Err(ApiRefusal::NoMethod),
    }
}

/// `/oauth2/token`, by its methods.
pub(crate) fn trade(alloc: Global, method: Method, request: &Request) -> Result<Call, ApiRefusal>
    ensures { Gives result (paths.trade method request.now) }
{
    match method {
        Method::Post => Ok(Call::PostTrade {
            ask: trade_ask(alloc, request)?,
        }),
        _ => Err(ApiRefusal::NoMethod),
    }
}

/// What the query of an authorization says.
fn authorize_ask(alloc: Global, request: &Request) -> Result<AuthorizeAsk, AllocError>
    ensures { IfOk result (λ ask. ask ≡ spec.authorize_ask request.now) }
{
    let query = request.query.as_bytes();
    Ok(AuthorizeAsk {
        response_type: form_value(alloc, query, "response_type")?,
        client_id: form_value(alloc, query, "client_id")?,
        redirect_uri: form_value(alloc, query, "redirect_uri")?,
        state: form_value(alloc, query, "state")?,
    })
}

/// What the body of a trade says, which is a form.
fn trade_ask(alloc: Global, request: &Request) -> Result<TradeAsk, AllocError>
    ensures { IfOk result (λ ask. ask ≡ spec.trade_ask request.now) }
{
    let form = request.body.as_slice();
    Ok(TradeAsk {
        grant_type: form_value(alloc, form, "grant_type")?,
        code: form_value(alloc, form, "code")?,
        redirect_uri: form_value(alloc, form, "redirect_uri")?,
        client_id: form_value(alloc, form, "client_id")?,
        client_secret: form_value(alloc, form, "client_secret")?,
    })
}
