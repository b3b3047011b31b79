//! Refusals that come before any visit: of the wire, and of what a request asks.
ghost use Rattle.std.specs.Prelude.{◌≡◌, Some, IfOk, option_map};
ghost use Rattle.hub_machine.specs.Answers.{reply_view};
ghost use Rattle.reply_texts.specs.ReplyText as spec;
ghost use Rattle.hub_api.specs.Refusals.{no_draw, api_refusal, wire_refusal};
ghost use Rattle.hub_api.specs.Refusals as spec_refusals;

use http_wire::error::WireError;
use hub_machine::reply::Reply;
use hub_view::{Body, message_body};
use scope_filters::scope::ScopeError;
use std::alloc::{AllocError, Global};

/// Why a request asks no call. The first that applies is answered, in this order; `Memory` may stand in the place of any
/// other, and of a call.
#[derive(Clone, Copy, PartialEq, Eq)]
pub enum ApiRefusal {
    /// The path isn't in the table of calls: 404 `no such path`.
    NoPath,
    /// The path has no call of that method: 405 `method not allowed`.
    NoMethod,
    /// A name in the path is none: 400 `bad name`. It carries the number of its segment; the empty segment before the
    /// first slash has the number 0.
    BadName(usize),
    /// A value in the query isn't of its form: 400 `bad query`.
    BadQuery,
    /// The body isn't of its form: 400 `bad body`.
    BadBody,
    /// A text that is to be a scope is none: 400 `bad scope`. It carries the place of the first such text in its list,
    /// counted from 0.
    BadScope { index: usize, error: ScopeError },
    /// There is no memory to read the request: 507 without body, after which the connection is to be closed.
    Memory,
}

impl From<AllocError> for ApiRefusal {
    ghost from_gives = { λ e refusal. refusal ≡ spec_refusals.memory };

    fn from(_: AllocError) -> ApiRefusal {
        ApiRefusal::Memory
    }
}

/// A reply with a status and its message, and no revision.
fn refused(alloc: Global, status: u16, message: &str) -> Result<Reply, AllocError>
    ensures { IfOk result (λ reply. reply_view reply ≡ spec.refused status message.now) }
{
    Ok(Reply {
        status,
        body: message_body(alloc, status, message)?,
        location: None,
        no_store: false,
        revision: None,
    })
}

/// The reply to a request that asks no call.
pub fn refusal_reply(alloc: Global, refusal: ApiRefusal) -> Result<Reply, AllocError>
    ensures { IfOk result (λ reply. reply_view reply ≡ api_refusal refusal) }
{
    match refusal {
        ApiRefusal::NoPath => refused(alloc, 404, "no such path"),
        ApiRefusal::NoMethod => refused(alloc, 405, "method not allowed"),
        ApiRefusal::BadName(_) => refused(alloc, 400, "bad name"),
        ApiRefusal::BadQuery => refused(alloc, 400, "bad query"),
        ApiRefusal::BadBody => refused(alloc, 400, "bad body"),
        ApiRefusal::BadScope { .. } => refused(alloc, 400, "bad scope"),
        ApiRefusal::Memory => Ok(without_memory()),
    }
}

/// The reply where no random bytes came for a call that draws.
pub fn no_draw_reply(alloc: Global) -> Result<Reply, AllocError>
    ensures { IfOk result (λ reply. reply_view reply ≡ no_draw) }
{
    refused(alloc, 503, "random")
}

/// The reply where there is no memory for one. With `close` its text is `NO_MEMORY` of `reply_texts`.
fn without_memory() -> Reply
    ensures { reply_view result ≡ spec.without_memory }
{
    Reply {
        status: 507,
        body: Body::Nothing,
        location: None,
        no_store: false,
        revision: None,
    }
}

/// The reply to bytes that are no request, unless the input ended, failed or found no memory.
pub fn wire_refusal_reply(alloc: Global, error: WireError) -> Result<Option<Reply>, AllocError>
    ensures { IfOk result (λ reply. option_map reply_view reply ≡ wire_refusal error) }
{
    match error {
        WireError::BadHead => some_refused(alloc, 400, "bad head"),
        WireError::TooLarge(_) => some_refused(alloc, 413, "too large"),
        WireError::Coding => some_refused(alloc, 501, "coding not supported"),
        WireError::Ended | WireError::Cut | WireError::ReadFault | WireError::Memory => Ok(None),
    }
}

fn some_refused(alloc: Global, status: u16, message: &str) -> Result<Option<Reply>, AllocError>
    ensures { IfOk result (λ reply. option_map reply_view reply ≡ Some (spec.refused status message.now)) }
{
    Ok(Some(refused(alloc, status, message)?))
}
