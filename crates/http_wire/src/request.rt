//! A request as a value.
ghost use Rattle.std.specs.Prelude.{◌≡◌, IfOk, IsUtf8};
ghost use Rattle.http_wire.specs.Request as spec;
ghost use Rattle.http_wire.specs.Target.{path_of, query_of};
ghost use Rattle.http_wire.specs.Token.{token_of};

use crate::connection::{asks_pages, closes};
use crate::due::seen_of;
use crate::head::Head;
use crate::target::cut_target;
use crate::token::token_text;
use hub_kit::bytes::Bytes;
use hub_kit::text::Text;
use std::alloc::{AllocError, Global};

/// A request. The target is cut at its first `?` into the path and the query, which is empty where there is none.
#[derive(Drop)]
pub struct Request {
    pub method: Text,
    pub path: Text,
    pub query: Text,
    /// The token of the `Authorization` header.
    pub token: Option<Text>,
    /// The number of the `X-Hub-Seen` header.
    pub seen: Option<u64>,
    /// Whether an `Accept` header asks for pages.
    pub paged: bool,
    /// Whether the connection closes after the reply.
    pub close: bool,
    pub body: Bytes,
}

/// The path and the query of a head.
fn target_texts(alloc: Global, head: &Head) -> Result<(Text, Text), AllocError>
    requires { IsUtf8 head.now.target }
    ensures path { IfOk result (λ texts. texts.0 ≡ path_of head.now.target) }
    ensures query { IfOk result (λ texts. texts.1 ≡ query_of head.now.target) }
{
    let Ok(target) = str::from_utf8(head.target.as_slice()) else {
        unreachable!()
    };
    let (path, query) = cut_target(target);
    let path = Text::from_str(alloc, path)?;
    Ok((path, Text::from_str(alloc, query)?))
}

fn token_copy(alloc: Global, head: &Head) -> Result<Option<Text>, AllocError>
    ensures { IfOk result (λ token. token ≡ token_of head.now.headers) }
{
    match token_text(head) {
        Some(token) => Ok(Some(Text::from_str(alloc, token)?)),
        None => Ok(None),
    }
}

/// The request of a head and a body.
pub(crate) fn request_of(alloc: Global, head: Head, body: Bytes) -> Result<Request, AllocError>
    requires { IsUtf8 head.target }
    ensures { IfOk result (λ request. request ≡ spec.request_of head body) }
{
    let token = token_copy(alloc, &head)?;
    let (path, query) = target_texts(alloc, &head)?;
    Ok(Request {
        path,
        query,
        token,
        seen: seen_of(&head),
        paged: asks_pages(&head),
        close: closes(&head),
        method: head.method,
        body,
    })
}
