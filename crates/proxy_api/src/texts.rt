//! The bytes of the API's replies. Each closes its connection, which takes one request.
ghost use Rattle.std.specs.Prelude.{◌≡◌, ◌≢◌, ◌≤◌, [], ◌++◌, decimal, IfOk, OnOk};
ghost use Rattle.proxy_core.specs.Refusals.{status_line, reply_behind, reply_with, message_body};
ghost use Rattle.proxy_api.specs.Texts.{IsTextWritten, IsReplied};
ghost use Rattle.proxy_api.specs.Texts as spec;

use crate::calls::ApiRefusal;
use http_wire::error::SessionFault;
use http_wire::writes::write_all;
use hub_devices::sink::Sink;
use hub_kit::bytes::Bytes;
use hub_kit::text::Text;
use route_table::route::RouteRefusal;
use std::alloc::{AllocError, Global};

/// What a request is answered.
#[derive(Drop)]
pub enum ApiReply {
    /// The text of the listing.
    Listed(Text),
    Added,
    Deleted,
    Refused(ApiRefusal),
}

const BAD_REQUEST: &[u8] = b"HTTP/1.1 400 Bad Request\r\n";

const FORBIDDEN: &[u8] = b"HTTP/1.1 403 Forbidden\r\n";

const NOT_FOUND: &[u8] = b"HTTP/1.1 404 Not Found\r\n";

const METHOD_NOT_ALLOWED: &[u8] = b"HTTP/1.1 405 Method Not Allowed\r\n";

const CONFLICT: &[u8] = b"HTTP/1.1 409 Conflict\r\n";

const TOO_LARGE: &[u8] = b"HTTP/1.1 413 Payload Too Large\r\n";

const SERVER_ERROR: &[u8] = b"HTTP/1.1 500 Internal Server Error\r\n";

const NOT_IMPLEMENTED: &[u8] = b"HTTP/1.1 501 Not Implemented\r\n";

const NO_STORAGE: &[u8] = b"HTTP/1.1 507 Insufficient Storage\r\n";

const OK: &[u8] = b"HTTP/1.1 200 OK\r\n";

const JSON: &[u8] = b"Content-Type: application/json\r\n";

const ADDED: &[u8] = b"HTTP/1.1 201 Created\r\nContent-Length: 0\r\nConnection: close\r\n\r\n";

const DELETED: &[u8] = b"HTTP/1.1 204 No Content\r\nConnection: close\r\n\r\n";

/// What is written where there is no memory. Writing it takes none.
const NO_MEMORY: &[u8] =
    b"HTTP/1.1 507 Insufficient Storage\r\nContent-Length: 0\r\nConnection: close\r\n\r\n";

fn table_status(refusal: RouteRefusal) -> u16
    ensures { result ≡ spec.table_status refusal }
{
    match refusal {
        RouteRefusal::NotFound => 404,
        RouteRefusal::Stale { given: _, seen: _ } => 409,
        RouteRefusal::BadPath(_) => 400,
        RouteRefusal::BadTarget => 400,
        RouteRefusal::Full(_) => 500,
        RouteRefusal::Memory => 507,
    }
}

fn refusal_status(refusal: ApiRefusal) -> u16
    ensures { result ≡ spec.refusal_status refusal }
{
    match refusal {
        ApiRefusal::BadHead => 400,
        ApiRefusal::TooLarge => 413,
        ApiRefusal::Coding => 501,
        ApiRefusal::NoToken => 403,
        ApiRefusal::NoPlace => 404,
        ApiRefusal::BadMethod => 405,
        ApiRefusal::BadQuery => 400,
        ApiRefusal::BadBody => 400,
        ApiRefusal::BadTarget => 400,
        ApiRefusal::Table(refusal) => table_status(refusal),
        ApiRefusal::Memory => 507,
    }
}

/// The status of a reply.
pub fn status_of(reply: &ApiReply) -> u16
    ensures { result ≡ spec.status_of reply.now }
{
    match reply {
        ApiReply::Listed(_) => 200,
        ApiReply::Added => 201,
        ApiReply::Deleted => 204,
        ApiReply::Refused(refusal) => refusal_status(*refusal),
    }
}

fn table_line(refusal: RouteRefusal) -> &'static [u8]
    ensures { result.now ≡ status_line (spec.table_status refusal) }
{
    match refusal {
        RouteRefusal::NotFound => NOT_FOUND,
        RouteRefusal::Stale { given: _, seen: _ } => CONFLICT,
        RouteRefusal::BadPath(_) => BAD_REQUEST,
        RouteRefusal::BadTarget => BAD_REQUEST,
        RouteRefusal::Full(_) => SERVER_ERROR,
        RouteRefusal::Memory => NO_STORAGE,
    }
}

/// The status line of a refusal.
fn refusal_line(refusal: ApiRefusal) -> &'static [u8]
    ensures { result.now ≡ status_line (spec.refusal_status refusal) }
{
    match refusal {
        ApiRefusal::BadHead => BAD_REQUEST,
        ApiRefusal::TooLarge => TOO_LARGE,
        ApiRefusal::Coding => NOT_IMPLEMENTED,
        ApiRefusal::NoToken => FORBIDDEN,
        ApiRefusal::NoPlace => NOT_FOUND,
        ApiRefusal::BadMethod => METHOD_NOT_ALLOWED,
        ApiRefusal::BadQuery => BAD_REQUEST,
        ApiRefusal::BadBody => BAD_REQUEST,
        ApiRefusal::BadTarget => BAD_REQUEST,
        ApiRefusal::Table(refusal) => table_line(refusal),
        ApiRefusal::Memory => NO_STORAGE,
    }
}

fn stale_message(alloc: Global, given: u64, seen: u64) -> Result<Text, AllocError>
    ensures { IfOk result (λ message. message ≡ spec.stale_message given seen) }
{
    let text = format!(in alloc; "seen {seen}, given {given}")?;
    Ok(Text::from_string(text))
}

fn table_message(alloc: Global, refusal: RouteRefusal) -> Result<Text, AllocError>
    ensures { IfOk result (λ message. message ≡ spec.table_message refusal) }
{
    match refusal {
        RouteRefusal::NotFound => Text::from_str(alloc, "not found"),
        RouteRefusal::Stale { given, seen } => stale_message(alloc, given, seen),
        RouteRefusal::BadPath(_) => Text::from_str(alloc, "bad path"),
        RouteRefusal::BadTarget => Text::from_str(alloc, "bad target"),
        RouteRefusal::Full(limit) => {
            let text = format!(in alloc; "full: routes {limit}")?;
            Ok(Text::from_string(text))
        }
        RouteRefusal::Memory => Text::from_str(alloc, "no memory"),
    }
}

/// The message of a refusal.
fn refusal_message(alloc: Global, refusal: ApiRefusal) -> Result<Text, AllocError>
    ensures { IfOk result (λ message. message ≡ spec.refusal_message refusal) }
{
    match refusal {
        ApiRefusal::BadHead => Text::from_str(alloc, "bad head"),
        ApiRefusal::TooLarge => Text::from_str(alloc, "too large"),
        ApiRefusal::Coding => Text::from_str(alloc, "coding not supported"),
        ApiRefusal::NoToken => Text::from_str(alloc, "no valid token"),
        ApiRefusal::NoPlace => Text::from_str(alloc, "not found"),
        ApiRefusal::BadMethod => Text::from_str(alloc, "method not allowed"),
        ApiRefusal::BadQuery => Text::from_str(alloc, "bad query"),
        ApiRefusal::BadBody => Text::from_str(alloc, "bad body"),
        ApiRefusal::BadTarget => Text::from_str(alloc, "bad target"),
        ApiRefusal::Table(refusal) => table_message(alloc, refusal),
        ApiRefusal::Memory => Text::from_str(alloc, "no memory"),
    }
}

/// The body of a refusal. No message has a byte that JSON escapes.
fn message_text(alloc: Global, message: &Text, status: u16) -> Result<Bytes, AllocError>
    ensures { IfOk result (λ body. body ≡ message_body message.now status) }
{
    let digits = format!(in alloc; "{status}")?;
    let mut body = Bytes::new(alloc);
    body.push_all(b"{\"message\":\"")?;
    body.push_all(message.as_bytes())?;
    body.push_all(b"\",\"status\":")?;
    body.push_all(digits.as_bytes())?;
    body.push_all(b"}")?;
    Ok(body)
}

/// What stands behind the status line of a reply with a JSON body.
fn push_behind(alloc: Global, text: &mut Bytes, body: &[u8]) -> Result<(), AllocError>
    ensures { OnOk result (text.new ≡ text.old ++ reply_behind JSON.now body.now) }
{
    let count = body.len();
    let digits = format!(in alloc; "{count}")?;
    text.push_all(JSON)?;
    text.push_all(b"Content-Length: ")?;
    text.push_all(digits.as_bytes())?;
    text.push_all(b"\r\nConnection: close\r\n\r\n")?;
    text.push_all(body)
}

/// A reply with a JSON body.
fn text_with(alloc: Global, line: &[u8], body: &[u8]) -> Result<Bytes, AllocError>
    ensures { IfOk result (λ text. text ≡ line.now ++ reply_behind JSON.now body.now) }
{
    let mut text = Bytes::from_slice(alloc, line)?;
    push_behind(alloc, &mut text, body)?;
    Ok(text)
}

/// The text of a refusal, which is of no want of memory.
fn refused_text(alloc: Global, refusal: ApiRefusal) -> Result<Bytes, AllocError>
    requires { refusal ≢ ApiRefusal.Memory }
    ensures { IfOk result (λ text. text ≡ spec.refused_text refusal) }
{
    let message = refusal_message(alloc, refusal)?;
    let body = message_text(alloc, &message, refusal_status(refusal))?;
    text_with(alloc, refusal_line(refusal), body.as_slice())
}

fn ok_line() -> &'static [u8]
    ensures { result.now ≡ status_line 200 }
{
    OK
}

fn added_text() -> &'static [u8]
    ensures { result.now ≡ reply_with 201 [] [] }
{
    ADDED
}

fn deleted_text() -> &'static [u8]
    ensures { result.now ≡ spec.deleted_text }
{
    DELETED
}

/// The text of a reply, for which there may be no memory. A want of memory has none here.
fn reply_text(alloc: Global, reply: &ApiReply) -> Result<Bytes, AllocError>
    ensures { IfOk result (λ text. text ≡ spec.reply_text reply.now) }
{
    match reply {
        ApiReply::Listed(listing) => text_with(alloc, ok_line(), listing.as_bytes()),
        ApiReply::Added => Bytes::from_slice(alloc, added_text()),
        ApiReply::Deleted => Bytes::from_slice(alloc, deleted_text()),
        ApiReply::Refused(ApiRefusal::Memory) => Err(AllocError),
        ApiReply::Refused(refusal) => refused_text(alloc, *refusal),
    }
}

/// Writes a text, and gives its status.
fn write_text<O: Sink>(output: &mut O, text: &[u8], status: u16) -> Result<u16, SessionFault>
    ensures written { IsTextWritten text.now status (O.held output.old) (O.held output.new)
        (O.faults output.old) (O.faults output.new) result }
    ensures counted { O.faults output.old ≤ O.faults output.new }
{
    match write_all(output, text) {
        Ok(()) => Ok(status),
        Err(_) => Err(SessionFault::WriteFault(0)),
    }
}

/// Writes a reply, or a 507 where there is no memory for it, and gives the status that was written.
pub fn write_reply<O: Sink>(
    alloc: Global,
    output: &mut O,
    reply: &ApiReply,
) -> Result<u16, SessionFault>
    ensures replied { IsReplied reply.now (O.held output.old) (O.held output.new) (O.faults output.old) (O.faults output.new) result }
    ensures counted { O.faults output.old ≤ O.faults output.new }
{
    match reply_text(alloc, reply) {
        Ok(text) => write_text(output, text.as_slice(), status_of(reply)),
        Err(_) => write_text(output, NO_MEMORY, 507),
    }
}
