//! The bytes of replies.
ghost use Rattle.std.specs.Prelude.{◌≡◌, [], ◌++◌, OnOk, IfOk, decimal};
ghost use Rattle.http.specs.StatusCode.{reason_phrase};
ghost use Rattle.json.specs.Print.{print};
ghost use Rattle.hub_view.specs.Body.{body_tokens};
ghost use Rattle.hub_machine.specs.Answers.{reply_view};
ghost use Rattle.reply_texts.specs.ReplyText as spec;

use http::StatusCode;
use hub_kit::bytes::Bytes;
use hub_kit::text::Text;
use hub_machine::reply::Reply;
use hub_view::{Body, body_text};
use std::alloc::{AllocError, Global};

/// What is sent where there is no memory for a reply. Sending it takes none.
pub const NO_MEMORY: &[u8] =
    b"HTTP/1.1 507 Insufficient Storage\r\nContent-Length: 0\r\nConnection: close\r\n\r\n";

/// The text of a 507, which takes no memory.
pub fn no_memory() -> &'static [u8]
    ensures { result.now ≡ spec.no_memory }
{
    NO_MEMORY
}

/// Adds one header.
fn add_header(text: &mut Bytes, name: &[u8], value: &[u8]) -> Result<(), AllocError>
    ensures { OnOk result (text.new ≡ text.old ++ spec.header name.now value.now) }
{
    text.push_all(name)?;
    text.push_all(b": ")?;
    text.push_all(value)?;
    text.push_all(b"\r\n")
}

/// Adds one header whose value is a number.
fn add_number(alloc: Global, text: &mut Bytes, name: &[u8], value: u64) -> Result<(), AllocError>
    ensures { OnOk result (text.new ≡ text.old ++ spec.header name.now (decimal value)) }
{
    let digits = format!(in alloc; "{value}")?;
    add_header(text, name, digits.as_bytes())
}

/// Adds the status line.
fn add_status_line(alloc: Global, text: &mut Bytes, status: u16) -> Result<(), AllocError>
    ensures { OnOk result (text.new ≡ text.old ++ spec.status_line status) }
{
    text.push_all(b"HTTP/1.1 ")?;
    add_decimal(alloc, text, status)?;
    text.push_all(b" ")?;
    text.push_all(phrase(status).as_bytes())?;
    text.push_all(b"\r\n")
}

/// Adds the digits of a number.
fn add_decimal(alloc: Global, text: &mut Bytes, number: u16) -> Result<(), AllocError>
    ensures { OnOk result (text.new ≡ text.old ++ decimal number) }
{
    let digits = format!(in alloc; "{number}")?;
    text.push_all(digits.as_bytes())
}

/// The phrase of a status, or nothing where none is known.
fn phrase(status: u16) -> &'static str
    ensures { result.now ≡ spec.phrase status }
{
    match StatusCode::from_u16(status) {
        Ok(code) => phrase_of(code),
        Err(_) => "",
    }
}

fn phrase_of(code: StatusCode) -> &'static str
    ensures { result.now ≡ spec.text_or_none (reason_phrase code) }
{
    match code.canonical_reason() {
        Some(phrase) => phrase,
        None => "",
    }
}

/// Adds the headers on the body: its type and its length, or the length 0 where there is none, or nothing for 204.
fn add_body_headers(
    alloc: Global,
    text: &mut Bytes,
    status: u16,
    has_body: bool,
    length: usize,
) -> Result<(), AllocError>
    ensures { OnOk result (text.new ≡ text.old ++ spec.body_headers status has_body length) }
{
    if has_body {
        add_header(text, b"Content-Type", b"application/json")?;
        return add_number(alloc, text, b"Content-Length", length as u64);
    }
    if status == 204 {
        return Ok(());
    }
    add_header(text, b"Content-Length", b"0")
}

/// Adds the headers behind those on the body.
fn add_other_headers(
    alloc: Global,
    text: &mut Bytes,
    reply: &Reply,
    close: bool,
) -> Result<(), AllocError>
    ensures { OnOk result (text.new ≡ text.old ++ spec.other_headers (reply_view reply.now) close) }
{
    add_location(text, &reply.location)?;
    add_store_headers(text, reply.no_store)?;
    add_revision(alloc, text, reply.revision)?;
    add_close(text, close)
}

fn add_location(text: &mut Bytes, location: &Option<Text>) -> Result<(), AllocError>
    ensures { OnOk result (text.new ≡ text.old ++ spec.location_header location.now) }
{
    match location {
        Some(place) => add_header(text, b"Location", place.as_bytes()),
        None => Ok(()),
    }
}

/// Adds the headers that forbid storing (RFC 6749, 5.1).
fn add_store_headers(text: &mut Bytes, no_store: bool) -> Result<(), AllocError>
    ensures { OnOk result (text.new ≡ text.old ++ spec.store_headers no_store) }
{
    if !no_store {
        return Ok(());
    }
    add_header(text, b"Cache-Control", b"no-store")?;
    add_header(text, b"Pragma", b"no-cache")
}

/// Adds the length of the history.
fn add_revision(alloc: Global, text: &mut Bytes, revision: Option<u64>) -> Result<(), AllocError>
    ensures { OnOk result (text.new ≡ text.old ++ spec.revision_header revision) }
{
    match revision {
        Some(n) => add_number(alloc, text, b"X-Hub-Revision", n),
        None => Ok(()),
    }
}

fn add_close(text: &mut Bytes, close: bool) -> Result<(), AllocError>
    ensures { OnOk result (text.new ≡ text.old ++ spec.close_header close) }
{
    if close {
        add_header(text, b"Connection", b"close")
    } else {
        Ok(())
    }
}

/// Whether a reply has a body.
fn has_body(body: &Body) -> bool
    ensures { result ≡ spec.has_body (body_tokens body.now) }
{
    !matches!(body, Body::Nothing)
}

/// Adds the parts of a reply whose body has these bytes.
fn add_reply(
    alloc: Global,
    text: &mut Bytes,
    reply: &Reply,
    body: &[u8],
    close: bool,
) -> Result<(), AllocError>
    requires { text.old ≡ [] }
    ensures { OnOk result (body.now ≡ print (body_tokens reply.now.body) → text.new ≡ spec.reply_text (reply_view reply.now) close) }
{
    add_status_line(alloc, text, reply.status)?;
    add_body_headers(alloc, text, reply.status, has_body(&reply.body), body.len())?;
    add_other_headers(alloc, text, reply, close)?;
    text.push_all(b"\r\n")?;
    text.push_all(body)
}

/// The bytes of a reply (RFC 9112); `close` says that the connection is closed after it.
pub fn reply_text(alloc: Global, reply: &Reply, close: bool) -> Result<Bytes, AllocError>
    ensures { IfOk result (λ text. text ≡ spec.reply_text (reply_view reply.now) close) }
{
    let body = body_text(alloc, &reply.body)?;
    let mut text = Bytes::new(alloc);
    let added = add_reply(alloc, &mut text, reply, body.as_slice(), close);
    drop(body);
    added.and(Ok(text))
}
