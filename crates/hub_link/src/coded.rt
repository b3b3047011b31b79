//! A reply in chunks, as the same reply by its length.
ghost use Rattle.std.specs.Prelude.{◌≡◌, ◌≤◌, ◌<◌, length, map, take, IfOk};
ghost use Rattle.httparse.specs.Spans.{IsResponseWithin, IsResponseOf};
ghost use Rattle.http_wire.specs.Head.{header_at};
ghost use Rattle.hub_link.specs.Chunked as spec;
ghost use Rattle.hub_link.specs.Chunked.{IsCoded};
ghost use Rattle.hub_link.specs.Replies.{IsReply};

use crate::chunked::chunked_data;
use crate::codings::{Coding, coding_said, may_have_chunks};
use crate::replies::{Front, find_front, length_said};
use http_wire::heads::HEADER_LIMIT;
use httparse::spans::{EMPTY_HEADER_SPAN, HeaderSpan, ResponseSpans};
use hub_kit::bytes::Bytes;
use std::alloc::{AllocError, Global};

/// What bytes are to who reads a reply by its length.
#[derive(Drop)]
pub enum Coded {
    /// No coding is said: they are read as they stand.
    Plain,
    /// A reply in chunks, as the same reply by its length.
    Chunks(Bytes),
    /// A coding other than `chunked` alone is said, or a length beside it, or no whole chunked body follows.
    Refused,
}

/// A reply of a status and a body, by its length.
fn by_length(alloc: Global, status: u16, body: &[u8]) -> Result<Bytes, AllocError>
    requires least { 100 ≤ status }
    requires most { status < 1000 }
    ensures { IfOk result (λ text. IsReply text status body.now) }
{
    let size = body.len();
    let code = format!(in alloc; "{status}")?;
    let digits = format!(in alloc; "{size}")?;
    let mut text = Bytes::new(alloc);
    text.push_all(b"HTTP/1.1 ")?;
    text.push_all(code.as_bytes())?;
    text.push_all(b"\r\nContent-Length: ")?;
    text.push_all(digits.as_bytes())?;
    text.push_all(b"\r\n\r\n")?;
    text.push_all(body)?;
    Ok(text)
}

/// What bytes are whose head says `chunked` alone.
fn in_chunks(
    alloc: Global,
    bytes: &[u8],
    spans: &[HeaderSpan],
    r: ResponseSpans,
) -> Result<Coded, AllocError>
    requires within { IsResponseWithin bytes.now spans.now r }
    requires head { IsResponseOf bytes.now spans.now r }
    requires room { length spans.now ≡ 64 }
    requires coded { spec.coding_said (map (header_at bytes.now) (take r.headers spans.now)) ≡ Coding.Chunked }
    ensures { IfOk result (IsCoded bytes.now) }
{
    let said = length_said(bytes, &spans[..r.headers]);
    if !may_have_chunks(r.code, r.version, said) {
        return Ok(Coded::Refused);
    }
    match chunked_data(alloc, &bytes[r.len..])? {
        Some(body) => Ok(Coded::Chunks(by_length(alloc, r.code, body.as_slice())?)),
        None => Ok(Coded::Refused),
    }
}

/// What bytes are whose head stands in front.
fn by_head(
    alloc: Global,
    bytes: &[u8],
    spans: &[HeaderSpan],
    r: ResponseSpans,
) -> Result<Coded, AllocError>
    requires within { IsResponseWithin bytes.now spans.now r }
    requires head { IsResponseOf bytes.now spans.now r }
    requires room { length spans.now ≡ 64 }
    ensures { IfOk result (IsCoded bytes.now) }
{
    match coding_said(bytes, &spans[..r.headers]) {
        Coding::Nothing => Ok(Coded::Plain),
        Coding::Chunked => in_chunks(alloc, bytes, spans, r),
        Coding::Other => Ok(Coded::Refused),
    }
}

/// What bytes are to who reads a reply by its length. They stay as they stand where no coding is said. A reply in chunks is the same reply
/// by its length: of HTTP/1.1, with a status from 100 on, without a length, and with one whole chunked body and nothing behind it. All else
/// that says a coding is refused. A head has at most 64 headers, and a size line and a trailer each have at most 16,384 bytes.
pub fn uncode(alloc: Global, bytes: &[u8]) -> Result<Coded, AllocError>
    ensures { IfOk result (IsCoded bytes.now) }
{
    let mut spans = [EMPTY_HEADER_SPAN; HEADER_LIMIT];
    match find_front(bytes, &mut spans) {
        Front::Whole(r) => by_head(alloc, bytes, &spans, r),
        Front::Other => Ok(Coded::Plain),
    }
}
