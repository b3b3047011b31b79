//! One reply that is whole.
ghost use Rattle.std.specs.Prelude.{◌≡◌, ◌++◌, ◌∷◌, [], List, ℕ, map, length, IsTrue, ◌↔◌, IfSome, IfNone, All, None, Some, true, codes};
ghost use Rattle.std.specs.Str.{str_eq_ignore_ascii_case};
ghost use Rattle.httparse.specs.Spans.{IsHeaderWithin};
ghost use Rattle.http_wire.specs.declared.decimal.Decimal.TheVariants.{Number};
ghost use Rattle.http_wire.specs.declared.head.Header.{Header};
ghost use Rattle.http_wire.specs.Due.{number_said};
ghost use Rattle.http_wire.specs.Due as due;
ghost use Rattle.http_wire.specs.Head.{header_at};
ghost use Rattle.hub_link.specs.Replies.{IsReply, IsNoReply, IsFront, IsLength, HasCome};

use http_wire::decimal::{Decimal, number_in};
use http_wire::heads::HEADER_LIMIT;
use httparse::Status;
use httparse::spans::{EMPTY_HEADER_SPAN, HeaderSpan, ResponseSpans, parse_response};

const CONTENT_LENGTH: &[u8] = b"content-length";

/// A whole head, or none of at most 64 headers.
#[derive(Clone, Copy)]
pub(crate) enum Front {
    Whole(ResponseSpans),
    Other,
}

/// Looks for a head with at most 64 headers.
pub(crate) fn find_front(bytes: &[u8], spans: &mut [HeaderSpan]) -> Front
    requires { length spans.old ≡ 64 }
    ensures front { IsFront bytes.now spans.new result }
    ensures room { length spans.new ≡ 64 }
{
    match parse_response(bytes, spans) {
        Ok(Status::Complete(head)) => Front::Whole(head),
        Ok(Status::Partial) => Front::Other,
        Err(_) => Front::Other,
    }
}

/// What one value more makes of the number that the values say.
fn with_value(said: Option<Decimal>, value: &[u8]) -> Option<Decimal>
    ensures { (values : List (List ℕ)) → said ≡ number_said values → result ≡ number_said (values ++ value.now ∷ []) }
{
    match said {
        None => Some(number_in(value)),
        Some(_) => Some(Decimal::Other),
    }
}

fn is_content_length(name: &[u8]) -> bool
    ensures { result ≡ str_eq_ignore_ascii_case name.now (codes "content-length") }
{
    name.eq_ignore_ascii_case(CONTENT_LENGTH)
}

/// What one header more makes of the length that the headers say.
fn with_header(said: Option<Decimal>, name: &[u8], value: &[u8]) -> Option<Decimal>
    ensures { (headers : List Header) → said ≡ due.length_said headers
        → result ≡ due.length_said (headers ++ record { name = name.now; value = value.now } ∷ []) }
{
    if is_content_length(name) {
        with_value(said, value)
    } else {
        said
    }
}

/// What the `Content-Length` headers say.
pub(crate) fn length_said(bytes: &[u8], spans: &[HeaderSpan]) -> Option<Decimal>
    requires { All (IsHeaderWithin (length bytes.now)) spans.now }
    ensures { result ≡ due.length_said (map (header_at bytes.now) spans.now) }
{
    let mut said = None;
    'all: for span in spans {
        said = with_header(said, span.name.of(bytes), span.value.of(bytes));
    }
    said
}

/// Whether the bytes are as many as is said.
fn is_length(said: Option<Decimal>, body: &[u8]) -> bool
    ensures { IsTrue result ↔ IsLength said body.now }
{
    match said {
        None => body.is_empty(),
        Some(Decimal::Number(n)) => n == body.len() as u64,
        Some(Decimal::Past) => false,
        Some(Decimal::Other) => false,
    }
}

/// The status and the body of a reply, exactly where the bytes are one: a head of at most 64 headers, and behind it exactly as
/// many bytes as its one decimal `Content-Length` says, or none where it has none. Takes no memory.
pub fn read_reply(bytes: &[u8]) -> Option<(u16, &[u8])>
    ensures some { IfSome result (λ reply. IsReply bytes.now reply.0 reply.1.now) }
    ensures none { IfNone result (IsNoReply bytes.now) }
{
    let mut spans = [EMPTY_HEADER_SPAN; HEADER_LIMIT];
    match find_front(bytes, &mut spans) {
        Front::Whole(r) => {
            let body = &bytes[r.len..];
            if is_length(length_said(bytes, &spans[..r.headers]), body) {
                Some((r.code, body))
            } else {
                None
            }
        }
        Front::Other => None,
    }
}

/// Whether it is said that the bytes are as many as they are.
fn is_said(said: Option<Decimal>, body: &[u8]) -> bool
    ensures { result ≡ true → said ≡ Some (Number (length body.now)) }
{
    match said {
        Some(Decimal::Number(n)) => n == body.len() as u64,
        _ => false,
    }
}

/// Whether the bytes are a whole reply by the length that it says, so that none of it is still to come. It is false of one that says no
/// length, whose body ends where the connection does.
pub fn has_come(bytes: &[u8]) -> bool
    ensures { result ≡ true → HasCome bytes.now }
{
    let mut spans = [EMPTY_HEADER_SPAN; HEADER_LIMIT];
    match find_front(bytes, &mut spans) {
        Front::Whole(r) => {
            let said = length_said(bytes, &spans[..r.headers]);
            is_said(said, &bytes[r.len..])
        }
        Front::Other => false,
    }
}
