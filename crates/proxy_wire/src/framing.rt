//! How long the body behind a head is.
ghost use Rattle.std.specs.Prelude.{◌≡◌, ◌≢◌, List, ℕ, take, map, IfOk};
ghost use Rattle.httparse.specs.Spans.{IsResponseWithin};
ghost use Rattle.http_wire.specs.Head.{header_at};
ghost use Rattle.proxy_wire.specs.Framing as spec;
ghost use Rattle.proxy_wire.specs.Framing.{IsGiven};

use crate::given::{Given, given_at, given_in, number_given};
use http_wire::decimal::Decimal;
use http_wire::due::body_length;
use http_wire::error::WireError;
use http_wire::head::Head;
use httparse::spans::{HeaderSpan, ResponseSpans};

const CONTENT_LENGTH: &[u8] = b"content-length";

const TRANSFER_ENCODING: &[u8] = b"transfer-encoding";

const CHUNKED: &[u8] = b"chunked";

const HEAD: &[u8] = b"HEAD";

/// How long a body is: so many bytes, as many as its chunks have, or all to the end of the connection.
#[derive(Clone, Copy, Debug, PartialEq, Eq)]
pub enum Framing {
    Length(u64),
    Chunked,
    ToEnd,
}

fn is_chunked(coding: &[u8]) -> bool
    ensures { result ≡ spec.is_chunked coding.now }
{
    coding.eq_ignore_ascii_case(CHUNKED)
}

/// What a reply's length says where no coding stands. `None` says that the head counts as none.
fn sized(length: Option<Decimal>) -> Option<Framing>
    ensures { result ≡ spec.sized length }
{
    match length {
        None => Some(Framing::ToEnd),
        Some(Decimal::Number(n)) => Some(Framing::Length(n)),
        Some(Decimal::Past) => None,
        Some(Decimal::Other) => None,
    }
}

/// What a reply's one coding says.
fn coded(coding: &[u8]) -> Framing
    ensures { result ≡ spec.coded coding.now }
{
    if is_chunked(coding) {
        Framing::Chunked
    } else {
        Framing::ToEnd
    }
}

/// What a length and the codings of a reply's head say.
fn reply_framing(length: Option<Decimal>, codings: Given) -> Option<Framing>
    ensures { (values : List (List ℕ)) → IsGiven values codings.entry → result ≡ spec.reply_framing length values }
{
    match codings {
        Given::Nothing => sized(length),
        Given::One(coding) => match length {
            None => Some(coded(coding)),
            Some(_) => None,
        },
        Given::Several => match length {
            None => Some(Framing::ToEnd),
            Some(_) => None,
        },
    }
}

fn has_no_body(method: &[u8], status: u16) -> bool
    ensures { result ≡ spec.has_no_body method.now status }
{
    method == HEAD || status == 204 || status == 304
}

/// How long the body of a reply to a request of that method is. `None` says that its head counts as none.
pub(crate) fn framing_at(
    method: &[u8],
    bytes: &[u8],
    spans: &[HeaderSpan],
    r: ResponseSpans,
) -> Option<Framing>
    requires { IsResponseWithin bytes.now spans.now r }
    ensures { result ≡ spec.headers_framing method.now r.code (map (header_at bytes.now) (take r.headers spans.now)) }
{
    let spans = &spans[..r.headers];
    let length = number_given(given_at(bytes, spans, CONTENT_LENGTH));
    let found = reply_framing(length, given_at(bytes, spans, TRANSFER_ENCODING))?;
    if has_no_body(method, r.code) {
        return Some(Framing::Length(0));
    }
    Some(found)
}

/// What a request's one coding says.
fn coding_of(coding: &[u8]) -> Result<Framing, WireError>
    ensures sized { IfOk result (λ f. f ≢ Framing.ToEnd) }
    ensures coding { result ≡ spec.coding_of coding.now }
{
    if is_chunked(coding) {
        Ok(Framing::Chunked)
    } else {
        Err(WireError::Coding)
    }
}

/// What a request's length says where no coding stands.
fn length_of(length: Option<u64>) -> Framing
    ensures sized { result ≢ Framing.ToEnd }
    ensures length { result ≡ spec.length_of length }
{
    match length {
        None => Framing::Length(0),
        Some(n) => Framing::Length(n),
    }
}

/// What a length and the codings of a request's head say.
fn framing_given(
    length: Result<Option<u64>, WireError>,
    codings: Given,
) -> Result<Framing, WireError>
    ensures sized { IfOk result (λ f. f ≢ Framing.ToEnd) }
    ensures framing { (values : List (List ℕ)) → IsGiven values codings.entry → result ≡ spec.framing_said length values }
{
    match codings {
        Given::Nothing => match length {
            Ok(length) => Ok(length_of(length)),
            Err(e) => Err(e),
        },
        Given::One(coding) => match length {
            Ok(None) => coding_of(coding),
            _ => Err(WireError::BadHead),
        },
        Given::Several => match length {
            Ok(None) => Err(WireError::Coding),
            _ => Err(WireError::BadHead),
        },
    }
}

/// How long a request's body is, or why the request is refused: a length beside a coding, or one that is no decimal number
/// (`BadHead`), a length past a `u64` (`TooLarge`), or a coding that isn't `chunked` alone.
pub fn request_framing(head: &Head) -> Result<Framing, WireError>
    ensures sized { IfOk result (λ f. f ≢ Framing.ToEnd) }
    ensures framing { result ≡ spec.request_framing head.now.headers }
{
    let codings = given_in(head.headers.as_slice(), TRANSFER_ENCODING);
    framing_given(body_length(head), codings)
}
