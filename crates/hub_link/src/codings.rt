//! What a head says of how its body is coded.
ghost use Rattle.std.specs.Prelude.{◌≡◌, ◌∷◌, ◌++◌, [], ℕ, List, length, map, All, Option};
ghost use Rattle.httparse.specs.Spans.{IsHeaderWithin};
ghost use Rattle.http_wire.specs.declared.head.Header.{Header};
ghost use Rattle.http_wire.specs.Head.{header_at};
ghost use Rattle.std.specs.Prelude.{codes};
ghost use Rattle.std.specs.Str.{str_eq_ignore_ascii_case};
ghost use Rattle.hub_link.specs.Chunked.{coding_of};
ghost use Rattle.hub_link.specs.Chunked as spec;

use http_wire::decimal::Decimal;
use httparse::spans::HeaderSpan;

const TRANSFER_ENCODING: &[u8] = b"transfer-encoding";

const CHUNKED: &[u8] = b"chunked";

/// What the `Transfer-Encoding` headers of a head say: nothing, `chunked` alone, or another thing.
#[derive(Clone, Copy, Debug, PartialEq, Eq)]
pub(crate) enum Coding {
    Nothing,
    Chunked,
    Other,
}

fn is_chunked(value: &[u8]) -> bool
    ensures { result ≡ spec.is_chunked value.now }
{
    value.eq_ignore_ascii_case(CHUNKED)
}

fn is_coding_name(name: &[u8]) -> bool
    ensures { result ≡ str_eq_ignore_ascii_case name.now (codes "transfer-encoding") }
{
    name.eq_ignore_ascii_case(TRANSFER_ENCODING)
}

/// What one value alone says.
fn coding_in(value: &[u8]) -> Coding
    ensures { result ≡ coding_of (value.now ∷ []) }
{
    if is_chunked(value) {
        Coding::Chunked
    } else {
        Coding::Other
    }
}

/// What one value more makes of what the values say.
fn with_value(said: Coding, value: &[u8]) -> Coding
    ensures { (values : List (List ℕ)) → said ≡ coding_of values → result ≡ coding_of (values ++ value.now ∷ []) }
{
    match said {
        Coding::Nothing => coding_in(value),
        Coding::Chunked => Coding::Other,
        Coding::Other => Coding::Other,
    }
}

/// What one header more makes of what the headers say.
fn with_header(said: Coding, name: &[u8], value: &[u8]) -> Coding
    ensures { (headers : List Header) → said ≡ spec.coding_said headers
        → result ≡ spec.coding_said (headers ++ record { name = name.now; value = value.now } ∷ []) }
{
    if is_coding_name(name) {
        with_value(said, value)
    } else {
        said
    }
}

/// What the `Transfer-Encoding` headers say.
pub(crate) fn coding_said(bytes: &[u8], spans: &[HeaderSpan]) -> Coding
    requires { All (IsHeaderWithin (length bytes.now)) spans.now }
    ensures { result ≡ spec.coding_said (map (header_at bytes.now) spans.now) }
{
    let mut said = Coding::Nothing;
    'all: for span in spans {
        said = with_header(said, span.name.of(bytes), span.value.of(bytes));
    }
    said
}

/// Whether a body in chunks may stand behind a head: HTTP/1.0 has none, and a length beside them may be a trap.
pub(crate) fn may_have_chunks(status: u16, minor: u8, said: Option<Decimal>) -> bool
    ensures { result ≡ spec.may_have_chunks status minor said }
{
    match said {
        None => status >= 100 && minor == 1,
        Some(_) => false,
    }
}
