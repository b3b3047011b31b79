//! Requests that ask for another protocol.
ghost use Rattle.std.specs.Prelude.{◌≡◌, ◌<◌, List, [], ◌∷◌, length, MatchOption, IfSome, position};
ghost use Rattle.http_wire.specs.Fields as fields;
ghost use Rattle.proxy_wire.specs.Upgrades as spec;

use crate::framing::Framing;
use crate::heads::{CONNECTION, UPGRADE};
use http_wire::head::{Head, Header};

const GET: &[u8] = b"GET";

fn is_named(header: &Header, name: &[u8]) -> bool
    ensures { result ≡ fields.is_named name.now header.now }
{
    header.name.as_bytes().eq_ignore_ascii_case(name)
}

/// Whether words end here.
fn is_cut(b: u8) -> bool
    ensures { result ≡ spec.is_cut b }
{
    b == b',' || b == b' ' || b == b'\t'
}

/// Where the first word ends.
fn first_cut(bytes: &[u8]) -> Option<usize>
    ensures value { result ≡ position spec.is_cut bytes.now }
    ensures within { IfSome result (λ i. i < length bytes.now) }
{
    bytes.iter().position(|b| is_cut(*b))
}

/// The first word, and the bytes behind it.
fn next_word(bytes: &[u8]) -> (&[u8], Option<&[u8]>)
    ensures words { MatchOption result.1 (spec.words bytes.now ≡ result.0.now ∷ [])
        (λ rest. spec.words bytes.now ≡ result.0.now ∷ spec.words rest.now) }
    ensures shorter { IfSome result.1 (λ rest. length rest.now < length bytes.now) }
{
    match first_cut(bytes) {
        Some(end) => (&bytes[..end], Some(&bytes[end + 1..])),
        None => (bytes, None),
    }
}

/// Whether `upgrade` is among the words, without regard to ASCII case.
fn names_upgrade(value: &[u8]) -> bool
    ensures { result ≡ spec.names_upgrade value.now }
{
    let mut rest = value;
    'words: loop {
        let (word, more) = next_word(rest);
        if word.eq_ignore_ascii_case(UPGRADE) {
            return true;
        }
        match more {
            Some(bytes) => rest = bytes,
            None => return false,
        }
    }
}

fn says_upgrade(headers: &[Header]) -> bool
    ensures { result ≡ spec.says_upgrade headers.now }
{
    headers.iter().any(|header| is_named(header, CONNECTION)
        && names_upgrade(header.value.as_slice()))
}

fn has_protocol(headers: &[Header]) -> bool
    ensures { result ≡ spec.has_protocol headers.now }
{
    headers.iter().any(|header| is_named(header, UPGRADE))
}

fn is_empty(framing: Framing) -> bool
    ensures { result ≡ spec.is_empty framing }
{
    match framing {
        Framing::Length(count) => count == 0,
        Framing::Chunked => false,
        Framing::ToEnd => false,
    }
}

/// Whether a request asks for another protocol: a GET of HTTP/1.1 without a body that has an `Upgrade` header, and `upgrade` among the
/// words of `Connection`.
pub fn is_upgrade(head: &Head, framing: Framing) -> bool
    ensures { result ≡ spec.is_upgrade head.now framing }
{
    head.method.as_bytes() == GET
        && head.minor == 1
        && is_empty(framing)
        && has_protocol(head.headers.as_slice())
        && says_upgrade(head.headers.as_slice())
}
