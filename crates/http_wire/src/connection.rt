//! What a request's headers ask of the connection and of the reply.
ghost use Rattle.std.specs.Prelude.{◌≡◌};
ghost use Rattle.http_wire.specs.Connection as spec;
ghost use Rattle.http_wire.specs.Words.{words};

use crate::fields::is_named;
use crate::head::{Head, Header};
use crate::words::{next_part, next_word};

/// The name of the header that says whether the connection closes.
const CONNECTION: &[u8] = b"connection";

/// The name of the header that says what replies are wanted.
const ACCEPT: &[u8] = b"accept";

/// The value by which pages are wanted.
const PAGES: &[u8] = b"application/jupyterhub-pagination+json";

/// Whether the only word is `close`.
fn is_close(part: &[u8]) -> bool
    ensures { result ≡ spec.is_close (words part.now) }
{
    match next_word(part) {
        None => false,
        Some((word, rest)) => match next_word(rest) {
            None => word.eq_ignore_ascii_case(b"close"),
            Some(_) => false,
        },
    }
}

/// Whether `close` stands between the commas.
fn asks_close(value: &[u8]) -> bool
    ensures { result ≡ spec.asks_close value.now }
{
    let mut rest = value;
    'parts: loop {
        let (part, more) = next_part(rest);
        if is_close(part) {
            return true;
        }
        match more {
            Some(bytes) => rest = bytes,
            None => return false,
        }
    }
}

/// Whether a `Connection` header asks for the close.
fn says_close(headers: &[Header]) -> bool
    ensures { result ≡ spec.says_close headers.now }
{
    headers.iter().any(|header| is_named(header, CONNECTION) && asks_close(header.value.as_slice()))
}

/// Whether the connection closes after the reply.
pub(crate) fn closes(head: &Head) -> bool
    ensures { result ≡ spec.closes head.now.minor head.now.headers }
{
    head.minor == 0 || says_close(head.headers.as_slice())
}

/// Whether pages are asked for.
pub(crate) fn asks_pages(head: &Head) -> bool
    ensures { result ≡ spec.asks_pages head.now.headers }
{
    head.headers.as_slice().iter().any(|header| is_named(header, ACCEPT)
        && header.value.as_slice() == PAGES)
}
