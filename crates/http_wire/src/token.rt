//! The token of a request.
ghost use Rattle.std.specs.Prelude.{◌≡◌, if◌then◌else◌};
ghost use Rattle.std.specs.Option.{option_copied};
ghost use Rattle.std.specs.Str.{is_utf8};
ghost use Rattle.http_wire.specs.Token as spec;
ghost use Rattle.http_wire.specs.Words.{words};

use crate::fields::first_named;
use crate::head::Head;
use crate::words::next_word;

/// The name of the header that has the token.
const AUTHORIZATION: &[u8] = b"authorization";

/// Whether the word is `token` or `Bearer`, without regard to ASCII case.
fn is_scheme(word: &[u8]) -> bool
    ensures { result ≡ spec.is_scheme word.now }
{
    word.eq_ignore_ascii_case(b"token") || word.eq_ignore_ascii_case(b"Bearer")
}

/// The bytes as text, where they are UTF-8.
fn text_in(bytes: &[u8]) -> Option<&str>
    ensures { option_copied result ≡ (if is_utf8 bytes.now then Some bytes.now else None) }
{
    match str::from_utf8(bytes) {
        Ok(text) => Some(text),
        Err(_) => None,
    }
}

/// The second of two words behind a scheme, where it is UTF-8.
fn token_in(value: &[u8]) -> Option<&str>
    ensures { option_copied result ≡ spec.token_in (words value.now) }
{
    let (scheme, rest) = next_word(value)?;
    let (token, rest) = next_word(rest)?;
    match next_word(rest) {
        Some(_) => None,
        None if is_scheme(scheme) => text_in(token),
        None => None,
    }
}

/// The token as text.
pub(crate) fn token_text(head: &Head) -> Option<&str>
    ensures { option_copied result ≡ spec.token_of head.now.headers }
{
    let (value, rest) = first_named(head.headers.as_slice(), AUTHORIZATION)?;
    match first_named(rest, AUTHORIZATION) {
        None => token_in(value),
        Some(_) => None,
    }
}

/// The token, where there is exactly one `Authorization` header, its value has two words, cut at spaces and tabs, the
/// first is `token` or `Bearer` without regard to ASCII case, and the second is UTF-8. Takes no memory.
pub fn token_of(head: &Head) -> Option<&[u8]>
    ensures { option_copied result ≡ spec.token_of head.now.headers }
{
    match token_text(head) {
        Some(token) => Some(token.as_bytes()),
        None => None,
    }
}
