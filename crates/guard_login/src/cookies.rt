//! The two cookies of a guard, as a browser sends them (RFC 6265, section 4.2).
ghost use Rattle.std.specs.Prelude.{◌≡◌, ◌==◌, ◌&&◌, ◌<◌, true, ◌∷◌, [], codes, length, take, drop, bytes_eq, position, MatchOption};
ghost use Rattle.std.specs.Prelude.{IfSome};
ghost use Rattle.std.specs.List.{list_all};
ghost use Rattle.std.specs.Option.{option_copied};
ghost use Rattle.http_wire.specs.Fields.{is_named};
ghost use Rattle.http_wire.specs.Words.{is_blank};
ghost use Rattle.guard_login.specs.Cookies as spec;

use http_wire::head::Header;

/// The token of a browser that is signed in, or the state of a sign-in with where it goes on.
#[derive(Clone, Copy, Debug, PartialEq, Eq)]
pub enum Cookie {
    Token,
    State,
}

fn is_token_byte(b: u8) -> bool
    ensures { result ≡ spec.is_token_byte b }
{
    33 <= b && b <= 126 && b != b';' && b != b','
}

fn are_token_bytes(value: &[u8]) -> bool
    ensures { result ≡ list_all spec.is_token_byte value.now }
{
    value.iter().all(|b| is_token_byte(*b))
}

/// Whether the bytes have the form of a token: 8 to 255 visible ASCII bytes without `;` and `,`.
pub fn is_token(value: &[u8]) -> bool
    ensures { result ≡ spec.is_token value.now }
{
    8 <= value.len() && value.len() <= 255 && are_token_bytes(value)
}

fn is_low_hex(b: u8) -> bool
    ensures { result ≡ spec.is_low_hex b }
{
    (48 <= b && b <= 57) || (97 <= b && b <= 102)
}

fn are_low_hex(value: &[u8]) -> bool
    ensures { result ≡ list_all spec.is_low_hex value.now }
{
    value.iter().all(|b| is_low_hex(*b))
}

fn has_state(value: &[u8]) -> bool
    requires { 32 < length value.now }
    ensures { result ≡ (list_all spec.is_low_hex (take 32 value.now) && bytes_eq (take 1 (drop 32 value.now)) (46 ∷ [])) }
{
    let (state, mark) = (&value[..32], &value[32..33]);
    are_low_hex(state) && mark == b".".as_slice()
}

/// Whether the bytes are 32 digits of lower-case hex, a full stop, and anything.
fn is_state(value: &[u8]) -> bool
    ensures { result ≡ spec.is_state value.now }
{
    if value.len() <= 32 {
        return false;
    }
    has_state(value)
}

fn prefix_of(kind: Cookie) -> &'static [u8]
    ensures { result.now ≡ spec.prefix_of kind }
{
    match kind {
        Cookie::Token => b"hub-guard=",
        Cookie::State => b"hub-guard-state=",
    }
}

fn is_form(kind: Cookie, value: &[u8]) -> bool
    ensures { result ≡ spec.is_form kind value.now }
{
    match kind {
        Cookie::Token => is_token(value),
        Cookie::State => is_state(value),
    }
}

fn is_blank(b: u8) -> bool
    ensures { result ≡ is_blank b }
{
    b == b' ' || b == b'\t'
}

/// The bytes without the blanks in front.
fn unblank(bytes: &[u8]) -> &[u8]
    ensures { result.now ≡ spec.unblank bytes.now }
{
    for (i, b) in bytes.iter().enumerate() {
        if !is_blank(*b) {
            return &bytes[i..];
        }
    }
    &[]
}

/// What stands behind a prefix.
fn value_after<'a>(prefix: &[u8], bytes: &'a [u8]) -> Option<&'a [u8]>
    ensures { option_copied result ≡ spec.value_after prefix.now bytes.now }
{
    bytes.strip_prefix(prefix)
}

/// The value of one cookie, where it has the name and the form.
fn value_in(kind: Cookie, piece: &[u8]) -> Option<&[u8]>
    ensures value { option_copied result ≡ spec.value_in kind piece.now }
    ensures form { IfSome result (λ found. spec.is_form kind found.now ≡ true) }
{
    match value_after(prefix_of(kind), unblank(piece)) {
        Some(value) if is_form(kind, value) => Some(value),
        Some(_) => None,
        None => None,
    }
}

/// Where the first semicolon stands.
fn first_mark(bytes: &[u8]) -> Option<usize>
    ensures value { result ≡ position (λ b. b == 59) bytes.now }
    ensures within { IfSome result (λ at. at < length bytes.now) }
{
    bytes.iter().position(|b| *b == b';')
}

/// The bytes before the first semicolon, and those behind it.
fn next_piece(bytes: &[u8]) -> (&[u8], Option<&[u8]>)
    ensures pieces { MatchOption result.1 (spec.pieces bytes.now ≡ result.0.now ∷ [])
        (λ rest. spec.pieces bytes.now ≡ result.0.now ∷ spec.pieces rest.now) }
    ensures shorter { IfSome result.1 (λ rest. length rest.now < length bytes.now) }
{
    match first_mark(bytes) {
        Some(end) => (&bytes[..end], Some(&bytes[end + 1..])),
        None => (bytes, None),
    }
}

/// The first value of the kind in a header's value.
fn cookie_in(kind: Cookie, value: &[u8]) -> Option<&[u8]>
    ensures value { option_copied result ≡ spec.cookie_in kind (spec.pieces value.now) }
    ensures form { IfSome result (λ found. spec.is_form kind found.now ≡ true) }
{
    let mut rest = value;
    'pieces: loop {
        let (piece, more) = next_piece(rest);
        if let Some(found) = value_in(kind, piece) {
            return Some(found);
        }
        match more {
            Some(behind) => rest = behind,
            None => return None,
        }
    }
}

fn is_cookie_header(header: &Header) -> bool
    ensures { result ≡ is_named (codes "cookie") header.now }
{
    header.name.as_bytes().eq_ignore_ascii_case(b"cookie")
}

/// The first value of the kind in a header.
fn header_cookie(kind: Cookie, header: &Header) -> Option<&[u8]>
    ensures value { option_copied result ≡ spec.header_cookie kind header.now }
    ensures form { IfSome result (λ found. spec.is_form kind found.now ≡ true) }
{
    if is_cookie_header(header) {
        cookie_in(kind, header.value.as_slice())
    } else {
        None
    }
}

/// The value of the first cookie of a kind that has its form.
pub fn cookie_of(kind: Cookie, headers: &[Header]) -> Option<&[u8]>
    ensures value { option_copied result ≡ spec.cookie_of kind headers.now }
    ensures form { IfSome result (λ found. spec.is_form kind found.now ≡ true) }
{
    for (i, header) in headers.iter().enumerate() {
        if let Some(found) = header_cookie(kind, header) {
            return Some(found);
        }
    }
    None
}
