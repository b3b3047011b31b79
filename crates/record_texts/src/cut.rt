//! What is written for a value, cut off the front of a text. Each knows the value as it is written where nothing needs an escape, and gives
//! up on all else, so that who asks has to read the text another way then.
ghost use Rattle.std.specs.Prelude.{◌≡◌, ◌+◌, ◌<◌, ◌++◌, length, get_or, position, IfSome};
ghost use Rattle.std.specs.Option.{option_copied};
ghost use Rattle.json.specs.Run as run;
ghost use Rattle.serde_json.specs.Data.{boolean, string};
ghost use Rattle.serde_json.specs.Written.{comma_if, compact_text};
ghost use Rattle.scope_filters.specs.Scopes.{scope_text};
ghost use Rattle.key_texts.specs.KeyTexts.{owner_text, server_text, IsOwner, IsServer, IsScope};
ghost use Rattle.record_texts.specs.Fields.{whole, maybe, IfThere, IsMoment, IsWord};

use hub_kit::moment::Moment;
use hub_kit::names::{self, ServerKey};
use scope_filters::holder::Owner;
use scope_filters::scope::{RawScope, read_scope};

/// What stands behind a word.
pub(crate) fn after<'a>(text: &'a [u8], word: &[u8]) -> Option<&'a [u8]>
    ensures { IfSome result (λ rest. text.now ≡ word.now ++ rest.now) }
{
    text.strip_prefix(word)
}

pub(crate) fn cut_bool(text: &[u8]) -> Option<(bool, &[u8])>
    ensures { IfSome result (λ cut. text.now ≡ compact_text (boolean cut.0) ++ cut.1.now) }
{
    if let Some(rest) = after(text, b"false") {
        return Some((false, rest));
    }
    let rest = after(text, b"true")?;
    Some((true, rest))
}

/// The digit at a place.
fn digit_at(text: &[u8], at: usize) -> Option<u64>
    ensures { IfSome result (λ digit. (at < length text.now) × (digit < 10) × (get_or text.now at 0 ≡ 48 + digit)) }
{
    if at < text.len() && matches!(text[at], b'0'..=b'9') {
        Some((text[at] - b'0') as u64)
    } else {
        None
    }
}

/// A number in decimal, of at most 19 digits.
pub(crate) fn cut_number(text: &[u8]) -> Option<(u64, &[u8])>
    ensures { IfSome result (λ cut. text.now ≡ compact_text (whole cut.0) ++ cut.1.now) }
{
    let mut number = digit_at(text, 0)?;
    let mut at = 1;
    if number == 0 {
        return Some((0, &text[1..]));
    }
    'digits: while let Some(digit) = digit_at(text, at) {
        if number >= 1_000_000_000_000_000_000 {
            return None;
        }
        number = number * 10 + digit;
        at += 1;
    }
    Some((number, &text[at..]))
}

/// A number that is all of a text.
pub(crate) fn whole_number(text: &[u8]) -> Option<u64>
    ensures { IfSome result (λ number. (text.now ≡ compact_text (whole number)) × IsWord number) }
{
    let Some((number, rest)) = cut_number(text) else {
        return None;
    };
    if rest.is_empty() { Some(number) } else { None }
}

/// The moment of a number of seconds.
pub(crate) fn moment_of(seconds: u64) -> Option<Moment>
    ensures { IfSome result (λ moment. (moment ≡ seconds) × IsMoment moment) }
{
    Moment::from_seconds(seconds)
}

/// A moment, or null.
pub(crate) fn cut_maybe_moment(text: &[u8]) -> Option<(Option<Moment>, &[u8])>
    ensures { IfSome result (λ cut. (text.now ≡ compact_text (maybe whole cut.0) ++ cut.1.now) × IfThere IsMoment cut.0) }
{
    if let Some(rest) = after(text, b"null") {
        return Some((None, rest));
    }
    let (number, rest) = cut_number(text)?;
    let moment = moment_of(number)?;
    Some((Some(moment), rest))
}

/// Whether a byte ends the plain text of a string.
fn is_stop(byte: u8) -> bool
    ensures { result ≡ run.is_stop byte }
{
    byte == b'"' || byte == b'\\' || byte < b' '
}

/// Where the plain text of a string ends.
fn first_stop(text: &[u8]) -> Option<usize>
    ensures value { result ≡ position run.is_stop text.now }
    ensures within { IfSome result (λ end. end < length text.now) }
{
    text.iter().position(|byte| is_stop(*byte))
}

pub(crate) fn cut_string(text: &[u8]) -> Option<(&str, &[u8])>
    ensures { IfSome result (λ cut. text.now ≡ compact_text (string cut.0.now) ++ cut.1.now) }
{
    let inside = after(text, b"\"")?;
    let end = first_stop(inside)?;
    if inside[end] != b'"' {
        return None;
    }
    match std::str::from_utf8(&inside[..end]) {
        Ok(written) => Some((written, &inside[end + 1..])),
        Err(_) => None,
    }
}

/// A string, or null.
pub(crate) fn cut_maybe_string(text: &[u8]) -> Option<(Option<&str>, &[u8])>
    ensures { IfSome result (λ cut. text.now ≡ compact_text (maybe (λ written. string written) (option_copied cut.0)) ++ cut.1.now) }
{
    if let Some(rest) = after(text, b"null") {
        return Some((None, rest));
    }
    let Some((written, rest)) = cut_string(text) else {
        return None;
    };
    Some((Some(written), rest))
}

fn owner_of(text: &[u8]) -> Option<Owner>
    ensures { IfSome result (λ owner. (text.now ≡ owner_text owner) × IsOwner owner) }
{
    if let Some(name) = after(text, b"user:") {
        return match names::read_user(name) {
            Ok(user) => Some(Owner::User(user)),
            Err(_) => None,
        };
    }
    let name = after(text, b"service:")?;
    match names::read_service(name) {
        Ok(service) => Some(Owner::Service(service)),
        Err(_) => None,
    }
}

pub(crate) fn cut_owner(text: &[u8]) -> Option<(Owner, &[u8])>
    ensures { IfSome result (λ cut. (text.now ≡ compact_text (string (owner_text cut.0)) ++ cut.1.now) × IsOwner cut.0) }
{
    let Some((written, rest)) = cut_string(text) else {
        return None;
    };
    let owner = owner_of(written.as_bytes())?;
    Some((owner, rest))
}

/// The server of a text, whose parts are names.
pub(crate) fn key_of(text: &[u8]) -> Option<ServerKey>
    ensures { IfSome result (λ key. (text.now ≡ server_text key) × IsServer key) }
{
    match names::read_key(text) {
        Ok(key) => {
            let _user = key.user.as_str();
            let _server = key.server.as_str();
            Some(key)
        }
        Err(_) => None,
    }
}

/// A server, or null.
pub(crate) fn cut_maybe_server(text: &[u8]) -> Option<(Option<ServerKey>, &[u8])>
    ensures { IfSome result (λ cut. (text.now ≡ compact_text (maybe (λ key. string (server_text key)) cut.0) ++ cut.1.now)
        × IfThere IsServer cut.0) }
{
    if let Some(rest) = after(text, b"null") {
        return Some((None, rest));
    }
    let Some((written, rest)) = cut_string(text) else {
        return None;
    };
    let key = key_of(written.as_bytes())?;
    Some((Some(key), rest))
}

/// What stands behind the comma before an item, which the first one of a list doesn't have.
fn after_comma(text: &[u8], later: bool) -> Option<&[u8]>
    ensures { IfSome result (λ rest. text.now ≡ comma_if later ++ rest.now) }
{
    if later { after(text, b",") } else { Some(text) }
}

/// A scope of a list, with the comma before it where it isn't the first one.
pub(crate) fn cut_scope(text: &[u8], later: bool) -> Option<(RawScope, &[u8])>
    ensures cut { IfSome result (λ cut. (text.now ≡ comma_if later ++ (compact_text (string (scope_text cut.0)) ++ cut.1.now))
        × IsScope cut.0) }
    ensures shorter { IfSome result (λ cut. length cut.1.now < length text.now) }
{
    let item = after_comma(text, later)?;
    let Some((written, rest)) = cut_string(item) else {
        return None;
    };
    match read_scope(written) {
        Ok(scope) => Some((scope, rest)),
        Err(_) => None,
    }
}
