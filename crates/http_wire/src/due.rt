//! What a head says of the body behind it and of the revision that its sender has seen.
ghost use Rattle.std.specs.Prelude.{◌≡◌, ◌≤◌, ℕ, List, IfOk};
ghost use Rattle.http_wire.specs.Due as spec;
ghost use Rattle.http_wire.specs.Fields.{values_of};

use crate::decimal::{Decimal, number_in};
use crate::error::WireError;
use crate::fields::{first_named, is_named};
use crate::head::{Head, Header};

/// How many bytes a body may have.
pub const BODY_LIMIT: u64 = 1_048_576;

/// The name of the header that says the length of the body.
const CONTENT_LENGTH: &[u8] = b"content-length";

/// The name of the header that says which revision the sender has seen.
const SEEN: &[u8] = b"x-hub-seen";

/// The name of the header that says how a body is coded.
const TRANSFER_ENCODING: &[u8] = b"transfer-encoding";

/// The number that the headers of a name say; two of them are no number.
fn number_said(headers: &[Header], name: &[u8]) -> Option<Decimal>
    ensures { result ≡ spec.number_said (values_of name.now headers.now) }
{
    let (value, rest) = first_named(headers, name)?;
    match first_named(rest, name) {
        None => Some(number_in(value)),
        Some(_) => Some(Decimal::Other),
    }
}

/// The length of the body, which is `None` where no `Content-Length` stands. `BadHead` says that it isn't one decimal
/// number, and `TooLarge` with the greatest `u64` that the number passes a `u64`.
pub fn body_length(head: &Head) -> Result<Option<u64>, WireError>
    ensures { result ≡ spec.as_length (spec.length_said head.now.headers) }
{
    match number_said(head.headers.as_slice(), CONTENT_LENGTH) {
        None => Ok(None),
        Some(Decimal::Number(n)) => Ok(Some(n)),
        Some(Decimal::Past) => Err(WireError::TooLarge(u64::MAX)),
        Some(Decimal::Other) => Err(WireError::BadHead),
    }
}

/// The revision that the sender has seen.
pub(crate) fn seen_of(head: &Head) -> Option<u64>
    ensures { result ≡ spec.as_seen (spec.seen_said head.now.headers) }
{
    match number_said(head.headers.as_slice(), SEEN) {
        Some(Decimal::Number(n)) => Some(n),
        _ => None,
    }
}

/// Whether a `Transfer-Encoding` stands in the head.
fn has_coding(headers: &[Header]) -> bool
    ensures { result ≡ spec.has_coding headers.now }
{
    headers
        .iter()
        .any(|header| is_named(header, TRANSFER_ENCODING))
}

/// The length that is due, or the first refusal that applies.
fn due(length: Option<Decimal>, seen: Option<Decimal>, coding: bool) -> Result<u64, WireError>
    ensures { result ≡ spec.due length seen coding }
{
    match (length, seen) {
        (Some(Decimal::Other), _) => Err(WireError::BadHead),
        (_, Some(Decimal::Other)) => Err(WireError::BadHead),
        (_, Some(Decimal::Past)) => Err(WireError::BadHead),
        (_, _) if coding => Err(WireError::Coding),
        (Some(Decimal::Past), _) => Err(WireError::TooLarge(u64::MAX)),
        (Some(Decimal::Number(n)), _) if n <= BODY_LIMIT => Ok(n),
        (Some(Decimal::Number(n)), _) => Err(WireError::TooLarge(n)),
        (None, _) => Ok(0),
    }
}

/// How many bytes follow the head, or why it is refused: a length or a revision that is no number, then a coding, then
/// a body past the limit.
pub(crate) fn body_due(head: &Head) -> Result<u64, WireError>
    ensures { result ≡ spec.body_due head.now.headers }
{
    let headers = head.headers.as_slice();
    due(
        number_said(headers, CONTENT_LENGTH),
        number_said(headers, SEEN),
        has_coding(headers),
    )
}
