//! The values of a query, and of a body that is a form (URL Standard, 5.1). Of equal keys the first counts.
ghost use Rattle.std.specs.Prelude.{◌≡◌, bytes_eq, Some, None, if◌then◌else◌, IfOk};
ghost use Rattle.request_parts.specs.Queries as spec;

use http_wire::decimal::{Decimal, number_in};
use hub_kit::text::Text;
use std::alloc::{AllocError, Global};

/// The first value of a key in a query.
pub fn query_value(alloc: Global, query: &str, key: &str) -> Result<Option<Text>, AllocError>
    ensures { IfOk result (λ value. value ≡ spec.query_value key.now query.now) }
{
    form_value(alloc, query.as_bytes(), key)
}

/// The first value of a key in a form.
#[tactic(auto, unfolding(crate::specs::Queries::query_value))]
pub fn form_value(alloc: Global, form: &[u8], key: &str) -> Result<Option<Text>, AllocError>
    ensures { IfOk result (λ value. value ≡ spec.query_value key.now form.now) }
{
    for pair in form_urlencoded::parse(alloc, form) {
        let (name, value) = pair?;
        let found = value_under(alloc, key, name.as_str(), value.as_str());
        drop(name);
        drop(value);
        if let Some(text) = found? {
            return Ok(Some(text));
        }
    }
    Ok(None)
}

/// The value of a pair, if it has the key.
fn value_under(
    alloc: Global,
    key: &str,
    name: &str,
    value: &str,
) -> Result<Option<Text>, AllocError>
    ensures { IfOk result (λ found. found ≡ (if bytes_eq name.now key.now then Some value.now else None)) }
{
    if name == key {
        Ok(Some(Text::from_str(alloc, value)?))
    } else {
        Ok(None)
    }
}

/// The number that is the first value of a key in a query, or a default where the key is absent; nothing where that value
/// is no decimal number, or past a `u64`.
#[tactic(auto, unfolding(crate::specs::Queries::query_number))]
pub fn query_number(
    alloc: Global,
    query: &str,
    key: &str,
    default: u64,
) -> Result<Option<u64>, AllocError>
    ensures { IfOk result (λ number. number ≡ spec.query_number key.now default query.now) }
{
    match query_value(alloc, query, key)? {
        None => Ok(Some(default)),
        Some(text) => Ok(decimal_of(text.as_bytes())),
    }
}

/// The number that a text is in decimal digits, which may begin with zeros; nothing where it is none, or past a `u64`.
pub fn decimal_of(text: &[u8]) -> Option<u64>
    ensures { result ≡ spec.decimal_of text.now }
{
    as_u64(number_in(text))
}

/// Whether a text begins with a zero, and doesn't end there.
fn has_leading_zero(text: &[u8]) -> bool
    ensures { result ≡ spec.has_leading_zero text.now }
{
    1 < text.len() && text.starts_with(b"0")
}

/// The number that a text is in decimal digits without a leading zero; nothing where it is none, or past a `u64`.
#[tactic(auto, unfolding(crate::specs::Queries::plain_decimal_of))]
pub(crate) fn plain_decimal_of(text: &[u8]) -> Option<u64>
    ensures { result ≡ spec.plain_decimal_of text.now }
{
    if has_leading_zero(text) {
        None
    } else {
        decimal_of(text)
    }
}

fn as_u64(number: Decimal) -> Option<u64>
    ensures { result ≡ spec.as_u64 number }
{
    match number {
        Decimal::Number(n) => Some(n),
        Decimal::Past | Decimal::Other => None,
    }
}
