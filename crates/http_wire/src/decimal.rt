//! Decimal numbers.
ghost use Rattle.std.specs.Prelude.{◌≡◌, ◌<◌, ◌+◌, ◌*◌, ◌^◌, nat_lt, if◌then◌else◌, Option, Some, None, option_and_then};
ghost use Rattle.http_wire.specs.Decimal as spec;

/// What bytes are: a decimal number, one past a `u64`, or no number.
#[derive(Clone, Copy, Debug, PartialEq, Eq)]
pub enum Decimal {
    Number(u64),
    Past,
    Other,
}

/// The number with one more digit, unless it is past a `u64`.
fn push_digit(number: Option<u64>, digit: u8) -> Option<u64>
    requires { digit < 10 }
    ensures { result ≡ option_and_then (λ n. if nat_lt (n * 10 + digit) (2 ^ 64) then Some (n * 10 + digit) else None) number }
{
    number?.checked_mul(10)?.checked_add(digit as u64)
}

/// The number that the bytes are, where they are one decimal digit or more.
pub fn number_in(bytes: &[u8]) -> Decimal
    ensures { result ≡ spec.number_in bytes.now }
{
    let mut number = Some(0);
    for b in bytes {
        if !b.is_ascii_digit() {
            return Decimal::Other;
        }
        number = push_digit(number, *b - b'0');
    }
    match number {
        _ if bytes.is_empty() => Decimal::Other,
        Some(n) => Decimal::Number(n),
        None => Decimal::Past,
    }
}
