//! Numbers of texts, under which rows are found: such an entry of an index takes no more memory for a long text.
ghost use Rattle.std.specs.Prelude.{◌≡◌};
ghost use Rattle.row_indexes.specs.Numbers.{number_of};

/// The prime by which the hashes of Fowler, Noll and Vo of 64 bits spread bytes over a number.
const PRIME: u64 = 1099511628211;

/// The number of a text. Others may have the same one, but by chance one of 2^64 has.
pub fn number_of(bytes: &[u8]) -> u64
    ensures { result ≡ number_of bytes.now }
{
    let mut number: u64 = 0;
    for byte in bytes {
        number = number.wrapping_mul(PRIME).wrapping_add(*byte as u64);
    }
    number
}
