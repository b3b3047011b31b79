//! A short text that lies in the value itself, so that copies of names and keys take no memory.
ghost use Rattle.std.specs.Prelude.{◌≡◌, ℕ, ◌≤◌, List, length, Some, IsUtf8, nat_eq, refl};
ghost use Rattle.std.specs.Ordering.{nat_cmp};
ghost use Rattle.std.specs.Cmp.{partial_equiv_from_equiv};
ghost use Rattle.std.specs.Cmp.Lexicographic.{pointwise, slice_cmp, nat_list_eq_equiv, nat_list_cmp_total, texts_po, texts_ties};
ghost use Rattle.hub_kit.specs.Padded.{padded};

use std::cmp::Ordering;
use std::marker::Model;

/// UTF-8 text of at most 64 bytes. The cells behind them are zero, so that equal texts are equal values.
#[derive(Clone, Copy)]
pub struct ShortText {
    cells: [u8; 64],
    len: usize,
}

impl Model for ShortText {
    ghost use Rattle.std.specs.Prelude.{ℕ, List, IsUtf8, length, take};
    ghost use Rattle.hub_kit.specs.Padded.{IsPadded, padded};
    ghost use Rattle.hub_kit.specs.PaddedBack.{cells_back, len_back};

    ghost Value = { List ℕ };

    ghost view = { λ a. take a.len a.cells };

    ghost invariant = { λ a. IsPadded a.cells a.len × IsUtf8 (take a.len a.cells) };

    ghost inverse = { λ v. record { cells = padded v; len = length v } };

    ghost inverse_ok = { λ a h i. record { cells = cells_back a.cells a.len h.0 i; len = len_back a.cells a.len h.0 i } };
}

impl ShortText {
    /// The bytes, which have to be text that fits.
    #[tactic(auto, using(crate::proofs::Cells::padded_ok))]
    pub fn from_slice(bytes: &[u8]) -> ShortText
        requires fits { length bytes.now ≤ 64 }
        requires text { IsUtf8 bytes.now }
        ensures { result ≡ bytes.now }
    {
        ShortText {
            cells: padded(bytes),
            len: bytes.len(),
        }
    }

    /// The bytes, of which there are at most 64.
    pub fn as_bytes(&self) -> &[u8]
        ensures value { result.now ≡ self.now }
        ensures fits { length self.now ≤ 64 }
    {
        &self.cells[..self.len]
    }

    /// The text, without a test of its bytes.
    pub fn as_str(&self) -> &str
        ensures { result.now ≡ self.now }
    {
        // The bytes of such a text are UTF-8, by its invariant.
        unsafe { std::str::from_utf8_unchecked(&self.cells[..self.len]) }
    }
}

/// The bytes at the front of 64 cells, with zeros behind them.
#[tactic(auto, using(crate::proofs::Cells::one_more))]
fn padded(bytes: &[u8]) -> [u8; 64]
    requires { length bytes.now ≤ 64 }
    ensures { result ≡ padded bytes.now }
{
    let mut cells = [0; 64];
    for (i, b) in bytes.iter().enumerate() {
        cells[i] = *b;
    }
    cells
}

impl PartialEq for ShortText {
    ghost eq = { pointwise nat_eq };

    ghost laws = { partial_equiv_from_equiv nat_list_eq_equiv };

    fn eq(&self, other: &Self) -> bool {
        self.as_str() == other.as_str()
    }
}

impl Eq for ShortText {
    ghost laws = { nat_list_eq_equiv };
}

impl PartialOrd for ShortText {
    ghost partial_cmp = { λ s t. Some (slice_cmp nat_cmp s t) };

    ghost laws = { texts_po };

    fn partial_cmp(&self, other: &Self) -> Option<Ordering> {
        Some(self.cmp(other))
    }
}

impl Ord for ShortText {
    ghost cmp = { slice_cmp nat_cmp };

    ghost total = { nat_list_cmp_total };

    ghost matches_partial_cmp = { λ s t. refl };

    ghost matches_eq = { texts_ties };

    fn cmp(&self, other: &Self) -> Ordering {
        self.as_str().cmp(other.as_str())
    }
}
