//! What a desk keeps, and what acts on it.
ghost use Rattle.std.specs.Prelude.{◌≡◌, ℕ, ◌≤◌, ◌^◌, List, Bool, true, false, length};
ghost use mathlib.Core.List.{IsPrefix};

/// A book stands for the list of its entries, its history, and for a base of plain data. It tells how often what keeps
/// its entries has failed.
pub trait Booked: Drop {
    type Entry;

    type Base;

    ghost entries: { Self → List Self.Entry };

    /// What no job changes.
    ghost base: { Self → Self.Base };

    /// No job takes it back.
    ghost faults: { Self → ℕ };

    /// How long the history is.
    fn length(&self) -> u64
        ensures length { result ≡ length (entries self.now) }
        ensures room { result ≤ 2 ^ 62 };
}

/// What acts on a book once, and only appends to its history.
pub trait Job<B: Booked> {
    type Answer: Drop;

    ghost acted: { Self → Bool };

    /// Of the job and the book before, the answer, and the job and the book after. All that a caller is to know of the
    /// book after a visit stands here, since the invariant of a book's model isn't known there.
    ghost does: { Self → B → Self.Answer → Self → B → Type 0 };

    fn act(&mut self, book: &mut B) -> Self::Answer
        requires { acted self.old ≡ false }
        ensures acted { acted self.new ≡ true }
        ensures does { does self.old book.old result self.new book.new }
        ensures appends { IsPrefix (B.entries book.old) (B.entries book.new) }
        ensures base { B.base book.new ≡ B.base book.old }
        ensures counted { B.faults book.old ≤ B.faults book.new };
}
