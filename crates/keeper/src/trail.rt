//! What keeps the entries of the history.
ghost use Rattle.std.specs.Prelude.{◌≡◌, ◌+◌, ◌<◌, ◌≤◌, ◌^◌, ◌++◌, ◌∷◌, [], ℕ, List, length, OnOk, vec_len, vec_capacity};
ghost use Rattle.keeper.specs.Pasts.{entries_of};

use crate::past::Past;
use std::alloc::{AllocError, Global};

/// Keeps entries, one behind the other. All the memory is taken by `reserve`, and none by `note`.
pub trait Trail: Drop {
    type Entry;

    /// The entries.
    ghost told: { Self → List Self.Entry };

    /// How many more may be noted.
    ghost spare: { Self → ℕ };

    /// How many entries there are.
    fn length(&self) -> u64
        ensures { result ≡ length (told self.now) };

    /// Makes room for at least `n` entries more.
    fn reserve(&mut self, n: u64) -> Result<(), AllocError>
        ensures room { OnOk result (n ≤ spare self.new) }
        ensures kept { spare self.old ≤ spare self.new }
        ensures same { told self.new ≡ told self.old };

    /// Adds an entry behind all others.
    fn note(&mut self, entry: Self::Entry)
        requires { 0 < spare self.old }
        ensures told { told self.new ≡ told self.old ++ entry ∷ [] }
        ensures spare { spare self.new + 1 ≡ spare self.old };
}

/// Keeps the number of entries alone. Clauses read which they were.
pub struct CountTrail<E> {
    count: u64,
    reserved: u64,
    past: Past<E>,
    ghost fits: { count + reserved < 2 ^ 64 },
    ghost same: { length (entries_of past) ≡ count },
}

impl<E: Drop> Drop for CountTrail<E> {
    fn drop(self) {
        let CountTrail {
            count: _,
            reserved: _,
            past: _,
        } = self;
    }
}

impl<E: Drop> CountTrail<E> {
    pub fn new() -> CountTrail<E>
        ensures told { ⟦<CountTrail<E> as Trail>⟧.told result ≡ [] }
        ensures spare { ⟦<CountTrail<E> as Trail>⟧.spare result ≡ 0 }
    {
        CountTrail {
            count: 0,
            reserved: 0,
            past: Past::new(),
        }
    }
}

impl<E: Drop> Trail for CountTrail<E> {
    type Entry = E;

    ghost told = { λ t. entries_of t.past };

    ghost spare = { λ t. t.reserved };

    fn length(&self) -> u64 {
        self.count
    }

    fn reserve(&mut self, n: u64) -> Result<(), AllocError> {
        if n <= self.reserved {
            return Ok(());
        }
        if n > u64::MAX - self.count {
            return Err(AllocError);
        }
        self.reserved = n;
        Ok(())
    }

    fn note(&mut self, entry: E) {
        self.past.add(entry);
        self.reserved -= 1;
        self.count += 1;
    }
}

/// Keeps the entries themselves.
pub struct ListTrail<E> {
    items: Vec<E>,
    reserved: usize,
    ghost fits: { vec_len items + reserved ≤ vec_capacity items },
}

impl<E: Drop> Drop for ListTrail<E> {
    fn drop(self) {
        let ListTrail {
            items: _,
            reserved: _,
        } = self;
    }
}

impl<E: Drop> ListTrail<E> {
    /// No entries, which take no memory.
    pub fn new(alloc: Global) -> ListTrail<E>
        ensures told { ⟦<ListTrail<E> as Trail>⟧.told result ≡ [] }
        ensures spare { ⟦<ListTrail<E> as Trail>⟧.spare result ≡ 0 }
    {
        ListTrail {
            items: Vec::new(alloc),
            reserved: 0,
        }
    }

    /// The entries, the first of them first.
    pub fn entries(&self) -> &[E]
        ensures { ⟦<ListTrail<E> as Trail>⟧.told self.now ≡ result.now }
    {
        self.items.as_slice()
    }
}

impl<E: Drop> Trail for ListTrail<E> {
    type Entry = E;

    ghost told = { λ t. t.items.items };

    ghost spare = { λ t. t.reserved };

    fn length(&self) -> u64 {
        self.items.len() as u64
    }

    fn reserve(&mut self, n: u64) -> Result<(), AllocError> {
        let Ok(n) = usize::try_from(n) else {
            return Err(AllocError);
        };
        if n > self.reserved {
            self.items.reserve(n)?;
            self.reserved = n;
        }
        Ok(())
    }

    fn note(&mut self, entry: E) {
        self.reserved -= 1;
        match self.items.push(entry) {
            Ok(()) => {}
            Err(_) => unreachable!(),
        }
    }
}
