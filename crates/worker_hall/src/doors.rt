//! The listener, which the workers take turns at under a lock.
ghost use Rattle.std.specs.Prelude.{◌≡◌, ◌⊎◌, ◌≤◌, ◌+◌, ◌<◌, ◌^◌, ℕ, Option, IfSome, IfNone, true};
ghost use Rattle.hub_devices.specs.Faults.{Rises};
ghost use Rattle.worker_hall.specs.Given.{GaveMore};

use hub_devices::listener::Listener;
use std::marker::Brand;
use std::sync::ledger::{Book, Ledger, Share};

/// Which call of `serve` it is: the reference to its listener, what that told at entry, and how many are to be taken.
pub(crate) trait Doorway: Ledger {
    ghost door: { ℕ };

    ghost given: { Option ℕ };

    ghost faults: { ℕ };

    ghost most: { ℕ };
}

// The caller of a brand picks what it stands for.
impl Doorway for Brand {
    ghost use Rattle.std.specs.Prelude.{None};

    ghost door = { 0 };

    ghost given = { None };

    ghost faults = { 0 };

    ghost most = { 0 };
}

/// The listener that a call was lent. Passed on by value it stays the same reference.
#[derive(Drop)]
pub(crate) struct Front<'a, L: Listener> {
    pub listener: &'a mut L,
}

impl<'a, L: Listener> Front<'a, L> {
    pub(crate) fn new(listener: &'a mut L) -> Front<'a, L>
        ensures same_reference { result.listener.ghost_name ≡ listener.entry.ghost_name }
        ensures now { result.listener.now ≡ listener.old }
    {
        Front { listener }
    }
}

/// What lies under the lock. The ledger's total is the number of connections that were given.
#[derive(Drop)]
pub(crate) struct Doors<'a, L: Listener, N: Doorway> {
    pub listener: &'a mut L,
    pub left: u64,
    pub failed: bool,
    pub taken: Book<N>,
    pub ghost same: { listener.ghost_name ≡ N.door },
    pub ghost adds_up: { taken.total + left ≡ N.most },
    pub ghost fits: { N.most < 2 ^ 64 },
    pub ghost given: { GaveMore N.given taken.total (L.given listener.now) },
    pub ghost counted: { N.faults ≤ L.faults listener.now },
    pub ghost cause: { failed ≡ true → Rises N.faults (L.faults listener.now) },
}

#[tactic(auto, using(crate::proofs::Givens::Gave_none, crate::proofs::Givens::Gave_one))]
impl<'a, L: Listener, N: Doorway> Doors<'a, L, N> {
    pub(crate) fn new(front: Front<'a, L>, connections: u64, taken: Book<N>) -> Doors<'a, L, N>
        requires door { front.listener.ghost_name ≡ N.door }
        requires given { L.given front.listener.now ≡ N.given }
        requires faults { L.faults front.listener.now ≡ N.faults }
        requires most { connections ≡ N.most }
        requires none { taken.total ≡ 0 }
    {
        let Front { listener } = front;
        Doors {
            listener,
            left: connections,
            failed: false,
            taken,
        }
    }

    /// The next connection, which counts for this share. None where all were taken or the listener has failed.
    pub(crate) fn next(&mut self, mine: &mut Share<N>) -> Option<(L::In, L::Out)>
        requires part { 0 < mine.old.parts }
        ensures parts { mine.new.parts ≡ mine.old.parts }
        ensures some { IfSome result (λ _. (mine.new.amount ≡ mine.old.amount + 1) × (mine.new.amount < 2 ^ 64)) }
        ensures sides { IfSome result (λ connection. L.are_sides connection.0 connection.1) }
        ensures none { IfNone result (mine.new.amount ≡ mine.old.amount) }
    {
        let Doors {
            listener,
            left,
            failed,
            taken,
        } = self;
        if *left == 0 || *failed {
            return None;
        }
        match listener.accept() {
            Ok(connection) => {
                taken.add(mine, 1);
                taken.audit(mine);
                *left -= 1;
                Some(connection)
            }
            Err(_) => {
                *failed = true;
                None
            }
        }
    }

    /// Nothing more is to be taken.
    pub(crate) fn is_over(&self) -> bool
        ensures { result ≡ true → (self.now.left ≡ 0) ⊎ (self.now.failed ≡ true) }
    {
        self.left == 0 || self.failed
    }

    /// The listener, how many are left, and the ledger's book.
    pub(crate) fn end(self) -> (Front<'a, L>, u64, Book<N>)
        requires over { (self.left ≡ 0) ⊎ (self.failed ≡ true) }
        ensures same_reference { result.0.listener.ghost_name ≡ N.door }
        ensures adds_up { (result.2.total + result.1 ≡ N.most) × (N.most < 2 ^ 64) }
        ensures given { GaveMore N.given result.2.total (L.given result.0.listener.now) }
        ensures cause { (result.1 ≡ 0) ⊎ Rises N.faults (L.faults result.0.listener.now) }
    {
        let Doors {
            listener,
            left,
            failed: _,
            taken,
        } = self;
        (Front { listener }, left, taken)
    }
}
