//! The table that passes share. Word 0 is twice the length of the history, and 1 more while the turn is held. Slot 0 holds
//! the book, and is empty while the turn is held.
use crate::booked::Booked;
use atomic_table::{Seat, Shared, TableRule};
use std::collections::LinkedList;
use std::snapshot::Snapshot;

/// What a seat is at.
pub enum Stage<B, E> {
    Idle,
    /// It holds the turn, and this is the book that it found.
    Held(B),
    /// It has met a pass which had seen the one list and made the other.
    Met(LinkedList<E>, LinkedList<(u64, E)>),
    /// It was joined away.
    Spent,
}

/// What a seat knows. No value of it is made: it exists for the proofs alone.
pub struct SeatView<B, E, A> {
    pub stage: Stage<B, E>,
    pub base: Option<A>,
    pub seen: LinkedList<E>,
    pub mine: LinkedList<(u64, E)>,
    pub failed: u64,
    pub faults: u64,
    /// Of the first seat: how many it split off that it hasn't taken in again.
    pub others: Option<u64>,
}

/// What holds between any two steps.
pub struct TurnRule;

impl<B: Booked> TableRule<Option<B>, SeatView<B, B::Entry, B::Base>, Snapshot<B>> for TurnRule {
    ghost use Rattle.desk.specs.Turns.{Turned, first};

    ghost holds = { λ _. Turned B.entries B.base B.faults };

    ghost first = { λ key. first B.entries B.base B.faults key.value };
}

pub type DeskSeat<B, E, A> = Seat<Option<B>, SeatView<B, E, A>>;

pub type DeskTable<B, E, A> = Shared<Option<B>, SeatView<B, E, A>, Snapshot<B>, TurnRule>;
