//! What each step on the table tells.
use crate::booked::Booked;
use crate::turn::SeatView;
use atomic_table::{Join, Play, Split};

/// The word is made odd: where it was even the turn and the book are taken, else nothing happens.
pub struct Take;

impl<B: Booked> Play<Option<B>, SeatView<B, B::Entry, B::Base>> for Take {
    ghost use Rattle.desk.specs.Plays.{taken};

    ghost then = { taken B.entries B.base B.faults };
}

/// The word of the new history is written: the book and the turn are given back.
pub struct Give;

impl<B: Booked> Play<Option<B>, SeatView<B, B::Entry, B::Base>> for Give {
    ghost use Rattle.desk.specs.Plays.{given};

    ghost then = { given B.entries B.faults };
}

/// A load at which a seat that has met another takes in what that one had seen and made.
pub struct Settle;

impl<B: Booked> Play<Option<B>, SeatView<B, B::Entry, B::Base>> for Settle {
    ghost use Rattle.desk.specs.Plays.{settled};

    ghost then = { settled };
}

/// A new seat has seen as much, and has made nothing. The first one counts it.
pub struct SplitOff;

impl<B: Booked> Split<SeatView<B, B::Entry, B::Base>> for SplitOff {
    ghost use Rattle.desk.specs.Seats.{shared, split_off};

    ghost left = { shared };

    ghost right = { split_off };
}

/// A seat meets another, which is spent then.
pub struct Meet;

impl<B: Booked> Join<SeatView<B, B::Entry, B::Base>> for Meet {
    ghost use Rattle.desk.specs.Seats.{met, spent};

    ghost both = { met };

    ghost spent = { spent };
}
