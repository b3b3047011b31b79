//! The book at a desk, and the job of an asked call.
ghost use Rattle.std.specs.Prelude.{◌≡◌, false, IfOk};
ghost use Rattle.hub_core.specs.Visits.{entries_of, VisitedAt};
ghost use Rattle.hub_core.specs.Works.{IsSoundOutcome};

use crate::book::Book;
use crate::start::Start;
use desk::{Booked, Job};
use hub_kit::moment::Moment;
use hub_machine::call::Asked;
use hub_machine::change::Change;
use hub_machine::reply::Outcome;
use keeper::keeper::Keeper;
use keeper::trail::Trail;
use std::alloc::{AllocError, Global};

impl<K: Keeper, T: Trail<Entry = Change>> Booked for Book<K, T> {
    type Entry = Change;

    type Base = Start;

    ghost entries = { entries_of };

    ghost base = { λ b. b.start };

    ghost faults = { λ b. b.faults };

    fn length(&self) -> u64 {
        self.length()
    }
}

/// An asked call that waits for its visit.
pub struct Ask {
    pub alloc: Global,
    pub now: Moment,
    pub draw: Option<[u8; 16]>,
    pub asked: Asked,
    pub acted: bool,
}

impl Drop for Ask {
    fn drop(self) {
        let Ask {
            alloc: _,
            now: _,
            draw: _,
            asked: _,
            acted: _,
        } = self;
    }
}

impl Ask {
    /// A call that is to be answered at this moment, with the draw of one that draws.
    pub fn new(alloc: Global, now: Moment, draw: Option<[u8; 16]>, asked: Asked) -> Ask
        ensures { result ≡ record { alloc = alloc; now = now; draw = draw; asked = asked; acted = false } }
    {
        Ask {
            alloc,
            now,
            draw,
            asked,
            acted: false,
        }
    }
}

impl<K: Keeper, T: Trail<Entry = Change>> Job<Book<K, T>> for Ask {
    type Answer = Result<Outcome, AllocError>;

    ghost acted = { λ j. j.acted };

    ghost does = { λ j b r j' b'. VisitedAt b.start (entries_of b) (entries_of b') b.faults b'.faults j.now j.draw j.asked r
        × IfOk r IsSoundOutcome };

    fn act(&mut self, book: &mut Book<K, T>) -> Result<Outcome, AllocError> {
        self.acted = true;
        book.visit(self.alloc, self.now, self.draw, &self.asked)
    }
}
