//! The job that looks which servers are being adopted.
ghost use Rattle.std.specs.Prelude.{◌≡◌, ◌<◌, ◌^◌, false, All, IfOk};
ghost use Rattle.hub_adopt.specs.Found.{AreFound};
ghost use Rattle.hub_core.specs.Visits.{entries_of};

use desk::Job;
use hub_core::book::Book;
use hub_core::live::LiveServer;
use hub_machine::change::Change;
use keeper::keeper::Keeper;
use keeper::trail::Trail;
use std::alloc::{AllocError, Global};

/// Looks once, and changes nothing.
pub(crate) struct Search {
    alloc: Global,
    acted: bool,
}

impl Drop for Search {
    fn drop(self) {
        let Search { alloc: _, acted: _ } = self;
    }
}

impl Search {
    /// One that hasn't looked yet.
    pub(crate) fn new(alloc: Global) -> Search
        ensures { result ≡ record { alloc = alloc; acted = false } }
    {
        Search {
            alloc,
            acted: false,
        }
    }
}

impl<K: Keeper, T: Trail<Entry = Change>> Job<Book<K, T>> for Search {
    type Answer = Result<Vec<LiveServer>, AllocError>;

    ghost acted = { λ j. j.acted };

    ghost does = { λ j b r j' b'. (b' ≡ b)
        × IfOk r (λ servers. AreFound b.start (entries_of b) servers.items × All (λ s. s.generation < 2 ^ 63) servers.items) };

    fn act(&mut self, book: &mut Book<K, T>) -> Result<Vec<LiveServer>, AllocError> {
        self.acted = true;
        // it tells that the history leads to the state
        book.stands();
        book.adopting(self.alloc)
    }
}
