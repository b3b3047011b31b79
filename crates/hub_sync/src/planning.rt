//! The job that asks a book which calls its state lacks.
ghost use Rattle.std.specs.Prelude.{◌≡◌, IfOk};
ghost use Rattle.std.specs.Option.{option_copied};
ghost use Rattle.hub_core.specs.Visits.{entries_of};
ghost use Rattle.hub_sync.specs.Plans.{IsPlanFor, target_of};

use crate::calls::RouteCall;
use crate::plan::plan_for;
use desk::Job;
use hub_core::book::Book;
use hub_devices::calls::ListedRoute;
use hub_kit::target::Target;
use hub_machine::change::Change;
use keeper::keeper::Keeper;
use keeper::trail::Trail;
use std::alloc::{AllocError, Global};

/// Plans once, and changes nothing.
#[derive(Drop)]
pub(crate) struct Planning<'a> {
    pub(crate) alloc: Global,
    /// Whether the hub's own route leads to the target of the book, and not to the given one.
    pub(crate) own: bool,
    pub(crate) hub: Option<&'a Target>,
    pub(crate) listed: &'a [ListedRoute],
    pub(crate) acted: bool,
}

impl<'a, K: Keeper, T: Trail<Entry = Change>> Job<Book<K, T>> for Planning<'a> {
    type Answer = Result<Vec<RouteCall>, AllocError>;

    ghost acted = { λ j. j.acted };

    ghost does = { λ j b r j' b'. (b' ≡ b)
        × IfOk r (λ calls. IsPlanFor b.start (entries_of b) (target_of j.own (option_copied j.hub)) j.listed.now calls.items) };

    fn act(&mut self, book: &mut Book<K, T>) -> Result<Vec<RouteCall>, AllocError> {
        self.acted = true;
        // it tells that the history leads to the state
        book.stands();
        plan_for(self.alloc, book, self.own, self.hub, self.listed)
    }
}
