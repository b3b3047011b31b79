//! The services that the hub starts itself.
ghost use Rattle.std.specs.Prelude.{◌≡◌, ◌<◌, ◌≤◌, ◌^◌, ℕ, length, slice_get, IfOk, IfErr};
ghost use Rattle.services_run.specs.Rules.{tending, halting};
ghost use Rattle.services_run.specs.declared.place.Tended.{Tended};
ghost use Rattle.services_run.specs.Rounds.{Rounded, loose_count};
ghost use Rattle.services_run.specs.Book.{state_of, NoneUp};
ghost use Rattle.services_run.specs.New.{ArePlaced, IsRepeated};
ghost use Rattle.services_run.specs.Law.{labels, HasDistinctNames, HasPaths};
ghost use Rattle.services_run.specs.Refused.{RefusedBy};

use crate::paths::Paths;
use crate::place::{Managed, Place, State, Tended};
use crate::placing::{first_repeated, place_all};
use crate::rounds::{count_loose, halt_all, tend_all};
use crate::running::Running;
use hub_kit::moment::Moment;
use std::alloc::Global;
use std::marker::Model;

/// The services, in order.
pub struct Services {
    places: Vec<Place>,
    last: u64,
}

impl Drop for Services {
    fn drop(self) {
        let Services { places: _, last: _ } = self;
    }
}

impl Model for Services {
    ghost use Rattle.services_run.specs.Book.{Book, IsBook};

    ghost Value = { Book };

    ghost view = { λ s. record { places = s.places.items; last = s.last } };

    ghost invariant = { λ s. IsBook (record { places = s.places.items; last = s.last }) };
}

/// Why the services can't be kept.
#[derive(Clone, Copy, Debug, PartialEq, Eq)]
pub enum ServicesError {
    Repeated(usize),
    Memory,
}

impl Services {
    /// All services down. It takes all the memory that they ever need.
    pub fn new(alloc: Global, list: Vec<Managed>) -> Result<Services, ServicesError>
        requires { length list.items < 2 ^ 32 }
        ensures placed { IfOk result (λ s. ArePlaced list.items s.places × (s.last ≡ 0)) }
        ensures apart { IfOk result (λ s. (i : ℕ) → ¬ (IsRepeated list.items i)) }
        ensures lawful { IfOk result (λ s. HasDistinctNames (labels s.places) × HasPaths (labels s.places)) }
        ensures err { IfErr result (λ e. RefusedBy list.items e) }
    {
        if let Some(at) = first_repeated(list.as_slice()) {
            return Err(ServicesError::Repeated(at));
        }
        match place_all(alloc, list) {
            Ok(places) => Ok(Services { places, last: 0 }),
            Err(_) => Err(ServicesError::Memory),
        }
    }

    /// Treats each service once, in order.
    pub fn tend<R: Running, P: Paths>(
        &mut self,
        now: Moment,
        running: &mut R,
        paths: &mut P,
    ) -> Tended
        ensures rounded { Rounded (tending now) self.old.places self.old.last (R.calls running.old) (P.calls paths.old)
            (length self.old.places) self.new.places self.new.last result (R.calls running.new) (P.calls paths.new) }
        ensures runs { R.faults running.old ≤ R.faults running.new }
        ensures paths { P.faults paths.old ≤ P.faults paths.new }
    {
        let round = tend_all(self.places.as_mut_slice(), now, self.last, running, paths);
        self.last = round.last;
        round.tally
    }

    /// Stops each service that may run, and says how many may run still.
    pub fn stop_all<R: Running, P: Paths>(&mut self, running: &mut R, paths: &mut P) -> u32
        ensures rounded { (tally : Tended) × Rounded halting self.old.places self.old.last (R.calls running.old) (P.calls paths.old)
            (length self.old.places) self.new.places self.new.last tally (R.calls running.new) (P.calls paths.new) }
        ensures runs { R.faults running.old ≤ R.faults running.new }
        ensures paths { P.faults paths.old ≤ P.faults paths.new }
        ensures loose { result ≡ loose_count self.new.places }
        ensures none_up { NoneUp self.new.places (length self.new.places) }
    {
        let round = halt_all(self.places.as_mut_slice(), self.last, running, paths);
        self.last = round.last;
        count_loose(self.places.as_slice())
    }

    /// The state of the service at a place, and its tries.
    pub fn state(&self, at: usize) -> Option<(State, u32)>
        ensures { result ≡ state_of (slice_get self.now.places at) }
    {
        match self.places.get(at) {
            Some(place) => Some((place.state, place.tries)),
            None => None,
        }
    }
}
