//! Where one waits.
ghost use Rattle.std.specs.Prelude.{◌≡◌, ℕ, List, Option, [], ◌∷◌, Some};
ghost use Rattle.hub_devices.specs.Calls.{Grows};
ghost use Rattle.std.specs.Option.{option_copied};

use hub_kit::list::List;
use std::alloc::Global;

/// Where one waits. It can't fail.
pub trait Pause {
    /// For how many seconds it has waited, a number for each wait, where it tells them.
    ghost waits: { Self → Option (List ℕ) };

    /// Waits so many seconds.
    fn wait(&mut self, seconds: u64)
        ensures { Grows (waits self.old) (seconds ∷ []) (waits self.new) };
}

/// Waits no time, and keeps for how many seconds it was told to. Where a wait finds no memory to be kept, none is told from then on.
pub struct ListPause {
    kept: Option<List<u64>>,
}

impl Drop for ListPause {
    fn drop(self) {
        let ListPause { kept: _ } = self;
    }
}

impl ListPause {
    pub fn new(alloc: Global) -> ListPause
        ensures { ⟦<ListPause as Pause>⟧.waits result ≡ Some [] }
    {
        ListPause {
            kept: Some(List::new(alloc)),
        }
    }

    /// For how many seconds it has waited, a number for each wait.
    pub fn waits(&self) -> Option<&[u64]>
        ensures { ⟦<ListPause as Pause>⟧.waits self.now ≡ option_copied result }
    {
        match &self.kept {
            Some(waits) => Some(waits.as_slice()),
            None => None,
        }
    }
}

#[tactic(auto, using(hub_devices::proofs::CallLemmas::Grows_lost))]
impl Pause for ListPause {
    ghost waits = { λ p. p.kept };

    fn wait(&mut self, seconds: u64) {
        if let Some(waits) = &mut self.kept {
            if waits.push(seconds).is_err() {
                self.kept = None;
            }
        }
    }
}
