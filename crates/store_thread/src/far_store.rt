//! A store that another thread has.
ghost use Rattle.std.specs.Prelude.{◌≡◌, ◌≤◌, None, IsTrue, IfOk, IfErr, OnOk, OnErr, is_some};
ghost use Rattle.hub_devices.specs.Faults.{Rises};
ghost use Rattle.keeper.specs.Rows.{AreSame, Lists, after_items, place_of};
ghost use Rattle.store_thread.specs.Far.{choice, IsHeard, IsRead, StaysTold, TakesPlace};
ghost use Rattle.store_thread.specs.Told.{told_in, rows_in};
ghost use Rattle.store_thread.specs.declared.calls.Call.TheVariants as Call;

use crate::caller::Caller;
use crate::ends::FarEnd;
use hub_kit::text::Text;
use hub_store::command::ProgramStore;
use hub_store::file_places::FileError;
use keeper::keeper::{Batch, Keeper, KeeperError, Row};
use std::alloc::Global;
use std::sync::Wait;

/// A store whose calls another thread answers. It tells the rows that the answers told: from the choice of a place on, once its rows were
/// read, which is done at the choice, until that store tells none any more or a call stays without an answer.
#[derive(Drop)]
pub struct FarStore<W: Wait + Copy> {
    alloc: Global,
    caller: Caller<W>,
    faults: u64,
}

impl<W: Wait + Copy> FarStore<W> {
    pub(crate) fn new(alloc: Global, end: FarEnd<W>) -> FarStore<W>
        ensures { (result.caller ≡ end) × (result.faults ≡ 0) }
    {
        FarStore {
            alloc,
            caller: Caller::new(end),
            faults: 0,
        }
    }
}

/// Counts a fault where the store failed. The count stands still at the greatest `u64`.
fn count<T>(faults: &mut u64, said: &Result<T, KeeperError>)
    ensures kept { faults.old ≤ faults.new }
    ensures cause { IfErr said.now (λ e. e ≡ KeeperError.Failed → Rises faults.old faults.new) }
{
    if let Err(KeeperError::Failed) = said {
        *faults = faults.saturating_add(1);
    }
}

impl<W: Wait + Copy> Keeper for FarStore<W> {
    ghost Tells = { λ s. IsTrue (is_some (told_in s.caller)) };

    ghost is_told = { λ s. is_some (told_in s.caller) };

    ghost rows = { λ s. rows_in s.caller };

    ghost faults = { λ s. s.faults };

    ghost Chooses = { λ s place s'. TakesPlace s.caller place s'.caller };

    /// Has the thread choose, and answers as it did.
    fn choose(&mut self, place: Option<&Text>) -> Result<(), KeeperError>
        ensures heard { IsHeard self.old.caller (choice (place_of place.entry)) result self.new.caller }
        ensures chosen { OnOk result (TakesPlace self.old.caller (place_of place.entry) self.new.caller) }
        ensures own { place_of place.entry ≡ None → StaysTold self.old.caller self.new.caller }
        ensures err { OnErr result (StaysTold self.old.caller self.new.caller) }
        ensures counted { self.old.faults ≤ self.new.faults }
        ensures cause { IfErr result (λ e. e ≡ KeeperError.Failed → Rises self.old.faults self.new.faults) }
    {
        let said = self.caller.choose(self.alloc, place);
        count(&mut self.faults, &said);
        said
    }

    /// The rows as the thread reads them now, or as it read them where the last call took a place.
    fn load(&mut self) -> Result<Vec<Row>, KeeperError>
        ensures read { IsRead self.old.caller result self.new.caller }
        ensures listed { IsTrue (is_some (told_in self.new.caller)) → IfOk result (λ all. Lists (rows_in self.old.caller) all.items) }
        ensures kept { StaysTold self.old.caller self.new.caller }
        ensures counted { self.old.faults ≤ self.new.faults }
        ensures cause { IfErr result (λ e. e ≡ KeeperError.Failed → Rises self.old.faults self.new.faults) }
    {
        let said = self.caller.load();
        count(&mut self.faults, &said);
        said
    }

    /// Has the thread commit these items, and answers as it did.
    fn commit(&mut self, batch: &Batch) -> Result<(), KeeperError>
        ensures heard { IsHeard self.old.caller (Call.Commit batch.now) result self.new.caller }
        ensures told { IsTrue (is_some (told_in self.new.caller)) → IsTrue (is_some (told_in self.old.caller)) }
        ensures ok { IsTrue (is_some (told_in self.new.caller))
            → OnOk result (AreSame (rows_in self.new.caller) (after_items batch.now (rows_in self.old.caller))) }
        ensures err { IsTrue (is_some (told_in self.new.caller))
            → OnErr result (AreSame (rows_in self.new.caller) (rows_in self.old.caller)) }
        ensures counted { self.old.faults ≤ self.new.faults }
        ensures cause { IfErr result (λ e. e ≡ KeeperError.Failed → Rises self.old.faults self.new.faults) }
    {
        let said = self.caller.commit(self.alloc, batch);
        count(&mut self.faults, &said);
        said
    }

    ghost decides = { λ _. (λ told. told, λ told. told) };
}

impl<W: Wait + Copy> ProgramStore for FarStore<W> {
    fn refusal(&self) -> Option<FileError> {
        self.caller.refusal()
    }

    // the other thread closes the store once this one is gone
    fn close(self) {
        drop(self);
    }
}
