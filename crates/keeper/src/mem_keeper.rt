//! A keeper in memory.
ghost use Rattle.std.specs.Prelude.{◌≡◌, ◌≤◌, ⊤, true, refl, None, Ok, Err, IfOk, IfErr, OnOk, OnErr, if◌then◌else◌};
ghost use Rattle.hub_devices.specs.FailingCalls.{is_failing, after_call, new_script};
ghost use Rattle.hub_devices.specs.Faults.{Rises};
ghost use Rattle.keyed_rows.specs.Rows.{map_of};
ghost use Rattle.keeper.specs.Held.{held};
ghost use Rattle.keeper.specs.RowOrder.{key_cmp};
ghost use Rattle.keeper.specs.Rows.{AreSame, Lists, rows_of, after_items, place_of, is_failed};

use crate::held_rows::{self, HeldRows};
use crate::keeper::{Batch, Keeper, KeeperError, Row};
use hub_devices::failing_calls::FailingCalls;
use hub_kit::text::Text;
use std::alloc::{AllocError, Global};

/// Keeps rows in memory, and tells them. It fails exactly at the calls that `failing` numbers, the first call being 0.
/// It has one store, whatever place is chosen.
pub struct MemKeeper {
    alloc: Global,
    rows: HeldRows,
    script: FailingCalls,
}

impl Drop for MemKeeper {
    fn drop(self) {
        let MemKeeper {
            alloc: _,
            rows: _,
            script: _,
        } = self;
    }
}

impl MemKeeper {
    /// Begins with these rows, of which a later one replaces an earlier one of its kind and key.
    pub fn new(alloc: Global, rows: Vec<Row>, failing: Vec<u64>) -> Result<MemKeeper, AllocError>
        ensures rows { IfOk result (λ k. AreSame (⟦<MemKeeper as Keeper>⟧.rows k) (rows_of rows.items)) }
        ensures script { IfOk result (λ k. k.script ≡ new_script failing.items) }
    {
        Ok(MemKeeper {
            alloc,
            rows: held_rows::rows_of(alloc, rows)?,
            script: FailingCalls::new(failing),
        })
    }
}

impl Keeper for MemKeeper {
    ghost Tells = { λ k. ⊤ };

    ghost is_told = { λ k. true };

    ghost rows = { λ k. held (map_of key_cmp k.rows) };

    ghost faults = { λ k. k.script.faults };

    ghost Chooses = { λ old place new. AreSame (held (map_of key_cmp new.rows)) (held (map_of key_cmp old.rows)) };

    fn choose(&mut self, _place: Option<&Text>) -> Result<(), KeeperError>
        ensures chosen { OnOk result (AreSame (held (map_of key_cmp self.new.rows)) (held (map_of key_cmp self.old.rows))) }
        ensures own { place_of _place.entry ≡ None → ⊤
            → ⊤ × AreSame (held (map_of key_cmp self.new.rows)) (held (map_of key_cmp self.old.rows)) }
        ensures err { OnErr result (⊤ → ⊤ × AreSame (held (map_of key_cmp self.new.rows)) (held (map_of key_cmp self.old.rows))) }
        ensures counted { self.old.script.faults ≤ self.new.script.faults }
        ensures cause { IfErr result (λ e. e ≡ KeeperError.Failed → Rises self.old.script.faults self.new.script.faults) }
        ensures fails { result ≡ (if is_failing self.old.script then Err KeeperError.Failed else Ok tt) }
        ensures script { self.new.script ≡ after_call self.old.script (is_failing self.old.script) }
    {
        if self.script.next() {
            return Err(KeeperError::Failed);
        }
        Ok(())
    }

    fn load(&mut self) -> Result<Vec<Row>, KeeperError>
        ensures listed { ⊤ → IfOk result (λ all. Lists (held (map_of key_cmp self.old.rows)) all.items) }
        ensures kept { ⊤ → ⊤ × AreSame (held (map_of key_cmp self.new.rows)) (held (map_of key_cmp self.old.rows)) }
        ensures counted { self.old.script.faults ≤ self.new.script.faults }
        ensures cause { IfErr result (λ e. e ≡ KeeperError.Failed → Rises self.old.script.faults self.new.script.faults) }
        ensures fails { is_failed result ≡ is_failing self.old.script }
        ensures script { self.new.script ≡ after_call self.old.script (is_failing self.old.script) }
    {
        if self.script.next() {
            return Err(KeeperError::Failed);
        }
        match held_rows::all_rows(self.alloc, &self.rows) {
            Ok(rows) => Ok(rows),
            Err(_) => Err(KeeperError::Memory),
        }
    }

    fn commit(&mut self, batch: &Batch) -> Result<(), KeeperError>
        ensures told { ⊤ → ⊤ }
        ensures ok { ⊤ → OnOk result (AreSame (held (map_of key_cmp self.new.rows))
            (after_items batch.now (held (map_of key_cmp self.old.rows)))) }
        ensures err { ⊤ → OnErr result (AreSame (held (map_of key_cmp self.new.rows)) (held (map_of key_cmp self.old.rows))) }
        ensures counted { self.old.script.faults ≤ self.new.script.faults }
        ensures cause { IfErr result (λ e. e ≡ KeeperError.Failed → Rises self.old.script.faults self.new.script.faults) }
        ensures fails { is_failed result ≡ is_failing self.old.script }
        ensures script { self.new.script ≡ after_call self.old.script (is_failing self.old.script) }
    {
        if self.script.next() {
            return Err(KeeperError::Failed);
        }
        match held_rows::do_items(self.alloc, &mut self.rows, batch.as_slice()) {
            Ok(()) => Ok(()),
            Err(_) => Err(KeeperError::Memory),
        }
    }

    ghost decides = { λ k. ((λ _. refl), (λ _. tt)) };
}
