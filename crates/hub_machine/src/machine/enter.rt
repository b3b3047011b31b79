//! A change, carried out.
ghost use Rattle.std.specs.Prelude.{◌≡◌, ◌≢◌, ◌+◌, ◌≤◌, ◌^◌, ℕ, List, true, false, if◌then◌else◌, IfOk, OnOk, OnErr, Ok};
ghost use Rattle.hub_devices.specs.Faults.{Rises};
ghost use Rattle.hub_machine.specs.Apply.{apply, is_past_trail};
ghost use Rattle.hub_machine.specs.Carry.{Entered, Kept, RowsKept, FitsIn, FitRows, FitsBegin, has_commit};
ghost use Rattle.hub_machine.specs.declared.change.Change.TheVariants.{Rows, Begin};
ghost use Rattle.hub_machine.specs.KeptRows.{Keeps};
ghost use Rattle.hub_machine.specs.State.{owed, next_generation};
ghost use Rattle.hub_machine.specs.Written.{IsWritten, IsOfRows};

use crate::carry::{carry_begin, carry_out};
use crate::change::Change;
use crate::machine::Machine;
use crate::planned::{Planned, Written};
use hub_kit::names::ServerKey;
use hub_rows::changes::RowChange;
use keeper::keeper::Keeper;
use keeper::trail::Trail;
use std::alloc::{AllocError, Global};

impl Machine {
    /// What an entry costs: 64 bytes, and those of its keys and texts.
    pub(crate) fn entry_cost(&self, bytes: u64) -> u64
        requires room { self.now.no_trail ≡ false → bytes ≤ 2 ^ 62 }
        ensures { result ≡ (if self.now.no_trail then 0 else 64 + bytes) }
    {
        if self.no_trail {
            return 0;
        }
        64 + bytes
    }

    /// Carries rows out, as the change of these rows alone.
    fn carry_rows<K: Keeper>(
        &mut self,
        alloc: Global,
        keeper: &mut K,
        rows: &[RowChange],
        written: &Written,
    ) -> Result<bool, AllocError>
        requires room { is_past_trail self.old (Rows rows.now) ≡ false }
        requires written { IsOfRows rows.now written.now }
        requires fits { FitRows self.old rows.now }
        ensures carried { IfOk result (λ done. self.new ≡ (if done then apply (Rows rows.now) self.old else self.old)) }
        ensures err { OnErr result (self.new ≡ self.old) }
        ensures told { K.Tells keeper.new → K.Tells keeper.old }
        ensures kept { K.Tells keeper.new → RowsKept written.now.batch result (K.rows keeper.old) (K.rows keeper.new) }
        ensures keeps { K.Tells keeper.new → Keeps (K.rows keeper.old) self.old.tables → Keeps (K.rows keeper.new) self.new.tables }
        ensures counted { K.faults keeper.old ≤ K.faults keeper.new }
        ensures cause { result ≡ Ok false → Rises (K.faults keeper.old) (K.faults keeper.new) }
    {
        let cost = self.entry_cost(written.cost);
        if !carry_out(alloc, &mut self.tables, keeper, rows, &written.batch)? {
            return Ok(false);
        }
        self.length += 1;
        self.cost += cost;
        Ok(true)
    }

    /// Carries the start of a server with the next generation out.
    fn carry_start<K: Keeper>(
        &mut self,
        alloc: Global,
        keeper: &mut K,
        server: &ServerKey,
        rows: &[RowChange],
        written: &Written,
    ) -> Result<bool, AllocError>
        requires room { is_past_trail self.old (Begin (next_generation self.old.tables) server.now rows.now) ≡ false }
        requires written { IsOfRows rows.now written.now }
        requires fits { (target : List ℕ) × FitsBegin self.old (next_generation self.old.tables) server.now rows.now target }
        ensures carried { IfOk result (λ done. self.new
            ≡ (if done then apply (Begin (next_generation self.old.tables) server.now rows.now) self.old else self.old)) }
        ensures err { OnErr result (self.new ≡ self.old) }
        ensures told { K.Tells keeper.new → K.Tells keeper.old }
        ensures kept { K.Tells keeper.new → RowsKept written.now.batch result (K.rows keeper.old) (K.rows keeper.new) }
        ensures keeps { K.Tells keeper.new → Keeps (K.rows keeper.old) self.old.tables → Keeps (K.rows keeper.new) self.new.tables }
        ensures counted { K.faults keeper.old ≤ K.faults keeper.new }
        ensures cause { result ≡ Ok false → Rises (K.faults keeper.old) (K.faults keeper.new) }
    {
        // it tells that no live server has the next generation
        self.lives.are_apart();
        let cost = self.entry_cost(written.cost);
        if !carry_begin(
            alloc,
            &mut self.tables,
            &mut self.lives,
            keeper,
            server,
            rows,
            &written.batch,
        )? {
            return Ok(false);
        }
        self.length += 1;
        self.cost += cost;
        Ok(true)
    }

    /// Carries a change out: its puts, the commit, and its removals; a step of a life has neither. The length and the cost of the
    /// history are those with its entry, which is still to be noted. `Ok(false)` comes where the keeper refused the rows. Then, and
    /// where memory is wanting, all is as it was.
    fn carry<K: Keeper>(
        &mut self,
        alloc: Global,
        keeper: &mut K,
        change: &Change,
        written: &Written,
    ) -> Result<bool, AllocError>
        requires room { is_past_trail self.old change.now ≡ false }
        requires written { IsWritten change.now written.now }
        requires fits { FitsIn self.old change.now }
        ensures carried { IfOk result (λ done. self.new ≡ (if done then apply change.now self.old else self.old)) }
        ensures err { OnErr result (self.new ≡ self.old) }
        ensures told { K.Tells keeper.new → K.Tells keeper.old }
        ensures kept { K.Tells keeper.new → Kept change.now result (K.rows keeper.old) (K.rows keeper.new) }
        ensures keeps { K.Tells keeper.new → Keeps (K.rows keeper.old) self.old.tables → Keeps (K.rows keeper.new) self.new.tables }
        ensures counted { K.faults keeper.old ≤ K.faults keeper.new }
        ensures cause { result ≡ Ok false → Rises (K.faults keeper.old) (K.faults keeper.new) }
        ensures calm { has_commit change.now ≡ false → (keeper.new ≡ keeper.old) × (result ≡ Ok true) }
    {
        match change {
            Change::Rows { rows } => self.carry_rows(alloc, keeper, rows.as_slice(), written),
            Change::Begin { server, rows, .. } => {
                self.carry_start(alloc, keeper, server, rows.as_slice(), written)
            }
            Change::Life { generation, event } => {
                self.live(*generation, *event);
                Ok(true)
            }
        }
    }

    /// Carries a change out: its puts, the commit, its removals, and its entry. `Ok(false)` comes where the keeper refused the
    /// rows. Then, and where memory is wanting, all is as it was. The entries that are still owed after an `Ok` take no memory.
    pub fn enter<K: Keeper, T: Trail<Entry = Change>>(
        &mut self,
        alloc: Global,
        keeper: &mut K,
        trail: &mut T,
        change: Planned,
    ) -> Result<bool, AllocError>
        requires room { is_past_trail self.old change ≡ false }
        requires fits { FitsIn self.old change }
        ensures entered { Entered change result self.old self.new (T.told trail.old) (T.told trail.new) }
        ensures told { K.Tells keeper.new → K.Tells keeper.old }
        ensures kept { K.Tells keeper.new → Kept change result (K.rows keeper.old) (K.rows keeper.new) }
        ensures keeps { K.Tells keeper.new → Keeps (K.rows keeper.old) self.old.tables → Keeps (K.rows keeper.new) self.new.tables }
        ensures room_ok { OnOk result (owed self.new.lives ≤ T.spare trail.new) }
        ensures room_err { OnErr result (T.spare trail.old ≤ T.spare trail.new) }
        ensures counted { K.faults keeper.old ≤ K.faults keeper.new }
        ensures cause { result ≡ Ok false → Rises (K.faults keeper.old) (K.faults keeper.new) }
        ensures calm { has_commit change ≡ false → (keeper.new ≡ keeper.old) × (result ≢ Ok false) }
    {
        // it tells that what is owed is few
        self.is_bounded();
        trail.reserve((self.owed_after(change.change()) + 1) as u64)?;
        let (entry, written) = change.write(alloc)?;
        if !self.carry(alloc, keeper, &entry, &written)? {
            return Ok(false);
        }
        trail.note(entry);
        Ok(true)
    }
}
