//! The rows of a change, carried out.
ghost use Rattle.std.specs.Prelude.{◌≡◌, ◌≢◌, ◌≤◌, ◌<◌, ◌^◌, true, false, None, Ok};
ghost use Rattle.hub_devices.specs.Faults.{Rises};
ghost use Rattle.hub_tables.specs.Changes.{FitAll};
ghost use Rattle.hub_machine.specs.Carry.{RowsDone, RowsKept, BeginDone, EndDone};
ghost use Rattle.hub_machine.specs.KeptRows.{Keeps};
ghost use Rattle.hub_machine.specs.State.{free_target, lease_of, owed};
ghost use Rattle.hub_machine.specs.declared.step.Kept.TheVariants as Of;

use crate::batch::batch_of;
use crate::ends::end_rows;
use crate::step::Kept;
use hub_kit::names::ServerKey;
use hub_lives::{Leased, Lives};
use hub_rows::changes::RowChange;
use hub_tables::tables::Tables;
use keeper::keeper::{Batch, Keeper, KeeperError};
use std::alloc::{AllocError, Global};
use table_changes::{settle, stage, undo};

/// Carries rows out: their puts, the commit of their batch, and then their removals. `Ok(false)` comes where the keeper
/// refused the batch. Then, and where memory is wanting, all is as it was.
pub(crate) fn carry_out<K: Keeper>(
    alloc: Global,
    tables: &mut Tables,
    keeper: &mut K,
    rows: &[RowChange],
    batch: &Batch,
) -> Result<bool, AllocError>
    requires { FitAll rows.now tables.old }
    ensures done { RowsDone rows.now result tables.old tables.new }
    ensures told { K.Tells keeper.new → K.Tells keeper.old }
    ensures kept { K.Tells keeper.new → RowsKept batch.now result (K.rows keeper.old) (K.rows keeper.new) }
    ensures counted { K.faults keeper.old ≤ K.faults keeper.new }
    ensures cause { result ≡ Ok false → Rises (K.faults keeper.old) (K.faults keeper.new) }
{
    let steps_back = stage(alloc, tables, rows)?;
    match keeper.commit(batch) {
        Ok(()) => {
            settle(tables, rows);
            Ok(true)
        }
        Err(error) => {
            undo(tables, steps_back);
            match error {
                KeeperError::Failed => Ok(false),
                KeeperError::Memory => Err(AllocError),
            }
        }
    }
}

/// Carries a start out: the free target of least index is leased to the server for the next generation, and the rows are carried out.
/// `Ok(false)` comes where the keeper refused the batch. Then, and where memory is wanting, all is as it was.
pub(crate) fn carry_begin<K: Keeper>(
    alloc: Global,
    tables: &mut Tables,
    lives: &mut Lives,
    keeper: &mut K,
    server: &ServerKey,
    rows: &[RowChange],
    batch: &Batch,
) -> Result<bool, AllocError>
    requires fits { FitAll rows.now tables.old }
    requires free { free_target lives.old.pool lives.old.lives ≢ None }
    requires rests { lease_of lives.old.lives server.now ≡ None }
    requires next { lives.old.next < 2 ^ 63 }
    requires owed { owed lives.old.lives < 2 ^ 63 }
    ensures done { RowsDone rows.now result tables.old tables.new }
    ensures leased { BeginDone server.now result lives.old lives.new }
    ensures told { K.Tells keeper.new → K.Tells keeper.old }
    ensures kept { K.Tells keeper.new → RowsKept batch.now result (K.rows keeper.old) (K.rows keeper.new) }
    ensures counted { K.faults keeper.old ≤ K.faults keeper.new }
    ensures cause { result ≡ Ok false → Rises (K.faults keeper.old) (K.faults keeper.new) }
{
    // it tells that the next generation isn't 0
    lives.are_apart();
    lives.begin(alloc, server)?;
    match carry_out(alloc, tables, keeper, rows, batch) {
        Ok(true) => Ok(true),
        Ok(false) => {
            lives.take_back();
            Ok(false)
        }
        Err(error) => {
            lives.take_back();
            Err(error)
        }
    }
}

/// Carries the rows of an end out. Where the keeper refuses them, and where memory is wanting, all is as it was.
pub(crate) fn carry_end<K: Keeper>(
    alloc: Global,
    tables: &mut Tables,
    keeper: &mut K,
    lease: &Leased,
) -> Kept
    ensures asked { result ≢ Of.NotAsked }
    ensures done { EndDone lease.now result tables.old tables.new }
    ensures told { K.Tells keeper.new → K.Tells keeper.old }
    ensures keeps { K.Tells keeper.new → Keeps (K.rows keeper.old) tables.old → Keeps (K.rows keeper.new) tables.new }
    ensures counted { K.faults keeper.old ≤ K.faults keeper.new }
    ensures cause { result ≡ Of.KeeperFault → Rises (K.faults keeper.old) (K.faults keeper.new) }
{
    let Ok(rows) = end_rows(alloc, tables, lease) else {
        return Kept::Memory;
    };
    let Ok(batch) = batch_of(alloc, rows.as_slice()) else {
        // in one call, since it has many parts
        drop(rows);
        return Kept::Memory;
    };
    match carry_out(alloc, tables, keeper, rows.as_slice(), &batch) {
        Ok(true) => Kept::Kept,
        Ok(false) => Kept::KeeperFault,
        Err(_) => Kept::Memory,
    }
}
