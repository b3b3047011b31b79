//! The changes of a list, done in two steps: the puts with a way back, and the removals.
ghost use Rattle.std.specs.Prelude.{◌≡◌, true, reverse, OnOk, OnErr, IfOk};
ghost use Rattle.hub_rows.specs.RowKeys as rows;
ghost use Rattle.hub_tables.specs.Changes.{row_done, rows_done, puts_of, removals_of, FitsRow, FitAll};
ghost use Rattle.table_changes.specs.Staged.{IsFree, AreFree, LeadsBack};
ghost use Rattle.table_changes.specs.Steps.{OneMore};

use crate::done::{change, remove};
use crate::undone::way_back;
use hub_rows::changes::RowChange;
use hub_tables::tables::Tables;
use std::alloc::{AllocError, Global};

/// Does what needs no memory.
fn go_back(tables: &mut Tables, back: RowChange)
    requires { IsFree back tables.old }
    ensures { tables.new ≡ row_done back tables.old }
{
    match change(tables, back) {
        Ok(()) => {}
        Err(_) => unreachable!(),
    }
}

/// Writes down the way back of a put that is still to be done.
fn log_back(
    alloc: Global,
    tables: &Tables,
    row: &RowChange,
    log: &mut Vec<RowChange>,
) -> Result<(), AllocError>
    requires put { rows.is_put row.now ≡ true }
    requires fits { FitsRow tables.now row.now }
    ensures ok { OnOk result (OneMore tables.now (row_done row.now tables.now) log.old.items log.new.items) }
    ensures err { OnErr result (log.new.items ≡ log.old.items) }
{
    let back = way_back(tables, alloc, row)?;
    log.push(back)?;
    Ok(())
}

/// Does a change, of a copy of its row.
fn change_by_copy(alloc: Global, tables: &mut Tables, row: &RowChange) -> Result<(), AllocError>
    requires { FitsRow tables.old row.now }
    ensures ok { OnOk result (tables.new ≡ row_done row.now tables.old) }
    ensures err { OnErr result (tables.new ≡ tables.old) }
{
    change(tables, row.copy(alloc)?)
}

/// Does a put, and writes down the way back.
fn put_logged(
    alloc: Global,
    tables: &mut Tables,
    row: &RowChange,
    log: &mut Vec<RowChange>,
) -> Result<(), AllocError>
    requires put { rows.is_put row.now ≡ true }
    requires fits { FitsRow tables.old row.now }
    ensures ok { OnOk result ((tables.new ≡ row_done row.now tables.old) × OneMore tables.old tables.new log.old.items log.new.items) }
    ensures err { OnErr result ((tables.new ≡ tables.old) × (log.new.items ≡ log.old.items)) }
{
    let steps = log.len();
    log_back(alloc, tables, row, log)?;
    match change_by_copy(alloc, tables, row) {
        Ok(()) => Ok(()),
        Err(error) => {
            log.truncate(steps);
            Err(error)
        }
    }
}

/// Goes all the way back, whether or not there is memory: the last step first.
pub fn undo(tables: &mut Tables, mut log: Vec<RowChange>)
    requires { AreFree (reverse log.items) tables.old }
    ensures { tables.new ≡ rows_done (reverse log.items) tables.old }
{
    while let Some(back) = log.pop() {
        go_back(tables, back);
    }
}

/// Does the puts among the rows, and gives the way back; where there is no memory for one, none is done.
pub fn stage(
    alloc: Global,
    tables: &mut Tables,
    rows: &[RowChange],
) -> Result<Vec<RowChange>, AllocError>
    requires { FitAll rows.now tables.old }
    ensures ok { IfOk result (λ log. (tables.new ≡ rows_done (puts_of rows.now) tables.old) × LeadsBack log.items tables.new tables.old) }
    ensures err { OnErr result (tables.new ≡ tables.old) }
{
    let mut log = Vec::new(alloc);
    for row in rows {
        if row.is_put() {
            match put_logged(alloc, tables, row, &mut log) {
                Ok(()) => {}
                Err(error) => {
                    undo(tables, log);
                    return Err(error);
                }
            }
        }
    }
    Ok(log)
}

/// Does the removals among the rows, without memory.
pub fn settle(tables: &mut Tables, rows: &[RowChange])
    ensures { tables.new ≡ rows_done (removals_of rows.now) tables.old }
{
    for row in rows {
        if let RowChange::Remove(key) = row {
            remove(tables, key);
        }
    }
}
