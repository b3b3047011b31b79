//! Rows, judged by the tables of all of them, and put.
ghost use Rattle.std.specs.Prelude.{◌≡◌, ◌<◌, ◌+◌, IsTrue, IfOk, OnOk};
ghost use Rattle.hub_tables.specs.Changes.{FitsKey};
ghost use Rattle.row_rules.specs.Judged.{AreOthersPut, IsBare, IsLedger, IsTaken, IsWeighed};

use crate::kept::RowsError;
use crate::put::{is_free, put_hashed, put_others, put_users};
use crate::seen::Seen;
use crate::standing::{Ledger, stands};
use hub_rows::rows::Row;
use hub_tables::tables::Tables;
use std::alloc::{AllocError, Global};

/// Puts the rows that aren't found by a hash, whatever the rules say of them, since all rows are judged by these; and gives what is asked of
/// them again and again.
fn lay(alloc: Global, tables: &mut Tables, rows: &[Row]) -> Result<Ledger, AllocError>
    requires { IsBare tables.old }
    ensures put { OnOk result (AreOthersPut tables.old rows.now tables.new) }
    ensures ledger { IfOk result (λ ledger. IsLedger tables.new ledger) }
{
    put_users(tables, rows)?;
    put_others(alloc, tables, rows)?;
    Ledger::of(alloc, tables)
}

/// Notes what a row has, and tells whether no row before it has the same, it stands on the tables, and its id and its hash are free.
fn keeps_rules(
    tables: &Tables,
    ledger: &Ledger,
    seen: &mut Seen,
    row: &Row,
) -> Result<bool, AllocError>
    requires { IsLedger tables.now ledger.now }
    ensures weighed { IfOk result (λ keeps. IsWeighed tables.now seen.old row.now keeps seen.new) }
    ensures fits { IfOk result (λ keeps. IsTrue keeps → FitsKey tables.now row.now) }
{
    let is_sole = seen.add(row)?;
    Ok(is_sole && stands(tables, ledger, row) && is_free(tables, row))
}

/// The place behind this one, among so many.
fn next(place: usize, count: usize) -> usize
    ensures { place < count → result ≡ place + 1 }
{
    if place < count { place + 1 } else { count }
}

/// Puts the rows into bare tables, where each keeps the rules. A token or a share code goes into them as it is, once all rows that aren't
/// found by a hash are there. After an error the tables have some of the rows.
pub(crate) fn put_judged(
    alloc: Global,
    tables: &mut Tables,
    rows: Vec<Row>,
) -> Result<(), RowsError>
    requires { IsBare tables.old }
    ensures { IsTaken tables.old rows.items result tables.new }
{
    let Ok(ledger) = lay(alloc, tables, rows.as_slice()) else {
        return Err(RowsError::Memory);
    };
    let count = rows.len();
    let mut seen = Seen::new(alloc);
    let mut place = 0;
    for row in rows {
        let Ok(keeps) = keeps_rules(tables, &ledger, &mut seen, &row) else {
            return Err(RowsError::Memory);
        };
        if !keeps {
            return Err(RowsError::Broken { place, row });
        }
        let Ok(()) = put_hashed(tables, row) else {
            return Err(RowsError::Memory);
        };
        place = next(place, count);
    }
    Ok(())
}
