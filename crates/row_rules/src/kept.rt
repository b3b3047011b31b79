//! The tables of kept rows.
ghost use Rattle.row_rules.specs.Across.{IsAnswer};

use crate::judged::put_judged;
use hub_rows::limits::Limits;
use hub_rows::rows::Row;
use hub_tables::tables::Tables;
use scope_names::table::ScopeTable;
use std::alloc::Global;

/// Why rows make no tables. `Broken` has the place of the first row that breaks a rule, and the row.
#[derive(Drop)]
pub enum RowsError {
    Broken { place: usize, row: Row },
    Memory,
}

/// The tables of these rows and no others, where each row keeps the rules. The rows come in the order of kind and key. Tokens and share
/// codes go into the tables as they are.
pub fn kept_tables(
    alloc: Global,
    limits: Limits,
    scopes: ScopeTable,
    rows: Vec<Row>,
) -> Result<Tables, RowsError>
    ensures { IsAnswer limits scopes rows.items result }
{
    let mut tables = Tables::new(alloc, limits, scopes);
    match put_judged(alloc, &mut tables, rows) {
        Ok(()) => Ok(tables),
        Err(error) => {
            // in one call, since they have many parts
            drop(tables);
            Err(error)
        }
    }
}
