//! The tables of what a keeper has.
ghost use Rattle.std.specs.Prelude.{◌≡◌, ◌≤◌, false, List, IfOk, IfErr};
ghost use Rattle.keeper.specs.Rows.{AreSame};
ghost use Rattle.keeper.specs.declared.keeper.Row.{Row as Kept};
ghost use Rattle.kept_rows.specs.Reading.{kept_as, AreReadAs};
ghost use Rattle.record_texts.specs.Rows.{Names};
ghost use Rattle.hub_opening.specs.Kept as spec;
ghost use Rattle.hub_opening.specs.Opening.{refusal_of as refusal, IsUnread};

use crate::config::HubConfig;
use crate::open_error::OpenError;
use hub_rows::changes::RowChange;
use hub_rows::rows::Row;
use hub_tables::tables::Tables;
use keeper::keeper::{Item, Keeper, KeeperError, Row as KeptRow};
use kept_rows::reading::read_rows;
use record_texts::item::item_of;
use record_texts::record::RowError;
use row_rules::kept::{RowsError, kept_tables};
use scope_names::table::{ScopeTable, TableError};
use std::alloc::{AllocError, Global};

pub(crate) fn refusal_of(error: KeeperError) -> OpenError
    ensures { result ≡ refusal error }
{
    match error {
        KeeperError::Failed => OpenError::KeeperFault,
        KeeperError::Memory => OpenError::Memory,
    }
}

/// Reads what the keeper has.
pub(crate) fn load_tables<K: Keeper>(
    alloc: Global,
    keeper: &mut K,
    config: &HubConfig,
) -> Result<Tables, OpenError>
    requires { spec.MakeTable config.now.custom_scopes }
    ensures ok { IfOk result (spec.AreLoaded config.now.limits config.now.custom_scopes (K.Tells keeper.new) (K.rows keeper.old)) }
    ensures err { IfErr result (IsUnread config.now.limits config.now.custom_scopes (K.Tells keeper.new) (K.rows keeper.old)
        (K.faults keeper.old) (K.faults keeper.new)) }
    ensures kept { K.Tells keeper.new → K.Tells keeper.old × AreSame (K.rows keeper.new) (K.rows keeper.old) }
    ensures counted { K.faults keeper.old ≤ K.faults keeper.new }
{
    match keeper.load() {
        Ok(kept) => tables_of(alloc, kept, config),
        Err(error) => Err(refusal_of(error)),
    }
}

/// The tables of kept rows: each is read by itself, and then the rules across rows are asked.
fn tables_of(alloc: Global, kept: Vec<KeptRow>, config: &HubConfig) -> Result<Tables, OpenError>
    requires { spec.MakeTable config.now.custom_scopes }
    ensures { spec.AreTables config.now.limits config.now.custom_scopes kept.items result }
{
    match read_rows(alloc, kept) {
        Ok(rows) => sound_tables(alloc, rows.into_vec(), config),
        Err(error) => Err(unread(error)),
    }
}

fn unread(error: RowError) -> OpenError
    ensures { spec.IsSaid error result }
{
    match error {
        RowError::BadRow { kind, key } => OpenError::BadRow { kind, key },
        RowError::Memory => OpenError::Memory,
    }
}

/// The tables of rows that were read, if none breaks a rule across rows.
fn sound_tables(alloc: Global, rows: Vec<Row>, config: &HubConfig) -> Result<Tables, OpenError>
    requires { spec.MakeTable config.now.custom_scopes }
    ensures { (kept : List Kept) → AreReadAs kept rows.items → spec.AreTables config.now.limits config.now.custom_scopes kept result }
{
    let Ok(scopes) = scope_table(alloc, config) else {
        return Err(OpenError::Memory);
    };
    match kept_tables(alloc, config.limits, scopes, rows) {
        Ok(tables) => Ok(tables),
        Err(RowsError::Broken { row, .. }) => Err(bad_row(alloc, &row)),
        Err(RowsError::Memory) => Err(OpenError::Memory),
    }
}

/// The table of the declared custom scopes. They make one, so that memory alone may be wanting.
fn scope_table(alloc: Global, config: &HubConfig) -> Result<ScopeTable, AllocError>
    requires { spec.MakeTable config.now.custom_scopes }
    ensures { IfOk result (λ table. table ≡ config.now.custom_scopes) }
{
    match ScopeTable::new(alloc, config.custom_scopes.as_slice()) {
        Ok(table) => Ok(table),
        Err(error) => {
            if is_memory(error) {
                Err(AllocError)
            } else {
                unreachable!()
            }
        }
    }
}

fn is_memory(error: TableError) -> bool
    ensures { result ≡ false → ¬ (error ≡ TableError.Memory) }
{
    matches!(error, TableError::Memory)
}

fn bad_row(alloc: Global, row: &Row) -> OpenError
    ensures { spec.IsBadRow (kept_as row.now) result }
{
    match kept_as(alloc, row) {
        Ok(KeptRow { kind, key, .. }) => OpenError::BadRow { kind, key },
        Err(_) => OpenError::Memory,
    }
}

/// What a keeper has for a row, of which alone the row may have been read.
fn kept_as(alloc: Global, row: &Row) -> Result<KeptRow, AllocError>
    ensures { IfOk result (λ kept. kept ≡ kept_as row.now) }
{
    match item_of(alloc, &RowChange::Put(row.copy(alloc)?))? {
        Item::Put(kept) => Ok(kept),
        Item::Delete { .. } => Err(AllocError),
    }
}
