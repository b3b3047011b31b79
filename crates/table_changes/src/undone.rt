//! What undoes a change.
ghost use Rattle.std.specs.Prelude.{◌≡◌, true, IfOk, option_map};
ghost use Rattle.std.specs.Option.{option_copied};
ghost use Rattle.hub_rows.specs.RowKeys.{is_put};
ghost use Rattle.hub_tables.specs.Changes as spec;
ghost use Rattle.hub_tables.specs.Changes.{row_done, has_row, put_or_remove, FitsRow};

use hub_rows::changes::RowChange;
use hub_rows::kinds::OfKind;
use hub_rows::rows::{Row, RowKey};
use hub_tables::tables::Tables;
use std::alloc::{AllocError, Global};

/// The change that undoes another: a put of a copy of the row that is kept under its key, or a removal where none is kept.
/// After a put it may be done, and needs no memory.
pub fn way_back(tables: &Tables, alloc: Global, change: &RowChange) -> Result<RowChange, AllocError>
    ensures value { IfOk result (λ back. back ≡ spec.way_back tables.now change.now) }
    ensures undoes { IfOk result (λ back. row_done back (row_done change.now tables.now) ≡ tables.now) }
    ensures fits { IfOk result (λ back. is_put change.now ≡ true → FitsRow tables.now change.now
        → FitsRow (row_done change.now tables.now) back) }
    ensures kept { IfOk result (λ back. is_put change.now ≡ true → is_put back ≡ true
        → has_row (row_done change.now tables.now) back ≡ true) }
{
    tables.own_keys();
    back_of(tables, alloc, change)
}

fn back_of(tables: &Tables, alloc: Global, change: &RowChange) -> Result<RowChange, AllocError>
    ensures { IfOk result (λ back. back ≡ spec.way_back tables.now change.now) }
{
    as_it_is(tables, alloc, change.key(alloc)?)
}

/// The change that sets the row of a key as it is.
fn as_it_is(tables: &Tables, alloc: Global, key: RowKey) -> Result<RowChange, AllocError>
    ensures { IfOk result (λ back. back ≡ put_or_remove key (spec.row_at tables.now key)) }
{
    match row_at(tables, alloc, &key) {
        Ok(Some(row)) => {
            drop(key);
            Ok(RowChange::Put(row))
        }
        Ok(None) => Ok(RowChange::Remove(key)),
        Err(error) => {
            drop(key);
            Err(error)
        }
    }
}

/// A copy of the row that stands under a key.
pub fn row_at(tables: &Tables, alloc: Global, key: &RowKey) -> Result<Option<Row>, AllocError>
    ensures { IfOk result (λ row. row ≡ spec.row_at tables.now key.now) }
{
    match key {
        RowKey::User(name) => copied(alloc, tables.user(name)),
        RowKey::Group(name) => copied(alloc, tables.group(name)),
        RowKey::Service(name) => copied(alloc, tables.service(name)),
        RowKey::Role(name) => copied(alloc, tables.role(name)),
        RowKey::Token(id) => copied(alloc, tables.token(*id)),
        RowKey::ServerRow(key) => copied(alloc, tables.server(key)),
        RowKey::Lease(target) => copied(alloc, tables.lease(target)),
        RowKey::Share(key) => copied(alloc, tables.share(&key.server, &key.to)),
        RowKey::ShareCode(id) => copied(alloc, tables.code(*id)),
        RowKey::OAuthClient(id) => copied(alloc, tables.client(id)),
        RowKey::OAuthCode(hash) => copied(alloc, tables.grant_code(hash)),
        RowKey::Next(name) => copied(alloc, tables.next_of(name)),
    }
}

/// A copy of a row, if there is one.
fn copied<R: OfKind>(alloc: Global, row: Option<&R>) -> Result<Option<Row>, AllocError>
    ensures { IfOk result (λ copy. copy ≡ option_map R.row_of (option_copied row.entry)) }
{
    match row {
        Some(row) => Ok(Some(row.copy_row(alloc)?)),
        None => Ok(None),
    }
}
