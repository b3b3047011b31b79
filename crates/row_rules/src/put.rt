//! Rows, put into tables. A token or a share code can be put where neither its id nor its hash is taken.
ghost use Rattle.std.specs.Prelude.{◌≡◌, not, ◌||◌, fold, IsTrue, OnOk};
ghost use Rattle.hub_rows.specs.declared.records.ShareCode.{ShareCode};
ghost use Rattle.hub_tables.specs.Changes.{with_row, FitsKey};
ghost use Rattle.hub_tables.specs.Hashes.{FitsCode};
ghost use Rattle.row_rules.specs.Judged as spec;
ghost use Rattle.row_rules.specs.Judged.{with_other, with_hashed, with_user, users_back};

use hub_kit::text::Text;
use hub_rows::changes::RowChange;
use hub_rows::rows::Row;
use hub_tables::tables::Tables;
use std::alloc::{AllocError, Global};
use table_changes::change;

/// Puts the users, from the last one on, and of those of one name the last. Where users come in the order of names, each finds its place
/// before the first key of a node; from the first one on it would be compared with all keys there.
pub(crate) fn put_users(tables: &mut Tables, rows: &[Row]) -> Result<(), AllocError>
    ensures { OnOk result (tables.new ≡ record tables.old { users = users_back rows.now tables.old.users }) }
{
    let mut left = rows.len();
    'users: while left > 0 {
        left -= 1;
        put_user(tables, &rows[left])?;
    }
    Ok(())
}

/// Puts a user whose name isn't kept.
fn put_user(tables: &mut Tables, row: &Row) -> Result<(), AllocError>
    ensures { OnOk result (tables.new ≡ record tables.old { users = with_user row.now tables.old.users }) }
{
    let Row::User(user) = row else {
        return Ok(());
    };
    if tables.user(&user.name).is_some() {
        return Ok(());
    }
    match tables.put_user(*user, None) {
        Ok(()) => Ok(()),
        Err(_) => Err(AllocError),
    }
}

/// Puts the rows that are no users and aren't found by a hash.
pub(crate) fn put_others(alloc: Global, tables: &mut Tables, rows: &[Row]) -> Result<(), AllocError>
    ensures { OnOk result (tables.new ≡ fold (λ t row. with_other row t) tables.old rows.now) }
{
    for row in rows {
        put_other(alloc, tables, row)?;
    }
    Ok(())
}

fn put_other(alloc: Global, tables: &mut Tables, row: &Row) -> Result<(), AllocError>
    ensures { OnOk result (tables.new ≡ with_other row.now tables.old) }
{
    if is_user(row) || is_hashed(row) {
        return Ok(());
    }
    put_copy(alloc, tables, row)
}

fn put_copy(alloc: Global, tables: &mut Tables, row: &Row) -> Result<(), AllocError>
    requires { FitsKey tables.old row.now }
    ensures { OnOk result (tables.new ≡ with_row row.now tables.old) }
{
    change(tables, RowChange::Put(row.copy(alloc)?))
}

/// Puts a row that is found by a hash, and lets another go, which is put already.
pub(crate) fn put_hashed(tables: &mut Tables, row: Row) -> Result<(), AllocError>
    requires { FitsKey tables.old row }
    ensures { OnOk result (tables.new ≡ with_hashed row tables.old) }
{
    if is_hashed(&row) {
        return change(tables, RowChange::Put(row));
    }
    drop(row);
    Ok(())
}

fn is_user(row: &Row) -> bool
    ensures { result ≡ spec.is_user row.now }
{
    matches!(row, Row::User(_))
}

/// Whether a row is found by a hash.
fn is_hashed(row: &Row) -> bool
    ensures { result ≡ spec.is_hashed row.now }
{
    matches!(row, Row::Token(_) | Row::ShareCode(_))
}

/// Whether a row may be put: no other has its id or its hash.
pub(crate) fn is_free(tables: &Tables, row: &Row) -> bool
    ensures value { result ≡ spec.is_free tables.now row.now }
    ensures fits { IsTrue result → FitsKey tables.now row.now }
{
    match row {
        Row::Token(token) => tables.token_is_new(token.id, &token.hash),
        Row::ShareCode(code) => code_is_new(tables, code.id, &code.hash),
        _ => true,
    }
}

/// Whether neither the id nor the hash of a share code is kept.
fn code_is_new(tables: &Tables, id: u64, hash: &Text) -> bool
    ensures value { result ≡ spec.are_free (λ row. row.hash) tables.now.codes id hash.now }
    ensures fits { IsTrue result → (row : ShareCode) → row.id ≡ id → row.hash ≡ hash.now → FitsCode tables.now.codes row }
{
    neither(
        tables.code(id).is_some(),
        tables.code_of_hash(hash).is_some(),
    )
}

fn neither(one: bool, other: bool) -> bool
    ensures { result ≡ not (one || other) }
{
    !one && !other
}
