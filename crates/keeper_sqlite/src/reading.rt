//! Rows of the database as rows of the hub.
ghost use Rattle.std.specs.Prelude.{◌≡◌, pos, map, IfOk, IfSome, IsSomeAnd, IsPermutation, IsSorted};
ghost use Rattle.sqlite.specs.Order.{column};
ghost use Rattle.sqlite.specs.declared.types.Value.TheVariants.{Int, Text as Words};
ghost use Rattle.keeper.specs.Rows.{row_cmp};
ghost use Rattle.row_table.specs.Shown.{shown, front, behind, IsInOrder};

use hub_kit::text::Text;
use keeper::keeper::Row;
use simdutf8::basic::from_utf8;
use sqlite::Error;
use sqlite::types::{Type, ValueRef};
use std::alloc::{AllocError, Global};
use std::cmp::Ordering;

fn kind_of(row: &sqlite::Row, at: usize) -> Result<u8, Error>
    ensures { IfOk result (λ kind. column row.now at ≡ Int (pos kind)) }
{
    let number: u32 = row.get(at)?;
    match u8::try_from(number) {
        Ok(kind) => Ok(kind),
        Err(_) => Err(Error::IntegralValueOutOfRange(at)),
    }
}

/// The text at a place. One of 64 bytes and more is tested as UTF-8 by whole blocks.
fn text_of(alloc: Global, row: &sqlite::Row, at: usize) -> Result<Text, Error>
    ensures { IfOk result (λ text. column row.now at ≡ Words text) }
{
    let value = row.get_ref(at)?;
    let ValueRef::Text(bytes) = value else {
        return Err(Error::InvalidColumnType(at, Type::of(value)));
    };
    let Ok(text) = from_utf8(bytes) else {
        return Err(Error::Utf8Error(at));
    };
    Ok(Text::from_str(alloc, text)?)
}

/// The row that shows as this one. Refuses a kind above 255, and values of other types.
fn row_of(alloc: Global, row: &sqlite::Row) -> Result<Row, Error>
    ensures { IfOk result (λ kept. shown kept ≡ front row.now) }
{
    Ok(Row {
        kind: kind_of(row, 0)?,
        key: text_of(alloc, row, 1)?,
        text: text_of(alloc, row, 2)?,
    })
}

/// The row that shows as this one behind its rowid. Refuses what `row_of` refuses.
fn row_behind(alloc: Global, row: &sqlite::Row) -> Result<Row, Error>
    ensures { IfOk result (λ kept. shown kept ≡ behind row.now) }
{
    Ok(Row {
        kind: kind_of(row, 1)?,
        key: text_of(alloc, row, 2)?,
        text: text_of(alloc, row, 3)?,
    })
}

/// The rows that show as these.
pub(crate) fn rows_of(alloc: Global, rows: Vec<sqlite::Row>) -> Result<Vec<Row>, Error>
    ensures { IfOk result (λ all. map shown all.items ≡ map front rows.items) }
{
    let mut all = Vec::with_capacity(alloc, rows.len())?;
    for row in rows {
        all.push(row_of(alloc, &row)?)?;
    }
    Ok(all)
}

/// The rows that show as these behind their rowids.
fn rows_behind(alloc: Global, rows: Vec<sqlite::Row>) -> Result<Vec<Row>, Error>
    ensures { IfOk result (λ all. map shown all.items ≡ map behind rows.items) }
{
    let mut all = Vec::with_capacity(alloc, rows.len())?;
    for row in rows {
        all.push(row_behind(alloc, &row)?)?;
    }
    Ok(all)
}

fn order(a: &Row, b: &Row) -> Ordering
    ensures { result ≡ row_cmp a.now b.now }
{
    a.kind.cmp(&b.kind).then(a.key.cmp(&b.key))
}

/// The same rows, in the order of kind and key. Most stores have those of a kind in a few runs of that order: once they stand together, the
/// sort finds these.
fn sorted(rows: Vec<Row>) -> Result<Vec<Row>, AllocError>
    ensures moved { IfOk result (λ all. IsPermutation rows.items all.items) }
    ensures sorted { IfOk result (λ all. IsSorted row_cmp all.items) }
{
    let mut all = rows;
    all.sort_by_key(|row| row.kind)?;
    all.sort_by(|a, b| order(a, b))?;
    Ok(all)
}

/// The rows that show as these behind their rowids, in the order of kind and key. There are none for want of memory, or where one
/// is refused.
fn in_order(alloc: Global, rows: Vec<sqlite::Row>) -> Option<Vec<Row>>
    ensures { IfSome result (λ all. IsInOrder rows.items all.items) }
{
    let Ok(all) = rows_behind(alloc, rows) else {
        return None;
    };
    match sorted(all) {
        Ok(all) => Some(all),
        Err(_) => None,
    }
}

/// The same, where there are rows.
pub(crate) fn any_in_order(alloc: Global, rows: Option<Vec<sqlite::Row>>) -> Option<Vec<Row>>
    ensures { IfSome result (λ all. IsSomeAnd rows (λ read. IsInOrder read.items all.items)) }
{
    match rows {
        Some(rows) => in_order(alloc, rows),
        None => None,
    }
}
