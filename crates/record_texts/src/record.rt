//! Records, and the rows that stand for them.
ghost use Rattle.std.specs.Prelude.{◌≡◌, ℕ, List, IfOk, IfErr, OnOk, IsTrue};
ghost use Rattle.serde_json.specs.Data.{Data};
ghost use Rattle.serde_json.specs.View.{view};
ghost use Rattle.key_texts.specs.Finds.{Finds};
ghost use Rattle.record_texts.specs.Plain.{IsRecordData};
ghost use Rattle.record_texts.specs.Rows.{row_with, Reads, Names};

use hub_kit::text::Text;
use keeper::keeper::Row;
use key_texts::unread::Unread;
use serde_json::Value;
use std::alloc::{AllocError, Global};

/// Why a row was not read. `BadRow` comes exactly where the row is that of no record of its kind, and has its kind and key.
#[derive(Drop)]
pub enum RowError {
    BadRow { kind: u8, key: Text },
    Memory,
}

/// What is kept as a row. Its key is a text, and its text the compact JSON of an object (RFC 8259), with members in the order
/// of their names and whole numbers for moments.
pub trait Record: Drop {
    ghost KIND: { ℕ };

    /// The number of the kind.
    const KIND: u8;

    ghost key_of: { Self → List ℕ };

    /// The object.
    ghost shape_of: { Self → Data };

    /// What is true of each value of the type.
    ghost valid: { Self → Type 0 };

    fn key(&self, alloc: Global) -> Result<Text, AllocError>
        ensures { IfOk result (λ text. text ≡ key_of self.now) };

    fn value(&self, alloc: Global) -> Result<Value, AllocError>
        ensures shape { IfOk result (λ v. view v ≡ shape_of self.now) }
        ensures valid { OnOk result (valid self.now) };

    /// Finds the record of a key and an object, if there is one. It may find another where there is none.
    fn find(alloc: Global, key: &str, value: &Value) -> Result<Self, Unread>
        ensures { (r : Self) → valid r → key_of r ≡ key.now → shape_of r ≡ view value.now → Finds result r };

    ghost plain: { (r : Self) → valid r → IsRecordData (shape_of r) };
}

/// The row of a record.
pub fn row_of<R: Record>(alloc: Global, kept: &R) -> Result<Row, AllocError>
    ensures row { IfOk result (λ row. row ≡ row_with R.KIND (R.key_of kept.now) (R.shape_of kept.now)) }
    ensures valid { OnOk result (R.valid kept.now) }
{
    let shape = kept.value(alloc)?;
    let written = shape.to_string(alloc);
    drop(shape);
    let text = Text::from_string(written?);
    let key = kept.key(alloc)?;
    Ok(Row {
        kind: R::KIND,
        key,
        text,
    })
}

fn bad_row(alloc: Global, row: &Row) -> RowError
    ensures { Names row.now result }
{
    match row.key.copy(alloc) {
        Ok(key) => RowError::BadRow {
            kind: row.kind,
            key,
        },
        Err(_) => RowError::Memory,
    }
}

fn is_same_row(a: &Row, b: &Row) -> bool
    ensures same { IsTrue result → a.now ≡ b.now }
    ensures all { a.now ≡ b.now → IsTrue result }
{
    a.kind == b.kind && a.key == b.key && a.text == b.text
}

/// The record that a row stands for.
pub fn of_row<R: Record>(alloc: Global, row: &Row) -> Result<R, RowError>
    ensures ok { IfOk result (λ r. R.valid r × (row.now ≡ row_with R.KIND (R.key_of r) (R.shape_of r))) }
    ensures only { (r : R) → R.valid r → row.now ≡ row_with R.KIND (R.key_of r) (R.shape_of r) → Reads result r }
    ensures names { IfErr result (Names row.now) }
{
    let value = match Value::from_str(alloc, row.text.as_str()) {
        Ok(value) => value,
        Err(error) => {
            let is_memory = error.is_memory();
            drop(error);
            if is_memory {
                return Err(RowError::Memory);
            }
            return Err(bad_row(alloc, row));
        }
    };
    let found = R::find(alloc, row.key.as_str(), &value);
    drop(value);
    match found {
        Ok(found) => checked(alloc, row, found),
        Err(error) => match error {
            Unread::Bad => Err(bad_row(alloc, row)),
            Unread::Memory => Err(RowError::Memory),
        },
    }
}

/// The record that was found, if the row is its row.
fn checked<R: Record>(alloc: Global, row: &Row, found: R) -> Result<R, RowError>
    ensures ok { IfOk result (λ r. R.valid r × (row.now ≡ row_with R.KIND (R.key_of r) (R.shape_of r))) }
    ensures only { R.valid found → row.now ≡ row_with R.KIND (R.key_of found) (R.shape_of found) → Reads result found }
    ensures names { IfErr result (Names row.now) }
{
    let Ok(again) = row_of(alloc, &found) else {
        drop(found);
        return Err(RowError::Memory);
    };
    let is_same = is_same_row(&again, row);
    drop(again);
    if is_same {
        Ok(found)
    } else {
        drop(found);
        Err(bad_row(alloc, row))
    }
}
