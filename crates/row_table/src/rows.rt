//! Whether the rows of a table are rows of the hub.
ghost use Rattle.std.specs.Prelude.{◌≡◌, ◌≢◌, ℕ, ℤ, List, None, IsTrue, IsSome, IfSome};
ghost use Rattle.sqlite.specs.Order.{column};
ghost use Rattle.sqlite.specs.declared.types.Value.TheVariants.{Int, Text as Words};
ghost use Rattle.row_table.specs.Ours.{IsOurs, IsAbove, AreOurs};

use sqlite::Row;
use sqlite::types::ValueRef;

fn number_at(row: &Row, at: usize) -> Option<i64>
    ensures some { IfSome result (λ n. column row.now at ≡ Int n) }
    ensures none { result ≡ None → (n : ℤ) → column row.now at ≢ Int n }
{
    match row.get_ref(at) {
        Ok(ValueRef::Int(n)) => Some(n),
        _ => None,
    }
}

fn has_text_at(row: &Row, at: usize) -> bool
    ensures text { IsTrue result → (s : List ℕ) × (column row.now at ≡ Words s) }
    ensures only { (s : List ℕ) → column row.now at ≡ Words s → IsTrue result }
{
    matches!(row.get_ref(at), Ok(ValueRef::Text(_)))
}

/// The rowid of a row of the hub, whose kind is no negative number, and whose key and text are texts.
fn id_of(row: &Row) -> Option<i64>
    ensures ours { IfSome result (λ id. IsOurs id row.now) }
    ensures none { result ≡ None → (id : ℤ) → ¬ IsOurs id row.now }
{
    let id = number_at(row, 0)?;
    let kind = number_at(row, 1)?;
    if kind >= 0 && has_text_at(row, 2) && has_text_at(row, 3) {
        Some(id)
    } else {
        None
    }
}

fn is_above(last: Option<i64>, id: i64) -> bool
    ensures above { IsTrue result → IsAbove last id }
    ensures only { IsAbove last id → IsTrue result }
{
    match last {
        Some(last) => last < id,
        None => true,
    }
}

/// Whether each is a row of the hub, and their rowids rise.
fn are_ours(rows: &[Row]) -> bool
    ensures ours { IsTrue result → AreOurs rows.now }
    ensures only { AreOurs rows.now → IsTrue result }
{
    let mut last = None;
    for row in rows {
        let Some(id) = id_of(row) else {
            return false;
        };
        if !is_above(last, id) {
            return false;
        }
        last = Some(id);
    }
    true
}

/// The rows, where each is a row of the hub and their rowids rise.
pub fn if_ours(rows: Vec<Row>) -> Option<Vec<Row>>
    ensures same { IfSome result (λ all. all ≡ rows) }
    ensures ours { IsSome result → AreOurs rows.items }
    ensures only { AreOurs rows.items → IsSome result }
{
    if are_ours(rows.as_slice()) {
        Some(rows)
    } else {
        None
    }
}
