//! Whether a schema is that of a store of this program, part by part.
ghost use Rattle.std.specs.Prelude.{◌≡◌, [], ◌∷◌, None, codes, false, IsTrue};
ghost use Rattle.row_table.specs.Tables.{plain_column, plain_index, row_table, meta_table, store_schema};

use sqlite_schema::schema::{Column, Index, Kind, Schema, Table};
use sqlite_value::keys::Collation;
use sqlite_value::value::Value;

fn is_column(column: &Column, name: &[u8], kind: Kind, not_null: bool) -> bool
    ensures is { IsTrue result → column.now ≡ plain_column name.now kind not_null }
    ensures only { column.now ≡ plain_column name.now kind not_null → IsTrue result }
{
    column.name.as_slice() == name
        && column.kind == kind
        && column.is_strict
        && column.not_null == not_null
        && matches!(column.default, Value::Null)
        && column.collation == Collation::Binary
}

/// Whether the table has no check, reference, computed default, stamp or count, and no key but its rowid.
fn is_bare(table: &Table) -> bool
    ensures is { IsTrue result → (table.now.key ≡ None) × (table.now.checks ≡ []) × (table.now.references ≡ []) × (table.now.computed ≡ [])
        × (table.now.stamps ≡ record { places = []; terms = []; formats = [] }) × (table.now.is_counted ≡ false) }
    ensures only { (table.now.key ≡ None) × (table.now.checks ≡ []) × (table.now.references ≡ []) × (table.now.computed ≡ [])
        × (table.now.stamps ≡ record { places = []; terms = []; formats = [] }) × (table.now.is_counted ≡ false) → IsTrue result }
{
    table.key.is_none()
        && table.checks.roots.is_empty()
        && table.references.is_empty()
        && table.computed.is_empty()
        && table.stamps.places.is_empty()
        && table.stamps.terms.roots.is_empty()
        && table.stamps.formats.is_empty()
        && !table.is_counted
}

fn has_one_key(table: &Table, places: &[usize]) -> bool
    ensures is { IsTrue result → table.now.uniques ≡ places.now ∷ [] }
    ensures only { table.now.uniques ≡ places.now ∷ [] → IsTrue result }
{
    let [unique] = table.uniques.as_slice() else {
        return false;
    };
    unique.as_slice() == places
}

fn has_plain_order(table: &Table) -> bool
    ensures is { IsTrue result → table.now.orders ≡ (record { digits = 0 }) ∷ [] }
    ensures only { table.now.orders ≡ (record { digits = 0 }) ∷ [] → IsTrue result }
{
    let [order] = table.orders.as_slice() else {
        return false;
    };
    order.digits == 0
}

/// Whether the primary key of the table is of these columns, and has the one index that SQLite makes.
fn is_keyed(table: &Table, places: &[usize]) -> bool
    ensures is { IsTrue result → (table.now.primary ≡ places.now) × (table.now.uniques ≡ places.now ∷ [])
        × (table.now.orders ≡ (record { digits = 0 }) ∷ []) }
    ensures only { (table.now.primary ≡ places.now) × (table.now.uniques ≡ places.now ∷ [])
        × (table.now.orders ≡ (record { digits = 0 }) ∷ []) → IsTrue result }
{
    table.primary.as_slice() == places && has_one_key(table, places) && has_plain_order(table)
}

fn has_row_columns(table: &Table) -> bool
    ensures is { IsTrue result → table.now.columns ≡ row_table.columns }
    ensures only { table.now.columns ≡ row_table.columns → IsTrue result }
{
    let [kind, key, text] = table.columns.as_slice() else {
        return false;
    };
    is_column(kind, b"kind", Kind::Integer, true)
        && is_column(key, b"key", Kind::Text, true)
        && is_column(text, b"text", Kind::Text, false)
}

fn has_meta_columns(table: &Table) -> bool
    ensures is { IsTrue result → table.now.columns ≡ meta_table.columns }
    ensures only { table.now.columns ≡ meta_table.columns → IsTrue result }
{
    let [name, value] = table.columns.as_slice() else {
        return false;
    };
    is_column(name, b"name", Kind::Text, true) && is_column(value, b"value", Kind::Integer, false)
}

fn is_row_table(table: &Table) -> bool
    ensures is { IsTrue result → table.now ≡ row_table }
    ensures only { table.now ≡ row_table → IsTrue result }
{
    table.name.as_slice() == b"row".as_slice()
        && table.tree == 0
        && has_row_columns(table)
        && is_keyed(table, &[1, 2])
        && is_bare(table)
}

fn is_meta_table(table: &Table) -> bool
    ensures is { IsTrue result → table.now ≡ meta_table }
    ensures only { table.now ≡ meta_table → IsTrue result }
{
    table.name.as_slice() == b"meta".as_slice()
        && table.tree == 2
        && has_meta_columns(table)
        && is_keyed(table, &[1])
        && is_bare(table)
}

fn is_index(index: &Index, name: &[u8], tree: u32, table: u32, columns: &[usize]) -> bool
    ensures is { IsTrue result → index.now ≡ plain_index name.now tree table columns.now }
    ensures only { index.now ≡ plain_index name.now tree table columns.now → IsTrue result }
{
    index.name.as_slice() == name
        && index.tree == tree
        && index.table == table
        && index.columns.as_slice() == columns
        && index.order.digits == 0
        && index.is_unique
}

fn has_both_tables(schema: &Schema) -> bool
    ensures is { IsTrue result → schema.now.tables ≡ row_table ∷ meta_table ∷ [] }
    ensures only { schema.now.tables ≡ row_table ∷ meta_table ∷ [] → IsTrue result }
{
    let [row, meta] = schema.tables.as_slice() else {
        return false;
    };
    is_row_table(row) && is_meta_table(meta)
}

fn has_both_indexes(schema: &Schema) -> bool
    ensures is { IsTrue result → schema.now.indexes ≡ plain_index (codes "sqlite_autoindex_row_1") 1 0 (1 ∷ 2 ∷ []) ∷ plain_index
        (codes "sqlite_autoindex_meta_1") 3 2 (1 ∷ []) ∷ [] }
    ensures only { schema.now.indexes ≡ plain_index (codes "sqlite_autoindex_row_1") 1 0 (1 ∷ 2 ∷ []) ∷ plain_index
        (codes "sqlite_autoindex_meta_1") 3 2 (1 ∷ []) ∷ [] → IsTrue result }
{
    let [row, meta] = schema.indexes.as_slice() else {
        return false;
    };
    is_index(row, b"sqlite_autoindex_row_1", 1, 0, &[1, 2])
        && is_index(meta, b"sqlite_autoindex_meta_1", 3, 2, &[1])
}

/// Whether the schema has the two tables as this program makes them, and nothing else.
pub fn is_store_schema(schema: &Schema) -> bool
    ensures is { IsTrue result → schema.now ≡ store_schema }
    ensures only { schema.now ≡ store_schema → IsTrue result }
{
    if !schema.views.is_empty() {
        return false;
    }
    has_both_tables(schema) && has_both_indexes(schema)
}
