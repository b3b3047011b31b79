//! The statements, each of which has a text of its own. All of them are run in a transaction, but for the selection.
ghost use Rattle.std.specs.Prelude.{◌≡◌, ◌≤◌, false, [], ◌∷◌, pos, map, List, Some, None, Ok, IsTrue, IfOk, IfErr, OnOk, IsPermutation};
ghost use Rattle.sqlite.specs.Batch.{ExecutesAllInside};
ghost use Rattle.sqlite.specs.View.{doubt};
ghost use Rattle.sqlite.specs.declared.types.Value.TheVariants.{Int, Text as Words};
ghost use Rattle.sqlite.specs.State.{HasCleanDisk, ExecutesInside, QueriesRow, Shown};
ghost use Rattle.sqlite.specs.Held.{state};
ghost use Rattle.keeper.specs.Rows.{with_text, no_rows, Lists};
ghost use Rattle.row_table.specs.Tables.{no_schema, store_schema};
ghost use Rattle.keeper.specs.declared.keeper.Row.{Row as Kept};
ghost use Rattle.row_table.specs.Open.{StaysOpen};
ghost use Rattle.row_table.specs.Ours.{AreOurs};
ghost use Rattle.row_table.specs.Shown.{shown, front};
ghost use Rattle.row_table.specs.Unread.{IsUnread};
ghost use Rattle.row_table.specs.Stored.{IsRowStore, HasRows, rows_of, whole};
ghost use Rattle.row_table.specs.Texts.{make_text, raise_text, number_text, put_text, delete_text, select_text, all_text, StaysInside};
ghost use Rattle.row_table.specs.Texts.{Leaves};

use sqlite::{Alter, Connection, Error, Row, Transaction, params};

/// Makes the tables of an empty store. The number `schema` says of what form a store is.
pub fn make_tables<S: Alter>(tx: &mut Transaction<'_, S>) -> Result<(), Error>
    ensures same_reference { tx.new.conn.ghost_name ≡ tx.old.conn.ghost_name }
    ensures clean { doubt (state S.Store tx.old.conn.now).is_clean ≤ doubt (state S.Store tx.new.conn.now).is_clean }
    ensures stays { StaysOpen (state S.Store tx.old.conn.now) (state S.Store tx.new.conn.now) }
    ensures kept { HasCleanDisk (state S.Store tx.new.conn.now)
        → StaysInside (state S.Store tx.old.conn.now) (state S.Store tx.new.conn.now) result }
    ensures made { HasCleanDisk (state S.Store tx.new.conn.now) → (state S.Store tx.old.conn.now).now.schema ≡ no_schema
        → OnOk result (HasRows (state S.Store tx.new.conn.now).now no_rows) }
    ensures ran { HasCleanDisk (state S.Store tx.new.conn.now)
        → OnOk result (ExecutesAllInside S.Store 0 make_text tx.old.conn.now tx.new.conn.now (Ok tt)) }
{
    tx.execute_batch(
        "CREATE TABLE row (kind INTEGER, key TEXT, text TEXT, PRIMARY KEY (kind, key)) STRICT; CREATE TABLE meta (name TEXT PRIMARY KEY, value INTEGER) STRICT; INSERT INTO meta (name, value) VALUES ('schema', 2)",
    )
}

/// Says of a store of the first form that it is of the newest.
pub fn raise_number<S: Alter>(tx: &mut Transaction<'_, S>) -> Result<(), Error>
    ensures same_reference { tx.new.conn.ghost_name ≡ tx.old.conn.ghost_name }
    ensures clean { doubt (state S.Store tx.old.conn.now).is_clean ≤ doubt (state S.Store tx.new.conn.now).is_clean }
    ensures stays { StaysOpen (state S.Store tx.old.conn.now) (state S.Store tx.new.conn.now) }
    ensures kept { HasCleanDisk (state S.Store tx.new.conn.now)
        → StaysInside (state S.Store tx.old.conn.now) (state S.Store tx.new.conn.now) result }
    ensures raised { HasCleanDisk (state S.Store tx.new.conn.now) → IsRowStore (state S.Store tx.old.conn.now).now
        → OnOk result (HasRows (state S.Store tx.new.conn.now).now (rows_of ((state S.Store tx.old.conn.now).now.trees 0))) }
    ensures ran { HasCleanDisk (state S.Store tx.new.conn.now)
        → OnOk result (ExecutesAllInside S.Store 0 raise_text tx.old.conn.now tx.new.conn.now (Ok tt)) }
{
    tx.execute_batch("UPDATE meta SET value = 2 WHERE name = 'schema'")
}

/// The row of the number of a store.
pub fn find_number<S: Alter>(tx: &mut Transaction<'_, S>) -> Result<Row, Error>
    ensures same_reference { tx.new.conn.ghost_name ≡ tx.old.conn.ghost_name }
    ensures clean { doubt (state S.Store tx.old.conn.now).is_clean ≤ doubt (state S.Store tx.new.conn.now).is_clean }
    ensures stays { StaysOpen (state S.Store tx.old.conn.now) (state S.Store tx.new.conn.now) }
    ensures kept { HasCleanDisk (state S.Store tx.new.conn.now)
        → StaysInside (state S.Store tx.old.conn.now) (state S.Store tx.new.conn.now) result }
    ensures found { HasCleanDisk (state S.Store tx.new.conn.now)
        → IfOk result (λ row. QueriesRow number_text [] (state S.Store tx.old.conn.now) (state S.Store tx.new.conn.now) (Ok row)) }
{
    tx.query_row("SELECT value FROM meta WHERE name = 'schema'", &[])
}

/// Puts the text at this kind and key.
pub fn put_row<S: Alter>(
    tx: &mut Transaction<'_, S>,
    kind: u8,
    key: &str,
    text: &str,
) -> Result<usize, Error>
    ensures same_reference { tx.new.conn.ghost_name ≡ tx.old.conn.ghost_name }
    ensures clean { doubt (state S.Store tx.old.conn.now).is_clean ≤ doubt (state S.Store tx.new.conn.now).is_clean }
    ensures stays { StaysOpen (state S.Store tx.old.conn.now) (state S.Store tx.new.conn.now) }
    ensures put { HasCleanDisk (state S.Store tx.new.conn.now) → IsTrue (state S.Store tx.old.conn.now).in_transaction
        → IsRowStore (state S.Store tx.old.conn.now).now
        → OnOk result (HasRows (state S.Store tx.new.conn.now).now
        (with_text kind key.now (Some text.now) (rows_of ((state S.Store tx.old.conn.now).now.trees 0)))) }
    ensures runs { HasCleanDisk (state S.Store tx.new.conn.now) → IsTrue (state S.Store tx.old.conn.now).in_transaction
        → ExecutesInside 0 put_text (Int (pos kind) ∷ Words key.now ∷ Words text.now ∷ []) (state S.Store tx.old.conn.now)
        (state S.Store tx.new.conn.now) result }
{
    tx.execute(
        "INSERT INTO row (kind, key, text) VALUES (?1, ?2, ?3) ON CONFLICT (kind, key) DO UPDATE SET text = excluded.text",
        params![u32::from(kind), key, text],
    )
}

/// Deletes the row of this kind and key, if there is one.
pub fn delete_row<S: Alter>(
    tx: &mut Transaction<'_, S>,
    kind: u8,
    key: &str,
) -> Result<usize, Error>
    ensures same_reference { tx.new.conn.ghost_name ≡ tx.old.conn.ghost_name }
    ensures clean { doubt (state S.Store tx.old.conn.now).is_clean ≤ doubt (state S.Store tx.new.conn.now).is_clean }
    ensures stays { StaysOpen (state S.Store tx.old.conn.now) (state S.Store tx.new.conn.now) }
    ensures deleted { HasCleanDisk (state S.Store tx.new.conn.now) → IsTrue (state S.Store tx.old.conn.now).in_transaction
        → IsRowStore (state S.Store tx.old.conn.now).now
        → OnOk result (HasRows (state S.Store tx.new.conn.now).now
        (with_text kind key.now None (rows_of ((state S.Store tx.old.conn.now).now.trees 0)))) }
    ensures runs { HasCleanDisk (state S.Store tx.new.conn.now) → IsTrue (state S.Store tx.old.conn.now).in_transaction
        → ExecutesInside 0 delete_text (Int (pos kind) ∷ Words key.now ∷ []) (state S.Store tx.old.conn.now) (state S.Store tx.new.conn.now)
        result }
{
    tx.execute(
        "DELETE FROM row WHERE kind = ?1 AND key = ?2",
        params![u32::from(kind), key],
    )
}

/// All rows, in the order of kind and key.
pub fn select_rows<S: Alter>(conn: &mut Connection<S>) -> Result<Vec<Row>, Error>
    ensures clean { doubt (state S.Store conn.old).is_clean ≤ doubt (state S.Store conn.new).is_clean }
    ensures stays { StaysOpen (state S.Store conn.old) (state S.Store conn.new) }
    ensures mode { conn.old.in_transaction ≡ false → conn.new.in_transaction ≡ false }
    ensures left { HasCleanDisk (state S.Store conn.new) → Leaves select_text (state S.Store conn.old) (state S.Store conn.new) }
    ensures listed { HasCleanDisk (state S.Store conn.new) → IsRowStore (state S.Store conn.old).now
        → IfOk result (λ rows. (all : List Kept) → map shown all ≡ map front rows.items
        → Lists (rows_of ((state S.Store conn.old).now.trees 0)) all) }
    ensures shown { HasCleanDisk (state S.Store conn.new)
        → IfOk result (λ rows. Shown select_text [] (state S.Store conn.old) (state S.Store conn.new) rows.items) }
{
    conn.query_all("SELECT kind, key, text FROM row ORDER BY kind, key", &[])
}

/// The rows of the table with their rowids, each once, in the order of the rowids.
pub fn select_all<S: Alter>(conn: &mut Connection<S>) -> Result<Vec<Row>, Error>
    ensures clean { doubt (state S.Store conn.old).is_clean ≤ doubt (state S.Store conn.new).is_clean }
    ensures stays { StaysOpen (state S.Store conn.old) (state S.Store conn.new) }
    ensures mode { conn.old.in_transaction ≡ false → conn.new.in_transaction ≡ false }
    ensures left { HasCleanDisk (state S.Store conn.new) → Leaves all_text (state S.Store conn.old) (state S.Store conn.new) }
    ensures whole { HasCleanDisk (state S.Store conn.new) → (state S.Store conn.old).now.schema ≡ store_schema
        → IfOk result (λ rows. IsPermutation (map whole ((state S.Store conn.old).now.trees 0)) rows.items) }
    ensures open { HasCleanDisk (state S.Store conn.new) → IfOk result (λ rows. IsTrue (state S.Store conn.new).is_open) }
    ensures ours { HasCleanDisk (state S.Store conn.new) → IsRowStore (state S.Store conn.old).now
        → IfOk result (λ rows. AreOurs rows.items) }
    ensures unread { HasCleanDisk (state S.Store conn.new) → (state S.Store conn.old).now.schema ≡ store_schema
        → IfErr result (IsUnread (state S.Store conn.old) (state S.Store conn.new)) }
{
    conn.query_all("SELECT rowid, kind, key, text FROM row ORDER BY rowid", &[])
}
