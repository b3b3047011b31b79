//! Whether a store is one of this program.
ghost use Rattle.std.specs.Prelude.{◌≡◌, ◌≤◌, false, map, IsTrue, IsSome, IfSome, IfOk, IfErr, IsPermutation};
ghost use Rattle.sqlite.specs.View.{doubt};
ghost use Rattle.sqlite.specs.State.{HasCleanDisk};
ghost use Rattle.sqlite.specs.Held.{state};
ghost use Rattle.row_table.specs.Open.{StaysOpen};
ghost use Rattle.row_table.specs.Stored.{IsRowStore, whole};
ghost use Rattle.row_table.specs.Unread.{IsUnread};

use crate::{rows, schema, statements};
use sqlite::{Alter, Connection, Error, Row};

/// All rows of the store with their rowids, where the connection is in no transaction, and the store has the tables and rows of the
/// hub. Reads every row.
pub fn own_rows<S: Alter>(conn: &mut Connection<S>) -> Result<Option<Vec<Row>>, Error>
    ensures clean { doubt (state S.Store conn.old).is_clean ≤ doubt (state S.Store conn.new).is_clean }
    ensures mode { conn.old.in_transaction ≡ false → conn.new.in_transaction ≡ false }
    ensures stays { StaysOpen (state S.Store conn.old) (state S.Store conn.new) }
    ensures open { HasCleanDisk (state S.Store conn.new) → IsTrue (state S.Store conn.old).is_open
        → IfOk result (λ known. IsTrue (state S.Store conn.new).is_open) }
    ensures stands { HasCleanDisk (state S.Store conn.new) → IsTrue (state S.Store conn.new).is_open
        → IsTrue (state S.Store conn.old).is_open × ((state S.Store conn.new).now ≡ (state S.Store conn.old).now) }
    ensures apart { IfOk result (λ known. IsSome known → conn.old.in_transaction ≡ false) }
    ensures known { HasCleanDisk (state S.Store conn.new) → IsTrue (state S.Store conn.new).is_open
        → IfOk result (λ known. IsSome known → IsRowStore (state S.Store conn.new).now) }
    ensures only { HasCleanDisk (state S.Store conn.new) → conn.old.in_transaction ≡ false → IsRowStore (state S.Store conn.old).now
        → IfOk result IsSome }
    ensures whole { HasCleanDisk (state S.Store conn.new)
        → IfOk result (λ known. IfSome known (λ rows. IsPermutation (map whole ((state S.Store conn.old).now.trees 0)) rows.items)) }
    ensures unread { HasCleanDisk (state S.Store conn.new) → IfErr result (IsUnread (state S.Store conn.old) (state S.Store conn.new)) }
{
    if !conn.is_autocommit() || !schema::is_store_schema(conn.schema()) {
        return Ok(None);
    }
    let all = statements::select_all(conn)?;
    Ok(rows::if_ours(all))
}
