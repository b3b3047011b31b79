//! That a keeper over a database succeeds where there is memory, finds the stores of this program, and refuses those of another number.
use crate::check::{check, text};
use hub_kit::list::List;
use keeper::keeper::{Batch, Item, Keeper, KeeperError, Row};
use keeper_sqlite::sqlite_keeper::SqliteKeeper;
use sqlite::MemStore;
use std::alloc::Global;
use std::process::Abort;

/// Kinds, keys and texts, where a row whose text is empty is deleted.
const SCRIPT: [(u8, &str, &str); 8] = [
    (10, "a", "ten"),
    (2, "b", "{}"),
    (1, "zed", "old"),
    (1, "Zed", "é"),
    (1, "", "an empty key"),
    (1, "zed", "new"),
    (2, "b", ""),
    (2, "nobody", ""),
];

/// What is then kept, in order.
const ROWS: [(u8, &str, &str); 4] = [
    (1, "", "an empty key"),
    (1, "Zed", "é"),
    (1, "zed", "new"),
    (10, "a", "ten"),
];

fn item(rt: &impl Abort, alloc: Global, row: &(u8, &str, &str)) -> Item {
    let kind = row.0;
    let key = text(rt, alloc, row.1);
    if row.2.is_empty() {
        return Item::Delete { kind, key };
    }
    Item::Put(Row {
        kind,
        key,
        text: text(rt, alloc, row.2),
    })
}

fn script(rt: &impl Abort, alloc: Global) -> Batch {
    let mut batch = List::new(alloc);
    for row in &SCRIPT {
        batch
            .push(item(rt, alloc, row))
            .expect(rt, "there is memory");
    }
    batch
}

fn is_row(row: &Row, wanted: &(u8, &str, &str)) -> bool {
    let (kind, key, text) = *wanted;
    row.kind == kind && row.key.as_str() == key && row.text.as_str() == text
}

fn are_rows(rows: &[Row], wanted: &[(u8, &str, &str)]) -> bool {
    if rows.len() != wanted.len() {
        return false;
    }
    for at in 0..wanted.len() {
        if !is_row(&rows[at], &wanted[at]) {
            return false;
        }
    }
    true
}

fn in_memory(rt: &impl Abort, alloc: Global) -> SqliteKeeper<MemStore> {
    SqliteKeeper::in_memory(alloc).expect(rt, "there is memory")
}

/// Commits the script.
fn commit(rt: &impl Abort, alloc: Global, keeper: &mut SqliteKeeper<MemStore>) {
    let script = script(rt, alloc);
    keeper.commit(&script).expect(rt, "a commit");
    drop(script);
}

/// Whether these are the keeper's rows.
fn has_rows(
    rt: &impl Abort,
    keeper: &mut SqliteKeeper<MemStore>,
    wanted: &[(u8, &str, &str)],
) -> bool {
    let rows = keeper.load().expect(rt, "a load");
    let holds = are_rows(rows.as_slice(), wanted);
    drop(rows);
    holds
}

/// A keeper over what another one left, after the statement was run there.
fn run_below(
    rt: &impl Abort,
    alloc: Global,
    keeper: SqliteKeeper<MemStore>,
    sql: &str,
) -> SqliteKeeper<MemStore> {
    let mut connection = keeper.into_connection();
    connection.execute_batch(sql).expect(rt, "a statement");
    SqliteKeeper::over(alloc, connection)
}

#[test]
fn a_batch_of_puts_and_deletes(rt: HostRuntime) {
    let alloc = rt.alloc();
    let mut keeper = in_memory(&rt, alloc);
    check(&rt, has_rows(&rt, &mut keeper, &[]), "an empty store");
    commit(&rt, alloc, &mut keeper);
    commit(&rt, alloc, &mut keeper);
    check(&rt, has_rows(&rt, &mut keeper, &ROWS), "what is left");
    drop(keeper);
}

/// Whether the keeper refuses to load and to commit.
fn refuses(rt: &impl Abort, alloc: Global, keeper: &mut SqliteKeeper<MemStore>) -> bool {
    let script = script(rt, alloc);
    let refused = matches!(keeper.load().err(), Some(KeeperError::Failed))
        & matches!(keeper.commit(&script), Err(KeeperError::Failed));
    drop(script);
    refused
}

#[test]
fn a_store_with_another_number(rt: HostRuntime) {
    let alloc = rt.alloc();
    let mut keeper = in_memory(&rt, alloc);
    commit(&rt, alloc, &mut keeper);
    let first = "UPDATE meta SET value = 1";
    let mut keeper = run_below(&rt, alloc, keeper, first);
    commit(&rt, alloc, &mut keeper);
    let third = "UPDATE meta SET value = 3 WHERE value = 2";
    let mut keeper = run_below(&rt, alloc, keeper, third);
    check(&rt, refuses(&rt, alloc, &mut keeper), "a third number");
    drop(keeper);
}

/// A keeper that finds the store of another one.
fn resumed(
    rt: &impl Abort,
    alloc: Global,
    keeper: SqliteKeeper<MemStore>,
) -> SqliteKeeper<MemStore> {
    SqliteKeeper::resume(alloc, keeper.into_connection())
        .ok()
        .expect(rt, "a store that is read")
}

#[test]
fn a_store_is_resumed(rt: HostRuntime) {
    let alloc = rt.alloc();
    let mut keeper = in_memory(&rt, alloc);
    check(&rt, keeper.is_own(), "a new store");
    commit(&rt, alloc, &mut keeper);
    let mut again = resumed(&rt, alloc, keeper);
    let has_rows = again.is_own() & has_rows(&rt, &mut again, &ROWS);
    check(&rt, has_rows, "its rows");
    let other = "INSERT INTO row (kind, key, text) VALUES (-1, 'x', 'y')";
    let other = run_below(&rt, alloc, again, other);
    check(&rt, !other.is_own(), "a row of another program");
    let other = resumed(&rt, alloc, other);
    check(&rt, !other.is_own(), "the same once it is resumed");
    drop(other);
}
