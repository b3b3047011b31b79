//! What no clause says of kept rows: that rows which keep the rules make tables where there is memory, and which row each rule refuses.
use crate::check::{check, text};
use hub_rows::limits::Limits;
use hub_rows::rows::Row;
use keeper::keeper::Row as KeptRow;
use record_texts::record::{Record, of_row};
use row_rules::kept::{RowsError, kept_tables};
use scope_names::table::ScopeTable;
use std::alloc::Global;
use std::process::Abort;

const LIMITS: Limits = Limits {
    users: 2,
    groups: 2,
    services: 2,
    roles: 2,
    servers: 2,
    tokens: 2,
    shares: 2,
    codes: 2,
    trail_bytes: 0,
};

/// Kind, key and text of each row of a store that keeps the rules.
const STORE: [(u8, &str, &str); 18] = [
    (
        1,
        "ann",
        r#"{"admin":false,"created":1,"last_activity":null}"#,
    ),
    (
        1,
        "bob",
        r#"{"admin":false,"created":1,"last_activity":null}"#,
    ),
    (2, "lab", r#"{"users":["ann"]}"#),
    (3, "idle", "{}"),
    (
        4,
        "tutor",
        r#"{"groups":[],"scopes":["self"],"services":[],"users":["ann"]}"#,
    ),
    (
        5,
        "2",
        r#"{"client":null,"created":1,"expires_at":null,"hash":"b","issued_for":"ann/","note":"","owner":"user:ann","scopes":["inherit"]}"#,
    ),
    (
        5,
        "3",
        r#"{"client":"server:ann/","created":1,"expires_at":2,"hash":"c","issued_for":"ann/","note":"","owner":"service:idle","scopes":["inherit"]}"#,
    ),
    (
        6,
        "ann/",
        r#"{"created":1,"last_activity":null,"started":null}"#,
    ),
    (
        6,
        "ann/x",
        r#"{"created":1,"last_activity":null,"started":null}"#,
    ),
    (
        7,
        "http://127.0.0.1:9001",
        r#"{"generation":3,"server":"ann/"}"#,
    ),
    (7, "http://127.0.0.1:9002", r#"{"server":"ann/x"}"#),
    (
        8,
        "ann/x,user:bob",
        r#"{"created":1,"scopes":["access:servers!server=ann/x"]}"#,
    ),
    (
        9,
        "3",
        r#"{"created":1,"expires_at":2,"hash":"h","scopes":["access:servers!server=ann/"],"server":"bob/"}"#,
    ),
    (10, "service:idle", r#"{"hash":"h","redirect_uri":"/r"}"#),
    (
        11,
        "ab",
        r#"{"client":"service:idle","expires_at":2,"owner":"ann","redirect_uri":"/r","token":null}"#,
    ),
    (12, "code", r#"{"next":4}"#),
    (12, "generation", r#"{"next":4}"#),
    (12, "token", r#"{"next":4}"#),
];

/// A row in place of one of the store's, and the place of the row that is refused then. The last stands where the store has none.
const BROKEN: [(usize, u8, &str, &str, usize); 25] = [
    (
        4,
        4,
        "user",
        r#"{"groups":[],"scopes":["self"],"services":[],"users":["ann"]}"#,
        4,
    ),
    (
        4,
        4,
        "admin",
        r#"{"groups":[],"scopes":["self"],"services":[],"users":["ann"]}"#,
        4,
    ),
    (
        6,
        5,
        "0",
        r#"{"client":null,"created":1,"expires_at":2,"hash":"c","issued_for":null,"note":"","owner":"user:ann","scopes":["inherit"]}"#,
        6,
    ),
    (
        6,
        5,
        "4",
        r#"{"client":null,"created":1,"expires_at":2,"hash":"c","issued_for":null,"note":"","owner":"user:ann","scopes":["inherit"]}"#,
        6,
    ),
    (
        6,
        5,
        "3",
        r#"{"client":null,"created":1,"expires_at":2,"hash":"b","issued_for":null,"note":"","owner":"user:ann","scopes":["inherit"]}"#,
        6,
    ),
    (
        6,
        5,
        "3",
        r#"{"client":null,"created":1,"expires_at":2,"hash":"c","issued_for":null,"note":"","owner":"user:cat","scopes":["inherit"]}"#,
        6,
    ),
    (
        6,
        5,
        "3",
        r#"{"client":null,"created":1,"expires_at":2,"hash":"c","issued_for":"ann/","note":"","owner":"user:ann","scopes":["inherit"]}"#,
        6,
    ),
    (
        6,
        5,
        "3",
        r#"{"client":null,"created":1,"expires_at":2,"hash":"c","issued_for":"bob/","note":"","owner":"user:ann","scopes":["inherit"]}"#,
        6,
    ),
    (3, 3, "bot", "{}", 6),
    (
        8,
        6,
        "cat/",
        r#"{"created":1,"last_activity":null,"started":null}"#,
        8,
    ),
    (10, 7, "http://127.0.0.1:9002", r#"{"server":"bob/"}"#, 10),
    (10, 7, "http://127.0.0.1:9002", r#"{"server":"ann/"}"#, 10),
    (
        10,
        7,
        "http://127.0.0.1:9002",
        r#"{"generation":4,"server":"ann/x"}"#,
        10,
    ),
    (
        10,
        7,
        "http://127.0.0.1:9002",
        r#"{"generation":3,"server":"ann/x"}"#,
        10,
    ),
    (
        9,
        7,
        "http://127.0.0.1:9001",
        r#"{"generation":3,"server":"ann/x"}"#,
        5,
    ),
    (
        11,
        8,
        "ann/y,user:bob",
        r#"{"created":1,"scopes":["access:servers!server=ann/y"]}"#,
        11,
    ),
    (
        11,
        8,
        "ann/x,user:cat",
        r#"{"created":1,"scopes":["access:servers!server=ann/x"]}"#,
        11,
    ),
    (
        11,
        8,
        "ann/x,group:two",
        r#"{"created":1,"scopes":["access:servers!server=ann/x"]}"#,
        11,
    ),
    (
        12,
        9,
        "4",
        r#"{"created":1,"expires_at":2,"hash":"h","scopes":["access:servers!server=ann/"],"server":"ann/"}"#,
        12,
    ),
    (
        12,
        9,
        "3",
        r#"{"created":1,"expires_at":2,"hash":"h","scopes":["access:servers!server=ann/y"],"server":"ann/y"}"#,
        12,
    ),
    (
        14,
        11,
        "ab",
        r#"{"client":"service:idle","expires_at":2,"owner":"cat","redirect_uri":"/r","token":null}"#,
        14,
    ),
    (15, 12, "code", r#"{"next":0}"#, 12),
    (16, 12, "generation", r#"{"next":2305843009213693953}"#, 16),
    (15, 12, "code", r#"{"next":2305843009213693953}"#, 15),
    (17, 12, "token", r#"{"next":3}"#, 6),
];

fn record<R: Record>(rt: &impl Abort, alloc: Global, row: &(u8, &'static str, &'static str)) -> R {
    let kept = KeptRow {
        kind: row.0,
        key: text(rt, alloc, row.1),
        text: text(rt, alloc, row.2),
    };
    let record = of_row::<R>(alloc, &kept).ok().expect(rt, row.2);
    drop(kept);
    record
}

fn row_of(rt: &impl Abort, alloc: Global, row: &(u8, &'static str, &'static str)) -> Row {
    match row.0 {
        1 => Row::User(record(rt, alloc, row)),
        2 => Row::Group(record(rt, alloc, row)),
        3 => Row::Service(record(rt, alloc, row)),
        4 => Row::Role(record(rt, alloc, row)),
        5 => Row::Token(record(rt, alloc, row)),
        6 => Row::ServerRow(record(rt, alloc, row)),
        7 => Row::Lease(record(rt, alloc, row)),
        8 => Row::Share(record(rt, alloc, row)),
        9 => Row::ShareCode(record(rt, alloc, row)),
        10 => Row::OAuthClient(record(rt, alloc, row)),
        11 => Row::OAuthCode(record(rt, alloc, row)),
        _ => Row::Next(record(rt, alloc, row)),
    }
}

/// The rows of the store, where the row of a place is another.
fn rows_with(
    rt: &impl Abort,
    alloc: Global,
    at: usize,
    other: &(u8, &'static str, &'static str),
) -> Vec<Row> {
    let store = &STORE;
    let mut rows = Vec::new(alloc);
    for i in 0..store.len() {
        let row = if i == at { other } else { &store[i] };
        rows.push(row_of(rt, alloc, row))
            .expect(rt, "there is memory");
    }
    rows
}

/// The place of the row that is refused, where the row of a place is another; past all rows where none is.
fn refused(
    rt: &impl Abort,
    alloc: Global,
    at: usize,
    other: &(u8, &'static str, &'static str),
) -> usize {
    let rows = rows_with(rt, alloc, at, other);
    let scopes = ScopeTable::new(alloc, &[]).expect(rt, "there is memory");
    let count = rows.len();
    match kept_tables(alloc, LIMITS, scopes, rows) {
        Ok(tables) => {
            check(rt, tables.count_of_tokens() == 2, "two tokens");
            check(rt, tables.count_of_users() == 2, "two users");
            drop(tables);
            count
        }
        Err(RowsError::Broken { place, row }) => {
            drop(row);
            place
        }
        Err(RowsError::Memory) => 100,
    }
}

#[test]
fn a_store_that_keeps_the_rules(rt: HostRuntime) {
    let none = (1, "", "");
    check(&rt, refused(&rt, rt.alloc(), 18, &none) == 18, "all rows");
}

#[test]
fn each_rule_by_a_row_that_breaks_it(rt: HostRuntime) {
    let alloc = rt.alloc();
    for (at, kind, key, text, place) in &BROKEN {
        let refused = refused(&rt, alloc, *at, &(*kind, *key, *text));
        check(&rt, refused == *place, text);
    }
}
