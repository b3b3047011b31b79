//! The texts of records, against texts written by hand. What is read is written again and compared, so a text that reads is
//! also the text that is written. The rows have a kind, a key, a text, and whether that is a record: with every field in use, and with
//! none. Refused are another kind, a key out of the grammar, a blank, another order, a float, a moment past the greatest, null for a
//! number, a member too few and one too many, names out of order, twice and out of the grammar, and numbers with a leading zero; also a
//! share's scopes out of order and twice, a client that is no server's and no service's, and another next number.
use crate::check::{check, text};
use hub_rows::records::{
    Group, Lease, Next, OAuthClient, OAuthCode, Role, ServerRow, Service, Share, ShareCode, Token,
    User,
};
use keeper::keeper::Row;
use record_texts::record::{Record, of_row};
use std::alloc::Global;
use std::process::Abort;

const USERS: [(u8, &str, &str, bool); 11] = [
    (
        1,
        "ann",
        r#"{"admin":false,"created":1700000000,"last_activity":null}"#,
        true,
    ),
    (
        1,
        "ann",
        r#"{"admin":true,"created":0,"last_activity":250000000000}"#,
        true,
    ),
    (
        2,
        "ann",
        r#"{"admin":false,"created":1700000000,"last_activity":null}"#,
        false,
    ),
    (
        1,
        "Ann",
        r#"{"admin":false,"created":1700000000,"last_activity":null}"#,
        false,
    ),
    (
        1,
        "ann",
        r#"{"admin": false,"created":1700000000,"last_activity":null}"#,
        false,
    ),
    (
        1,
        "ann",
        r#"{"created":1700000000,"admin":false,"last_activity":null}"#,
        false,
    ),
    (
        1,
        "ann",
        r#"{"admin":false,"created":1.7e9,"last_activity":null}"#,
        false,
    ),
    (
        1,
        "ann",
        r#"{"admin":false,"created":250000000001,"last_activity":null}"#,
        false,
    ),
    (
        1,
        "ann",
        r#"{"admin":false,"created":null,"last_activity":null}"#,
        false,
    ),
    (1, "ann", r#"{"admin":false,"created":1700000000}"#, false),
    (
        1,
        "ann",
        r#"{"admin":false,"created":1700000000,"last_activity":null,"x":1}"#,
        false,
    ),
];

const GROUPS: [(u8, &str, &str, bool); 5] = [
    (2, "lab", r#"{"users":["ann","bob"]}"#, true),
    (2, "lab", r#"{"users":[]}"#, true),
    (2, "lab", r#"{"users":["bob","ann"]}"#, false),
    (2, "lab", r#"{"users":["ann","ann"]}"#, false),
    (2, "lab", r#"{"users":["Ann"]}"#, false),
];

const SERVICES: [(u8, &str, &str, bool); 1] = [(3, "idle", "{}", true)];

const ROLES: [(u8, &str, &str, bool); 1] = [(
    4,
    "tutor",
    r#"{"groups":["lab"],"scopes":["read:users!group=lab","self"],"services":["idle"],"users":["ann","bob"]}"#,
    true,
)];

const TOKENS: [(u8, &str, &str, bool); 2] = [
    (
        5,
        "7",
        r#"{"client":"server:ann/","created":1,"expires_at":2,"hash":"ab","issued_for":"ann/x","note":"my \"note\"","owner":"user:ann","scopes":["inherit"]}"#,
        true,
    ),
    (
        5,
        "8",
        r#"{"client":null,"created":1,"expires_at":null,"hash":"ab","issued_for":null,"note":"","owner":"service:idle","scopes":[]}"#,
        true,
    ),
];

const SERVERS: [(u8, &str, &str, bool); 2] = [
    (
        6,
        "ann/x",
        r#"{"created":1,"last_activity":2,"started":3}"#,
        true,
    ),
    (
        6,
        "ann/",
        r#"{"created":1,"last_activity":null,"started":null}"#,
        true,
    ),
];

const LEASES: [(u8, &str, &str, bool); 2] = [
    (7, "http://127.0.0.1:9001", r#"{"server":"ann/"}"#, true),
    (
        7,
        "http://127.0.0.1:9001",
        r#"{"generation":7,"server":"ann/"}"#,
        true,
    ),
];

const SHARES: [(u8, &str, &str, bool); 4] = [
    (
        8,
        "ann/x,user:bob",
        r#"{"created":1,"scopes":["access:servers!server=ann/x"]}"#,
        true,
    ),
    (8, "ann/,group:lab", r#"{"created":1,"scopes":[]}"#, true),
    (
        8,
        "ann/x,user:bob",
        r#"{"created":1,"scopes":["read:servers!server=ann/x","access:servers!server=ann/x"]}"#,
        false,
    ),
    (
        8,
        "ann/x,user:bob",
        r#"{"created":1,"scopes":["access:servers!server=ann/x","access:servers!server=ann/x"]}"#,
        false,
    ),
];

const SHARE_CODES: [(u8, &str, &str, bool); 2] = [
    (
        9,
        "3",
        r#"{"created":1,"expires_at":2,"hash":"h","scopes":["access:servers!server=ann/"],"server":"ann/"}"#,
        true,
    ),
    (
        9,
        "07",
        r#"{"created":1,"expires_at":2,"hash":"h","scopes":[],"server":"ann/"}"#,
        false,
    ),
];

const CLIENTS: [(u8, &str, &str, bool); 5] = [
    (
        10,
        "service:idle",
        r#"{"hash":"h","redirect_uri":"/oauth_callback"}"#,
        true,
    ),
    (
        10,
        "server:ann/",
        r#"{"hash":"h","redirect_uri":"/oauth_callback"}"#,
        true,
    ),
    (
        10,
        "server:ann",
        r#"{"hash":"h","redirect_uri":"/oauth_callback"}"#,
        false,
    ),
    (
        10,
        "service:Idle",
        r#"{"hash":"h","redirect_uri":"/oauth_callback"}"#,
        false,
    ),
    (
        10,
        "idle",
        r#"{"hash":"h","redirect_uri":"/oauth_callback"}"#,
        false,
    ),
];

const CODES: [(u8, &str, &str, bool); 2] = [
    (
        11,
        "ab",
        r#"{"client":"service:idle","expires_at":2,"owner":"ann","redirect_uri":"/r","token":null}"#,
        true,
    ),
    (
        11,
        "ab",
        r#"{"client":"service:idle","expires_at":2,"owner":"ann","redirect_uri":"/r","token":9}"#,
        true,
    ),
];

const NEXTS: [(u8, &str, &str, bool); 4] = [
    (12, "token", r#"{"next":18446744073709551615}"#, true),
    (12, "code", r#"{"next":1}"#, true),
    (12, "token", r#"{"next":01}"#, false),
    (12, "user", r#"{"next":1}"#, false),
];

fn is_read<R: Record>(rt: &impl Abort, alloc: Global, kind: u8, key: &str, said: &str) -> bool {
    let row = Row {
        kind,
        key: text(rt, alloc, key),
        text: text(rt, alloc, said),
    };
    let is_read = of_row::<R>(alloc, &row).is_ok();
    drop(row);
    is_read
}

/// Exactly those rows are read that stand with `true`.
fn check_rows<R: Record>(rt: &impl Abort, alloc: Global, rows: &[(u8, &str, &str, bool)]) {
    for (kind, key, text, is_record) in rows {
        let is_read = is_read::<R>(rt, alloc, *kind, key, text);
        check(rt, is_read == *is_record, text);
    }
}

#[test]
fn texts_of_records(rt: HostRuntime) {
    let alloc = rt.alloc();
    check_rows::<User>(&rt, alloc, &USERS);
    check_rows::<Group>(&rt, alloc, &GROUPS);
    check_rows::<Service>(&rt, alloc, &SERVICES);
    check_rows::<Role>(&rt, alloc, &ROLES);
    check_rows::<Token>(&rt, alloc, &TOKENS);
    check_rows::<ServerRow>(&rt, alloc, &SERVERS);
    check_rows::<Lease>(&rt, alloc, &LEASES);
    check_rows::<Share>(&rt, alloc, &SHARES);
    check_rows::<ShareCode>(&rt, alloc, &SHARE_CODES);
    check_rows::<OAuthClient>(&rt, alloc, &CLIENTS);
    check_rows::<OAuthCode>(&rt, alloc, &CODES);
    check_rows::<Next>(&rt, alloc, &NEXTS);
}
