//! What no clause says of rows: that those of each kind are put, counted and found by their hashes, and that they are shown, where there is
//! memory. The rows are records that are read from their texts.
ghost use Rattle.std.specs.Prelude.{◌≡◌};
ghost use Rattle.std.specs.FinMap as map;

use crate::check::{check, text};
use crate::of_hub_tables::{LIMITS, no_rows};
use hub_rows::records::{Share, ShareCode, Token};
use hub_tables::tables::Tables;
use hub_view::{Body, body_text, code_body, new_code_body, new_token_body, share_body, token_body};
use keeper::keeper::Row;
use record_texts::record::{Record, of_row};
use std::alloc::{AllocError, Global};
use std::process::Abort;

const TOKEN: &str =
    r#"{"client":"server:ann/","created":1,"expires_at":2,"hash":"ab","issued_for":null,"note":"n","owner":"user:ann","scopes":["inherit"]}"#;

const SHARE: &str = r#"{"created":1,"scopes":["access:servers!server=ann/x"]}"#;

const CODE: &str =
    r#"{"created":1,"expires_at":2,"hash":"h","scopes":["access:servers!server=ann/"],"server":"ann/"}"#;

const SHOWN_TOKEN: &str =
    r#"{"created":"1970-01-01T00:00:01Z","expires_at":"1970-01-01T00:00:02Z","id":"7","kind":"api_token","note":"n","oauth_client":"server:ann/","scopes":["inherit"],"user":"ann"}"#;

const NEW_TOKEN: &str =
    r#"{"created":"1970-01-01T00:00:01Z","expires_at":"1970-01-01T00:00:02Z","id":"7","kind":"api_token","note":"n","oauth_client":"server:ann/","scopes":["inherit"],"token":"t","user":"ann"}"#;

const SHOWN_SHARE: &str =
    r#"{"created":"1970-01-01T00:00:01Z","group":null,"scopes":["access:servers!server=ann/x"],"server":"ann/x","user":"bob"}"#;

const SHOWN_CODE: &str =
    r#"{"created":"1970-01-01T00:00:01Z","expires_at":"1970-01-01T00:00:02Z","id":"3","scopes":["access:servers!server=ann/"],"server":"ann/"}"#;

const NEW_CODE: &str =
    r#"{"code":"c","created":"1970-01-01T00:00:01Z","expires_at":"1970-01-01T00:00:02Z","id":"3","scopes":["access:servers!server=ann/"],"server":"ann/"}"#;

/// The record of a row.
fn record<R: Record>(rt: &impl Abort, alloc: Global, kind: u8, key: &str, said: &str) -> R {
    let row = Row {
        kind,
        key: text(rt, alloc, key),
        text: text(rt, alloc, said),
    };
    let record = of_row::<R>(alloc, &row).ok().expect(rt, said);
    drop(row);
    record
}

const TARGET: &str = "http://127.0.0.1:9001";

const SERVER: &str = r#"{"created":1,"last_activity":null,"started":null}"#;

const CLIENT: &str = r#"{"hash":"h","redirect_uri":"/r"}"#;

const GRANT: &str =
    r#"{"client":"service:idle","expires_at":2,"owner":"ann","redirect_uri":"/r","token":null}"#;

/// Puts rows of the kinds that are found by their keys.
fn put_keyed(rt: &impl Abort, alloc: Global, tables: &mut Tables) {
    let server = tables.put_server(record(rt, alloc, 6, "ann/", SERVER));
    server.expect(rt, "a server is put");
    let lease = tables.put_lease(record(rt, alloc, 7, TARGET, r#"{"server":"ann/"}"#));
    lease.expect(rt, "a lease is put");
    let share = tables.put_share(record(rt, alloc, 8, "ann/x,user:bob", SHARE), Some(0));
    share.expect(rt, "a share is put");
    let client = tables.put_client(record(rt, alloc, 10, "service:idle", CLIENT), Some(0));
    client.expect(rt, "a client is put");
    let code = tables.put_grant_code(record(rt, alloc, 11, "ab", GRANT), Some(0));
    code.expect(rt, "a code is put");
    let next = tables.put_next(record(rt, alloc, 12, "token", r#"{"next":1}"#));
    next.expect(rt, "a next number is put");
}

/// Puts rows of the further kinds that have a count.
fn put_counted(rt: &impl Abort, alloc: Global, tables: &mut Tables) {
    let user = r#"{"admin":false,"created":1,"last_activity":null}"#;
    let user = tables.put_user(record(rt, alloc, 1, "ann", user), Some(0));
    user.expect(rt, "a user is put");
    let group = tables.put_group(record(rt, alloc, 2, "lab", r#"{"users":["ann"]}"#), Some(0));
    group.expect(rt, "a group is put");
    let service = tables.put_service(record(rt, alloc, 3, "idle", "{}"), Some(0));
    service.expect(rt, "a service is put");
    let role = r#"{"groups":[],"scopes":["self"],"services":[],"users":["ann"]}"#;
    let role = tables.put_role(record(rt, alloc, 4, "tutor", role), Some(0));
    role.expect(rt, "a role is put");
}

/// Whether there is one row of each kind that has a count.
fn are_counted(tables: &Tables) -> bool {
    (tables.count_of_users() == 1)
        & (tables.count_of_groups() == 1)
        & (tables.count_of_services() == 1)
        & (tables.count_of_roles() == 1)
}

#[test]
fn a_row_of_ten_kinds(rt: HostRuntime) {
    let alloc = rt.alloc();
    let mut tables = no_rows(&rt, alloc, &LIMITS);
    put_keyed(&rt, alloc, &mut tables);
    put_counted(&rt, alloc, &mut tables);
    check(&rt, are_counted(&tables), "one of each");
    drop(tables);
}

/// Whether a share code is put where there is none.
fn is_code_put(tables: &mut Tables, code: ShareCode) -> bool
    requires { tables.old.codes ≡ map.empty }
{
    tables.put_code(code, Some(0)).is_ok()
}

/// Whether a token is new, and put.
fn is_token_put(tables: &mut Tables, token: Token) -> bool {
    if !tables.token_is_new(token.id, &token.hash) {
        return false;
    }
    tables.put_token(token, Some(0)).is_ok()
}

/// Whether a token and a share code of these hashes are found.
fn are_found(rt: &impl Abort, alloc: Global, tables: &Tables, token: &str, code: &str) -> bool {
    let token = text(rt, alloc, token);
    let code = text(rt, alloc, code);
    let found = tables.token_of_hash(&token).is_some() & tables.code_of_hash(&code).is_some();
    drop(token);
    drop(code);
    found
}

#[test]
fn a_token_and_a_share_code_by_their_hashes(rt: HostRuntime) {
    let alloc = rt.alloc();
    let mut tables = no_rows(&rt, alloc, &LIMITS);
    let is_put = is_code_put(&mut tables, record(&rt, alloc, 9, "3", CODE));
    check(&rt, is_put, "a share code is put");
    let is_put = is_token_put(&mut tables, record(&rt, alloc, 5, "7", TOKEN));
    check(&rt, is_put, "a token is put");
    check(
        &rt,
        are_found(&rt, alloc, &tables, "ab", "h"),
        "they are found",
    );
    check(
        &rt,
        !are_found(&rt, alloc, &tables, "h", "ab"),
        "none is found",
    );
    drop(tables);
}

/// Stops the test unless the body is shown so.
fn check_shown(rt: &impl Abort, alloc: Global, body: Result<Body, AllocError>, text: &str) {
    let body = body.expect(rt, "there is memory");
    let shown = body_text(alloc, &body).expect(rt, "there is memory");
    drop(body);
    check(rt, shown.as_slice() == text.as_bytes(), text);
    drop(shown);
}

#[test]
fn bodies_of_tokens_shares_and_codes(rt: HostRuntime) {
    let alloc = rt.alloc();
    let token: Token = record(&rt, alloc, 5, "7", TOKEN);
    check_shown(&rt, alloc, token_body(alloc, &token), SHOWN_TOKEN);
    check_shown(&rt, alloc, new_token_body(alloc, &token, "t"), NEW_TOKEN);
    drop(token);
    let share: Share = record(&rt, alloc, 8, "ann/x,user:bob", SHARE);
    check_shown(&rt, alloc, share_body(alloc, &share), SHOWN_SHARE);
    drop(share);
    let code: ShareCode = record(&rt, alloc, 9, "3", CODE);
    check_shown(&rt, alloc, code_body(alloc, &code), SHOWN_CODE);
    check_shown(&rt, alloc, new_code_body(alloc, &code, "c"), NEW_CODE);
    drop(code);
}
