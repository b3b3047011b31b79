//! A hub over a database and its log on disks that stop: an opening and twelve changes, while one of the two disks takes no call after so
//! many, each number of them in turn. Then a hub opens over the files as they were left, and one over what was synced of them. Each finds
//! the rows of the changes that were answered as kept, or of one more.
use crate::check::check;
use crate::hubs::{BookOver, NEVER, open_book};
use crate::late_connections::end_over;
use hub_devices::mem_bytes::{MemSink, MemSource};
use hub_kit::bytes::Bytes;
use hub_run::Served;
use keeper::keeper::{Keeper, Row};
use keeper_sqlite::sqlite_keeper::SqliteKeeper;
use sqlite::{Connection, FileStore, Files, Options};
use sqlite_disk::{Crash, Disk, Fuse, Memory};
use std::alloc::Global;
use std::process::Abort;
use std::sync::Wait;

const FILE: &str = "users = [{name = 'ann', admin = true}, {name = 'bob'}, {name = 'cat'}]
groups = [{name = 'class', users = ['bob', 'cat']}]
services = [{name = 'bot'}]
roles = [{name = 'helper', scopes = ['self'], users = ['bob']}]
tokens = [{token = 'secret-token-ann', user = 'ann', scopes = ['inherit']}]";

/// A change, and what it is answered once it is kept.
#[derive(Clone, Copy)]
struct Change {
    request: &'static [u8],
    reply: &'static [u8],
}

/// None speaks of what another one makes, so where a change isn't kept, none of the later ones is refused for want of it.
const CHANGES: [Change; 12] = [
    Change {
        request: b"POST /hub/api/users/dan HTTP/1.1\r\nAuthorization: token secret-token-ann\r\n\r\n",
        reply: b"HTTP/1.1 201 Created\r\nContent-Type: application/json\r\nContent-Length: 138\r\nX-Hub-Revision: 1\r\n\r\n\
            {\"admin\":false,\"created\":\"2023-11-14T22:13:20Z\",\"groups\":[],\"kind\":\"user\",\"last_activity\":null,\
            \"name\":\"dan\",\"roles\":[\"user\"],\"servers\":{}}",
    },
    Change {
        request: b"PATCH /hub/api/users/cat HTTP/1.1\r\nAuthorization: token secret-token-ann\r\nContent-Length: 14\r\n\r\n\
            {\"admin\":true}",
        reply: b"HTTP/1.1 200 OK\r\nContent-Type: application/json\r\nContent-Length: 152\r\nX-Hub-Revision: 2\r\n\r\n\
            {\"admin\":true,\"created\":\"2023-11-14T22:13:20Z\",\"groups\":[\"class\"],\"kind\":\"user\",\"last_activity\":null,\
            \"name\":\"cat\",\"roles\":[\"admin\",\"user\"],\"servers\":{}}",
    },
    Change {
        request: b"POST /hub/api/groups/lab HTTP/1.1\r\nAuthorization: token secret-token-ann\r\nContent-Length: 17\r\n\r\n\
            {\"users\":[\"bob\"]}",
        reply: b"HTTP/1.1 201 Created\r\nContent-Type: application/json\r\nContent-Length: 56\r\nX-Hub-Revision: 3\r\n\r\n\
            {\"kind\":\"group\",\"name\":\"lab\",\"roles\":[],\"users\":[\"bob\"]}",
    },
    Change {
        request: b"POST /hub/api/groups/class/users HTTP/1.1\r\nAuthorization: token secret-token-ann\r\nContent-Length: 17\r\n\r\n\
            {\"users\":[\"ann\"]}",
        reply: b"HTTP/1.1 200 OK\r\nContent-Type: application/json\r\nContent-Length: 70\r\nX-Hub-Revision: 4\r\n\r\n\
            {\"kind\":\"group\",\"name\":\"class\",\"roles\":[],\"users\":[\"ann\",\"bob\",\"cat\"]}",
    },
    Change {
        request: b"POST /hub/api/services/web HTTP/1.1\r\nAuthorization: token secret-token-ann\r\n\r\n",
        reply: b"HTTP/1.1 201 Created\r\nContent-Type: application/json\r\nContent-Length: 42\r\nX-Hub-Revision: 5\r\n\r\n\
            {\"kind\":\"service\",\"name\":\"web\",\"roles\":[]}",
    },
    Change {
        request: b"DELETE /hub/api/services/bot HTTP/1.1\r\nAuthorization: token secret-token-ann\r\n\r\n",
        reply: b"HTTP/1.1 204 No Content\r\nX-Hub-Revision: 6\r\n\r\n",
    },
    Change {
        request: b"PUT /hub/api/roles/guest HTTP/1.1\r\nAuthorization: token secret-token-ann\r\nContent-Length: 25\r\n\r\n\
            {\"scopes\":[\"list:users\"]}",
        reply: b"HTTP/1.1 201 Created\r\nContent-Type: application/json\r\nContent-Length: 77\r\nX-Hub-Revision: 7\r\n\r\n\
            {\"groups\":[],\"name\":\"guest\",\"scopes\":[\"list:users\"],\"services\":[],\"users\":[]}",
    },
    Change {
        request: b"PUT /hub/api/roles/helper HTTP/1.1\r\nAuthorization: token secret-token-ann\r\nContent-Length: 41\r\n\r\n\
            {\"scopes\":[\"self\"],\"users\":[\"bob\",\"cat\"]}",
        reply: b"HTTP/1.1 200 OK\r\nContent-Type: application/json\r\nContent-Length: 83\r\nX-Hub-Revision: 8\r\n\r\n\
            {\"groups\":[],\"name\":\"helper\",\"scopes\":[\"self\"],\"services\":[],\"users\":[\"bob\",\"cat\"]}",
    },
    Change {
        request: b"POST /hub/api/users/ann/tokens HTTP/1.1\r\nAuthorization: token secret-token-ann\r\nContent-Length: 2\r\n\r\n{}",
        reply: b"HTTP/1.1 201 Created\r\nContent-Type: application/json\r\nContent-Length: 187\r\nX-Hub-Revision: 9\r\n\r\n\
            {\"created\":\"2023-11-14T22:13:20Z\",\"expires_at\":null,\"id\":\"2\",\"kind\":\"api_token\",\"note\":\"\",\
            \"oauth_client\":null,\"scopes\":[\"inherit\"],\"token\":\"00000000000000000000000000000001\",\"user\":\"ann\"}",
    },
    Change {
        request: b"DELETE /hub/api/users/bob HTTP/1.1\r\nAuthorization: token secret-token-ann\r\n\r\n",
        reply: b"HTTP/1.1 204 No Content\r\nX-Hub-Revision: 10\r\n\r\n",
    },
    Change {
        request: b"DELETE /hub/api/groups/class HTTP/1.1\r\nAuthorization: token secret-token-ann\r\n\r\n",
        reply: b"HTTP/1.1 204 No Content\r\nX-Hub-Revision: 11\r\n\r\n",
    },
    Change {
        request: b"POST /hub/api/users HTTP/1.1\r\nAuthorization: token secret-token-ann\r\nContent-Length: 27\r\n\r\n\
            {\"usernames\":[\"eve\",\"fay\"]}",
        reply: b"HTTP/1.1 201 Created\r\nContent-Type: application/json\r\nContent-Length: 279\r\nX-Hub-Revision: 12\r\n\r\n\
            [{\"admin\":false,\"created\":\"2023-11-14T22:13:20Z\",\"groups\":[],\"kind\":\"user\",\"last_activity\":null,\
            \"name\":\"eve\",\"roles\":[\"user\"],\"servers\":{}},{\"admin\":false,\"created\":\"2023-11-14T22:13:20Z\",\
            \"groups\":[],\"kind\":\"user\",\"last_activity\":null,\"name\":\"fay\",\"roles\":[\"user\"],\"servers\":{}}]",
    },
];

/// What a change is answered that isn't kept, before and behind the number of those that are.
const REFUSAL: &[u8] =
    b"HTTP/1.1 503 Service Unavailable\r\nContent-Type: application/json\r\nContent-Length: 33\r\nX-Hub-Revision: ";

const BEHIND_REVISION: &[u8] = b"\r\n\r\n{\"message\":\"keeper\",\"status\":503}";

const REVISIONS: [&[u8]; 12] = [
    b"0", b"1", b"2", b"3", b"4", b"5", b"6", b"7", b"8", b"9", b"10", b"11",
];

const USER: &str = r#"{"admin":false,"created":1700000000,"last_activity":null}"#;

const ADMIN: &str = r#"{"admin":true,"created":1700000000,"last_activity":null}"#;

/// Ann's token of the file, by the SHA-256 of its text.
const TOKEN_OF_FILE: &str = "{\"client\":null,\"created\":1700000000,\"expires_at\":null,\
    \"hash\":\"f7696ef141621365d210008a2c2df5fa9ffaed2dcf9f0b364ae0d67f67c97e34\",\
    \"issued_for\":null,\"note\":\"\",\"owner\":\"user:ann\",\"scopes\":[\"inherit\"]}";

/// Ann's token that a change makes, by the SHA-256 of its text, which is the first draw in hex.
const TOKEN_MADE: &str = "{\"client\":null,\"created\":1700000000,\"expires_at\":null,\
    \"hash\":\"e0cca2965509df678c8064f5e0b9076016fa752f88a6c749768db83479450cc5\",\
    \"issued_for\":null,\"note\":\"\",\"owner\":\"user:ann\",\"scopes\":[\"inherit\"]}";

/// More commits than are made.
const EVER: usize = 99;

/// Rows in their order: kind, key and text, the commit since which each stands, where the opening is the first and each change the next,
/// and the commit by which it is gone.
const ROWS: [(u8, &str, &str, usize, usize); 22] = [
    (1, "ann", ADMIN, 1, EVER),
    (1, "bob", USER, 1, 11),
    (1, "cat", USER, 1, 3),
    (1, "cat", ADMIN, 3, EVER),
    (1, "dan", USER, 2, EVER),
    (1, "eve", USER, 13, EVER),
    (1, "fay", USER, 13, EVER),
    (2, "class", r#"{"users":["bob","cat"]}"#, 1, 5),
    (2, "class", r#"{"users":["ann","bob","cat"]}"#, 5, 11),
    (2, "class", r#"{"users":["ann","cat"]}"#, 11, 12),
    (2, "lab", r#"{"users":["bob"]}"#, 4, 11),
    (2, "lab", r#"{"users":[]}"#, 11, EVER),
    (3, "bot", "{}", 1, 7),
    (3, "web", "{}", 6, EVER),
    (
        4,
        "guest",
        r#"{"groups":[],"scopes":["list:users"],"services":[],"users":[]}"#,
        8,
        EVER,
    ),
    (
        4,
        "helper",
        r#"{"groups":[],"scopes":["self"],"services":[],"users":["bob"]}"#,
        1,
        9,
    ),
    (
        4,
        "helper",
        r#"{"groups":[],"scopes":["self"],"services":[],"users":["bob","cat"]}"#,
        9,
        11,
    ),
    (
        4,
        "helper",
        r#"{"groups":[],"scopes":["self"],"services":[],"users":["cat"]}"#,
        11,
        EVER,
    ),
    (5, "1", TOKEN_OF_FILE, 1, EVER),
    (5, "2", TOKEN_MADE, 10, EVER),
    (12, "token", r#"{"next":2}"#, 1, 10),
    (12, "token", r#"{"next":3}"#, 10, EVER),
];

/// Whether these are the rows that so many commits leave.
fn are_rows(rows: &[Row], commits: usize) -> bool {
    let mut found = 0;
    for (kind, key, text, since, gone) in &ROWS {
        if (*since <= commits) & (commits < *gone) {
            let Some(row) = rows.get(found) else {
                return false;
            };
            if (row.kind != *kind) | (row.key.as_str() != *key) | (row.text.as_str() != *text) {
                return false;
            }
            found += 1;
        }
    }
    found == rows.len()
}

/// What is written behind the refusal of a change after so many that are kept.
fn behind_refusal(output: &[u8], kept: usize) -> Option<&[u8]> {
    let revision = REVISIONS.get(kept)?;
    output
        .strip_prefix(REFUSAL)?
        .strip_prefix(*revision)?
        .strip_prefix(BEHIND_REVISION)
}

/// How many changes these replies tell as kept, where those are the first ones and each later one is refused.
fn told_as_kept(output: &[u8]) -> Option<usize> {
    let mut rest = output;
    let mut kept = 0;
    for at in 0..CHANGES.len() {
        let change = CHANGES[at];
        if at == kept && rest.starts_with(change.reply) {
            rest = rest.strip_prefix(change.reply)?;
            kept = at + 1;
        } else {
            rest = behind_refusal(rest, kept)?;
        }
    }
    if rest.is_empty() { Some(kept) } else { None }
}

/// The changes as they stand on the wire.
fn requests(rt: &impl Abort, alloc: Global) -> Bytes {
    let mut all = Bytes::new(alloc);
    for change in &CHANGES {
        all.push_all(change.request).expect(rt, "there is memory");
    }
    all
}

/// How many of the changes a hub with this book answers as kept, and its keeper.
fn changes_kept<R: Abort + Wait, K: Keeper>(
    rt: &R,
    alloc: Global,
    book: BookOver<K>,
) -> (usize, K) {
    let source = MemSource::new(requests(rt, alloc), 1000, Vec::new(alloc));
    let mut sink = MemSink::new(alloc, Vec::new(alloc));
    let (end, book) = end_over(rt, alloc, book, source, &mut sink);
    check(rt, end == Ok(Served::Ended(12)), "the connection ends");
    let kept = told_as_kept(sink.as_slice()).expect(rt, "the replies");
    drop(sink);
    let (keeper, trail) = book.into_parts();
    drop(trail);
    (kept, keeper)
}

/// How many commits a hub over this keeper answers as kept, and the keeper.
fn commits_kept<R: Abort + Wait, K: Keeper>(rt: &R, alloc: Global, keeper: K) -> (usize, K) {
    match open_book(rt, alloc, FILE, keeper) {
        Ok(book) => {
            let (kept, keeper) = changes_kept(rt, alloc, book);
            (kept.saturating_add(1), keeper)
        }
        Err(keeper) => (0, keeper),
    }
}

/// A keeper over the database of these files, or the files where there is none. The log is copied into the database after few changes, and
/// all pages that were read stay in memory.
fn keeper_over<D: Disk + Drop>(
    alloc: Global,
    files: Files<D>,
) -> Result<SqliteKeeper<FileStore<D>>, Files<D>> {
    if !files.may_be_used() {
        return Err(files);
    }
    let options = Options {
        cache_pages: 16,
        checkpoint_frames: 12,
        ..Options::new(1)
    };
    match Connection::open_files(alloc, files, options) {
        Ok(connection) => resumed(alloc, connection),
        Err((_, left)) => Err(left.into_files()),
    }
}

/// A keeper over the database, or its files where that can't be read.
fn resumed<D: Disk + Drop>(
    alloc: Global,
    connection: Connection<FileStore<D>>,
) -> Result<SqliteKeeper<FileStore<D>>, Files<D>> {
    match SqliteKeeper::resume(alloc, connection) {
        Ok(keeper) => Ok(keeper),
        Err((_, connection)) => Err(connection.into_store().close()),
    }
}

/// How many commits a hub over these files answers as kept, and the files as it leaves them.
fn kept_over<R: Abort + Wait, D: Disk + Drop>(
    rt: &R,
    alloc: Global,
    files: Files<D>,
) -> (usize, Files<D>) {
    match keeper_over(alloc, files) {
        Ok(keeper) => {
            let (kept, keeper) = commits_kept(rt, alloc, keeper);
            (kept, keeper.into_connection().into_store().close())
        }
        Err(files) => (0, files),
    }
}

/// Whether the keeper has the rows that so many commits leave, or one more, and a hub opens over it.
fn stand_in<K: Keeper>(rt: &impl Abort, alloc: Global, keeper: K, kept: usize) -> bool {
    let mut keeper = keeper;
    let rows = keeper.load().expect(rt, "a load");
    let so = are_rows(&rows, kept) | are_rows(&rows, kept.saturating_add(1));
    drop(rows);
    match open_book(rt, alloc, FILE, keeper) {
        Ok(book) => {
            drop(book);
            so
        }
        Err(keeper) => {
            drop(keeper);
            false
        }
    }
}

/// The same of the database of these files.
fn stand_over<D: Disk + Drop>(
    rt: &impl Abort,
    alloc: Global,
    files: Files<D>,
    kept: usize,
) -> bool {
    match keeper_over(alloc, files) {
        Ok(keeper) => stand_in(rt, alloc, keeper, kept),
        Err(files) => {
            drop(files);
            false
        }
    }
}

/// Empty files whose disks stop after so many calls.
fn stopping(alloc: Global, log: u64, db: u64) -> Files<Fuse<Memory>> {
    Files {
        log: Fuse::new(Memory::new(alloc), log),
        db: Fuse::new(Memory::new(alloc), db),
    }
}

/// A file on a disk that doesn't stop, with what this one has.
fn copied(rt: &impl Abort, alloc: Global, from: &Fuse<Memory>) -> Fuse<Memory> {
    let mut to = Memory::new(alloc);
    let written = to.write_at(0, from.inner().bytes());
    written.ok().expect(rt, "there is memory");
    Fuse::new(to, u64::MAX)
}

/// The files on disks that don't stop.
fn copies(rt: &impl Abort, alloc: Global, files: &Files<Fuse<Memory>>) -> Files<Fuse<Memory>> {
    Files {
        log: copied(rt, alloc, &files.log),
        db: copied(rt, alloc, &files.db),
    }
}

fn are_same(one: &Files<Fuse<Memory>>, other: &Files<Fuse<Memory>>) -> bool {
    (one.log.inner().bytes() == other.log.inner().bytes())
        & (one.db.inner().bytes() == other.db.inner().bytes())
}

/// Whether the disk takes a further call.
fn goes_on<D: Disk>(disk: &mut D) -> bool {
    disk.may_be_used() && disk.len().is_ok()
}

/// Checks that what was answered as kept stands over the files as they are left, and over what was synced of them. An opening sees their
/// bytes alone, so where all of them were synced, one is enough.
fn check_left(rt: &impl Abort, alloc: Global, files: Files<Fuse<Memory>>, kept: usize) {
    let mut files = files;
    let left = copies(rt, alloc, &files);
    files.log.crash();
    files.db.crash();
    if are_same(&left, &files) {
        drop(files);
    } else {
        let stand = stand_over(rt, alloc, files, kept);
        check(rt, stand, "the machine went down");
    }
    check(rt, stand_over(rt, alloc, left, kept), "the hub was killed");
}

/// Whether a disk is stopped that takes so many calls. What was answered as kept stands then.
fn stops<R: Abort + Wait>(rt: &R, alloc: Global, log: u64, db: u64) -> bool {
    let (kept, mut files) = kept_over(rt, alloc, stopping(alloc, log, db));
    let works = goes_on(&mut files.log) & goes_on(&mut files.db);
    let all = kept > CHANGES.len();
    check(rt, !works | all, "all is kept where no disk stops");
    check_left(rt, alloc, files, kept);
    !works
}

/// More calls than are made on a disk.
const MOST: u64 = 1000;

/// Stops the log's disk after so many calls, and after each third number from there on.
fn stop_logs<R: Abort + Wait>(rt: &R, alloc: Global, first: u64) {
    for third in 0..MOST {
        let calls = third.saturating_mul(3).saturating_add(first);
        if !stops(rt, alloc, calls, NEVER) {
            return;
        }
    }
    check(rt, false, "the log's disk takes all calls");
}

#[test]
fn stopping_logs(rt: HostRuntime) {
    stop_logs(&rt, rt.alloc(), 0);
}

#[test]
fn stopping_logs_a_call_later(rt: HostRuntime) {
    stop_logs(&rt, rt.alloc(), 1);
}

#[test]
fn stopping_logs_two_calls_later(rt: HostRuntime) {
    stop_logs(&rt, rt.alloc(), 2);
}

#[test]
fn stopping_databases(rt: HostRuntime) {
    for calls in 0..MOST {
        if !stops(&rt, rt.alloc(), NEVER, calls) {
            return;
        }
    }
    check(&rt, false, "the database's disk takes all calls");
}
