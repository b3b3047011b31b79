//! A start, a stop and a start, while each of the first twelve calls on the spawner, the proxy and the keeper fails in turn: what is
//! replied, that programs, routes and leases are of one piece then, and that a further stop frees the target.
use crate::check::{bytes, check};
use crate::hubs::{MemBook, NEVER};
use crate::late_connections::{are_statuses, served_over};
use crate::late_hubs::{DRAWS, LateKit, book_failing, late_kit, late_routes};
use hub_devices::calls::{Spawning, Told};
use hub_devices::mem_bytes::{MemSink, MemSource};
use hub_devices::mem_spawner::MemSpawner;
use hub_run::Served;
use late_routes::LatePlan;
use route_table::route::Route;
use route_table::routes::Routes;
use std::alloc::Global;
use std::process::Abort;
use std::sync::Wait;

/// Whose call fails.
#[derive(Clone, Copy, PartialEq, Eq)]
enum Failing {
    Spawner,
    Proxy,
    Keeper,
}

/// The calls with these numbers fail, each in a run of its own; what is replied to a start, a stop and a start, and then to two stops and
/// the start of another server, which needs the target.
struct Failure {
    name: &'static str,
    failing: Failing,
    first: u64,
    last: u64,
    statuses: &'static [&'static str],
    after: &'static [&'static str],
}

const FAILURES: [Failure; 14] = [
    Failure {
        name: "the first start of a program fails",
        failing: Failing::Spawner,
        first: 0,
        last: 0,
        statuses: &["503", "204", "201"],
        after: &["204", "204", "201"],
    },
    Failure {
        name: "the stop of the program fails, and the server is parked",
        failing: Failing::Spawner,
        first: 1,
        last: 1,
        statuses: &["201", "503", "400"],
        after: &["204", "204", "201"],
    },
    Failure {
        name: "the second start of a program fails",
        failing: Failing::Spawner,
        first: 2,
        last: 2,
        statuses: &["201", "204", "503"],
        after: &["204", "204", "201"],
    },
    Failure {
        name: "a later call of the spawner fails",
        failing: Failing::Spawner,
        first: 3,
        last: 11,
        statuses: &["201", "204", "201"],
        after: &["204", "204", "201"],
    },
    Failure {
        name: "the first addition fails",
        failing: Failing::Proxy,
        first: 0,
        last: 0,
        statuses: &["503", "204", "201"],
        after: &["204", "204", "201"],
    },
    Failure {
        name: "the deletion fails, and the server is parked",
        failing: Failing::Proxy,
        first: 1,
        last: 1,
        statuses: &["201", "503", "400"],
        after: &["204", "204", "201"],
    },
    Failure {
        name: "the second addition fails",
        failing: Failing::Proxy,
        first: 2,
        last: 2,
        statuses: &["201", "204", "503"],
        after: &["204", "204", "201"],
    },
    Failure {
        name: "a later call of the route link fails",
        failing: Failing::Proxy,
        first: 3,
        last: 11,
        statuses: &["201", "204", "201"],
        after: &["204", "204", "201"],
    },
    Failure {
        name: "the first start isn't kept",
        failing: Failing::Keeper,
        first: 2,
        last: 2,
        statuses: &["503", "204", "201"],
        after: &["204", "204", "201"],
    },
    Failure {
        name: "the end isn't kept, and the server is parked",
        failing: Failing::Keeper,
        first: 3,
        last: 3,
        statuses: &["201", "503", "400"],
        after: &["204", "204", "201"],
    },
    Failure {
        name: "the second start isn't kept",
        failing: Failing::Keeper,
        first: 4,
        last: 4,
        statuses: &["201", "204", "503"],
        after: &["204", "204", "201"],
    },
    Failure {
        name: "the end after it isn't kept, and a further stop ends it",
        failing: Failing::Keeper,
        first: 5,
        last: 5,
        statuses: &["201", "204", "201"],
        after: &["503", "204", "201"],
    },
    Failure {
        name: "the start of the other server isn't kept",
        failing: Failing::Keeper,
        first: 6,
        last: 6,
        statuses: &["201", "204", "201"],
        after: &["204", "204", "503"],
    },
    Failure {
        name: "a later call of the keeper fails",
        failing: Failing::Keeper,
        first: 7,
        last: 13,
        statuses: &["201", "204", "201"],
        after: &["204", "204", "201"],
    },
];

const SCRIPT: &[u8] =
    b"POST /hub/api/users/ann/server HTTP/1.1\r\nAuthorization: token secret-token-ann\r\n\r\n\
    DELETE /hub/api/users/ann/server HTTP/1.1\r\nAuthorization: token secret-token-ann\r\n\r\n\
    POST /hub/api/users/ann/server HTTP/1.1\r\nAuthorization: token secret-token-ann\r\n\r\n";

/// Two more stops, and a start of another server, which needs the target.
const AFTER: &[u8] =
    b"DELETE /hub/api/users/ann/server HTTP/1.1\r\nAuthorization: token secret-token-ann\r\n\r\n\
    DELETE /hub/api/users/ann/server HTTP/1.1\r\nAuthorization: token secret-token-ann\r\n\r\n\
    POST /hub/api/users/bob/server HTTP/1.1\r\nAuthorization: token secret-token-bob\r\n\r\n";

/// The number of the call that fails, where it is this device's.
fn number_of(failing: Failing, device: Failing, number: u64) -> u64 {
    if failing == device { number } else { NEVER }
}

/// Devices of which this call fails: the message of one to the proxy is lost.
fn kit_of(rt: &impl Abort, alloc: Global, failing: Failing, number: u64) -> LateKit {
    let lost = number_of(failing, Failing::Proxy, number);
    let mut plans = [LatePlan::Done; 12];
    for at in 0..12 {
        if at as u64 == lost {
            plans[at] = LatePlan::Lost;
        }
    }
    let spawn = number_of(failing, Failing::Spawner, number);
    let routes = late_routes(rt, alloc, &plans);
    late_kit(rt, alloc, routes, spawn, &DRAWS[..3])
}

/// Whether a connection to the hub with this book that asks this gets replies of these statuses, and ends then; and the book.
fn is_served<R: Abort + Wait>(
    rt: &R,
    alloc: Global,
    book: MemBook,
    kit: &mut LateKit,
    input: &[u8],
    statuses: &[&str],
) -> (bool, MemBook) {
    let source = MemSource::new(bytes(rt, alloc, input), 100, Vec::new(alloc));
    let mut sink = MemSink::new(alloc, Vec::new(alloc));
    let (end, book) = served_over(rt, alloc, book, kit, source, &mut sink);
    let so = (end == Ok(Served::Ended(statuses.len() as u64)))
        & are_statuses(sink.as_slice(), statuses);
    drop(sink);
    (so, book)
}

/// The generation whose program runs, if one does; or the one that was started while another ran at the one target.
fn running(calls: &[(Spawning, Told)]) -> Result<Option<u64>, u64> {
    let mut runs = None;
    for (call, told) in calls {
        match (call, told) {
            (Spawning::Start(generation, ..), Told::Done) => match runs {
                Some(_) => return Err(*generation),
                None => runs = Some(*generation),
            },
            (Spawning::Stop(generation, ..), Told::Done) => {
                if runs == Some(*generation) {
                    runs = None;
                }
            }
            _ => {}
        }
    }
    Ok(runs)
}

/// Whether at most one program ever ran, and the one that runs now is of a live generation.
fn are_leased_programs(book: &MemBook, spawner: &MemSpawner) -> bool {
    let Some(calls) = spawner.calls() else {
        return false;
    };
    match running(calls) {
        Ok(Some(generation)) => book.server_of(generation).is_some(),
        Ok(None) => true,
        Err(_) => false,
    }
}

/// Whether the route is that of ann's live server of its generation.
fn is_leased(book: &MemBook, route: &Route) -> bool {
    let serial = match route.entry.serial {
        Some(serial) => serial,
        None => return false,
    };
    match book.server_of(serial / 2) {
        Some(server) => {
            (serial % 2 == 0)
                & (server.user.as_str() == "ann")
                & (route.path.as_str() == "/user/ann")
                & (route.entry.target.as_text().as_str() == "http://127.0.0.1:9001")
        }
        None => false,
    }
}

/// Whether each route is that of a live server of its generation.
fn are_leased_routes(rt: &impl Abort, alloc: Global, book: &MemBook, table: &Routes) -> bool {
    let routes = table.list(None).expect(rt, "there is memory");
    let mut all = true;
    for route in routes.as_slice() {
        all &= is_leased(book, route);
    }
    drop(routes);
    all
}

/// Whether the replies are the row's where the call with this number fails; whether all is of one piece then; and whether a further
/// stop frees the target.
fn fails_so<R: Abort + Wait>(rt: &R, alloc: Global, failure: &Failure, number: u64) -> bool {
    let commit = number_of(failure.failing, Failing::Keeper, number);
    let book = book_failing(rt, alloc, commit);
    let mut kit = kit_of(rt, alloc, failure.failing, number);
    let (replied, book) = is_served(rt, alloc, book, &mut kit, SCRIPT, failure.statuses);
    let leased = are_leased_programs(&book, &kit.spawner)
        & are_leased_routes(rt, alloc, &book, kit.routes.table());
    drop(kit);
    replied & leased & is_freed(rt, alloc, book, failure)
}

/// Whether two stops and the start of another server, over devices that work again, are answered as the row says.
fn is_freed<R: Abort + Wait>(rt: &R, alloc: Global, book: MemBook, failure: &Failure) -> bool {
    let routes = late_routes(rt, alloc, &[]);
    let mut kit = late_kit(rt, alloc, routes, NEVER, &DRAWS[3..]);
    let (freed, book) = is_served(rt, alloc, book, &mut kit, AFTER, failure.after);
    drop(book);
    drop(kit);
    freed
}

#[test]
fn failing_calls(rt: HostRuntime) {
    for failure in &FAILURES {
        for number in failure.first..failure.last.saturating_add(1) {
            let so = fails_so(&rt, rt.alloc(), failure, number);
            check(&rt, so, failure.name);
        }
    }
}
