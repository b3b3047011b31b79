//! Connections over a route link whose messages are lost or late: what is written, and which routes are listed once all were delivered.
use crate::check::{bytes, check};
use crate::hubs::{NEVER, NOW};
use crate::late_connections::served_over;
use crate::late_hubs::{DRAWS, book_failing, late_kit, late_routes};
use hub_devices::mem_bytes::{MemSink, MemSource};
use hub_kit::moment::Moment;
use hub_run::Served;
use late_routes::{LatePlan, LateRoutes};
use std::alloc::Global;
use std::process::Abort;
use std::sync::Wait;

/// What is asked on a connection to a hub of ann and bob with one target, while the messages to the proxy go by these plans.
struct Lateness {
    name: &'static str,
    plans: &'static [LatePlan],
    input: &'static [u8],
    replies: u64,
    output: &'static [u8],
    /// How many messages are delivered afterwards.
    delivered: u32,
    /// Which routes are listed then.
    ann: bool,
    bob: bool,
}

const LATENESSES: [Lateness; 4] = [
    Lateness {
        name: "a late addition is stale",
        plans: &[LatePlan::Late(0)],
        input: b"POST /hub/api/users/ann/server HTTP/1.1\r\nAuthorization: token secret-token-ann\r\n\r\n\
    POST /hub/api/users/bob/server HTTP/1.1\r\nAuthorization: token secret-token-bob\r\n\r\n",
        replies: 2,
        output: b"HTTP/1.1 503 Service Unavailable\r\nContent-Type: application/json\r\nContent-Length: 32\r\nX-Hub-Revision: 5\r\n\r\n{\"message\":\"proxy\",\"status\":503}\
    HTTP/1.1 201 Created\r\nContent-Length: 0\r\nX-Hub-Revision: 8\r\n\r\n",
        delivered: 1,
        ann: false,
        bob: true,
    },
    Lateness {
        name: "an addition that arrives before its deletion",
        plans: &[LatePlan::Late(1)],
        input: b"POST /hub/api/users/ann/server HTTP/1.1\r\nAuthorization: token secret-token-ann\r\n\r\n",
        replies: 1,
        output: b"HTTP/1.1 503 Service Unavailable\r\nContent-Type: application/json\r\nContent-Length: 32\r\nX-Hub-Revision: 5\r\n\r\n{\"message\":\"proxy\",\"status\":503}",
        delivered: 0,
        ann: false,
        bob: false,
    },
    Lateness {
        name: "a lost deletion, and a further stop",
        plans: &[LatePlan::Done, LatePlan::Lost],
        input: b"POST /hub/api/users/ann/server HTTP/1.1\r\nAuthorization: token secret-token-ann\r\n\r\n\
    DELETE /hub/api/users/ann/server HTTP/1.1\r\nAuthorization: token secret-token-ann\r\n\r\n\
    POST /hub/api/users/bob/server HTTP/1.1\r\nAuthorization: token secret-token-bob\r\n\r\n\
    DELETE /hub/api/users/ann/server HTTP/1.1\r\nAuthorization: token secret-token-ann\r\n\r\n\
    POST /hub/api/users/bob/server HTTP/1.1\r\nAuthorization: token secret-token-bob\r\n\r\n",
        replies: 5,
        output: b"HTTP/1.1 201 Created\r\nContent-Length: 0\r\nX-Hub-Revision: 3\r\n\r\n\
    HTTP/1.1 503 Service Unavailable\r\nContent-Type: application/json\r\nContent-Length: 32\r\nX-Hub-Revision: 5\r\n\r\n{\"message\":\"proxy\",\"status\":503}\
    HTTP/1.1 429 Too Many Requests\r\nContent-Type: application/json\r\nContent-Length: 41\r\nX-Hub-Revision: 5\r\n\r\n{\"message\":\"1 of 1 servers\",\"status\":429}\
    HTTP/1.1 204 No Content\r\nX-Hub-Revision: 8\r\n\r\n\
    HTTP/1.1 201 Created\r\nContent-Length: 0\r\nX-Hub-Revision: 11\r\n\r\n",
        delivered: 0,
        ann: false,
        bob: true,
    },
    Lateness {
        name: "a late deletion of a parked server",
        plans: &[LatePlan::Done, LatePlan::Late(0)],
        input: b"POST /hub/api/users/ann/server HTTP/1.1\r\nAuthorization: token secret-token-ann\r\n\r\n\
    DELETE /hub/api/users/ann/server HTTP/1.1\r\nAuthorization: token secret-token-ann\r\n\r\n",
        replies: 2,
        output: b"HTTP/1.1 201 Created\r\nContent-Length: 0\r\nX-Hub-Revision: 3\r\n\r\n\
    HTTP/1.1 503 Service Unavailable\r\nContent-Type: application/json\r\nContent-Length: 32\r\nX-Hub-Revision: 5\r\n\r\n{\"message\":\"proxy\",\"status\":503}",
        delivered: 1,
        ann: false,
        bob: false,
    },
];

/// Whether so many messages are delivered, and these routes are listed then.
fn is_delivered(routes: &mut LateRoutes, lateness: &Lateness) -> bool {
    let delivered = match routes.deliver(Moment::up_to(NOW)) {
        Ok(delivered) => delivered,
        Err(_) => return false,
    };
    let table = routes.table();
    (delivered == lateness.delivered)
        & (table.find(b"/user/ann").is_ok() == lateness.ann)
        & (table.find(b"/user/bob").is_ok() == lateness.bob)
}

/// Whether the connection ends as it should, has written its output, and leaves these routes.
fn ends_so<R: Abort + Wait>(rt: &R, alloc: Global, lateness: &Lateness) -> bool {
    let routes = late_routes(rt, alloc, lateness.plans);
    let mut kit = late_kit(rt, alloc, routes, NEVER, &DRAWS);
    let source = MemSource::new(bytes(rt, alloc, lateness.input), 100, Vec::new(alloc));
    let mut sink = MemSink::new(alloc, Vec::new(alloc));
    let book = book_failing(rt, alloc, NEVER);
    let (end, book) = served_over(rt, alloc, book, &mut kit, source, &mut sink);
    drop(book);
    let so = (end == Ok(Served::Ended(lateness.replies)))
        & (sink.as_slice() == lateness.output)
        & is_delivered(&mut kit.routes, lateness);
    drop(sink);
    drop(kit);
    so
}

#[test]
fn late_messages(rt: HostRuntime) {
    for lateness in &LATENESSES {
        check(&rt, ends_so(&rt, rt.alloc(), lateness), lateness.name);
    }
}
