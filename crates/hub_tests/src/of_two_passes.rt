//! Two connections at one server, in an order that is made by hand: ann's start is asked for and isn't begun yet when the other connection
//! is served; then what that start owes is done; then the other connection is served again.
ghost use Rattle.std.specs.Prelude.{◌≡◌, IsSome};
ghost use Rattle.hub_core.specs.Works.{IsSound};

use crate::called::{Routed, Spawned, are_called};
use crate::check::{bytes, check, failing, text};
use crate::hubs::{MemBook, NEVER, NOW, close_hub, open_hub};
use desk::{Desk, Pass};
use hub_core::ask::Ask;
use hub_devices::mem_bytes::{MemSink, MemSource};
use hub_devices::mem_clock::FixedClock;
use hub_devices::mem_random::ListRandom;
use hub_devices::mem_routes::MemRouteLink;
use hub_devices::mem_spawner::MemSpawner;
use hub_kit::moment::Moment;
use hub_kit::names::read_key;
use hub_machine::call::{Asked, Call};
use hub_machine::reply::Outcome;
use hub_machine::work::Work;
use hub_run::{HubKit, Served, serve_connection};
use server_work::chain::drive;
use server_work::tale::Tale;
use server_work::work::{Device, Kept};
use std::alloc::Global;
use std::process::Abort;
use std::sync::Wait;

type MemKit = HubKit<MemSpawner, MemRouteLink, FixedClock, ListRandom>;

/// The users ann and bob with a token each, and one target.
const FILE: &str = "pool = ['http://127.0.0.1:9001']
users = [{name = 'ann'}, {name = 'bob'}]
tokens = [
    {token = 'secret-token-ann', user = 'ann', scopes = ['inherit']},
    {token = 'secret-token-bob', user = 'bob', scopes = ['inherit']},
]";

/// What is asked on a connection, and what is written there.
struct Exchange {
    input: &'static [u8],
    replies: u64,
    output: &'static [u8],
}

/// A start of ann's default server, with what another connection asks before its first call and after its last.
struct Meeting {
    name: &'static str,
    /// The number of the spawner's call that fails.
    failing_spawn: u64,
    /// The number of the route link's call that fails.
    failing_route: u64,
    meanwhile: Exchange,
    /// What is told of the start.
    tale: Tale,
    after: Exchange,
    spawned: &'static [Spawned],
    routed: &'static [Routed],
}

const MEETINGS: [Meeting; 6] = [
    Meeting {
        name: "a second start while the first is pending",
        failing_spawn: NEVER,
        failing_route: NEVER,
        meanwhile: Exchange {
            input: b"POST /hub/api/users/ann/server HTTP/1.1\r\nAuthorization: token secret-token-ann\r\n\r\n",
            replies: 1,
            output: b"HTTP/1.1 202 Accepted\r\nContent-Length: 0\r\nX-Hub-Revision: 1\r\n\r\n",
        },
        tale: Tale {
            failed: None,
            ready: true,
            stopped: false,
            kept: Kept::NotAsked,
            length: 3,
        },
        after: Exchange {
            input: b"POST /hub/api/users/ann/server HTTP/1.1\r\nAuthorization: token secret-token-ann\r\n\r\n",
            replies: 1,
            output: b"HTTP/1.1 400 Bad Request\r\nContent-Type: application/json\r\nContent-Length: 42\r\nX-Hub-Revision: 3\r\n\r\n{\"message\":\"already running\",\"status\":400}",
        },
        spawned: &[Spawned::Start(1)],
        routed: &[Routed::Add("/user/ann", 2)],
    },
    Meeting {
        name: "a stop while the start is pending",
        failing_spawn: NEVER,
        failing_route: NEVER,
        meanwhile: Exchange {
            input: b"DELETE /hub/api/users/ann/server HTTP/1.1\r\nAuthorization: token secret-token-ann\r\n\r\n",
            replies: 1,
            output: b"HTTP/1.1 202 Accepted\r\nContent-Length: 0\r\nX-Hub-Revision: 2\r\n\r\n",
        },
        tale: Tale {
            failed: None,
            ready: false,
            stopped: true,
            kept: Kept::Kept,
            length: 4,
        },
        after: Exchange {
            input: b"",
            replies: 0,
            output: b"",
        },
        spawned: &[Spawned::Start(1), Spawned::Stop(1)],
        routed: &[],
    },
    Meeting {
        name: "the target is free after that stop",
        failing_spawn: NEVER,
        failing_route: NEVER,
        meanwhile: Exchange {
            input: b"DELETE /hub/api/users/ann/server HTTP/1.1\r\nAuthorization: token secret-token-ann\r\n\r\n\
    POST /hub/api/users/bob/server HTTP/1.1\r\nAuthorization: token secret-token-bob\r\n\r\n",
            replies: 2,
            output: b"HTTP/1.1 202 Accepted\r\nContent-Length: 0\r\nX-Hub-Revision: 2\r\n\r\n\
    HTTP/1.1 429 Too Many Requests\r\nContent-Type: application/json\r\nContent-Length: 41\r\nX-Hub-Revision: 2\r\n\r\n{\"message\":\"1 of 1 servers\",\"status\":429}",
        },
        tale: Tale {
            failed: None,
            ready: false,
            stopped: true,
            kept: Kept::Kept,
            length: 4,
        },
        after: Exchange {
            input: b"POST /hub/api/users/bob/server HTTP/1.1\r\nAuthorization: token secret-token-bob\r\n\r\n",
            replies: 1,
            output: b"HTTP/1.1 201 Created\r\nContent-Length: 0\r\nX-Hub-Revision: 7\r\n\r\n",
        },
        spawned: &[Spawned::Start(1), Spawned::Stop(1), Spawned::Start(2)],
        routed: &[Routed::Add("/user/bob", 4)],
    },
    Meeting {
        name: "a stop and a start once the stop is asked",
        failing_spawn: NEVER,
        failing_route: NEVER,
        meanwhile: Exchange {
            input: b"DELETE /hub/api/users/ann/server HTTP/1.1\r\nAuthorization: token secret-token-ann\r\n\r\n\
    DELETE /hub/api/users/ann/server HTTP/1.1\r\nAuthorization: token secret-token-ann\r\n\r\n\
    POST /hub/api/users/ann/server HTTP/1.1\r\nAuthorization: token secret-token-ann\r\n\r\n",
            replies: 3,
            output: b"HTTP/1.1 202 Accepted\r\nContent-Length: 0\r\nX-Hub-Revision: 2\r\n\r\n\
    HTTP/1.1 202 Accepted\r\nContent-Length: 0\r\nX-Hub-Revision: 2\r\n\r\n\
    HTTP/1.1 400 Bad Request\r\nContent-Type: application/json\r\nContent-Length: 39\r\nX-Hub-Revision: 2\r\n\r\n{\"message\":\"pending stop\",\"status\":400}",
        },
        tale: Tale {
            failed: None,
            ready: false,
            stopped: true,
            kept: Kept::Kept,
            length: 4,
        },
        after: Exchange {
            input: b"DELETE /hub/api/users/ann/server HTTP/1.1\r\nAuthorization: token secret-token-ann\r\n\r\n\
    POST /hub/api/users/ann/server HTTP/1.1\r\nAuthorization: token secret-token-ann\r\n\r\n",
            replies: 2,
            output: b"HTTP/1.1 204 No Content\r\nX-Hub-Revision: 4\r\n\r\n\
    HTTP/1.1 201 Created\r\nContent-Length: 0\r\nX-Hub-Revision: 7\r\n\r\n",
        },
        spawned: &[Spawned::Start(1), Spawned::Stop(1), Spawned::Start(2)],
        routed: &[Routed::Add("/user/ann", 4)],
    },
    Meeting {
        name: "a start fails whose stop is asked",
        failing_spawn: 0,
        failing_route: NEVER,
        meanwhile: Exchange {
            input: b"DELETE /hub/api/users/ann/server HTTP/1.1\r\nAuthorization: token secret-token-ann\r\n\r\n",
            replies: 1,
            output: b"HTTP/1.1 202 Accepted\r\nContent-Length: 0\r\nX-Hub-Revision: 2\r\n\r\n",
        },
        tale: Tale {
            failed: Some(Device::Spawner),
            ready: false,
            stopped: true,
            kept: Kept::Kept,
            length: 3,
        },
        after: Exchange {
            input: b"POST /hub/api/users/bob/server HTTP/1.1\r\nAuthorization: token secret-token-bob\r\n\r\n",
            replies: 1,
            output: b"HTTP/1.1 201 Created\r\nContent-Length: 0\r\nX-Hub-Revision: 6\r\n\r\n",
        },
        spawned: &[Spawned::Start(1), Spawned::Start(2)],
        routed: &[Routed::Add("/user/bob", 4)],
    },
    Meeting {
        name: "the stop of a start whose stop is asked fails",
        failing_spawn: 1,
        failing_route: NEVER,
        meanwhile: Exchange {
            input: b"DELETE /hub/api/users/ann/server HTTP/1.1\r\nAuthorization: token secret-token-ann\r\n\r\n",
            replies: 1,
            output: b"HTTP/1.1 202 Accepted\r\nContent-Length: 0\r\nX-Hub-Revision: 2\r\n\r\n",
        },
        tale: Tale {
            failed: Some(Device::Spawner),
            ready: false,
            stopped: false,
            kept: Kept::NotAsked,
            length: 4,
        },
        after: Exchange {
            input: b"POST /hub/api/users/bob/server HTTP/1.1\r\nAuthorization: token secret-token-bob\r\n\r\n\
    DELETE /hub/api/users/ann/server HTTP/1.1\r\nAuthorization: token secret-token-ann\r\n\r\n\
    POST /hub/api/users/bob/server HTTP/1.1\r\nAuthorization: token secret-token-bob\r\n\r\n",
            replies: 3,
            output: b"HTTP/1.1 429 Too Many Requests\r\nContent-Type: application/json\r\nContent-Length: 41\r\nX-Hub-Revision: 4\r\n\r\n{\"message\":\"1 of 1 servers\",\"status\":429}\
    HTTP/1.1 204 No Content\r\nX-Hub-Revision: 7\r\n\r\n\
    HTTP/1.1 201 Created\r\nContent-Length: 0\r\nX-Hub-Revision: 10\r\n\r\n",
        },
        spawned: &[
            Spawned::Start(1),
            Spawned::Stop(1),
            Spawned::Stop(1),
            Spawned::Start(2),
        ],
        routed: &[Routed::Delete("/user/ann", 3), Routed::Add("/user/bob", 4)],
    },
];

/// What the connections may draw: fifteen zeros, and a byte that counts from 1.
const DRAWS: [[u8; 16]; 8] = [
    [0, 0, 0, 0, 0, 0, 0, 0, 0, 0, 0, 0, 0, 0, 0, 1],
    [0, 0, 0, 0, 0, 0, 0, 0, 0, 0, 0, 0, 0, 0, 0, 2],
    [0, 0, 0, 0, 0, 0, 0, 0, 0, 0, 0, 0, 0, 0, 0, 3],
    [0, 0, 0, 0, 0, 0, 0, 0, 0, 0, 0, 0, 0, 0, 0, 4],
    [0, 0, 0, 0, 0, 0, 0, 0, 0, 0, 0, 0, 0, 0, 0, 5],
    [0, 0, 0, 0, 0, 0, 0, 0, 0, 0, 0, 0, 0, 0, 0, 6],
    [0, 0, 0, 0, 0, 0, 0, 0, 0, 0, 0, 0, 0, 0, 0, 7],
    [0, 0, 0, 0, 0, 0, 0, 0, 0, 0, 0, 0, 0, 0, 0, 8],
];

/// The draw of the start that is asked for first. The other connection has those of its own.
const DRAW: [u8; 16] = [0, 0, 0, 0, 0, 0, 0, 0, 0, 0, 0, 0, 0, 0, 0, 9];

fn kit_of(rt: &impl Abort, alloc: Global, meeting: &Meeting) -> MemKit {
    let draws = Vec::from_slice(alloc, &DRAWS).expect(rt, "there is memory");
    HubKit {
        spawner: MemSpawner::new(alloc, failing(rt, alloc, meeting.failing_spawn)),
        routes: MemRouteLink::new(alloc, failing(rt, alloc, meeting.failing_route)),
        clock: FixedClock(Moment::up_to(NOW)),
        random: ListRandom::new(draws, Vec::new(alloc)),
    }
}

/// A further pass of the desk.
fn further(rt: &impl Abort, desk: &Desk<MemBook>, pass: &mut Pass<MemBook>) -> Pass<MemBook>
    requires of { pass.old.of ≡ desk.now }
    requires first { IsSome pass.old.others }
    ensures kept { pass.new.of ≡ pass.old.of }
    ensures of { result.of ≡ desk.now }
{
    match desk.split(pass) {
        Ok(further) => further,
        Err(_) => panic!(rt; "no pass"),
    }
}

/// Asks for the start of ann's default server: the work that it owes.
fn begun<R: Abort + Wait>(
    rt: &R,
    alloc: Global,
    desk: &Desk<MemBook>,
    pass: &mut Pass<MemBook>,
) -> Work
    requires { pass.old.of ≡ desk.now }
    ensures of { pass.new.of ≡ pass.old.of }
    ensures sound { IsSound result }
{
    let asked = Asked {
        token: Some(text(rt, alloc, "secret-token-ann")),
        seen: None,
        call: Call::PostServer {
            server: read_key(b"ann/").expect(rt, "it is a key"),
        },
    };
    let mut ask = Ask::new(alloc, Moment::up_to(NOW), Some(DRAW), asked);
    let outcome = desk.visit(rt, pass, &mut ask);
    drop(ask);
    match outcome {
        Ok(Outcome::Work(work)) => work,
        _ => panic!(rt; "no work"),
    }
}

/// Does the work of ann's start.
fn done<R: Abort + Wait>(
    rt: &R,
    alloc: Global,
    desk: &Desk<MemBook>,
    pass: &mut Pass<MemBook>,
    kit: &mut MemKit,
    work: Work,
) -> Option<Tale>
    requires of { pass.old.of ≡ desk.now }
    requires sound { IsSound work }
    ensures { pass.new.of ≡ pass.old.of }
{
    let path = text(rt, alloc, "/user/ann");
    let Work {
        generation,
        server,
        target,
        todo,
        secret,
    } = work;
    let errand = server_work::work::Work {
        generation,
        server,
        path,
        target,
        secret,
    };
    let told = drive(
        rt,
        desk,
        pass,
        &mut kit.spawner,
        &mut kit.routes,
        &errand,
        todo,
    );
    drop(errand);
    told
}

/// Whether a connection that asks this gets these replies, and ends then.
fn exchanges<R: Abort + Wait>(
    rt: &R,
    alloc: Global,
    desk: &Desk<MemBook>,
    pass: &mut Pass<MemBook>,
    kit: &mut MemKit,
    exchange: &Exchange,
) -> bool
    requires { pass.old.of ≡ desk.now }
    ensures { pass.new.of ≡ desk.now }
{
    let mut source = MemSource::new(bytes(rt, alloc, exchange.input), 100, Vec::new(alloc));
    let mut sink = MemSink::new(alloc, Vec::new(alloc));
    let served = serve_connection(rt, alloc, desk, pass, &mut source, &mut sink, kit);
    drop(source);
    let written = sink.as_slice() == exchange.output;
    drop(sink);
    written & (served == Ok(Served::Ended(exchange.replies)))
}

fn is_told(told: Option<Tale>, tale: &Tale) -> bool {
    match told {
        Some(told) => {
            (told.failed == tale.failed)
                & (told.ready == tale.ready)
                & (told.stopped == tale.stopped)
                & (told.kept == tale.kept)
                & (told.length == tale.length)
        }
        None => false,
    }
}

/// Whether the connections meet as they should, and made these calls.
fn meets_so<R: Abort + Wait>(rt: &R, alloc: Global, meeting: &Meeting) -> bool {
    let (desk, mut starting) = open_hub(rt, alloc, FILE);
    let mut other = further(rt, &desk, &mut starting);
    let mut kit = kit_of(rt, alloc, meeting);
    let work = begun(rt, alloc, &desk, &mut starting);
    let meanwhile = exchanges(rt, alloc, &desk, &mut other, &mut kit, &meeting.meanwhile);
    let told = done(rt, alloc, &desk, &mut starting, &mut kit, work);
    let after = exchanges(rt, alloc, &desk, &mut other, &mut kit, &meeting.after);
    desk.join(&mut starting, other);
    close_hub(rt, desk, starting);
    let called = are_called(&kit.spawner, &kit.routes, meeting.spawned, meeting.routed);
    drop(kit);
    meanwhile & is_told(told, &meeting.tale) & after & called
}

#[test]
fn two_passes(rt: HostRuntime) {
    let alloc = rt.alloc();
    for meeting in &MEETINGS {
        check(&rt, meets_so(&rt, alloc, meeting), meeting.name);
    }
}
