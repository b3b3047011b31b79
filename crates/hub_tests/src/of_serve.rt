//! Streets of peers: what each asks, and how the serving ends.
use crate::check::check;
use crate::held_hubs::{FILE, kit};
use crate::hubs::open_hub;
use crate::peers::{Peer, Street};
use crate::scene::Scene;
use hub_serve::{ServeFault, Tally, serve};
use std::alloc::Global;
use std::process::Abort;
use std::sync::Wait;
use std::thread::Threads;

/// Connections to one hub, which three workers serve.
struct Serving {
    name: &'static str,
    /// The peers, of which the last comes again and again.
    peers: &'static [Peer],
    connections: u64,
    /// After how many connections the listener fails.
    fails_at: u64,
    /// How many are counted.
    served: u64,
    end: Result<(), ServeFault>,
    /// How many entries the history has then.
    length: u64,
    /// The last stage that is reached.
    stage: u64,
}

const NEVER: u64 = u64::MAX;

/// A token for ann, which is one entry of the history.
const A_TOKEN: &[u8] =
    b"POST /hub/api/users/ann/tokens HTTP/1.1\r\nAuthorization: token secret-token-ann\r\nContent-Length: 2\r\n\r\n{}";

const A_START: &[u8] =
    b"POST /hub/api/users/ann/server HTTP/1.1\r\nAuthorization: token secret-token-ann\r\n\r\n";

const SERVINGS: [Serving; 6] = [
    Serving {
        name: "a long connection holds up none",
        peers: &[
            Peer {
                waits_for: 1,
                input: A_TOKEN,
                reads_at: 0,
                output: b"HTTP/1.1 201 Created\r\n",
                answers_at: 0,
            },
            Peer {
                waits_for: 0,
                input: A_TOKEN,
                reads_at: 1,
                output: b"HTTP/1.1 201 Created\r\n",
                answers_at: 0,
            },
        ],
        connections: 40,
        fails_at: NEVER,
        served: 40,
        end: Ok(()),
        length: 40,
        stage: 1,
    },
    Serving {
        name: "a fault of the listener ends it",
        peers: &[Peer {
            waits_for: 0,
            input: A_TOKEN,
            reads_at: 0,
            output: b"HTTP/1.1 201 Created\r\n",
            answers_at: 1,
        }],
        connections: 40,
        fails_at: 7,
        served: 7,
        end: Err(ServeFault::Listener(7)),
        length: 7,
        stage: 1,
    },
    Serving {
        name: "none is taken",
        peers: &[],
        connections: 0,
        fails_at: 0,
        served: 0,
        end: Ok(()),
        length: 0,
        stage: 0,
    },
    Serving {
        name: "a second start is answered while the first goes on",
        peers: &[
            Peer {
                waits_for: 0,
                input: A_START,
                reads_at: 0,
                output: b"HTTP/1.1 201 Created\r\nContent-Length: 0\r\nX-Hub-Revision: 3\r\n\r\n",
                answers_at: 3,
            },
            Peer {
                waits_for: 1,
                input: A_START,
                reads_at: 0,
                output: b"HTTP/1.1 202 Accepted\r\nContent-Length: 0\r\nX-Hub-Revision: 1\r\n\r\n",
                answers_at: 2,
            },
        ],
        connections: 2,
        fails_at: NEVER,
        served: 2,
        end: Ok(()),
        length: 3,
        stage: 3,
    },
    Serving {
        name: "a stop while the start goes on",
        peers: &[
            Peer {
                waits_for: 0,
                input: A_START,
                reads_at: 0,
                output: b"HTTP/1.1 409 Conflict\r\nContent-Type: application/json\r\nContent-Length: 49\r\nX-Hub-Revision: 4\r\n\r\n\
    {\"message\":\"stopped while starting\",\"status\":409}",
                answers_at: 3,
            },
            Peer {
                waits_for: 1,
                input: b"DELETE /hub/api/users/ann/server HTTP/1.1\r\nAuthorization: token secret-token-ann\r\n\r\n",
                reads_at: 0,
                output: b"HTTP/1.1 202 Accepted\r\nContent-Length: 0\r\nX-Hub-Revision: 2\r\n\r\n",
                answers_at: 2,
            },
        ],
        connections: 2,
        fails_at: NEVER,
        served: 2,
        end: Ok(()),
        length: 4,
        stage: 3,
    },
    Serving {
        name: "a deleted token is refused on another connection",
        peers: &[
            Peer {
                waits_for: 0,
                input: b"DELETE /hub/api/users/ann/tokens/1 HTTP/1.1\r\nAuthorization: token secret-token-ann\r\n\r\n",
                reads_at: 0,
                output: b"HTTP/1.1 204 No Content\r\nX-Hub-Revision: 1\r\n\r\n",
                answers_at: 1,
            },
            Peer {
                waits_for: 1,
                input: b"GET /hub/api/user HTTP/1.1\r\nAuthorization: token secret-token-ann\r\nX-Hub-Seen: 1\r\n\r\n",
                reads_at: 0,
                output: b"HTTP/1.1 403 Forbidden\r\nContent-Type: application/json\r\nContent-Length: 41\r\nX-Hub-Revision: 1\r\n\r\n\
    {\"message\":\"no valid token\",\"status\":403}",
                answers_at: 2,
            },
        ],
        connections: 2,
        fails_at: NEVER,
        served: 2,
        end: Ok(()),
        length: 1,
        stage: 2,
    },
];

/// How many connections a tally counts. It is let go here, where what it tells of has no name.
fn count_of<P, Q, I, O>(tally: Tally<P, Q, I, O>) -> u64 {
    tally.count()
}

/// Whether the connections are served as they should.
fn is_served<W: Threads + Wait + Abort + Sync>(rt: &W, alloc: Global, serving: &Serving) -> bool {
    let scene = Scene::new();
    let mut street = Street {
        rt,
        alloc,
        scene: &scene,
        peers: serving.peers,
        given: 0,
        fails_at: serving.fails_at,
        faults: 0,
    };
    let kits = vec![in alloc;
        kit(rt, alloc, &scene, 1),
        kit(rt, alloc, &scene, 2),
        kit(rt, alloc, &scene, 3),
    ];
    let mut kits = kits.expect(rt, "there is memory");
    let (desk, pass) = open_hub(rt, alloc, FILE);
    let (book, tally, end) = serve(
        rt,
        alloc,
        desk,
        pass,
        &mut street,
        &mut kits,
        serving.connections,
    );
    let served = count_of(tally);
    let length = book.length();
    drop(book);
    (served == serving.served)
        & (kits.len() == 3)
        & (end == serving.end)
        & (length == serving.length)
        & scene.ends_at(rt, serving.stage)
}

#[test]
fn many_connections(rt: HostRuntime) {
    for serving in &SERVINGS {
        check(&rt, is_served(&rt, rt.alloc(), serving), serving.name);
    }
}
