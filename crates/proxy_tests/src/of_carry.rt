//! One request carried: a tunnel behind a head of status 101, what is none, and two ends that wait for one another.
ghost use Rattle.std.specs.Prelude.{◌<◌, ◌≤◌, None, false, ℕ, length};

use crate::check::{bytes, check, table};
use crate::mem_carrier::MemCarrier;
use carries::{Carried, Carrier, carry_head, carry_one};
use http_wire::error::SessionFault;
use http_wire::head::Head;
use hub_devices::mem_bytes::{MemSink, MemSource};
use hub_devices::sink::Sink;
use hub_devices::source::{Failed, Source};
use hub_kit::moment::Moment;
use hub_kit::target::Target;
use piece_window::rooms::Rooms;
use proxy_core::refusals::Forwarded;
use proxy_wire::framing::Framing;
use std::alloc::Global;
use std::process::Abort;
use std::sync::atomic::{AtomicU64, Ordering};
use std::thread;
use std::thread::Threads;
use tunnel::ends::{Pump, PumpEnd};
use tunnel::gate::Gate;
use tunnel::shuts::Shuts;
use upstreams::mem_upstream::MemUpstream;
use upstreams::tunnelled::Tunnelled;
use upstreams::upstream::Upstream;

/// What stands on the input and comes from the upstream, and what comes of them.
struct Carriage {
    name: &'static str,
    /// The number of the upstream's call that fails.
    failing: u64,
    input: &'static [u8],
    given: &'static [u8],
    end: Seen,
    sent: &'static [u8],
    output: &'static [u8],
}

/// How a request ended: as one that is passed on, or with what went up a tunnel and how both directions ended.
#[derive(Clone, Copy, PartialEq, Eq)]
enum Seen {
    One(Result<Forwarded, SessionFault>),
    Tunnel(&'static [u8], Pump, Pump),
}

/// The number of a call that doesn't come.
const NEVER: u64 = u64::MAX;

const BAD_UPSTREAM: &[u8] =
    b"HTTP/1.1 502 Bad Gateway\r\nContent-Type: application/json\r\nContent-Length: 39\r\n\
    Connection: close\r\n\r\n{\"message\":\"bad upstream\",\"status\":502}";

const NO_UPSTREAM: &[u8] = b"HTTP/1.1 503 Service Unavailable\r\nContent-Type: application/json\r\n\
    Content-Length: 35\r\nConnection: close\r\n\r\n{\"message\":\"upstream\",\"status\":503}";

const ASKED: &[u8] = b"GET /user/ann/ws HTTP/1.1\r\nHost: h\r\nConnection: keep-alive, Upgrade\r\n\
    Upgrade: websocket\r\n\r\nabc";

const SENT: &[u8] =
    b"GET /user/ann/ws HTTP/1.1\r\nHost: h\r\nUpgrade: websocket\r\nConnection: Upgrade\r\n\r\n";

const SWITCHED: &[u8] = b"HTTP/1.1 101 Switching Protocols\r\nConnection: upgrade\r\n\
    Upgrade: websocket\r\nKeep-Alive: timeout=5\r\n\r\nxy";

/// The table has one route, `/user/ann`.
const CARRIAGES: [Carriage; 6] = [
    Carriage {
        name: "both ways, behind the head of status 101",
        failing: NEVER,
        input: ASKED,
        given: SWITCHED,
        end: Seen::Tunnel(
            b"abc",
            Pump {
                bytes: 3,
                end: PumpEnd::Ended,
            },
            Pump {
                bytes: 2,
                end: PumpEnd::Ended,
            },
        ),
        sent: SENT,
        output: b"HTTP/1.1 101 Switching Protocols\r\nUpgrade: websocket\r\n\
    Connection: Upgrade\r\n\r\nxy",
    },
    Carriage {
        name: "101 to a request that asked for no upgrade",
        failing: NEVER,
        input: b"GET /user/ann/ws HTTP/1.1\r\nHost: h\r\nUpgrade: websocket\r\n\r\n",
        given: SWITCHED,
        end: Seen::One(Ok(Forwarded::Refused(502))),
        sent: b"GET /user/ann/ws HTTP/1.1\r\nHost: h\r\nConnection: close\r\n\r\n",
        output: BAD_UPSTREAM,
    },
    Carriage {
        name: "an upgrade with a body is none",
        failing: NEVER,
        input: b"GET /user/ann/ws HTTP/1.1\r\nConnection: Upgrade\r\nUpgrade: websocket\r\n\
    Content-Length: 1\r\n\r\na",
        given: SWITCHED,
        end: Seen::One(Ok(Forwarded::Refused(502))),
        sent: b"GET /user/ann/ws HTTP/1.1\r\nContent-Length: 1\r\nConnection: close\r\n\r\na",
        output: BAD_UPSTREAM,
    },
    Carriage {
        name: "another reply to an upgrade",
        failing: NEVER,
        input: ASKED,
        given: b"HTTP/1.1 403 Forbidden\r\nUpgrade: websocket\r\nContent-Length: 2\r\n\r\nno",
        end: Seen::One(Ok(Forwarded::Passed)),
        sent: SENT,
        output: b"HTTP/1.1 403 Forbidden\r\nContent-Length: 2\r\nConnection: close\r\n\r\nno",
    },
    Carriage {
        name: "the sides aren't had",
        failing: 3,
        input: ASKED,
        given: SWITCHED,
        end: Seen::One(Ok(Forwarded::Refused(503))),
        sent: SENT,
        output: NO_UPSTREAM,
    },
    Carriage {
        name: "no route",
        failing: NEVER,
        input: b"GET /other HTTP/1.1\r\nConnection: Upgrade\r\nUpgrade: websocket\r\n\r\n",
        given: SWITCHED,
        end: Seen::One(Ok(Forwarded::Refused(404))),
        sent: b"",
        output: b"HTTP/1.1 404 Not Found\r\nContent-Type: application/json\r\nContent-Length: 36\r\n\
    Connection: close\r\n\r\n{\"message\":\"not found\",\"status\":404}",
    },
];

/// Whether a request ended so.
fn ended_so(ended: Result<Carried<MemSource, Gate<MemSink>>, SessionFault>, end: Seen) -> bool {
    match ended {
        Ok(Carried::One(forwarded)) => end == Seen::One(Ok(forwarded)),
        Ok(
            Carried::Tunnel {
                up,
                down,
                reads: _,
                writes,
            },
        ) => match end {
            Seen::Tunnel(bytes, upward, downward) => {
                (writes.inner().as_slice() == bytes) & (up == upward) & (down == downward)
            }
            Seen::One(_) => false,
        },
        Err(fault) => end == Seen::One(Err(fault)),
    }
}

/// Carries a row's request through rooms that may hold what an earlier row has left.
fn ends_so<R: Threads + Abort>(
    rt: &R,
    alloc: Global,
    cut: usize,
    rooms: &mut Rooms,
    row: &Carriage,
) -> bool {
    let mut routes = table(rt, alloc);
    let mut source = MemSource::new(bytes(rt, alloc, row.input), cut, Vec::new(alloc));
    let mut sink = Gate::new(MemSink::new(alloc, Vec::new(alloc)));
    let failing = Vec::from_slice(alloc, &[row.failing]).expect(rt, "there is memory");
    let mut up = MemCarrier {
        threads: rt,
        up: MemUpstream::new(alloc, bytes(rt, alloc, row.given), cut, failing),
    };
    let ended = carry_one(
        alloc,
        &mut routes,
        Moment::zero(),
        &mut source,
        rooms,
        &mut sink,
        &mut up,
    );
    drop(routes);
    drop(source);
    let sent = up.up.sent() == row.sent;
    drop(up);
    let written = sink.inner().as_slice() == row.output;
    drop(sink);
    ended_so(ended, row.end) & sent & written
}

#[test]
fn carriages(rt: HostRuntime) {
    let alloc = rt.alloc();
    let mut rooms = Rooms::new(alloc);
    for row in &CARRIAGES {
        check(&rt, ends_so(&rt, alloc, 1000, &mut rooms, row), row.name);
    }
}

/// Where calls of the upstream fail, their numbers depend on the pieces.
#[test]
fn byte_by_byte(rt: HostRuntime) {
    let alloc = rt.alloc();
    let mut rooms = Rooms::new(alloc);
    for row in &CARRIAGES {
        if row.failing == NEVER {
            check(&rt, ends_so(&rt, alloc, 1, &mut rooms, row), row.name);
        }
    }
}

/// Gives a head, then the byte 0, then waits until the other end's first byte has come, and ends.
#[derive(Drop)]
struct Waiting<'a> {
    head: &'static [u8],
    gave: bool,
    came: &'a AtomicU64,
    faults: u64,
}

impl Waiting<'_> {
    /// The next bytes of the head.
    fn next_of_head(&mut self, into: &mut [u8]) -> usize
        ensures within { result ≤ length into.new }
        ensures counted { self.old.faults ≤ self.new.faults }
    {
        let count = self.head.len().min(into.len());
        into[..count].copy_from_slice(&self.head[..count]);
        self.head = &self.head[count..];
        count
    }
}

impl Source for Waiting<'_> {
    ghost left = { λ s. None };

    ghost faults = { λ s. s.faults };

    fn read(&mut self, into: &mut [u8]) -> Result<usize, Failed> {
        if into.is_empty() {
            return Ok(0);
        }
        if !self.head.is_empty() {
            return Ok(self.next_of_head(into));
        }
        if !self.gave {
            self.gave = true;
            into[0] = 0;
            return Ok(1);
        }
        for _ in 0..10_000_000 {
            if self.came.load(Ordering::SeqCst) != 0 {
                return Ok(0);
            }
            thread::yield_now();
        }
        self.faults = self.faults.saturating_add(1);
        Err(Failed)
    }
}

/// Tells that the byte 0 came.
#[derive(Drop)]
struct Telling<'a> {
    came: &'a AtomicU64,
}

impl Sink for Telling<'_> {
    ghost held = { λ s. None };

    ghost faults = { λ s. 0 };

    ghost closed = { λ s. false };

    fn write(&mut self, from: &[u8]) -> Result<usize, Failed> {
        if from.contains(&0) {
            self.came.store(1, Ordering::SeqCst);
        }
        Ok(from.len())
    }
}

/// An upstream that switches over, whose end of the tunnel waits.
#[derive(Drop)]
struct WaitingUp<'a, T: Threads> {
    threads: &'a T,
    head: &'static [u8],
    came: &'a AtomicU64,
}

impl<'a, T: Threads> Upstream for WaitingUp<'a, T> {
    ghost told = { λ u. None };

    ghost faults = { λ u. 0 };

    fn connect(&mut self, _target: &Target) -> Result<(), Failed> {
        Ok(())
    }

    fn send(&mut self, _bytes: &[u8]) -> Result<(), Failed> {
        Ok(())
    }

    fn receive(&mut self, into: &mut [u8]) -> Result<usize, Failed> {
        let count = self.head.len().min(into.len());
        into[..count].copy_from_slice(&self.head[..count]);
        self.head = &self.head[count..];
        Ok(count)
    }

    fn finish(&mut self) {}
}

impl<'a, T: Threads> Tunnelled for WaitingUp<'a, T> {
    type Reads = Waiting<'a>;

    type Writes = Gate<Telling<'a>>;

    fn halves(&mut self) -> Result<(Waiting<'a>, Gate<Telling<'a>>), Failed> {
        let came = self.came;
        let reads = Waiting {
            head: &[],
            gave: false,
            came,
            faults: 0,
        };
        Ok((reads, Gate::new(Telling { came })))
    }
}

impl<'a, T: Threads, O: Shuts> Carrier<Waiting<'a>, O> for WaitingUp<'a, T> {
    fn carry(
        &mut self,
        alloc: Global,
        head: &Head,
        framing: Framing,
        target: &Target,
        input: &mut Waiting<'a>,
        rooms: &mut Rooms,
        output: &mut O,
    ) -> Result<Carried<Waiting<'a>, Gate<Telling<'a>>>, SessionFault> {
        let threads = self.threads;
        carry_head(
            threads, alloc, head, framing, target, input, rooms, output, self,
        )
    }
}

/// Whether one byte went each way, though either end gives nothing more until its own has come to the other one.
fn one_byte_each<'a, R: Threads + Abort>(
    rt: &'a R,
    alloc: Global,
    client: &'a AtomicU64,
    upstream: &'a AtomicU64,
) -> bool {
    let mut routes = table(rt, alloc);
    let mut input = Waiting {
        head: b"GET /user/ann/ws HTTP/1.1\r\nConnection: Upgrade\r\nUpgrade: a\r\n\r\n",
        gave: false,
        came: client,
        faults: 0,
    };
    let mut output = Gate::new(Telling { came: client });
    let mut up = WaitingUp {
        threads: rt,
        head: b"HTTP/1.1 101 Switching Protocols\r\nUpgrade: a\r\n\r\n",
        came: upstream,
    };
    let ended = carry_one(
        alloc,
        &mut routes,
        Moment::zero(),
        &mut input,
        &mut Rooms::new(alloc),
        &mut output,
        &mut up,
    );
    let one = Pump {
        bytes: 1,
        end: PumpEnd::Ended,
    };
    match ended {
        Ok(
            Carried::Tunnel {
                up,
                down,
                reads: _,
                writes: _,
            },
        ) => (up == one) & (down == one),
        _ => false,
    }
}

#[test]
fn ends_that_wait(rt: HostRuntime) {
    let client = AtomicU64::new(0);
    let upstream = AtomicU64::new(0);
    let holds = one_byte_each(&rt, rt.alloc(), &client, &upstream);
    check(
        &rt,
        holds,
        "two ends that wait for one another's first byte",
    );
}
