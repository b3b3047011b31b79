//! The command `proxy` over devices in memory: a route is added while another caller of the interface waits, and then a caller opens a
//! tunnel.
ghost use Rattle.std.specs.Prelude.{◌<◌, length};

use crate::caller::{Caller, wait_for};
use crate::check::{bytes, check, text};
use crate::mem_carrier::MemCarrier;
use hub_devices::listener::Listener;
use hub_devices::mem_bytes::{MemSink, MemSource};
use hub_devices::mem_clock::FixedClock;
use hub_devices::mem_listener::MemListener;
use hub_devices::source::Failed;
use hub_kit::bytes::Bytes;
use hub_kit::moment::Moment;
use proxy_serving::{ProxyFault, ProxyKit, serve_proxy};
use std::alloc::Global;
use std::process::Abort;
use std::sync::{Mutex, Wait};
use std::thread::Threads;
use upstreams::mem_upstream::MemUpstream;

const WITHOUT: &[u8] = b"GET /api/routes HTTP/1.1\r\n\r\n";

const ADDITION: &[u8] =
    b"POST /api/routes/user/ann HTTP/1.1\r\nAuthorization: token secret-of-proxy\r\n\
    Content-Length: 34\r\n\r\n{\"target\":\"http://127.0.0.1:9001\"}";

const ADDED: &[u8] = b"HTTP/1.1 201 Created\r\nContent-Length: 0\r\nConnection: close\r\n\r\n";

/// The answers of the interface: the first caller takes its own only behind that of the second.
const ANSWERS: &[u8] = b"HTTP/1.1 201 Created\r\nContent-Length: 0\r\nConnection: close\r\n\r\n\
    HTTP/1.1 403 Forbidden\r\nContent-Type: application/json\r\nContent-Length: 41\r\n\
    Connection: close\r\n\r\n{\"message\":\"no valid token\",\"status\":403}";

const ASKED: &[u8] = b"GET /user/ann/ws HTTP/1.1\r\nHost: h\r\nConnection: keep-alive, Upgrade\r\n\
    Upgrade: websocket\r\n\r\nabc";

const SWITCHED: &[u8] =
    b"HTTP/1.1 101 Switching Protocols\r\nConnection: upgrade\r\nUpgrade: websocket\r\n\r\nxy";

const TUNNELLED: &[u8] =
    b"HTTP/1.1 101 Switching Protocols\r\nUpgrade: websocket\r\nConnection: Upgrade\r\n\r\nxy";

type Doors<'a, W> = MemListener<MemSource, Caller<'a, W>>;

/// A listener whose callers come once so many bytes were written on the other one's connections.
#[derive(Drop)]
struct Later<'a, W: Wait> {
    rt: &'a W,
    other: &'a Mutex<Bytes>,
    least: usize,
    doors: Doors<'a, W>,
}

impl<'a, W: Wait> Listener for Later<'a, W> {
    type In = MemSource;

    type Out = Caller<'a, W>;

    ghost are_sides = { λ _ _. Unit };

    ghost given = { λ l. ⟦<Doors<'a, W> as Listener>⟧.given l.doors };

    ghost faults = { λ l. ⟦<Doors<'a, W> as Listener>⟧.faults l.doors };

    fn accept(&mut self) -> Result<(MemSource, Caller<'a, W>), Failed> {
        wait_for(self.rt, self.other, self.least);
        self.doors.accept()
    }
}

/// A caller who sends this, and takes what comes once so many bytes were taken by others.
fn caller<'a, W: Wait + Abort>(
    rt: &'a W,
    alloc: Global,
    all: &'a Mutex<Bytes>,
    sent: &[u8],
    least: usize,
) -> (MemSource, Caller<'a, W>) {
    let source = MemSource::new(bytes(rt, alloc, sent), 1000, Vec::new(alloc));
    let sink = Caller {
        rt,
        all,
        least,
        is_shut: false,
        faults: 0,
    };
    (source, sink)
}

/// One caller, who opens a tunnel.
fn browsers<'a, W: Wait + Abort>(rt: &'a W, alloc: Global, all: &'a Mutex<Bytes>) -> Doors<'a, W> {
    let doors = vec![in alloc; caller(rt, alloc, all, ASKED, 0)];
    MemListener::new(doors.expect(rt, "there is memory"), Vec::new(alloc))
}

/// Two callers of the interface. The first one's answer waits for that of the second.
fn callers<'a, W: Wait + Abort>(rt: &'a W, alloc: Global, all: &'a Mutex<Bytes>) -> Doors<'a, W> {
    let first = caller(rt, alloc, all, WITHOUT, ADDED.len());
    let second = caller(rt, alloc, all, ADDITION, 0);
    let doors = vec![in alloc; first, second];
    MemListener::new(doors.expect(rt, "there is memory"), Vec::new(alloc))
}

type MemKit<'a, W> = ProxyKit<MemCarrier<'a, W>, FixedClock>;

fn kits<W: Threads + Abort>(rt: &W, alloc: Global) -> Vec<MemKit<'_, W>>
    ensures { 0 < length result.items }
{
    let upstream = MemCarrier {
        threads: rt,
        up: MemUpstream::new(alloc, bytes(rt, alloc, SWITCHED), 1000, Vec::new(alloc)),
    };
    let clock = FixedClock(Moment::zero());
    let kits = vec![in alloc; ProxyKit { upstream, clock }];
    kits.expect(rt, "there is memory")
}

/// Several workers of the interface.
fn clocks<W: Abort>(rt: &W, alloc: Global) -> Vec<FixedClock>
    ensures { 0 < length result.items }
{
    let clocks = vec![in alloc; FixedClock(Moment::zero()), FixedClock(Moment::zero())];
    clocks.expect(rt, "there is memory")
}

/// Whether the route is added before the caller without a token takes its answer, and then the other one gets the head of status 101 and
/// what comes behind it.
fn tunnels<W: Threads + Wait + Abort + Sync>(rt: &W, alloc: Global) -> bool {
    let asked = Mutex::new(Bytes::new(alloc));
    let added = Mutex::new(Bytes::new(alloc));
    let mut browsers = Later {
        rt,
        other: &added,
        least: 1,
        doors: browsers(rt, alloc, &asked),
    };
    let mut api = Later {
        rt,
        other: &asked,
        least: 0,
        doors: callers(rt, alloc, &added),
    };
    let secret = text(rt, alloc, "secret-of-proxy");
    let mut kits = kits(rt, alloc);
    let mut clocks = clocks(rt, alloc);
    let mut output = MemSink::new(alloc, Vec::new(alloc));
    let end = serve_proxy(
        rt,
        alloc,
        &secret,
        &mut browsers,
        &mut api,
        &mut kits,
        &mut clocks,
        &mut output,
    );
    drop(kits);
    drop(clocks);
    drop(browsers);
    drop(api);
    let is_ready = output.as_slice() == b"ready\n".as_slice();
    drop(output);
    let added = added.into_inner();
    let is_added = added.as_slice() == ANSWERS;
    drop(added);
    let asked = asked.into_inner();
    let is_tunnelled = asked.as_slice() == TUNNELLED;
    drop(asked);
    (end.forwarded == 1)
        & (end.answered == 2)
        & (end.fault == ProxyFault::Listener)
        & is_ready
        & is_added
        & is_tunnelled
}

#[test]
fn a_tunnel_through_the_command(rt: HostRuntime) {
    check(&rt, tunnels(&rt, rt.alloc()), "a tunnel through `proxy`");
}
