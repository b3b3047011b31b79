//! What connections over the system's sockets do.
use crate::check::check;
use hub_devices::listener::Listener;
use hub_devices::sink::Sink;
use hub_devices::source::{Failed, Source};
use hub_edge::connection::{SocketSink, SocketSource};
use hub_edge::limits::{HEAD_SECONDS, REQUEST_SECONDS};
use hub_edge::listener::SocketListener;
use hub_edge::targets::connect;
use hub_kit::target::Target;
use hub_kit::targets::read_target;
use std::process::Abort;
use std::time::{Duration, Instant};
use std::{fs, thread};

/// A caller's side of a connection.
#[derive(Drop)]
struct Caller {
    heard: SocketSource,
    said: SocketSink,
}

/// A worker's side of it, and the listener.
#[derive(Drop)]
struct Worker {
    listener: SocketListener,
    target: Target,
    input: SocketSource,
    output: SocketSink,
}

/// The target at a port of a host.
fn target_at(handle: &impl Abort, rt: HostRuntime, host: &str, port: u16) -> Target {
    let url = format!(in rt.alloc(); "http://{host}:{port}").expect(handle, "there is memory");
    let target = read_target(rt.alloc(), url.as_bytes()).expect(handle, "it is a target");
    drop(url);
    target
}

/// A listener at a free port of this machine, and its target.
pub fn listen(handle: &impl Abort, rt: HostRuntime) -> (SocketListener, Target) {
    let listener = SocketListener::bind(rt, "127.0.0.1:0").expect(handle, "a free port");
    let port = listener.port().expect(handle, "its port");
    let target = target_at(handle, rt, "127.0.0.1", port);
    (listener, target)
}

/// Both sides of a connection on which the caller has sent these bytes. Before that no worker gets it.
fn connected(handle: &impl Abort, rt: HostRuntime, sent: &[u8]) -> (Caller, Worker) {
    let (mut listener, target) = listen(handle, rt);
    let (heard, mut said) = connect(rt, &target).expect(handle, "it is connected");
    check(
        handle,
        writes(&mut said, sent),
        "the caller's bytes are sent",
    );
    let (input, output) = listener.accept().ok().expect(handle, "it is accepted");
    (
        Caller { heard, said },
        Worker {
            listener,
            target,
            input,
            output,
        },
    )
}

/// Whether the next read gives as many bytes.
fn reads(input: &mut SocketSource, wanted: usize) -> bool {
    let mut buf = [0u8; 64];
    match input.read(&mut buf) {
        Ok(count) => count == wanted,
        Err(Failed) => false,
    }
}

/// Whether these bytes are written at once.
fn writes(output: &mut SocketSink, bytes: &[u8]) -> bool {
    match output.write(bytes) {
        Ok(count) => count == bytes.len(),
        Err(Failed) => false,
    }
}

/// Whether a request of 18 bytes is read and a reply of 19 is written.
fn answers(worker: &mut Worker) -> bool {
    reads(&mut worker.input, 18) & writes(&mut worker.output, b"HTTP/1.1 200 OK\r\n\r\n")
}

/// Whether the caller hears the reply, and the worker the caller's end.
fn ends_well(caller: &mut Caller, worker: &mut Worker) -> bool {
    let hears = reads(&mut caller.heard, 19);
    caller.said.shut();
    hears & reads(&mut worker.input, 0)
}

#[test]
fn a_request_and_a_reply(rt: HostRuntime) {
    let (mut caller, mut worker) = connected(&rt, rt, b"GET / HTTP/1.1\r\n\r\n");
    check(&rt, answers(&mut worker), "a request and a reply");
    check(
        &rt,
        ends_well(&mut caller, &mut worker),
        "the reply arrives",
    );
    drop(caller);
    drop(worker);
}

/// Whether a byte comes within 50 ms, or while the connection waits at once.
fn comes_soon(rt: &HostRuntime, input: &mut SocketSource) -> bool {
    let mut byte = [0u8; 1];
    match Instant::now(rt) {
        Ok(begun) => input
            .read_within(begun, Duration::from_millis(50), &mut byte)
            .is_ok(),
        Err(_) => false,
    }
}

#[test]
fn a_wait_for_what_is_left(rt: HostRuntime) {
    let (mut caller, mut worker) = connected(&rt, rt, b"GET / HTTP/1.1\r\n\r\n");
    check(&rt, !comes_soon(&rt, &mut caller.heard), "nothing comes");
    check(&rt, answers(&mut worker), "a request and a reply");
    check(&rt, comes_soon(&rt, &mut caller.heard), "the reply comes");
    drop(caller);
    drop(worker);
}

/// A connection that is silent after a reply ends where another caller waits and nobody is free.
#[test]
fn a_silent_connection_makes_room(rt: HostRuntime) {
    let (caller, mut worker) = connected(&rt, rt, b"GET / HTTP/1.1\r\n\r\n");
    check(&rt, answers(&mut worker), "a request and a reply");
    let other = connect(rt, &worker.target).expect(&rt, "another caller");
    check(&rt, reads(&mut worker.input, 0), "it ends");
    drop(other);
    drop(caller);
    drop(worker);
}

/// Whether a time that began at an instant took at most so many milliseconds.
fn took_at_most(rt: &HostRuntime, begun: Instant, millis: u64) -> bool {
    match begun.elapsed(rt) {
        Ok(time) => time <= Duration::from_millis(millis),
        Err(_) => false,
    }
}

/// Whether the next read fails.
fn fails(input: &mut SocketSource) -> bool {
    let mut buf = [0u8; 64];
    input.read(&mut buf).is_err()
}

/// Another caller, who has sent a request of 18 bytes and waits.
fn another(handle: &impl Abort, rt: HostRuntime, target: &Target) -> Caller {
    let (heard, mut said) = connect(rt, target).expect(handle, "another caller");
    let is_sent = writes(&mut said, b"GET / HTTP/1.1\r\n\r\n");
    check(handle, is_sent, "the other request is sent");
    Caller { heard, said }
}

/// Takes the next connection in place of the one that it has. Whether its request is answered.
fn answers_next(worker: Worker) -> bool {
    let Worker {
        mut listener,
        target,
        input,
        output,
    } = worker;
    drop(input);
    drop(output);
    let Ok((input, output)) = listener.accept() else {
        return false;
    };
    let mut next = Worker {
        listener,
        target,
        input,
        output,
    };
    answers(&mut next)
}

/// The beginning of a request of which nothing more is sent makes room where another caller waits and nobody is free.
#[test]
fn a_slow_request_makes_room(rt: HostRuntime) {
    let (slow, mut worker) = connected(&rt, rt, b"POST / HTTP/1.1\r\n");
    check(&rt, reads(&mut worker.input, 17), "its beginning");
    let mut other = another(&rt, rt, &worker.target);
    let begun = Instant::now(&rt).expect(&rt, "the clock");
    check(&rt, fails(&mut worker.input), "it is let go");
    check(&rt, answers_next(worker), "the other one's turn");
    check(&rt, reads(&mut other.heard, 19), "a reply");
    check(&rt, took_at_most(&rt, begun, 4000), "within 4 seconds");
    drop(other);
    drop(slow);
}

/// Whether a byte arrives each half of a second, for so long.
fn trickles(rt: &HostRuntime, said: &mut SocketSink, input: &mut SocketSource, count: u64) -> bool {
    for _ in 0..count {
        thread::sleep(rt, Duration::from_millis(500));
        if !writes(said, b"x") || !reads(input, 1) {
            return false;
        }
    }
    true
}

/// A request that trickles in is read on while nobody waits, and makes room once somebody does.
#[test]
fn a_trickling_request(rt: HostRuntime) {
    let (mut slow, mut worker) = connected(&rt, rt, b"POST / HTTP/1.1\r\n");
    check(&rt, reads(&mut worker.input, 17), "its beginning");
    let goes_on = trickles(&rt, &mut slow.said, &mut worker.input, 5);
    check(&rt, goes_on, "nobody waits");
    let other = another(&rt, rt, &worker.target);
    let begun = Instant::now(&rt).expect(&rt, "the clock");
    check(&rt, fails(&mut worker.input), "it is let go");
    check(&rt, took_at_most(&rt, begun, 1000), "at once");
    drop(other);
    drop(worker);
    drop(slow);
}

/// Writes a long reply until a write fails, and says whether one did.
fn is_let_go(output: &mut SocketSink) -> bool {
    let piece = [b'x'; 16384];
    for _ in 0..4096 {
        if output.write(&piece).is_err() {
            return true;
        }
    }
    false
}

/// A reply of which nothing is taken makes room where another caller waits and nobody is free.
#[test]
fn a_reply_that_is_not_read(rt: HostRuntime) {
    let (slow, mut worker) = connected(&rt, rt, b"GET / HTTP/1.1\r\n\r\n");
    check(&rt, answers(&mut worker), "the beginning of a reply");
    let other = another(&rt, rt, &worker.target);
    let begun = Instant::now(&rt).expect(&rt, "the clock");
    check(&rt, is_let_go(&mut worker.output), "it is let go");
    check(&rt, took_at_most(&rt, begun, 15000), "within 15 seconds");
    drop(other);
    drop(worker);
    drop(slow);
}

/// The pieces of a request behind empty lines, and how many seconds it may take by then.
const PIECES: [(&[u8], u64); 5] = [
    (b"\r\n\r\n", HEAD_SECONDS),
    (b"GET / ", HEAD_SECONDS),
    (b"HTTP/1.1\r\n", HEAD_SECONDS),
    (b"\r", HEAD_SECONDS),
    (b"\n", REQUEST_SECONDS),
];

/// Whether bytes arrive, and the request that they are a part of may then take so many seconds in all.
fn may_take(said: &mut SocketSink, input: &mut SocketSource, bytes: &[u8], seconds: u64) -> bool {
    writes(said, bytes)
        && reads(input, bytes.len())
        && input.request_limit() == Duration::from_secs(seconds)
}

/// A head has its own limit until it is whole. Empty lines before it end none.
#[test]
fn the_limit_of_a_head(rt: HostRuntime) {
    let (mut caller, mut worker) = connected(&rt, rt, b"\r\n\r\n");
    check(&rt, reads(&mut worker.input, 4), "empty lines");
    let input = &mut worker.input;
    for (bytes, seconds) in &PIECES {
        let is_so = may_take(&mut caller.said, input, bytes, *seconds);
        check(&rt, is_so, "a limit");
    }
    drop(caller);
    drop(worker);
}

/// Whether a read of a target for the caller of an input gives as many bytes.
fn reads_for(target: &mut SocketSource, input: &SocketSource, wanted: usize) -> bool {
    let caller = input.caller();
    let mut buf = [0u8; 64];
    match target.read_for(caller.as_ref(), &mut buf) {
        Ok(count) => count == wanted,
        Err(Failed) => false,
    }
}

/// Nobody waits for a target that is silent once the caller has left.
#[test]
fn a_target_whose_caller_leaves(rt: HostRuntime) {
    let (caller, worker) = connected(&rt, rt, b"GET / HTTP/1.1\r\n\r\n");
    let (mut asking, target) = connected(&rt, rt, b"GET / HTTP/1.1\r\n\r\n");
    drop(caller);
    let begun = Instant::now(&rt).expect(&rt, "the clock");
    let is_read = reads_for(&mut asking.heard, &worker.input, 19);
    check(&rt, !is_read, "nothing comes");
    check(&rt, took_at_most(&rt, begun, 2000), "it doesn't wait");
    drop(target);
    drop(asking);
    drop(worker);
}

/// Sends a reply after 1.5 seconds, and says whether it could.
fn replies_late(rt: HostRuntime, target: Worker) -> bool {
    let mut target = target;
    thread::sleep(&rt, Duration::from_millis(1500));
    writes(&mut target.output, b"HTTP/1.1 200 OK\r\n\r\n")
}

/// One who is still there gets what a target sends late.
#[test]
fn a_late_target(rt: HostRuntime) {
    let (caller, worker) = connected(&rt, rt, b"GET / HTTP/1.1\r\n\r\n");
    let (mut asking, target) = connected(&rt, rt, b"GET / HTTP/1.1\r\n\r\n");
    let late = thread::spawn(&rt, move || replies_late(rt, target)).expect(&rt, "a thread");
    let is_read = reads_for(&mut asking.heard, &worker.input, 19);
    check(&rt, late.join(&rt), "a reply");
    check(&rt, is_read, "it comes");
    drop(asking);
    drop(worker);
    drop(caller);
}

/// One who sends no more, and still reads, gets what a target sends at once.
#[test]
fn a_caller_that_only_reads(rt: HostRuntime) {
    let (mut caller, worker) = connected(&rt, rt, b"GET / HTTP/1.1\r\n\r\n");
    let (mut asking, mut target) = connected(&rt, rt, b"GET / HTTP/1.1\r\n\r\n");
    caller.said.shut();
    check(&rt, answers(&mut target), "a reply");
    let is_read = reads_for(&mut asking.heard, &worker.input, 19);
    check(&rt, is_read, "it comes");
    drop(target);
    drop(asking);
    drop(worker);
    drop(caller);
}

/// A refusal arrives though the rest of its request was never asked for.
#[test]
fn a_refusal_is_no_reset(rt: HostRuntime) {
    let (mut caller, mut worker) = connected(&rt, rt, &[b'x'; 4096]);
    caller.said.shut();
    check(&rt, reads(&mut worker.input, 64), "64 bytes");
    let is_written = writes(&mut worker.output, b"HTTP/1.1 400 Bad Request\r\n\r\n");
    check(&rt, is_written, "a refusal");
    drop(worker);
    check(&rt, reads(&mut caller.heard, 28), "it arrives");
    check(&rt, reads(&mut caller.heard, 0), "it ends");
    drop(caller);
}

/// A target whose host is a name is connected at that of its addresses which answers.
#[test]
fn a_target_by_name(rt: HostRuntime) {
    let (listener, numbers) = listen(&rt, rt);
    drop(numbers);
    let port = listener.port().expect(&rt, "its port");
    let target = target_at(&rt, rt, "localhost", port);
    check(&rt, connect(rt, &target).is_ok(), "it is connected");
    drop(listener);
    check(&rt, connect(rt, &target).is_err(), "nobody listens");
    drop(target);
}

/// Whether the system is to ask a peer whether it is still there: it shows so in the row of the connection that has these words.
fn asks_peer(rt: &HostRuntime, words: &str) -> bool {
    let Ok(table) = fs::read_to_string(rt, "/proc/net/tcp") else {
        return false;
    };
    for row in table.lines() {
        if row.contains(words) && row.contains(" 02:") {
            return true;
        }
    }
    false
}

/// Whether it asks the caller that came to a port of 127.0.0.1, and whether it asks the one who listens there for the caller.
fn asks_peers(handle: &impl Abort, rt: HostRuntime, port: u16) -> (bool, bool) {
    let came = format!(in rt.alloc(); "0100007F:{port:04X} 0100007F:").expect(handle, "memory");
    let went = format!(in rt.alloc(); "0100007F:{port:04X} 01 ").expect(handle, "memory");
    let asks = (asks_peer(&rt, came.as_str()), asks_peer(&rt, went.as_str()));
    drop(came);
    drop(went);
    asks
}

/// A caller who is gone without a word is found, and so is a target, once the connection to it is a tunnel.
#[test]
fn silent_peers_are_asked(rt: HostRuntime) {
    let (listener, target) = listen(&rt, rt);
    let port = listener.port().expect(&rt, "its port");
    let (heard, said) = connect(rt, &target).expect(&rt, "it is connected");
    check(&rt, asks_peers(&rt, rt, port) == (true, false), "a caller");
    said.begin_tunnel();
    check(&rt, asks_peers(&rt, rt, port) == (true, true), "a tunnel");
    drop(heard);
    drop(said);
    drop(target);
    drop(listener);
}

#[test]
fn a_closed_listener(rt: HostRuntime) {
    let (mut listener, target) = listen(&rt, rt);
    let closer = listener.closer().expect(&rt, "a closer");
    closer.close();
    check(&rt, closer.is_closed(), "it is closed");
    check(&rt, listener.accept().is_err(), "nobody is accepted");
    drop(listener);
    drop(closer);
    check(&rt, connect(rt, &target).is_err(), "nobody is connected");
    drop(target);
}
