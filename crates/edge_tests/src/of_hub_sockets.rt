//! A hub behind a socket.
use crate::check::{bytes, check};
use crate::sockets::listen;
use hub_devices::link_error::LinkError;
use hub_devices::listener::Listener;
use hub_devices::sink::Sink;
use hub_devices::source::Source;
use hub_edge::connection::SocketSource;
use hub_edge::listener::SocketListener;
use hub_kit::bytes::Bytes;
use hub_link::link::HubLink;
use link_edge::hub::SocketHub;
use std::thread;
use std::time::{Duration, Instant};

const REQUEST: &[u8] = b"GET /hub/api/users HTTP/1.1\r\nHost: hub\r\nConnection: close\r\n\r\n";

const REPLY: &[u8] = b"HTTP/1.1 200 OK\r\nContent-Length: 2\r\n\r\n{}";

/// Whether the next read gives these bytes.
fn reads(input: &mut SocketSource, wanted: &[u8]) -> bool {
    let mut piece = [0u8; 256];
    match input.read(&mut piece) {
        Ok(count) => count <= 256 && &piece[..count] == wanted,
        Err(_) => false,
    }
}

/// Takes one connection, sends the reply to the request that comes, and ends it. Tells whether it was asked this.
fn answer_once(listener: SocketListener) -> bool {
    let mut listener = listener;
    let Ok((mut input, mut output)) = listener.accept() else {
        return false;
    };
    reads(&mut input, REQUEST) & output.write(REPLY).is_ok()
}

/// Takes one connection, sends the reply to the request that comes, and keeps it until its caller goes. Tells whether it was asked this.
fn answer_and_stay(listener: SocketListener) -> bool {
    let mut listener = listener;
    let Ok((mut input, mut output)) = listener.accept() else {
        return false;
    };
    reads(&mut input, REQUEST) & output.write(REPLY).is_ok() & reads(&mut input, b"")
}

/// Takes one connection, and says nothing until its caller goes. Tells whether it was asked this.
fn keep_silent(listener: SocketListener) -> bool {
    let mut listener = listener;
    let Ok((mut input, output)) = listener.accept() else {
        return false;
    };
    let is_asked = reads(&mut input, REQUEST) & reads(&mut input, b"");
    drop(output);
    is_asked
}

/// Whether the hub replies so.
fn replies(link: &mut SocketHub, request: &Bytes) -> bool {
    match link.ask(request) {
        Ok(reply) => reply.as_slice() == REPLY,
        Err(_) => false,
    }
}

#[test]
fn a_reply_to_its_end(rt: HostRuntime) {
    let (listener, target) = listen(&rt, rt);
    let request = bytes(&rt, rt.alloc(), REQUEST);
    let hub = thread::spawn(&rt, move || answer_once(listener)).expect(&rt, "a thread");
    let mut link = SocketHub::new(rt, target, Duration::from_secs(60));
    check(&rt, replies(&mut link, &request), "a reply");
    check(&rt, hub.join(&rt), "the request that comes");
    // nobody listens there any more
    let refused = matches!(link.ask(&request).err(), Some(LinkError::Failed));
    drop(link);
    drop(request);
    check(&rt, refused, "nobody listens");
}

#[test]
fn a_reply_of_a_hub_that_stays(rt: HostRuntime) {
    let (listener, target) = listen(&rt, rt);
    let request = bytes(&rt, rt.alloc(), REQUEST);
    let hub = thread::spawn(&rt, move || answer_and_stay(listener)).expect(&rt, "a thread");
    let mut link = SocketHub::new(rt, target, Duration::from_secs(60));
    let comes = replies(&mut link, &request);
    drop(link);
    drop(request);
    check(&rt, comes, "a reply");
    check(&rt, hub.join(&rt), "the request that comes");
}

/// Whether a request fails within a minute, and after this time at the soonest.
fn fails_after(rt: &HostRuntime, link: &mut SocketHub, request: &Bytes, soonest: Duration) -> bool {
    let Ok(begun) = Instant::now(rt) else {
        return false;
    };
    let has_failed = matches!(link.ask(request).err(), Some(LinkError::Failed));
    match begun.elapsed(rt) {
        Ok(passed) => has_failed && soonest <= passed && passed < Duration::from_secs(60),
        Err(_) => false,
    }
}

#[test]
fn a_reply_that_never_comes(rt: HostRuntime) {
    let (listener, target) = listen(&rt, rt);
    let request = bytes(&rt, rt.alloc(), REQUEST);
    let hub = thread::spawn(&rt, move || keep_silent(listener)).expect(&rt, "a thread");
    let mut link = SocketHub::new(rt, target, Duration::from_millis(300));
    let has_failed = fails_after(&rt, &mut link, &request, Duration::from_millis(200));
    drop(link);
    drop(request);
    check(&rt, has_failed, "nothing comes");
    check(&rt, hub.join(&rt), "the request that comes");
}
