//! A hub behind a socket that answers in chunks.
use crate::check::{bytes, check};
use crate::sockets::listen;
use hub_devices::link_error::LinkError;
use hub_devices::listener::Listener;
use hub_devices::sink::Sink;
use hub_devices::source::Source;
use hub_edge::listener::SocketListener;
use hub_kit::bytes::Bytes;
use hub_link::link::HubLink;
use hub_link::replies::read_reply;
use link_edge::hub::SocketHub;
use std::thread;
use std::time::Duration;

const REQUEST: &[u8] = b"GET /api/routes HTTP/1.1\r\nHost: proxy\r\nConnection: close\r\n\r\n";

const FRONT: &[u8] = b"HTTP/1.1 200 OK\r\nTransfer-Encoding: chunked\r\n\r\n1\r\n{\r\n";

const END: &[u8] = b"1\r\n}\r\n0\r\n\r\n";

/// What its chunks have.
const BODY: &[u8] = b"{}";

const BESIDE_A_LENGTH: &[u8] =
    b"HTTP/1.1 200 OK\r\nContent-Length: 2\r\nTransfer-Encoding: chunked\r\n\r\n{}";

/// Takes one connection, sends these to what comes, and keeps it until its caller goes. Tells whether the caller went.
fn answer_and_stay(listener: SocketListener, first: &[u8], then: &[u8]) -> bool {
    let mut listener = listener;
    let Ok((mut input, mut output)) = listener.accept() else {
        return false;
    };
    let mut piece = [0u8; 256];
    let is_asked = input.read(&mut piece).is_ok();
    let is_sent = output.write(first).is_ok() & output.write(then).is_ok();
    is_asked & is_sent & matches!(input.read(&mut piece), Ok(0))
}

/// Whether the reply is 200 with an empty object.
fn replies(link: &mut SocketHub, request: &Bytes) -> bool {
    match link.ask(request) {
        Ok(reply) => match read_reply(reply.as_slice()) {
            Some((status, body)) => status == 200 && body == BODY,
            None => false,
        },
        Err(_) => false,
    }
}

#[test]
fn a_reply_in_chunks_of_a_hub_that_stays(rt: HostRuntime) {
    let (listener, target) = listen(&rt, rt);
    let request = bytes(&rt, rt.alloc(), REQUEST);
    let hub = thread::spawn(&rt, move || answer_and_stay(listener, FRONT, END)).expect(
        &rt, "a thread",
    );
    let mut link = SocketHub::new(rt, target, Duration::from_secs(60));
    let comes = replies(&mut link, &request);
    drop(link);
    drop(request);
    check(&rt, comes, "a reply by its chunks");
    check(&rt, hub.join(&rt), "the caller goes");
}

#[test]
fn a_coding_beside_a_length(rt: HostRuntime) {
    let (listener, target) = listen(&rt, rt);
    let request = bytes(&rt, rt.alloc(), REQUEST);
    let hub = thread::spawn(&rt, move || answer_and_stay(listener, BESIDE_A_LENGTH, b"")).expect(
        &rt, "a thread",
    );
    let mut link = SocketHub::new(rt, target, Duration::from_secs(60));
    let fails = matches!(link.ask(&request).err(), Some(LinkError::Failed));
    drop(link);
    drop(request);
    check(&rt, fails, "a reply that is refused");
    check(&rt, hub.join(&rt), "the caller goes");
}
