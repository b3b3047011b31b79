//! Which bytes are a reply in chunks, and what it says by its length.
use crate::check::check;
use hub_kit::bytes::Bytes;
use hub_link::coded::{Coded, uncode};
use hub_link::replies::read_reply;
use std::alloc::Global;
use std::process::Abort;

/// Replies in chunks, with the status and the body that they have.
const CHUNKED: [(&[u8], u16, &[u8]); 6] = [
    (
        b"HTTP/1.1 200 OK\r\nTransfer-Encoding: chunked\r\n\r\n2\r\n{}\r\n0\r\n\r\n",
        200,
        b"{}",
    ),
    (
        b"HTTP/1.1 201 Created\r\nConnection: close\r\nTransfer-Encoding: chunked\r\n\r\n0\r\n\r\n",
        201,
        b"",
    ),
    (
        b"HTTP/1.1 404 \r\ntransfer-encoding:  CHUNKED \r\n\r\nA;x=\"1\"\r\n0123456789\r\n0b \r\nabcdefghijk\r\n00\r\n\r\n",
        404,
        b"0123456789abcdefghijk",
    ),
    (
        b"HTTP/1.1 200 OK\r\nTransfer-Encoding: chunked\r\n\r\n4\r\n\r\n0\r\r\n0;last\r\nX-Sum: 1\r\nX-More: 2\r\n\r\n",
        200,
        b"\r\n0\r",
    ),
    (
        b"HTTP/1.1 999 x\nTransfer-Encoding: chunked\n\n1\r\na\r\n0\r\n\n",
        999,
        b"a",
    ),
    (
        b"HTTP/1.1 100 Continue\r\nTransfer-Encoding: chunked\r\n\r\n0000000000000001\r\na\r\n0\r\n\r\n",
        100,
        b"a",
    ),
];

/// Bytes that say no coding, or have no head in front.
const PLAIN: [&[u8]; 5] = [
    b"",
    b"HTTP/1.1 204 No Content\r\n\r\n",
    b"HTTP/1.1 200 OK\r\nContent-Length: 2\r\n\r\n{}",
    b"HTTP/1.1 200 OK\r\n\r\n2\r\n{}\r\n0\r\n\r\n",
    b"HTTP/1.1 200 OK\r\nTransfer-Encoding: chunked\r\n",
];

/// Bytes that say a coding and are refused.
const REFUSED: [&[u8]; 15] = [
    // beside a length, with another coding, or of a version or a status that has none
    b"HTTP/1.1 200 OK\r\nTransfer-Encoding: chunked\r\nContent-Length: 12\r\n\r\n2\r\n{}\r\n0\r\n\r\n",
    b"HTTP/1.1 200 OK\r\nContent-Length: x\r\nTransfer-Encoding: chunked\r\n\r\n2\r\n{}\r\n0\r\n\r\n",
    b"HTTP/1.1 200 OK\r\nTransfer-Encoding: gzip, chunked\r\n\r\n2\r\n{}\r\n0\r\n\r\n",
    b"HTTP/1.1 200 OK\r\nTransfer-Encoding: chunked\r\nTransfer-Encoding: chunked\r\n\r\n2\r\n{}\r\n0\r\n\r\n",
    b"HTTP/1.1 200 OK\r\nTransfer-Encoding: identity\r\nContent-Length: 2\r\n\r\n{}",
    b"HTTP/1.1 200 OK\r\nTransfer-Encoding: \r\n\r\n",
    b"HTTP/1.0 200 OK\r\nTransfer-Encoding: chunked\r\n\r\n2\r\n{}\r\n0\r\n\r\n",
    b"HTTP/1.1 099 OK\r\nTransfer-Encoding: chunked\r\n\r\n2\r\n{}\r\n0\r\n\r\n",
    // no whole chunked body
    b"HTTP/1.1 200 OK\r\nTransfer-Encoding: chunked\r\n\r\n",
    b"HTTP/1.1 200 OK\r\nTransfer-Encoding: chunked\r\n\r\n2\r\n{}\r\n0\r\n",
    b"HTTP/1.1 200 OK\r\nTransfer-Encoding: chunked\r\n\r\n3\r\n{}\r\n0\r\n\r\n",
    b"HTTP/1.1 200 OK\r\nTransfer-Encoding: chunked\r\n\r\n2\r\n{}\n0\r\n\r\n",
    b"HTTP/1.1 200 OK\r\nTransfer-Encoding: chunked\r\n\r\n0x2\r\n{}\r\n0\r\n\r\n",
    b"HTTP/1.1 200 OK\r\nTransfer-Encoding: chunked\r\n\r\n00000000000000002\r\n{}\r\n0\r\n\r\n",
    // and something behind it
    b"HTTP/1.1 200 OK\r\nTransfer-Encoding: chunked\r\n\r\n2\r\n{}\r\n0\r\n\r\nHTTP/1.1 200 OK\r\n\r\n",
];

fn coded_of(rt: &impl Abort, alloc: Global, bytes: &[u8]) -> Coded {
    uncode(alloc, bytes).expect(rt, "there is memory")
}

/// Whether a text is a reply with this status and body.
fn says(text: &Bytes, status: u16, body: &[u8]) -> bool {
    match read_reply(text.as_slice()) {
        Some((found, rest)) => found == status && rest == body,
        None => false,
    }
}

#[test]
fn replies_in_chunks(rt: HostRuntime) {
    for (bytes, status, body) in &CHUNKED {
        let is_so = match coded_of(&rt, rt.alloc(), bytes) {
            Coded::Chunks(text) => says(&text, *status, body),
            Coded::Plain => false,
            Coded::Refused => false,
        };
        check(&rt, is_so, "a reply in chunks");
    }
}

#[test]
fn bytes_without_a_coding(rt: HostRuntime) {
    for bytes in &PLAIN {
        let is_so = matches!(coded_of(&rt, rt.alloc(), bytes), Coded::Plain);
        check(&rt, is_so, "no coding");
    }
}

#[test]
fn codings_that_are_refused(rt: HostRuntime) {
    for bytes in &REFUSED {
        let is_so = matches!(coded_of(&rt, rt.alloc(), bytes), Coded::Refused);
        check(&rt, is_so, "a coding that is refused");
    }
}
