//! Which bytes are one reply.
use crate::check::check;
use hub_link::replies::read_reply;

/// Bytes, and the status and the body that they have, or 0 where they are no reply.
const REPLIES: [(&[u8], u16, &[u8]); 9] = [
    (b"HTTP/1.1 204 No Content\r\n\r\n", 204, b""),
    (
        b"HTTP/1.1 200 OK\r\nContent-Length: 2\r\n\r\n{}",
        200,
        b"{}",
    ),
    (
        b"HTTP/1.0 403 \r\ncontent-length:   002  \r\n\r\n{}",
        403,
        b"{}",
    ),
    (b"HTTP/1.1 200 OK\r\nContent-Length: 3\r\n\r\n{}", 0, b""),
    (b"HTTP/1.1 200 OK\r\nContent-Length: 1\r\n\r\n{}", 0, b""),
    (b"HTTP/1.1 200 OK\r\n\r\n{}", 0, b""),
    (
        b"HTTP/1.1 200 OK\r\nContent-Length: 2\r\nContent-Length: 2\r\n\r\n{}",
        0,
        b"",
    ),
    (b"HTTP/1.1 200 OK\r\nContent-Length: +2\r\n\r\n{}", 0, b""),
    (b"", 0, b""),
];

fn is_so(bytes: &[u8], status: u16, body: &[u8]) -> bool {
    match read_reply(bytes) {
        Some((found, rest)) => found == status && rest == body,
        None => status == 0,
    }
}

#[test]
fn replies(rt: HostRuntime) {
    for (bytes, status, body) in &REPLIES {
        check(&rt, is_so(bytes, *status, body), "a reply");
    }
}
