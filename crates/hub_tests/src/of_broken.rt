//! Broken input: two requests that are cut at each byte, and eight requests while each read fails in turn.
use crate::check::{check, failing};
use crate::hubs::NEVER;
use crate::late_connections::{are_statuses, end_over};
use crate::late_hubs::book_failing;
use http_wire::error::SessionFault;
use hub_devices::mem_bytes::{MemSink, MemSource};
use hub_kit::bytes::Bytes;
use hub_run::Served;
use std::alloc::Global;
use std::process::Abort;
use std::sync::Wait;

const REQUESTS: [&[u8]; 8] = [
    b"GET /hub/api/user HTTP/1.1\r\nAuthorization: token secret-token-ann\r\n\r\n",
    b"POST /hub/api/users HTTP/1.1\r\nAuthorization: token secret-token-ann\r\nContent-Length: 21\r\n\r\n{\"usernames\":[\"zed\"]}",
    b"PUT /hub/api/roles/r HTTP/1.1\r\nAuthorization: token secret-token-ann\r\nContent-Length: 17\r\n\r\n{\"users\":[\"zed\"]}",
    b"POST /hub/api/users/ann/tokens HTTP/1.1\r\nAuthorization: token secret-token-ann\r\nContent-Length: 2\r\n\r\n{}",
    b"POST /hub/api/users/ann/server HTTP/1.1\r\nAuthorization: token secret-token-ann\r\n\r\n",
    b"DELETE /hub/api/users/ann/server HTTP/1.1\r\nAuthorization: token secret-token-ann\r\n\r\n",
    b"PATCH /hub/api/users/zed HTTP/1.1\r\nAuthorization: token secret-token-ann\r\nContent-Length: 14\r\n\r\n{\"admin\":true}",
    b"DELETE /hub/api/users/zed HTTP/1.1\r\nAuthorization: token secret-token-ann\r\n\r\n",
];

/// What the requests are answered where no call fails.
const STATUSES: [&str; 8] = ["200", "201", "201", "201", "201", "204", "200", "204"];

/// So many bytes of the request, or all where it has fewer.
fn front(request: &[u8], count: usize) -> &[u8] {
    match request.get(..count) {
        Some(taken) => taken,
        None => request,
    }
}

/// So many requests, and so many bytes of the next.
fn beginning(rt: &impl Abort, alloc: Global, count: usize, part: usize) -> Bytes {
    let mut all = Bytes::new(alloc);
    for at in 0..REQUESTS.len() {
        let taken = if at < count {
            usize::MAX
        } else if at == count {
            part
        } else {
            0
        };
        all.push_all(front(REQUESTS[at], taken))
            .expect(rt, "there is memory");
    }
    all
}

/// All requests.
fn whole(rt: &impl Abort, alloc: Global) -> Bytes {
    beginning(rt, alloc, REQUESTS.len(), 0)
}

/// Whether a connection to a new hub over this input, a byte at a time, ends so with replies of these statuses.
fn ends_so<R: Abort + Wait>(
    rt: &R,
    alloc: Global,
    input: Bytes,
    failing_read: u64,
    end: Result<Served, SessionFault>,
    statuses: &[&str],
) -> bool {
    let source = MemSource::new(input, 1, failing(rt, alloc, failing_read));
    let mut sink = MemSink::new(alloc, Vec::new(alloc));
    let book = book_failing(rt, alloc, NEVER);
    let (came, book) = end_over(rt, alloc, book, source, &mut sink);
    drop(book);
    let so = (came == end) & are_statuses(sink.as_slice(), statuses);
    drop(sink);
    so
}

/// Whether so many requests are answered, and no more, where the input ends after so many bytes of the next.
fn is_cut_so<R: Abort + Wait>(rt: &R, alloc: Global, count: usize, part: usize) -> bool {
    let Some(statuses) = STATUSES.get(..count) else {
        return false;
    };
    let replies = count as u64;
    let end = if part == 0 {
        Served::Ended(replies)
    } else {
        Served::Cut(replies)
    };
    let input = beginning(rt, alloc, count, part);
    ends_so(rt, alloc, input, NEVER, Ok(end), statuses)
}

/// How many of the requests are cut at each byte: one that asks who one is, and a post with a body.
const CUT: usize = 2;

#[test]
fn cut_input(rt: HostRuntime) {
    for count in 0..CUT {
        for part in 0..REQUESTS[count].len() {
            let so = is_cut_so(&rt, rt.alloc(), count, part);
            check(&rt, so, "the input is cut");
        }
    }
}

/// Whether so many requests are answered, and no more, where the read after so many bytes of the next fails.
fn is_unread_so<R: Abort + Wait>(rt: &R, alloc: Global, count: usize, part: usize) -> bool {
    let Some(statuses) = STATUSES.get(..count) else {
        return false;
    };
    let read = beginning(rt, alloc, count, part).as_slice().len() as u64;
    let end = Err(SessionFault::ReadFault(count as u64));
    ends_so(rt, alloc, whole(rt, alloc), read, end, statuses)
}

#[test]
fn failing_reads(rt: HostRuntime) {
    for count in 0..REQUESTS.len() {
        for part in 0..REQUESTS[count].len() {
            let so = is_unread_so(&rt, rt.alloc(), count, part);
            check(&rt, so, "a read fails");
        }
    }
}
