//! The whole command over devices in memory: its lines, its waits, and how it ends.
use crate::check::{bytes, check, link_of, text, words_of};
use hub_culling::cause::{Cause, End, status_of};
use hub_culling::pause::ListPause;
use hub_culling::run::run;
use hub_culling::world::{Outside, World};
use hub_devices::mem_bytes::MemSink;
use hub_devices::mem_clock::FixedClock;
use hub_devices::mem_files::MemFiles;
use hub_kit::moment::Moment;
use hub_link::mem_link::MemHubLink;
use std::alloc::Global;
use std::process::Abort;

/// Devices in memory.
struct InMemory;

impl World for InMemory {
    type Out = MemSink;

    type Reads = MemFiles;

    type Time = FixedClock;

    type Asks = MemHubLink;

    type Rests = ListPause;
}

/// A page with one user, who has an idle server.
const IDLE: &[u8] =
    b"HTTP/1.1 200 OK\r\nContent-Length: 182\r\n\r\n{\"_pagination\":{\"next\":null},\"items\":[{\"name\":\"ann\",\"servers\":{\"\":{\"\
    last_activity\":null,\"name\":\"\",\"pending\":null,\"ready\":true,\"started\":\"2023-11-14T22:01:40Z\",\"url\":\"/user/ann/\"}}}]}";

/// A page with nobody.
const NOBODY: &[u8] =
    b"HTTP/1.1 200 OK\r\nContent-Length: 40\r\n\r\n{\"_pagination\":{\"next\":null},\"items\":[]}";

const STOPPED: &[u8] = b"HTTP/1.1 204 No Content\r\n\r\n";

const REFUSED: &[u8] = b"HTTP/1.1 403 Forbidden\r\nContent-Length: 2\r\n\r\n{}";

/// No call fails: a number that no call has.
const NEVER: u64 = u64::MAX;

/// The command with these words over a file `token` and a hub that gives these replies, where one call of a device may fail.
struct Case {
    words: &'static str,
    token: &'static [u8],
    replies: &'static [&'static [u8]],
    failing_ask: u64,
    failing_write: u64,
    end: End,
    status: u8,
    lines: &'static [u8],
    waits: &'static [u64],
}

const CASES: [Case; 10] = [
    Case {
        words: "cull --hub http://hub:1 --token-file token --rounds 3",
        token: b"culler-token\n",
        replies: &[IDLE, STOPPED, NOBODY, NOBODY],
        failing_ask: NEVER,
        failing_write: NEVER,
        end: Ok(()),
        status: 0,
        lines: b"users 1 culled 1 refused 0\nusers 0 culled 0 refused 0\nusers 0 culled 0 refused 0\n",
        waits: &[300, 300],
    },
    Case {
        words: "cull --hub http://hub:1 --token-file token --rounds 1 --cull-every 7",
        token: b"culler-token",
        replies: &[IDLE, REFUSED],
        failing_ask: NEVER,
        failing_write: NEVER,
        end: Ok(()),
        status: 0,
        lines: b"users 1 culled 0 refused 1\n",
        waits: &[],
    },
    Case {
        words: "cull --hub http://hub:1 --token-file token --rounds 0",
        token: b"culler-token\n",
        replies: &[],
        failing_ask: NEVER,
        failing_write: NEVER,
        end: Ok(()),
        status: 0,
        lines: b"",
        waits: &[],
    },
    // without a number of rounds only a fault ends them
    Case {
        words: "cull --hub http://hub:1 --token-file token --cull-every 7",
        token: b"culler-token\n",
        replies: &[NOBODY, NOBODY],
        failing_ask: NEVER,
        failing_write: NEVER,
        end: Err(Cause::Link),
        status: 9,
        lines: b"users 0 culled 0 refused 0\nusers 0 culled 0 refused 0\n",
        waits: &[7, 7],
    },
    Case {
        words: "cull --hub http://hub:1 --token-file token --rounds 2",
        token: b"culler-token\n",
        replies: &[REFUSED, NOBODY],
        failing_ask: NEVER,
        failing_write: NEVER,
        end: Err(Cause::BadReply(403)),
        status: 11,
        lines: b"",
        waits: &[],
    },
    Case {
        words: "cull --hub http://hub:1 --token-file token --rounds 2",
        token: b"culler-token\n",
        replies: &[IDLE, STOPPED, NOBODY],
        failing_ask: 1,
        failing_write: NEVER,
        end: Err(Cause::Link),
        status: 9,
        lines: b"",
        waits: &[],
    },
    Case {
        words: "cull --hub http://hub:1 --token-file token --rounds 2",
        token: b"culler-token\n",
        replies: &[NOBODY, NOBODY],
        failing_ask: NEVER,
        failing_write: 1,
        end: Err(Cause::Output),
        status: 6,
        lines: b"users 0 culled 0 refused 0\n",
        waits: &[300],
    },
    Case {
        words: "cull --hub http://hub:1 --token-file other --rounds 1",
        token: b"culler-token\n",
        replies: &[NOBODY],
        failing_ask: NEVER,
        failing_write: NEVER,
        end: Err(Cause::NoFile),
        status: 3,
        lines: b"",
        waits: &[],
    },
    Case {
        words: "cull --hub http://hub:1 --token-file token --rounds 1",
        token: b"culler token\n",
        replies: &[NOBODY],
        failing_ask: NEVER,
        failing_write: NEVER,
        end: Err(Cause::NoToken),
        status: 3,
        lines: b"",
        waits: &[],
    },
    Case {
        words: "cull --hub http://hub:1 --rounds 1",
        token: b"culler-token\n",
        replies: &[NOBODY],
        failing_ask: NEVER,
        failing_write: NEVER,
        end: Err(Cause::Words),
        status: 2,
        lines: b"",
        waits: &[],
    },
];

fn files_of(rt: &impl Abort, alloc: Global, token: &[u8]) -> MemFiles {
    let file = (text(rt, alloc, "token"), bytes(rt, alloc, token));
    let files = vec![in alloc; file].expect(rt, "there is memory");
    MemFiles::new(alloc, files, Vec::new(alloc))
}

fn outside_of(rt: &impl Abort, alloc: Global, case: &Case) -> Outside<InMemory> {
    let failing = Vec::from_slice(alloc, &[case.failing_write]).expect(rt, "there is memory");
    Outside {
        output: MemSink::new(alloc, failing),
        files: files_of(rt, alloc, case.token),
        clock: FixedClock(Moment::up_to(1_700_000_000)),
        link: link_of(rt, alloc, case.replies, case.failing_ask),
        rest: ListPause::new(alloc),
    }
}

fn check_case(rt: &impl Abort, alloc: Global, case: &Case) {
    let words = words_of(rt, alloc, case.words);
    let mut outside = outside_of(rt, alloc, case);
    let end = run(alloc, words.as_slice(), &mut outside);
    drop(words);
    let holds = (end == case.end) & (status_of(end) == case.status);
    check(rt, holds, case.words);
    check(rt, outside.output.as_slice() == case.lines, case.words);
    check(rt, outside.rest.waits() == Some(case.waits), case.words);
    drop(outside);
}

#[test]
fn commands(rt: HostRuntime) {
    let alloc = rt.alloc();
    for case in &CASES {
        check_case(&rt, alloc, case);
    }
}
