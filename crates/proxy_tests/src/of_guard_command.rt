//! The command `guard` over devices in memory: what its callers are answered, its status, and what stands on its output.
ghost use Rattle.std.specs.Prelude.{◌<◌, length};

use crate::caller::Caller;
use crate::check::{bytes, check, text};
use crate::mem_carrier::MemCarrier;
use guard_serving::{GuardKit, run};
use hub_devices::mem_bytes::{MemSink, MemSource};
use hub_devices::mem_files::MemFiles;
use hub_devices::mem_listener::MemListener;
use hub_devices::mem_random::ListRandom;
use hub_kit::bytes::Bytes;
use hub_kit::text::Text;
use hub_link::mem_link::MemHubLink;
use std::alloc::Global;
use std::process::Abort;
use std::sync::{Mutex, Wait};
use std::thread::Threads;
use upstreams::mem_upstream::MemUpstream;

/// What is called, and how it ends. Five callers come; the hub admits the first two, denies the third, and can't be asked by the fourth.
struct Command {
    words: &'static str,
    /// What the second caller asks, to talk by another protocol.
    upgrade: &'static [u8],
    status: u8,
    served: u64,
    output: &'static [u8],
    /// What the callers are answered, one behind the other.
    answers: &'static [u8],
}

const WITH_TOKEN: &[u8] =
    b"GET /user/ann/lab HTTP/1.1\r\nHost: h\r\nAuthorization: token secret-of-ann\r\n\r\n";

const WITHOUT: &[u8] = b"GET /user/ann/lab HTTP/1.1\r\nHost: h\r\n\r\n";

const BY_HEADER: &[u8] =
    b"GET /user/ann/ws HTTP/1.1\r\nHost: h\r\nAuthorization: token secret-of-ann\r\n\
    Connection: Upgrade\r\nUpgrade: websocket\r\n\r\nabc";

const BY_COOKIE: &[u8] =
    b"GET /user/ann/ws HTTP/1.1\r\nHost: h\r\nCookie: hub-guard=secret-of-ann\r\n\
    Connection: Upgrade\r\nUpgrade: websocket\r\n\r\nabc";

const ADMITTED: &[u8] = b"HTTP/1.1 200 OK\r\nContent-Length: 15\r\n\r\n{\"access\":true}";

const DENIED: &[u8] = b"HTTP/1.1 200 OK\r\nContent-Length: 16\r\n\r\n{\"access\":false}";

/// What the server behind the guard replies.
const GIVEN: &[u8] = b"HTTP/1.1 200 OK\r\nContent-Length: 5\r\n\r\nhello\
    HTTP/1.1 101 Switching Protocols\r\nUpgrade: websocket\r\n\r\nxy";

/// How many of these bytes the first caller gets.
const FIRST: usize = 43;

const BY_TOKEN: &[u8] = b"HTTP/1.1 200 OK\r\nContent-Length: 5\r\nConnection: close\r\n\r\nhello\
    HTTP/1.1 101 Switching Protocols\r\nUpgrade: websocket\r\nConnection: Upgrade\r\n\r\nxy\
    HTTP/1.1 403 Forbidden\r\nContent-Type: application/json\r\nContent-Length: 36\r\nConnection: close\r\n\r\n\
    {\"message\":\"no access\",\"status\":403}\
    HTTP/1.1 503 Service Unavailable\r\nContent-Type: application/json\r\nContent-Length: 30\r\nConnection: close\r\n\r\n\
    {\"message\":\"hub\",\"status\":503}\
    HTTP/1.1 403 Forbidden\r\nContent-Type: application/json\r\nContent-Length: 41\r\nConnection: close\r\n\r\n\
    {\"message\":\"no valid token\",\"status\":403}";

const AT_DOOR: &[u8] = b"HTTP/1.1 200 OK\r\nContent-Length: 5\r\nConnection: close\r\n\r\nhello\
    HTTP/1.1 101 Switching Protocols\r\nUpgrade: websocket\r\nConnection: Upgrade\r\n\r\nxy\
    HTTP/1.1 403 Forbidden\r\nContent-Type: application/json\r\nContent-Length: 36\r\nConnection: close\r\n\r\n\
    {\"message\":\"no access\",\"status\":403}\
    HTTP/1.1 503 Service Unavailable\r\nContent-Type: application/json\r\nContent-Length: 30\r\nConnection: close\r\n\r\n\
    {\"message\":\"hub\",\"status\":503}\
    HTTP/1.1 302 Found\r\nContent-Length: 0\r\n\
    Location: http://127.0.0.1:8081/hub/api/oauth2/authorize?client_id=server%3Aann%2F&\
    redirect_uri=%2Fuser%2Fann%2Foauth_callback&response_type=code&\
    state=00000000000000000000000000000001\r\n\
    Set-Cookie: hub-guard-state=00000000000000000000000000000001.2f757365722f616e6e2f6c6162; \
    Path=/user/ann/; HttpOnly; SameSite=Lax\r\nConnection: close\r\n\r\n";

const COMMANDS: [Command; 5] = [
    Command {
        words: "guard --listen a:1 --for ann/ --hub http://127.0.0.1:8081 --target http://lab:8888",
        upgrade: BY_HEADER,
        status: 8,
        served: 5,
        output: b"ready\n",
        answers: BY_TOKEN,
    },
    Command {
        words: "guard --listen a:1 --for ann/ --hub http://127.0.0.1:8081 --target http://lab:8888 --secret-file secret",
        upgrade: BY_COOKIE,
        status: 8,
        served: 5,
        output: b"ready\n",
        answers: AT_DOOR,
    },
    Command {
        words: "guard --listen a:1 --for ann/ --hub http://127.0.0.1:8081",
        upgrade: BY_HEADER,
        status: 2,
        served: 0,
        output: b"",
        answers: b"",
    },
    Command {
        words: "guard --listen a:1 --for ann/ --hub http://127.0.0.1:8081 --target http://lab:8888 --secret-file gone",
        upgrade: BY_HEADER,
        status: 3,
        served: 0,
        output: b"",
        answers: b"",
    },
    Command {
        words: "guard --listen a:1 --for ann/ --hub http://127.0.0.1:8081 --target http://lab:8888 --secret-file short",
        upgrade: BY_HEADER,
        status: 3,
        served: 0,
        output: b"",
        answers: b"",
    },
];

fn words_of(rt: &impl Abort, alloc: Global, line: &str) -> Vec<Text> {
    let mut words = Vec::new(alloc);
    for word in line.split(' ') {
        words
            .push(text(rt, alloc, word))
            .expect(rt, "there is memory");
    }
    words
}

/// One file with a secret, and one whose text is none.
fn files(rt: &impl Abort, alloc: Global) -> MemFiles {
    let mut files = Vec::new(alloc);
    files
        .push((
            text(rt, alloc, "secret"),
            bytes(rt, alloc, b"secret-of-guard\n"),
        ))
        .expect(rt, "there is memory");
    files
        .push((text(rt, alloc, "short"), bytes(rt, alloc, b"short\n")))
        .expect(rt, "there is memory");
    MemFiles::new(alloc, files, Vec::new(alloc))
}

type Doors<'a, W> = MemListener<MemSource, Caller<'a, W>>;

fn doors<'a, W: Wait + Abort>(
    rt: &'a W,
    alloc: Global,
    all: &'a Mutex<Bytes>,
    upgrade: &'static [u8],
) -> Doors<'a, W> {
    let mut doors = Vec::new(alloc);
    for caller in &[WITH_TOKEN, upgrade, WITH_TOKEN, WITH_TOKEN, WITHOUT] {
        let source = MemSource::new(bytes(rt, alloc, *caller), 1000, Vec::new(alloc));
        let sink = Caller {
            rt,
            all,
            least: 0,
            is_shut: false,
            faults: 0,
        };
        doors.push((source, sink)).expect(rt, "there is memory");
    }
    MemListener::new(doors, Vec::new(alloc))
}

type MemKit<'a, W> = GuardKit<MemHubLink, ListRandom, MemCarrier<'a, W>>;

/// The kit of one worker, whose link fails at its fourth call, and which has one draw, 1.
fn kit<W: Threads + Abort>(rt: &W, alloc: Global) -> MemKit<'_, W> {
    let mut replies = Vec::new(alloc);
    for reply in &[ADMITTED, ADMITTED, DENIED] {
        replies
            .push(bytes(rt, alloc, *reply))
            .expect(rt, "there is memory");
    }
    let one: [u8; 16] = [0, 0, 0, 0, 0, 0, 0, 0, 0, 0, 0, 0, 0, 0, 0, 1];
    let mut draws = Vec::new(alloc);
    draws.push(one).expect(rt, "there is memory");
    GuardKit {
        link: MemHubLink::new(alloc, replies, Vec::new(alloc)),
        random: ListRandom::new(draws, Vec::new(alloc)),
        upstream: MemCarrier {
            threads: rt,
            up: MemUpstream::new(alloc, bytes(rt, alloc, GIVEN), FIRST, Vec::new(alloc)),
        },
    }
}

fn kits<W: Threads + Abort>(rt: &W, alloc: Global) -> Vec<MemKit<'_, W>>
    ensures { 0 < length result.items }
{
    let kits = vec![in alloc; kit(rt, alloc)];
    kits.expect(rt, "there is memory")
}

/// Whether the command ends so, with this on its output and these answers.
fn ends_so<W: Threads + Wait + Abort + Sync>(rt: &W, alloc: Global, command: &Command) -> bool {
    let words = words_of(rt, alloc, command.words);
    let all = Mutex::new(Bytes::new(alloc));
    let mut files = files(rt, alloc);
    let mut doors = doors(rt, alloc, &all, command.upgrade);
    let mut kits = kits(rt, alloc);
    let mut output = MemSink::new(alloc, Vec::new(alloc));
    let end = run(
        rt,
        alloc,
        words.as_slice(),
        &mut files,
        &mut doors,
        &mut kits,
        &mut output,
    );
    drop(kits);
    drop(words);
    drop(files);
    drop(doors);
    let written = output.as_slice() == command.output;
    drop(output);
    let answers = all.into_inner();
    let answered = answers.as_slice() == command.answers;
    drop(answers);
    (end.fault.status() == command.status) & (end.served == command.served) & written & answered
}

#[test]
fn guard_commands(rt: HostRuntime) {
    let alloc = rt.alloc();
    for command in &COMMANDS {
        check(&rt, ends_so(&rt, alloc, command), command.words);
    }
}
