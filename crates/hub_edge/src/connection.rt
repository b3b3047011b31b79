//! A TCP connection as a source and a sink, both owned. They tell no bytes.
ghost use Rattle.std.specs.Prelude.{◌≡◌, ◌≤◌, ℕ, length, None, false, IfOk, OnErr};
ghost use Rattle.hub_devices.specs.Faults.{Rises};

use crate::limits::{
    CROWDED_BYTES, CROWDED_SECONDS, CROWDED_WRITE_SECONDS, HEAD_SECONDS, READ_OR_WRITE_SECONDS,
    REQUEST_SECONDS, TARGET_READ_SECONDS, WAIT_SECONDS,
};
use crate::line::Line;
use crate::listener::{Door, set_writing};
use crate::waiting::{has_ended, is_over};
use hub_devices::sink::Sink;
use hub_devices::source::{Failed, Source};
use std::alloc::{AllocError, Global};
use std::io::{self, ErrorKind, Read, Write};
use std::net::TcpStream;
use std::sync::Arc;
use std::time::{Duration, Instant};

/// How often a read or a write is tried that a signal interrupts.
const TRIES: u32 = 1000;

/// How many bytes a new connection takes at once, whatever memory the system has for its writes.
const FIRST_BYTES: usize = 4096;

/// Where the head of a request ends, by its lines.
#[derive(Clone, Copy)]
struct HeadEnd {
    /// Whether a line came that isn't empty. Empty ones before it are no part of the head.
    has_begun: bool,
    /// Whether the line that comes is empty so far, behind another one.
    line_is_empty: bool,
    is_past: bool,
}

impl HeadEnd {
    fn new() -> HeadEnd {
        HeadEnd {
            has_begun: false,
            line_is_empty: false,
            is_past: false,
        }
    }

    /// Takes the next bytes: an empty line behind another one ends the head.
    fn note(&mut self, bytes: &[u8]) {
        if self.is_past {
            return;
        }
        // most heads come whole, and nothing behind them
        if let [b'A'..=b'Z', .., b'\n', b'\r', b'\n'] = bytes {
            self.is_past = true;
            return;
        }
        for b in bytes {
            match *b {
                b'\n' if self.line_is_empty => {
                    self.is_past = true;
                    return;
                }
                b'\n' => self.line_is_empty = self.has_begun,
                b'\r' => {}
                _ => {
                    self.has_begun = true;
                    self.line_is_empty = false;
                }
            }
        }
    }

    /// How long a request may have taken by now.
    fn limit(self) -> Duration {
        Duration::from_secs(if self.is_past {
            REQUEST_SECONDS
        } else {
            HEAD_SECONDS
        })
    }
}

/// A caller, for whom a target is asked.
pub struct Caller {
    line: Arc<Line, Global>,
}

impl Drop for Caller {
    fn drop(self) {
        let Caller { line: _ } = self;
    }
}

/// The side of a connection that gives bytes.
pub struct SocketSource {
    rt: HostRuntime,
    line: Arc<Line, Global>,
    /// When the request began that is being read.
    begun: Option<Instant>,
    head: HeadEnd,
    /// How many bytes of it have come.
    came: u64,
    faults: u64,
}

impl Drop for SocketSource {
    fn drop(self) {
        let SocketSource {
            rt: _,
            line: _,
            begun: _,
            head: _,
            came: _,
            faults: _,
        } = self;
    }
}

impl SocketSource {
    /// How long the request that is being read may take in all, by what has come of it.
    pub fn request_limit(&self) -> Duration {
        self.head.limit()
    }

    /// The peer, as the caller for whom a target is asked. The connection stays open for as long as this is kept.
    pub fn caller(&self) -> Option<Caller> {
        match Arc::try_clone(&self.line) {
            Ok(line) => Some(Caller { line }),
            Err(_) => None,
        }
    }

    /// Reads as `read` does. From a target for a caller: where that one sends no more, it fails once nothing has come for a second.
    pub fn read_for(&mut self, caller: Option<&Caller>, into: &mut [u8]) -> Result<usize, Failed>
        ensures fits { IfOk result (λ n. n ≤ length into.new) }
        ensures counted { self.old.faults ≤ self.new.faults }
        ensures cause { OnErr result (Rises self.old.faults self.new.faults) }
    {
        match self.next_bytes(caller, into) {
            Ok(count) => Ok(count),
            Err(_) => {
                self.faults = self.faults.saturating_add(1);
                Err(Failed)
            }
        }
    }

    /// Waits until bytes are there, or the end. It is false where the peer was silent between two requests for as long as it may be.
    fn awaits_bytes(&mut self) -> io::Result<bool>
        ensures { self.new.faults ≡ self.old.faults }
    {
        if self.line.is_tunnel() {
            self.line.awaits_tunnel()?;
            return Ok(true);
        }
        let Some(door) = self.line.door() else {
            return Ok(true);
        };
        if self.line.is_between_requests() {
            self.begun = None;
            self.head = HeadEnd::new();
            self.came = 0;
            return self.line.awaits_request(door);
        }
        // a caller that comes in has said something
        let Some(begun) = self.begun else {
            return Ok(true);
        };
        let limit = self.head.limit();
        let crowded = crowded_limit(CROWDED_SECONDS, self.came);
        if self.line.awaits_rest(door, begun, limit, crowded)? {
            return Ok(true);
        }
        Err(io::Error::from(ErrorKind::TimedOut))
    }

    /// The next bytes, or 0 at the end, for what is left of a time that began at an instant. It fails where none come, by the time that the
    /// connection waits at once later than that.
    pub fn read_within(
        &mut self,
        begun: Instant,
        limit: Duration,
        into: &mut [u8],
    ) -> io::Result<usize>
        ensures fits { IfOk result (λ n. n ≤ length into.new) }
    {
        for _ in 0..u64::MAX {
            if is_over(&self.rt, begun, limit)? {
                break;
            }
            match read_some(self.line.stream(), into) {
                Err(error) if error.kind() == ErrorKind::WouldBlock => {}
                read => return read,
            }
        }
        Err(io::Error::from(ErrorKind::TimedOut))
    }

    /// The next bytes, or 0 at the end of input.
    fn next_bytes(&mut self, caller: Option<&Caller>, into: &mut [u8]) -> io::Result<usize>
        ensures fits { IfOk result (λ n. n ≤ length into.new) }
        ensures same { self.new.faults ≡ self.old.faults }
    {
        if self.line.door().is_none() && !self.line.is_tunnel() {
            return read_target(self.line.stream(), caller, into);
        }
        if !self.awaits_bytes()? {
            return Ok(0);
        }
        let count = read_some(self.line.stream(), into)?;
        // only a caller's requests have a limit of their own
        if self.line.door().is_some() {
            self.note_request(&into[..count])?;
        }
        Ok(count)
    }

    /// Notes when a request began, where its head ends, and how much of it has come.
    fn note_request(&mut self, bytes: &[u8]) -> io::Result<()>
        ensures { self.new.faults ≡ self.old.faults }
    {
        if self.begun.is_none() {
            self.begun = Some(Instant::now(&self.rt)?);
        }
        self.head.note(bytes);
        self.came = self.came.saturating_add(bytes.len() as u64);
        Ok(())
    }
}

/// How long a request may have taken by now, or the writes of a reply, while others wait: so many seconds, and those for its bytes.
fn crowded_limit(seconds: u64, bytes: u64) -> Duration {
    Duration::from_secs((bytes / CROWDED_BYTES).saturating_add(seconds))
}

/// One read of a stream.
fn read_some(stream: &TcpStream, into: &mut [u8]) -> io::Result<usize>
    ensures { IfOk result (λ n. n ≤ length into.new) }
{
    let mut input = stream;
    for _ in 0..TRIES {
        match input.read(into) {
            Err(error) if error.kind() == ErrorKind::Interrupted => {}
            read => return read,
        }
    }
    Err(io::Error::from(ErrorKind::Interrupted))
}

/// One read of a target, which has its time to send something. Each second without that it is looked whether the caller is still there.
fn read_target(stream: &TcpStream, caller: Option<&Caller>, into: &mut [u8]) -> io::Result<usize>
    ensures { IfOk result (λ n. n ≤ length into.new) }
{
    for _ in 0..TARGET_READ_SECONDS / WAIT_SECONDS {
        match read_some(stream, into) {
            Err(error) if error.kind() == ErrorKind::WouldBlock => {}
            read => return read,
        }
        if let Some(caller) = caller {
            if has_ended(caller.line.stream()) {
                return Err(io::Error::from(ErrorKind::ConnectionAborted));
            }
        }
    }
    Err(io::Error::from(ErrorKind::TimedOut))
}

impl Source for SocketSource {
    ghost left = { λ _. None };

    ghost faults = { λ s. s.faults };

    fn read(&mut self, into: &mut [u8]) -> Result<usize, Failed> {
        self.read_for(None, into)
    }
}

/// The side of a connection that takes bytes.
pub struct SocketSink {
    rt: HostRuntime,
    line: Arc<Line, Global>,
    /// How long the writes have waited of the reply that is being written.
    waited: Duration,
    /// How many bytes of it went behind the first of these seconds: what the system keeps for a peer isn't what that one reads.
    went: u64,
    /// Whether nothing was written yet.
    is_fresh: bool,
    /// Whether it is set how long a write may wait.
    is_set: bool,
    faults: u64,
}

impl Drop for SocketSink {
    fn drop(self) {
        let SocketSink {
            rt: _,
            line: _,
            waited: _,
            went: _,
            is_fresh: _,
            is_set: _,
            faults: _,
        } = self;
    }
}

impl SocketSink {
    /// From now on both sides of its connection are a tunnel's.
    pub fn begin_tunnel(&self) {
        self.line.begin_tunnel();
    }

    /// Tells the peer that no more bytes come.
    pub fn shut(&mut self) {
        self.line.shut();
    }

    /// Writes some of these bytes, of which there are some. A small first write to a target neither waits nor is held back, so what the
    /// writes need is set before another one.
    fn write_next(&mut self, from: &[u8]) -> io::Result<usize>
        ensures wrote { IfOk result (λ n. (n ≤ length from.now) × (1 ≤ n)) }
        ensures same { self.new.faults ≡ self.old.faults }
    {
        let is_first = self.is_fresh && from.len() <= FIRST_BYTES;
        self.is_fresh = false;
        if !is_first && !self.is_set {
            set_writing(self.line.stream())?;
            self.is_set = true;
        }
        for _ in 0..READ_OR_WRITE_SECONDS / WAIT_SECONDS {
            if self.is_slow() && self.line.is_in_the_way() {
                break;
            }
            match self.try_write(from) {
                Err(error) if error.kind() == ErrorKind::WouldBlock => {}
                written => return written,
            }
        }
        Err(io::Error::from(ErrorKind::TimedOut))
    }

    /// One write, which waits for no longer than the system does at once.
    fn try_write(&mut self, from: &[u8]) -> io::Result<usize>
        ensures wrote { IfOk result (λ n. (n ≤ length from.now) × (1 ≤ n)) }
        ensures same { self.new.faults ≡ self.old.faults }
    {
        let begun = Instant::now(&self.rt)?;
        let written = write_some(self.line.stream(), from);
        self.waited = self.waited.saturating_add(begun.elapsed(&self.rt)?);
        if self.waited >= Duration::from_secs(CROWDED_SECONDS) {
            if let Ok(count) = &written {
                self.went = self.went.saturating_add(*count as u64);
            }
        }
        written
    }

    /// Whether the peer takes a reply too slowly, if others wait.
    fn is_slow(&self) -> bool {
        self.waited > crowded_limit(CROWDED_WRITE_SECONDS, self.went)
    }
}

/// One write of bytes, of which there are some. It writes at least one.
fn write_some(stream: &TcpStream, from: &[u8]) -> io::Result<usize>
    ensures { IfOk result (λ n. (n ≤ length from.now) × (1 ≤ n)) }
{
    let mut output = stream;
    for _ in 0..TRIES {
        match output.write(from) {
            Ok(0) => return Err(io::Error::from(ErrorKind::WriteZero)),
            Err(error) if error.kind() == ErrorKind::Interrupted => {}
            written => return written,
        }
    }
    Err(io::Error::from(ErrorKind::Interrupted))
}

impl Sink for SocketSink {
    ghost held = { λ _. None };

    ghost faults = { λ s. s.faults };

    ghost closed = { λ _. false };

    fn write(&mut self, from: &[u8]) -> Result<usize, Failed> {
        if from.is_empty() {
            return Ok(0);
        }
        if self.line.note_reply(from) {
            self.waited = Duration::ZERO;
            self.went = 0;
        }
        match self.write_next(from) {
            Ok(count) => Ok(count),
            Err(_) => {
                self.faults = self.faults.saturating_add(1);
                Err(Failed)
            }
        }
    }
}

/// The two sides of a stream.
pub(crate) fn sides(
    rt: HostRuntime,
    stream: TcpStream,
    door: Option<Arc<Door, Global>>,
) -> Result<(SocketSource, SocketSink), AllocError> {
    // what a listener accepts has its options
    let is_set = door.is_some();
    let line = Arc::new(rt.alloc(), Line::new(rt, stream, door))?;
    let other = Arc::try_clone(&line)?;
    let source = SocketSource {
        rt,
        line,
        begun: None,
        head: HeadEnd::new(),
        came: 0,
        faults: 0,
    };
    let sink = SocketSink {
        rt,
        line: other,
        waited: Duration::ZERO,
        went: 0,
        is_fresh: true,
        is_set,
        faults: 0,
    };
    Ok((source, sink))
}
