//! What the two sides of a connection share: its socket, what was last written, and who waits at the listener.
use crate::limits::{
    CROWDED_MILLIS, LINGER_BYTES, LINGER_MILLIS, READ_OR_WRITE_SECONDS, SILENT_SECONDS,
    TUNNEL_END_SECONDS, TUNNEL_LOOK_SECONDS, TUNNEL_SILENT_SECONDS, WAIT_SECONDS,
};
use crate::listener::Door;
use crate::sockets::keep_alive;
use crate::waiting::{comes_first, comes_within, is_there, time_left};
use std::alloc::Global;
use std::io::{self, ErrorKind, Read};
use std::net::{Shutdown, TcpStream};
use std::sync::Arc;
use std::sync::atomic::{AtomicBool, Ordering};
use std::time::{Duration, Instant};

/// A connection's socket, and the door that it came by. A connection to a target came by none.
pub(crate) struct Line {
    rt: HostRuntime,
    stream: TcpStream,
    door: Option<Arc<Door, Global>>,
    /// Whether a reply was the last thing, and nothing was asked for since.
    replied: AtomicBool,
    /// Whether that reply was a refusal.
    refused: AtomicBool,
    /// Whether it is a side of a tunnel.
    is_tunnel: AtomicBool,
    /// Whether the peer was told that no more bytes come.
    is_shut: AtomicBool,
}

impl Line {
    pub(crate) fn new(rt: HostRuntime, stream: TcpStream, door: Option<Arc<Door, Global>>) -> Line {
        Line {
            rt,
            stream,
            door,
            replied: AtomicBool::new(false),
            refused: AtomicBool::new(false),
            is_tunnel: AtomicBool::new(false),
            is_shut: AtomicBool::new(false),
        }
    }

    pub(crate) fn stream(&self) -> &TcpStream {
        &self.stream
    }

    pub(crate) fn door(&self) -> Option<&Arc<Door, Global>> {
        self.door.as_ref()
    }

    pub(crate) fn is_tunnel(&self) -> bool {
        self.is_tunnel.load(Ordering::SeqCst)
    }

    /// From now on it is a side of a tunnel, which may be silent for long, so the system asks its peer whether it is still there. What came
    /// by a door has that from the listener. Where it can't be set, the limits of a tunnel alone end it.
    pub(crate) fn begin_tunnel(&self) {
        self.is_tunnel.store(true, Ordering::SeqCst);
        if self.door.is_none() {
            let _ = keep_alive(&self.stream);
        }
    }

    /// Whether it holds a worker that another caller waits for. Tunnels hold theirs for long, and a target has none.
    pub(crate) fn is_in_the_way(&self) -> bool {
        match self.door() {
            Some(door) => !self.is_tunnel() && door.is_crowded(),
            None => false,
        }
    }

    /// Notes bytes that are written. A reply begins with the line of its status. Gives whether nothing of it was written before.
    pub(crate) fn note_reply(&self, bytes: &[u8]) -> bool {
        if self.is_tunnel() {
            return false;
        }
        let is_begun = self.replied.swap(true, Ordering::SeqCst);
        if let [
            b'H',
            b'T',
            b'T',
            b'P',
            b'/',
            b'1',
            b'.',
            b'1',
            b' ',
            class,
            ..
        ] = bytes
        {
            self.refused
                .store(*class == b'4' || *class == b'5', Ordering::SeqCst);
        }
        !is_begun
    }

    /// Whether a reply was the last thing. A read follows, so from then on it isn't.
    pub(crate) fn is_between_requests(&self) -> bool {
        self.refused.store(false, Ordering::SeqCst);
        self.replied.swap(false, Ordering::SeqCst)
    }

    /// Waits for the next request, or the end. It is false where the connection is silent for too long, or where others wait.
    pub(crate) fn awaits_request(&self, door: &Door) -> io::Result<bool> {
        let begun = Instant::now(&self.rt)?;
        let limit = Duration::from_secs(SILENT_SECONDS);
        let crowded = Duration::from_millis(CROWDED_MILLIS);
        // each round but the last takes as long as a silent connection has while others wait
        for _ in 0..1000 {
            let Some(left) = time_left(&self.rt, begun, limit)? else {
                break;
            };
            // no socket here tells that a silent caller speaks, so that is asked again and again
            let speaks = !door.has_silent_callers()
                && comes_first(&self.stream, door.listener(), left);
            if speaks || comes_within(&self.stream, crowded) {
                return Ok(true);
            }
            if door.is_crowded() {
                break;
            }
        }
        Ok(false)
    }

    /// Waits for more of a request that began at an instant, or the end, for as long as one read may. It is false where none comes, where
    /// the time of a request is over, or that which it has while others wait.
    pub(crate) fn awaits_rest(
        &self,
        door: &Door,
        begun: Instant,
        limit: Duration,
        crowded: Duration,
    ) -> io::Result<bool> {
        let round = Duration::from_secs(WAIT_SECONDS);
        for _ in 0..READ_OR_WRITE_SECONDS / WAIT_SECONDS {
            let passed = begun.elapsed(&self.rt)?;
            if passed >= limit {
                break;
            }
            // what is there already is no fault of the caller
            if passed >= crowded && door.is_crowded() {
                return Ok(is_there(&self.stream));
            }
            if comes_within(&self.stream, limit.saturating_sub(passed).min(round)) {
                return Ok(true);
            }
        }
        Ok(false)
    }

    /// Waits for the next bytes of a tunnel, or its end, a bounded number of rounds.
    pub(crate) fn awaits_tunnel(&self) -> io::Result<()> {
        let round = Duration::from_secs(TUNNEL_LOOK_SECONDS);
        let mut left = TUNNEL_END_SECONDS / TUNNEL_LOOK_SECONDS;
        for _ in 0..TUNNEL_SILENT_SECONDS / TUNNEL_LOOK_SECONDS {
            // a signal ends a wait too
            if comes_within(&self.stream, round) && is_there(&self.stream) {
                return Ok(());
            }
            if self.is_shut.load(Ordering::SeqCst) {
                left = left.saturating_sub(1);
            }
            if left == 0 {
                break;
            }
        }
        Err(io::Error::from(ErrorKind::TimedOut))
    }

    /// Tells the peer that no more bytes come.
    pub(crate) fn shut(&self) {
        self.is_shut.store(true, Ordering::SeqCst);
        let _ = self.stream.shutdown(Shutdown::Write);
    }
}

impl Drop for Line {
    /// A socket that is closed with unread bytes is reset, and its peer may lose the reply. So after a refusal the sending side is
    /// shut, and a bounded rest is read.
    fn drop(self) {
        if self.refused.load(Ordering::SeqCst) {
            self.shut();
            let _ = read_rest(&self.rt, &self.stream);
        }
        let Line {
            rt: _,
            stream: _,
            door: _,
            replied: _,
            refused: _,
            is_tunnel: _,
            is_shut: _,
        } = self;
    }
}

/// Reads what a peer still sends until it ends, for a bounded time and up to a bounded length.
fn read_rest(rt: &HostRuntime, stream: &TcpStream) -> io::Result<()> {
    let mut input = stream;
    let mut buf = [0u8; 4096];
    let mut count = 0usize;
    let begun = Instant::now(rt)?;
    for _ in 0..LINGER_BYTES {
        let Some(left) = time_left(rt, begun, Duration::from_millis(LINGER_MILLIS))? else {
            break;
        };
        if count >= LINGER_BYTES || !comes_within(stream, left) {
            break;
        }
        match input.read(&mut buf)? {
            0 => break,
            more => count = count.saturating_add(more),
        }
    }
    Ok(())
}
