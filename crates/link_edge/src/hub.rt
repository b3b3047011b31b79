//! A hub behind a socket.
ghost use Rattle.std.specs.Prelude.{◌≡◌, ◌≤◌, ℕ, None, ⊤, IfErr};
ghost use Rattle.hub_devices.specs.Faults.{Rises};
ghost use Rattle.hub_devices.specs.declared.link_error.LinkError.TheVariants as Link;

use crate::limits::{END_MILLISECONDS, REPLY_BYTES};
use http_wire::writes::write_all;
use hub_devices::link_error::LinkError;
use hub_edge::connection::SocketSource;
use hub_edge::targets::connect_waiting;
use hub_kit::bytes::Bytes;
use hub_kit::target::Target;
use hub_link::coded::{Coded, uncode};
use hub_link::link::HubLink;
use hub_link::replies::has_come;
use std::alloc::Global;
use std::io::{self, ErrorKind};
use std::time::{Duration, Instant};

/// How many bytes are read at once.
const PIECE: usize = 4096;

/// How a reply in chunks ends, but where its trailer is written with bare line feeds.
const CHUNKS_END: &[u8] = b"\r\n\r\n";

/// Asks the hub at a target, by a connection for each request. A reply ends where its length or its last chunk says, or where the hub ends
/// the connection, so each request has to wish that. One in chunks is given as the same reply by its length.
pub struct SocketHub {
    rt: HostRuntime,
    target: Target,
    /// How long a reply may take to its end.
    limit: Duration,
    faults: u64,
}

impl Drop for SocketHub {
    fn drop(self) {
        let SocketHub {
            rt: _,
            target: _,
            limit: _,
            faults: _,
        } = self;
    }
}

impl SocketHub {
    /// Asks nothing yet. A reply may take so long to its end, from its request on.
    pub fn new(rt: HostRuntime, target: Target, limit: Duration) -> SocketHub
        ensures { ⟦<SocketHub as HubLink>⟧.faults result ≡ 0 }
    {
        SocketHub {
            rt,
            target,
            limit,
            faults: 0,
        }
    }

    /// Where it asks.
    pub(crate) fn target(&self) -> &Target {
        &self.target
    }

    /// Sends a request, and reads all that comes.
    pub(crate) fn exchange(&self, request: &Bytes) -> io::Result<Bytes> {
        let moment = Duration::from_millis(END_MILLISECONDS);
        let (mut input, mut output) = connect_waiting(self.rt, &self.target, moment)?;
        if write_all(&mut output, request.as_slice()).is_err() {
            return Err(io::Error::from(ErrorKind::WriteZero));
        }
        let reply = read_to_end(&self.rt, &mut input, self.limit);
        // the connection ends when both of its sides do
        drop(output);
        by_length(self.rt.alloc(), reply?)
    }

    /// Counts what failed, but for want of memory.
    pub(crate) fn told(&mut self, reply: io::Result<Bytes>) -> Result<Bytes, LinkError>
        ensures counted { self.old.faults ≤ self.new.faults }
        ensures cause { IfErr result (λ e. e ≡ Link.Failed → Rises self.old.faults self.new.faults) }
    {
        match reply {
            Ok(reply) => Ok(reply),
            Err(error) if error.kind() == ErrorKind::OutOfMemory => Err(LinkError::Memory),
            Err(_) => {
                self.faults = self.faults.saturating_add(1);
                Err(LinkError::Failed)
            }
        }
    }
}

/// A reply as it is read, by its length. One whose coding isn't read, or isn't kept to, is none.
fn by_length(alloc: Global, reply: Bytes) -> io::Result<Bytes> {
    match uncode(alloc, reply.as_slice())? {
        Coded::Plain => Ok(reply),
        Coded::Chunks(text) => Ok(text),
        Coded::Refused => Err(io::Error::from(ErrorKind::InvalidData)),
    }
}

/// Whether what came is a whole reply by its length or by its chunks. For chunks it is looked at only where it may have ended.
fn is_whole(alloc: Global, reply: &[u8]) -> io::Result<bool> {
    if has_come(reply) {
        return Ok(true);
    }
    if !reply.ends_with(CHUNKS_END) {
        return Ok(false);
    }
    match uncode(alloc, reply)? {
        Coded::Chunks(_) => Ok(true),
        Coded::Plain => Ok(false),
        Coded::Refused => Ok(false),
    }
}

/// Waits a moment for the hub to end the connection: who ends it first keeps its port from others for a minute, and who asks needs a port
/// of its own for each request, while a hub has one for all. What comes in place of the end is none of the reply.
fn await_end(rt: &HostRuntime, input: &mut SocketSource) {
    let Ok(begun) = Instant::now(rt) else {
        return;
    };
    let mut rest = [0u8; 1];
    let _ = input.read_within(begun, Duration::from_millis(END_MILLISECONDS), &mut rest);
}

/// All that comes within this time, up to the most that a reply may have. Where what came is a whole reply by what it says, its end is
/// waited for no longer than a moment.
fn read_to_end(rt: &HostRuntime, input: &mut SocketSource, limit: Duration) -> io::Result<Bytes> {
    let begun = Instant::now(rt)?;
    let mut reply = Bytes::new(rt.alloc());
    let mut piece = [0u8; PIECE];
    // each read gives at least one byte, or the end
    for _ in 0..=REPLY_BYTES {
        let count = input.read_within(begun, limit, &mut piece)?;
        if count == 0 {
            return Ok(reply);
        }
        if count > REPLY_BYTES || reply.len() > REPLY_BYTES - count {
            break;
        }
        reply.push_all(&piece[..count])?;
        if is_whole(rt.alloc(), reply.as_slice())? {
            await_end(rt, input);
            return Ok(reply);
        }
    }
    Err(io::Error::from(ErrorKind::InvalidData))
}

impl HubLink for SocketHub {
    ghost asked = { λ _. None };

    ghost faults = { λ l. l.faults };

    ghost does = { λ before request given after. ⊤ };

    fn ask(&mut self, request: &Bytes) -> Result<Bytes, LinkError> {
        let reply = self.exchange(request);
        self.told(reply)
    }
}
