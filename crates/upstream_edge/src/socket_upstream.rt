//! An upstream over a socket.
ghost use Rattle.std.specs.Prelude.{◌≡◌, ◌≤◌, ℕ, None, length, IfOk};
ghost use Rattle.hub_devices.specs.FailingCalls.{one_more};

use crate::sides::{CallerSource, TunnelSink, TunnelSource};
use carries::{Carried, Carrier, carry_head};
use http_wire::error::SessionFault;
use http_wire::head::Head;
use http_wire::writes::write_all;
use hub_devices::sink::Sink;
use hub_devices::source::{Failed, Source};
use hub_edge::connection::{Caller, SocketSink, SocketSource};
use hub_edge::targets::connect;
use hub_kit::target::Target;
use piece_window::rooms::Rooms;
use proxy_wire::framing::Framing;
use std::alloc::Global;
use std::thread::Threads;
use tunnel::shuts::Shuts;
use upstreams::tunnelled::Tunnelled;
use upstreams::upstream::Upstream;

/// How many bytes wait for those behind them.
const ROOM: usize = 16384;

/// The two sides of a connection.
#[derive(Drop)]
struct Sides {
    input: SocketSource,
    output: SocketSink,
}

/// One connection after the other. What is sent first waits until more is sent or something is to be received, so that a head and the
/// first bytes of its body go out in one write.
#[derive(Drop)]
pub struct SocketUpstream<'a, T: Threads> {
    rt: HostRuntime,
    /// What the other direction of a tunnel runs on.
    threads: &'a T,
    /// Whose request is carried. Once that one has left, nobody waits for the target.
    caller: Option<Caller>,
    sides: Option<Sides>,
    waiting: Vec<u8>,
    /// Whether nothing was sent yet.
    is_fresh: bool,
    faults: u64,
}

impl<'a, T: Threads> SocketUpstream<'a, T> {
    pub fn new(rt: HostRuntime, threads: &'a T) -> SocketUpstream<'a, T>
        ensures { ⟦<SocketUpstream<'a, T> as Upstream>⟧.faults result ≡ 0 }
    {
        SocketUpstream {
            rt,
            threads,
            caller: None,
            sides: None,
            waiting: Vec::new(rt.alloc()),
            is_fresh: true,
            faults: 0,
        }
    }

    /// Counts a fault. The count stands still at the greatest `u64`.
    fn fail(&mut self) -> Failed
        ensures counted { self.new.faults ≡ one_more self.old.faults }
        ensures kept { self.old.faults ≤ self.new.faults }
    {
        self.faults = self.faults.saturating_add(1);
        Failed
    }

    /// Writes what waits, and then these bytes.
    fn write(&mut self, bytes: &[u8]) -> Result<(), Failed>
        ensures { self.new.faults ≡ self.old.faults }
    {
        let Some(sides) = &mut self.sides else {
            return Err(Failed);
        };
        let written = if self.waiting.is_empty() {
            write_all(&mut sides.output, bytes)
        } else {
            if self.waiting.extend_from_slice(bytes).is_err() {
                return Err(Failed);
            }
            let written = write_all(&mut sides.output, self.waiting.as_slice());
            self.waiting.clear();
            written
        };
        match written {
            Ok(()) => Ok(()),
            Err(_) => Err(Failed),
        }
    }

    /// Keeps the first bytes until more come. It is false where they are too many.
    fn waits(&mut self, bytes: &[u8]) -> bool
        ensures { self.new.faults ≡ self.old.faults }
    {
        let is_first = self.is_fresh;
        self.is_fresh = false;
        is_first && bytes.len() <= ROOM && self.waiting.extend_from_slice(bytes).is_ok()
    }

    fn read(&mut self, into: &mut [u8]) -> Result<usize, Failed>
        ensures fits { IfOk result (λ n. n ≤ length into.new) }
        ensures same { self.new.faults ≡ self.old.faults }
    {
        let Some(sides) = &mut self.sides else {
            return Err(Failed);
        };
        sides.input.read_for(self.caller.as_ref(), into)
    }
}

impl<'a, T: Threads> Upstream for SocketUpstream<'a, T> {
    ghost told = { λ _. None };

    ghost faults = { λ u. u.faults };

    fn connect(&mut self, target: &Target) -> Result<(), Failed> {
        self.waiting.clear();
        self.is_fresh = true;
        // where the connection isn't made, none is open
        self.sides = None;
        match connect(self.rt, target) {
            Ok((input, output)) => {
                self.sides = Some(Sides { input, output });
                Ok(())
            }
            Err(_) => Err(self.fail()),
        }
    }

    fn send(&mut self, bytes: &[u8]) -> Result<(), Failed> {
        if self.waits(bytes) {
            return Ok(());
        }
        match self.write(bytes) {
            Ok(()) => Ok(()),
            Err(_) => Err(self.fail()),
        }
    }

    fn receive(&mut self, into: &mut [u8]) -> Result<usize, Failed> {
        if !self.waiting.is_empty() && self.write(&[]).is_err() {
            return Err(self.fail());
        }
        match self.read(into) {
            Ok(count) => Ok(count),
            Err(_) => Err(self.fail()),
        }
    }

    fn finish(&mut self) {
        self.sides = None;
    }
}

impl<'a, T: Threads> Tunnelled for SocketUpstream<'a, T> {
    type Reads = TunnelSource;

    type Writes = TunnelSink;

    fn halves(&mut self) -> Result<(TunnelSource, TunnelSink), Failed> {
        match self.sides.take() {
            Some(Sides { input, output }) => {
                Ok((TunnelSource::new(input), TunnelSink::of_target(output)))
            }
            None => Err(self.fail()),
        }
    }
}

/// The connections of one kind of source alone: a method of any kind can't hand its source on to a thread.
impl<'a, T: Threads, O: Shuts> Carrier<CallerSource, O> for SocketUpstream<'a, T> {
    fn carry(
        &mut self,
        alloc: Global,
        head: &Head,
        framing: Framing,
        target: &Target,
        input: &mut CallerSource,
        rooms: &mut Rooms,
        output: &mut O,
    ) -> Result<Carried<TunnelSource, TunnelSink>, SessionFault> {
        let threads = self.threads;
        self.caller = input.caller();
        let carried = carry_head(
            threads, alloc, head, framing, target, input, rooms, output, self,
        );
        // the connection ends where nobody keeps it
        self.caller = None;
        carried
    }
}
