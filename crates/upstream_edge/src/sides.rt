//! The sides of a connection that may become a tunnel.
ghost use Rattle.std.specs.Prelude.{◌≡◌, ◌≤◌, None};
ghost use Rattle.hub_devices.specs.FailingCalls.{one_more};

use hub_devices::sink::Sink;
use hub_devices::source::{Failed, Source};
use hub_edge::connection::{Caller, SocketSink, SocketSource};
use tunnel::shuts::Shuts;

/// Whether bytes are the beginning of a reply that switches over.
fn is_switch(bytes: &[u8]) -> bool {
    matches!(
        bytes,
        [
            b'H',
            b'T',
            b'T',
            b'P',
            b'/',
            b'1',
            b'.',
            _,
            b' ',
            b'1',
            b'0',
            b'1',
            ..
        ]
    )
}

/// The side of a caller that gives bytes.
pub struct CallerSource {
    source: SocketSource,
    /// Its connection's number at the listener.
    pub(crate) number: u64,
}

impl Drop for CallerSource {
    fn drop(self) {
        let CallerSource {
            source: _,
            number: _,
        } = self;
    }
}

impl CallerSource {
    pub(crate) fn new(source: SocketSource, number: u64) -> CallerSource
        ensures { result.number ≡ number }
    {
        CallerSource { source, number }
    }

    /// The peer, for whom a target is asked.
    pub(crate) fn caller(&self) -> Option<Caller> {
        self.source.caller()
    }
}

impl Source for CallerSource {
    ghost left = { λ _. None };

    ghost faults = { λ s. ⟦<SocketSource as Source>⟧.faults s.source };

    fn read(&mut self, into: &mut [u8]) -> Result<usize, Failed> {
        self.source.read(into)
    }
}

/// The side of a target that gives bytes, once a tunnel has it.
pub struct TunnelSource {
    source: SocketSource,
    faults: u64,
}

impl Drop for TunnelSource {
    fn drop(self) {
        let TunnelSource {
            source: _,
            faults: _,
        } = self;
    }
}

impl TunnelSource {
    pub(crate) fn new(source: SocketSource) -> TunnelSource
        ensures { ⟦<TunnelSource as Source>⟧.faults result ≡ 0 }
    {
        TunnelSource { source, faults: 0 }
    }
}

impl Source for TunnelSource {
    ghost left = { λ _. None };

    ghost faults = { λ s. s.faults };

    fn read(&mut self, into: &mut [u8]) -> Result<usize, Failed> {
        match self.source.read(into) {
            Ok(count) => Ok(count),
            Err(_) => {
                self.faults = self.faults.saturating_add(1);
                Err(Failed)
            }
        }
    }
}

/// The side of a connection that takes bytes, until it is shut: then the peer is told that no more come.
pub struct TunnelSink {
    sink: SocketSink,
    /// A caller's connection's number at the listener.
    pub(crate) number: u64,
    /// Whether nothing was written yet.
    is_fresh: bool,
    is_shut: bool,
    faults: u64,
}

impl Drop for TunnelSink {
    fn drop(self) {
        let TunnelSink {
            sink: _,
            number: _,
            is_fresh: _,
            is_shut: _,
            faults: _,
        } = self;
    }
}

impl TunnelSink {
    /// The side of a caller. What is written first is the beginning of a reply.
    pub(crate) fn of_caller(sink: SocketSink, number: u64) -> TunnelSink
        ensures faults { ⟦<TunnelSink as Sink>⟧.faults result ≡ 0 }
        ensures number { result.number ≡ number }
    {
        TunnelSink {
            sink,
            number,
            is_fresh: true,
            is_shut: false,
            faults: 0,
        }
    }

    /// The side of a target that has switched over.
    pub(crate) fn of_target(sink: SocketSink) -> TunnelSink
        ensures { ⟦<TunnelSink as Sink>⟧.faults result ≡ 0 }
    {
        sink.begin_tunnel();
        TunnelSink {
            sink,
            number: 0,
            is_fresh: false,
            is_shut: false,
            faults: 0,
        }
    }

    /// A reply that switches over begins a tunnel: from then on the caller may be silent for long.
    fn note(&mut self, bytes: &[u8])
        ensures faults { self.new.faults ≡ self.old.faults }
        ensures shut { self.new.is_shut ≡ self.old.is_shut }
    {
        if self.is_fresh && is_switch(bytes) {
            self.sink.begin_tunnel();
        }
        self.is_fresh = false;
    }

    /// Counts a fault. The count stands still at the greatest `u64`.
    fn fail(&mut self) -> Failed
        ensures counted { self.new.faults ≡ one_more self.old.faults }
        ensures kept { self.old.faults ≤ self.new.faults }
        ensures same { self.new.is_shut ≡ self.old.is_shut }
    {
        self.faults = self.faults.saturating_add(1);
        Failed
    }
}

impl Sink for TunnelSink {
    ghost held = { λ _. None };

    ghost faults = { λ s. s.faults };

    ghost closed = { λ s. s.is_shut };

    fn write(&mut self, from: &[u8]) -> Result<usize, Failed> {
        if self.is_shut {
            return Err(self.fail());
        }
        self.note(from);
        match self.sink.write(from) {
            Ok(count) => Ok(count),
            Err(_) => Err(self.fail()),
        }
    }
}

impl Shuts for TunnelSink {
    fn shut(&mut self) {
        self.is_shut = true;
        self.sink.shut();
    }
}
