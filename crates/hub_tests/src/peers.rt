//! Peers that wait for one another, the spawner that waits for them, and a link to no proxy.
ghost use Rattle.std.specs.Prelude.{◌≤◌};

use crate::scene::Scene;
use hub_devices::calls::ListedRoute;
use hub_devices::link_error::LinkError;
use hub_devices::listener::Listener;
use hub_devices::mem_bytes::{MemSink, MemSource};
use hub_devices::route_link::RouteLink;
use hub_devices::sink::Sink;
use hub_devices::source::{Failed, Source};
use hub_devices::spawner::Spawner;
use hub_kit::bytes::Bytes;
use hub_kit::names::ServerKey;
use hub_kit::target::Target;
use hub_kit::text::Text;
use std::alloc::{AllocError, Global};
use std::sync::Wait;

/// What a peer asks on its connection, and how its answer begins.
pub struct Peer {
    /// The stage before which it asks nothing.
    pub waits_for: u64,
    pub input: &'static [u8],
    /// The stage that is reached once it is being read.
    pub reads_at: u64,
    pub output: &'static [u8],
    /// The stage that is reached once it is answered.
    pub answers_at: u64,
}

/// The side of a peer that gives bytes.
#[derive(Drop)]
pub struct Asking<'a, W: Wait> {
    rt: &'a W,
    scene: &'a Scene,
    peer: &'static Peer,
    source: MemSource,
}

impl<'a, W: Wait> Source for Asking<'a, W> {
    ghost left = { λ s. ⟦<MemSource as Source>⟧.left s.source };

    ghost faults = { λ s. ⟦<MemSource as Source>⟧.faults s.source };

    fn read(&mut self, into: &mut [u8]) -> Result<usize, Failed> {
        self.scene.reach(self.rt, self.peer.reads_at);
        self.scene.wait(self.rt, self.peer.waits_for);
        self.source.read(into)
    }
}

/// The side of a peer that takes bytes.
#[derive(Drop)]
pub struct Answered<'a, W: Wait> {
    rt: &'a W,
    scene: &'a Scene,
    peer: &'static Peer,
    sink: MemSink,
}

impl<'a, W: Wait> Sink for Answered<'a, W> {
    ghost held = { λ s. ⟦<MemSink as Sink>⟧.held s.sink };

    ghost faults = { λ s. ⟦<MemSink as Sink>⟧.faults s.sink };

    ghost closed = { λ s. ⟦<MemSink as Sink>⟧.closed s.sink };

    fn write(&mut self, from: &[u8]) -> Result<usize, Failed> {
        let count = self.sink.write(from)?;
        if !self.sink.as_slice().starts_with(self.peer.output) {
            self.scene.fail(self.rt);
        }
        self.scene.reach(self.rt, self.peer.answers_at);
        Ok(count)
    }
}

/// Gives one connection for each peer, the last one again and again, until it fails.
#[derive(Drop)]
pub struct Street<'a, W: Wait> {
    pub rt: &'a W,
    pub alloc: Global,
    pub scene: &'a Scene,
    pub peers: &'static [Peer],
    pub given: u64,
    pub fails_at: u64,
    pub faults: u64,
    pub ghost fits: { given ≤ fails_at },
}

impl<'a, W: Wait> Street<'a, W> {
    fn next_peer(&self) -> Option<&'static Peer> {
        let peers = self.peers;
        match peers.get(self.given as usize) {
            Some(peer) => Some(peer),
            None => peers.last(),
        }
    }

    fn source(&self, peer: &Peer) -> Result<MemSource, AllocError> {
        let input = Bytes::from_vec(Vec::from_slice(self.alloc, peer.input)?);
        Ok(MemSource::new(input, 100, Vec::new(self.alloc)))
    }

    fn connection(&self) -> Option<(Asking<'a, W>, Answered<'a, W>)> {
        let peer = self.next_peer()?;
        let Ok(source) = self.source(peer) else {
            return None;
        };
        let asking = Asking {
            rt: self.rt,
            scene: self.scene,
            peer,
            source,
        };
        let answered = Answered {
            rt: self.rt,
            scene: self.scene,
            peer,
            sink: MemSink::new(self.alloc, Vec::new(self.alloc)),
        };
        Some((asking, answered))
    }
}

impl<'a, W: Wait> Listener for Street<'a, W> {
    ghost use Rattle.std.specs.Prelude.{Some};

    type In = Asking<'a, W>;

    type Out = Answered<'a, W>;

    ghost are_sides = { λ _ _. Unit };

    ghost given = { λ l. Some l.given };

    ghost faults = { λ l. l.faults };

    fn accept(&mut self) -> Result<(Asking<'a, W>, Answered<'a, W>), Failed> {
        if self.given < self.fails_at {
            if let Some(connection) = self.connection() {
                self.given += 1;
                return Ok(connection);
            }
        }
        self.faults = self.faults.saturating_add(1);
        Err(Failed)
    }
}

/// A spawner in whose starts the scene comes to its first stage, and which go on at its second. It keeps none of its calls.
#[derive(Drop)]
pub struct HeldSpawner<'a, W: Wait> {
    pub rt: &'a W,
    pub scene: &'a Scene,
}

impl<'a, W: Wait> Spawner for HeldSpawner<'a, W> {
    ghost use Rattle.std.specs.Prelude.{None};

    ghost calls = { λ _. None };

    ghost may_run = { λ _. None };

    ghost faults = { λ _. 0 };

    fn start(
        &mut self,
        _g: u64,
        _key: &ServerKey,
        _target: &Target,
        _secret: &Text,
    ) -> Result<(), Failed> {
        self.scene.reach(self.rt, 1);
        self.scene.wait(self.rt, 2);
        Ok(())
    }

    fn stop(&mut self, _g: u64, _target: &Target) -> Result<(), Failed> {
        Ok(())
    }

    fn poll(&mut self, _g: u64, _target: &Target) -> Result<bool, Failed> {
        Ok(true)
    }
}

/// A link to no proxy.
#[derive(Drop)]
pub struct NoLink;

impl RouteLink for NoLink {
    ghost use Rattle.std.specs.Prelude.{None};

    ghost calls = { λ _. None };

    ghost faults = { λ _. 0 };

    fn add(&mut self, _path: &Text, _target: &Target, _serial: Option<u64>) -> Result<(), Failed> {
        Ok(())
    }

    fn delete(&mut self, _path: &Text, _serial: u64) -> Result<(), Failed> {
        Ok(())
    }

    fn list(&mut self) -> Result<Vec<ListedRoute>, LinkError> {
        Err(LinkError::Memory)
    }
}
