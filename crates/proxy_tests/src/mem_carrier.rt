//! An upstream in memory that carries requests itself.
use carries::{Carried, Carrier, carry_head};
use http_wire::error::SessionFault;
use http_wire::head::Head;
use hub_devices::mem_bytes::{MemSink, MemSource};
use hub_devices::source::Failed;
use hub_kit::target::Target;
use piece_window::rooms::Rooms;
use proxy_wire::framing::Framing;
use std::alloc::Global;
use std::thread::Threads;
use tunnel::gate::Gate;
use tunnel::shuts::Shuts;
use upstreams::mem_upstream::MemUpstream;
use upstreams::tunnelled::Tunnelled;
use upstreams::upstream::Upstream;

/// An upstream in memory, with threads for the other direction of a tunnel.
#[derive(Drop)]
pub struct MemCarrier<'a, T: Threads> {
    pub threads: &'a T,
    pub up: MemUpstream,
}

impl<'a, T: Threads> Upstream for MemCarrier<'a, T> {
    ghost told = { λ c. ⟦<MemUpstream as Upstream>⟧.told c.up };

    ghost faults = { λ c. ⟦<MemUpstream as Upstream>⟧.faults c.up };

    fn connect(&mut self, target: &Target) -> Result<(), Failed> {
        self.up.connect(target)
    }

    fn send(&mut self, bytes: &[u8]) -> Result<(), Failed> {
        self.up.send(bytes)
    }

    fn receive(&mut self, into: &mut [u8]) -> Result<usize, Failed> {
        self.up.receive(into)
    }

    fn finish(&mut self) {
        self.up.finish();
    }
}

impl<'a, T: Threads> Tunnelled for MemCarrier<'a, T> {
    type Reads = MemSource;

    type Writes = Gate<MemSink>;

    fn halves(&mut self) -> Result<(MemSource, Gate<MemSink>), Failed> {
        self.up.halves()
    }
}

impl<'a, T: Threads, O: Shuts> Carrier<MemSource, O> for MemCarrier<'a, T> {
    fn carry(
        &mut self,
        alloc: Global,
        head: &Head,
        framing: Framing,
        target: &Target,
        input: &mut MemSource,
        rooms: &mut Rooms,
        output: &mut O,
    ) -> Result<Carried<MemSource, Gate<MemSink>>, SessionFault> {
        let threads = self.threads;
        carry_head(
            threads, alloc, head, framing, target, input, rooms, output, self,
        )
    }
}
