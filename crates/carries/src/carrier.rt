//! An upstream that carries requests itself, over threads that it has.
ghost use Rattle.std.specs.Prelude.{◌≡◌, ◌≢◌, ◌≤◌, ◌++◌, ℕ, List};
ghost use Rattle.carries.specs.Carries.{CarriesOn, going};
ghost use Rattle.proxy_core.specs.Telling.{place_of};
ghost use Rattle.carries.specs.Telling.{sides_of};

use crate::carried::Carried;
use http_wire::error::SessionFault;
use http_wire::head::Head;
use hub_devices::source::Source;
use hub_kit::target::Target;
use piece_window::rooms::Rooms;
use proxy_wire::framing::Framing;
use std::alloc::Global;
use tunnel::shuts::Shuts;
use upstreams::tunnelled::Tunnelled;

/// What carries requests between connections of a kind and its targets. Who calls it knows nothing of the thread that a tunnel takes.
pub trait Carrier<I: Source, O: Shuts>: Tunnelled {
    /// Does what `carry_head` does.
    fn carry(
        &mut self,
        alloc: Global,
        head: &Head,
        framing: Framing,
        target: &Target,
        input: &mut I,
        rooms: &mut Rooms,
        output: &mut O,
    ) -> Result<Carried<Self::Reads, Self::Writes>, SessionFault>
        requires minor { head.now.minor ≤ 1 }
        requires sized { framing ≢ Framing.ToEnd }
        ensures ends { let place = place_of I.Source O.Sink Self.Upstream in
            let sides = sides_of Self.Reads.Source Self.Writes.Sink (O.closed output.new) in
            CarriesOn sides (going head.now framing) target.now (place input.old rooms.old.kept output.old self.old)
            (place input.new rooms.new.kept output.new self.new) result }
        ensures reads { I.faults input.old ≤ I.faults input.new }
        ensures links { Self.faults self.old ≤ Self.faults self.new }
        ensures writes { O.faults output.old ≤ O.faults output.new };
}
