//! An upstream whose connection can be taken apart, for a tunnel.
ghost use Rattle.std.specs.Prelude.{◌≡◌, ◌≤◌, ℕ, List, [], IfOk, OnErr};
ghost use Rattle.std.specs.Option.{option_map};
ghost use Rattle.hub_devices.specs.Faults.{Rises};
ghost use Rattle.upstreams.specs.Upstream.{Told, IsOpen};

use crate::upstream::Upstream;
use hub_devices::source::{Failed, Source};
use tunnel::shuts::Shuts;

/// An upstream that gives the two sides of its connection, each of which one direction can have for itself.
pub trait Tunnelled: Upstream {
    type Reads: Source + Drop;

    type Writes: Shuts + Drop;

    /// Gives the side that has all that is left to receive, and the side that holds nothing yet. What the upstream tells stays as it
    /// is; from then on its bytes go by the sides alone.
    fn halves(&mut self) -> Result<(Self::Reads, Self::Writes), Failed>
        requires { IsOpen (Self.told self.old) }
        ensures told { Self.told self.new ≡ Self.told self.old }
        ensures left { IfOk result (λ sides. Self.Reads.left sides.0 ≡ option_map (λ (t : Told). t.left) (Self.told self.old)) }
        ensures held { IfOk result (λ sides. Self.Writes.held sides.1 ≡ option_map (λ (t : Told). []) (Self.told self.old)) }
        ensures none { IfOk result (λ sides. (Self.Reads.faults sides.0 ≡ 0) × (Self.Writes.faults sides.1 ≡ 0)) }
        ensures counted { Self.faults self.old ≤ Self.faults self.new }
        ensures cause { OnErr result (Rises (Self.faults self.old) (Self.faults self.new)) };
}
