//! Where random bytes come from.
ghost use Rattle.std.specs.Prelude.{◌≡◌, ℕ, ◌≤◌, List, [], ◌∷◌, Option, IfOk, OnErr};
ghost use Rattle.hub_devices.specs.Faults.{Rises};
ghost use Rattle.hub_devices.specs.Streams.{Takes};

use crate::source::Failed;

/// Where random bytes come from. Nothing is known of how they are spread.
pub trait Random {
    /// The draws left, where it tells them.
    ghost left: { Self → Option (List (List ℕ)) };

    /// How often it has failed.
    ghost faults: { Self → ℕ };

    /// Takes the next draw. A failed call takes none.
    fn draw(&mut self) -> Result<[u8; 16], Failed>
        ensures takes { IfOk result (λ bytes. Takes (left self.old) (bytes ∷ []) (left self.new)) }
        ensures kept { OnErr result (left self.new ≡ left self.old) }
        ensures counted { faults self.old ≤ faults self.new }
        ensures cause { OnErr result (Rises (faults self.old) (faults self.new)) };
}
