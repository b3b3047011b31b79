//! Where connections come from.
ghost use Rattle.std.specs.Prelude.{◌≡◌, ℕ, ◌+◌, ◌≤◌, Option, IfOk, OnOk, OnErr};
ghost use Rattle.std.specs.Option.{option_map};
ghost use Rattle.hub_devices.specs.Faults.{Rises};

use crate::sink::Sink;
use crate::source::{Failed, Source};

/// Where connections come from, each with a side that gives bytes and one that takes them. A connection ends when both
/// are dropped.
pub trait Listener {
    type In: Source + Drop;

    type Out: Sink + Drop;

    /// That these are the two sides of one connection, as it was given.
    ghost are_sides: { Self.In → Self.Out → Type 0 };

    /// How many connections it has given, where it tells it.
    ghost given: { Self → Option ℕ };

    /// How often it has failed.
    ghost faults: { Self → ℕ };

    /// Gives the next connection.
    fn accept(&mut self) -> Result<(Self::In, Self::Out), Failed>
        ensures sides { IfOk result (λ connection. are_sides connection.0 connection.1) }
        ensures given { OnOk result (given self.new ≡ option_map (λ n. n + 1) (given self.old)) }
        ensures kept { OnErr result (given self.new ≡ given self.old) }
        ensures counted { faults self.old ≤ faults self.new }
        ensures cause { OnErr result (Rises (faults self.old) (faults self.new)) };
}
