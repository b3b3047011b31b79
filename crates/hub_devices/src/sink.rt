//! Where bytes go.
ghost use Rattle.std.specs.Prelude.{◌≡◌, ℕ, ◌<◌, ◌≤◌, List, length, take, Option, Bool, false, IfOk, OnErr};
ghost use Rattle.hub_devices.specs.Streams.{Appends};
ghost use Rattle.hub_devices.specs.Faults.{Rises};

use crate::source::Failed;

/// Where bytes go.
pub trait Sink {
    /// The bytes held, where it tells them.
    ghost held: { Self → Option (List ℕ) };

    /// How often it has failed.
    ghost faults: { Self → ℕ };

    /// It takes no more bytes, ever.
    ghost closed: { Self → Bool };

    /// Appends a prefix of the bytes, at least one byte if there is one.
    fn write(&mut self, from: &[u8]) -> Result<usize, Failed>
        ensures fits { IfOk result (λ n. n ≤ length from.now) }
        ensures some { IfOk result (λ n. 0 < length from.now → 0 < n) }
        ensures appends { IfOk result (λ n. Appends (held self.old) (take n from.now) (held self.new)) }
        ensures kept { OnErr result (held self.new ≡ held self.old) }
        ensures open { IfOk result (λ n. 0 < length from.now → closed self.old ≡ false) }
        ensures stays { closed self.new ≡ closed self.old }
        ensures counted { faults self.old ≤ faults self.new }
        ensures cause { OnErr result (Rises (faults self.old) (faults self.new)) };
}
