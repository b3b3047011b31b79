//! Where bytes come from.
ghost use Rattle.std.specs.Prelude.{◌≡◌, ℕ, ◌<◌, ◌≤◌, List, length, take, Option, IfOk, OnErr};
ghost use Rattle.hub_devices.specs.Streams.{Takes, IsEnd};
ghost use Rattle.hub_devices.specs.Faults.{Rises};

/// The device failed. Its count of faults rose.
#[derive(Clone, Copy)]
pub struct Failed;

/// Where bytes come from.
pub trait Source {
    /// The bytes left, where it tells them.
    ghost left: { Self → Option (List ℕ) };

    /// How often it has failed.
    ghost faults: { Self → ℕ };

    /// Takes bytes from the front of what is left. On a buffer that isn't empty, 0 means end of input.
    fn read(&mut self, into: &mut [u8]) -> Result<usize, Failed>
        ensures fits { IfOk result (λ n. n ≤ length into.new) }
        ensures takes { IfOk result (λ n. Takes (left self.old) (take n into.new) (left self.new)) }
        ensures end { IfOk result (λ n. n ≡ 0 → 0 < length into.new → IsEnd (left self.new)) }
        ensures kept { OnErr result (left self.new ≡ left self.old) }
        ensures counted { faults self.old ≤ faults self.new }
        ensures cause { OnErr result (Rises (faults self.old) (faults self.new)) };
}
