//! A sink that can be shut.
ghost use Rattle.std.specs.Prelude.{◌≡◌, ◌≤◌, true};

use hub_devices::sink::Sink;

/// A sink that can be shut. From then on each write of bytes fails.
pub trait Shuts: Sink {
    fn shut(&mut self)
        ensures shut { Self.closed self.new ≡ true }
        ensures kept { Self.held self.new ≡ Self.held self.old }
        ensures counted { Self.faults self.old ≤ Self.faults self.new };
}
