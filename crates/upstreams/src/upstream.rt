//! Where requests are passed on to.
ghost use Rattle.std.specs.Prelude.{◌≡◌, ℕ, ◌<◌, ◌≤◌, List, [], ◌++◌, length, take, Option, IfOk, OnOk, OnErr};
ghost use Rattle.upstreams.specs.Upstream.{Told, IsOpen, Connects, Misses, Moves, Finishes, IsSpent};
ghost use Rattle.hub_devices.specs.Faults.{Rises};

use hub_devices::source::Failed;
use hub_kit::target::Target;

/// One connection after the other to the targets of routes.
pub trait Upstream {
    /// What it was told and has left, where it tells it.
    ghost told: { Self → Option Told };

    /// How often it has failed.
    ghost faults: { Self → ℕ };

    /// Asks for a connection to a target, once. Where it fails, none is open.
    fn connect(&mut self, target: &Target) -> Result<(), Failed>
        ensures ok { OnOk result (Connects (told self.old) target.now (told self.new)) }
        ensures err { OnErr result (Misses (told self.old) target.now (told self.new)) }
        ensures counted { faults self.old ≤ faults self.new }
        ensures cause { OnErr result (Rises (faults self.old) (faults self.new)) };

    /// Sends all the bytes. After a failure a prefix of them was sent.
    fn send(&mut self, bytes: &[u8]) -> Result<(), Failed>
        requires { IsOpen (told self.old) }
        ensures ok { OnOk result (Moves (told self.old) bytes.now [] (told self.new)) }
        ensures err { OnErr result ((part : List ℕ) × (more : List ℕ) × (bytes.now ≡ part ++ more)
            × Moves (told self.old) part [] (told self.new)) }
        ensures counted { faults self.old ≤ faults self.new }
        ensures cause { OnErr result (Rises (faults self.old) (faults self.new)) };

    /// Takes a prefix of what is left. On a buffer that isn't empty, 0 means its end.
    fn receive(&mut self, into: &mut [u8]) -> Result<usize, Failed>
        requires { IsOpen (told self.old) }
        ensures fits { IfOk result (λ n. n ≤ length into.new) }
        ensures takes { IfOk result (λ n. Moves (told self.old) [] (take n into.new) (told self.new)) }
        ensures end { IfOk result (λ n. n ≡ 0 → 0 < length into.new → IsSpent (told self.new)) }
        ensures kept { OnErr result (told self.new ≡ told self.old) }
        ensures counted { faults self.old ≤ faults self.new }
        ensures cause { OnErr result (Rises (faults self.old) (faults self.new)) };

    /// Ends the connection, where one is open.
    fn finish(&mut self)
        ensures finished { Finishes (told self.old) (told self.new) }
        ensures counted { faults self.new ≡ faults self.old };
}
