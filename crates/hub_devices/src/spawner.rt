//! What starts and stops servers' programs.
ghost use Rattle.std.specs.Prelude.{◌≡◌, ℕ, ◌≤◌, List, [], ◌∷◌, Option, true, false, IfOk, OnOk, OnErr};
ghost use Rattle.hub_devices.specs.Calls.{Grows, told_unit, told_bool};
ghost use Rattle.hub_devices.specs.Faults.{Rises};
ghost use Rattle.hub_devices.specs.Running.{Sets, IsTold};
ghost use Rattle.hub_devices.specs.declared.calls.Spawning.{Spawning};
ghost use Rattle.hub_devices.specs.declared.calls.Spawning.TheVariants as Spawn;
ghost use Rattle.hub_devices.specs.declared.calls.Told.{Told};

use crate::source::Failed;
use hub_kit::names::ServerKey;
use hub_kit::target::Target;
use hub_kit::text::Text;

/// Starts and stops programs, one for each generation of a server. A program may end by itself at any time.
pub trait Spawner {
    /// The calls with what they told, where it tells them.
    ghost calls: { Self → Option (List (Spawning × Told)) };

    /// The generations that may run, where it tells them: no others do.
    ghost may_run: { Self → Option (List ℕ) };

    /// How often it has failed.
    ghost faults: { Self → ℕ };

    /// Starts the generation `g` of a server, which listens at the target and proves itself to the hub by the secret.
    /// A failed start leaves nothing of that generation running.
    fn start(
        &mut self,
        g: u64,
        key: &ServerKey,
        target: &Target,
        secret: &Text,
    ) -> Result<(), Failed>
        ensures calls { Grows (calls self.old) ((Spawn.Start g key.now target.now secret.now, told_unit result) ∷ []) (calls self.new) }
        ensures started { OnOk result (Sets (may_run self.old) g true (may_run self.new)) }
        ensures failed { OnErr result (Sets (may_run self.old) g false (may_run self.new)) }
        ensures counted { faults self.old ≤ faults self.new }
        ensures cause { OnErr result (Rises (faults self.old) (faults self.new)) };

    /// Stops a generation. That it doesn't run is no cause to fail. A failed stop may leave it running.
    fn stop(&mut self, g: u64, target: &Target) -> Result<(), Failed>
        ensures calls { Grows (calls self.old) ((Spawn.Stop g target.now, told_unit result) ∷ []) (calls self.new) }
        ensures stopped { OnOk result (Sets (may_run self.old) g false (may_run self.new)) }
        ensures failed { OnErr result (may_run self.new ≡ may_run self.old) }
        ensures counted { faults self.old ≤ faults self.new }
        ensures cause { OnErr result (Rises (faults self.old) (faults self.new)) };

    /// Tells whether a generation runs.
    fn poll(&mut self, g: u64, target: &Target) -> Result<bool, Failed>
        ensures calls { Grows (calls self.old) ((Spawn.Poll g target.now, told_bool result) ∷ []) (calls self.new) }
        ensures told { IfOk result (IsTold (may_run self.old) g) }
        ensures kept { may_run self.new ≡ may_run self.old }
        ensures counted { faults self.old ≤ faults self.new }
        ensures cause { OnErr result (Rises (faults self.old) (faults self.new)) };
}
