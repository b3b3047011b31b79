//! What starts and stops the programs of services.
ghost use Rattle.std.specs.Prelude.{ℕ, ◌≤◌, List, [], ◌∷◌, Option, OnErr};
ghost use Rattle.hub_devices.specs.Calls.{Grows, told_unit, told_bool};
ghost use Rattle.hub_devices.specs.Faults.{Rises};
ghost use Rattle.hub_devices.specs.declared.calls.Told.{Told};
ghost use Rattle.services_run.specs.declared.calls.ServiceCall.{ServiceCall};
ghost use Rattle.services_run.specs.declared.calls.ServiceCall.TheVariants as Call;

use hub_devices::source::Failed;
use hub_kit::names::ServiceName;
use hub_kit::target::Target;
use hub_kit::text::Text;

/// Starts and stops the programs of services. A program may end by itself at any time.
pub trait Running {
    /// The calls with what they told, where it tells them.
    ghost calls: { Self → Option (List (ServiceCall × Told)) };

    /// How often it has failed.
    ghost faults: { Self → ℕ };

    /// Starts the program of a service with this number, which listens at the target and proves itself by the secret. A failed start leaves
    /// nothing running.
    fn start(
        &mut self,
        g: u64,
        name: &ServiceName,
        target: &Target,
        secret: &Text,
    ) -> Result<(), Failed>
        ensures calls { Grows (calls self.old) ((Call.Start g name.now target.now secret.now, told_unit result) ∷ []) (calls self.new) }
        ensures counted { faults self.old ≤ faults self.new }
        ensures cause { OnErr result (Rises (faults self.old) (faults self.new)) };

    /// Stops the program of a number. That it doesn't run is no cause to fail. A failed stop may leave it running.
    fn stop(&mut self, g: u64, target: &Target) -> Result<(), Failed>
        ensures calls { Grows (calls self.old) ((Call.Stop g target.now, told_unit result) ∷ []) (calls self.new) }
        ensures counted { faults self.old ≤ faults self.new }
        ensures cause { OnErr result (Rises (faults self.old) (faults self.new)) };

    /// Tells whether the program of a number runs.
    fn poll(&mut self, g: u64, target: &Target) -> Result<bool, Failed>
        ensures calls { Grows (calls self.old) ((Call.Poll g target.now, told_bool result) ∷ []) (calls self.new) }
        ensures counted { faults self.old ≤ faults self.new }
        ensures cause { OnErr result (Rises (faults self.old) (faults self.new)) };
}
