//! What routes the paths of services.
ghost use Rattle.std.specs.Prelude.{ℕ, ◌≤◌, List, [], ◌∷◌, Option, None, OnErr};
ghost use Rattle.hub_devices.specs.Calls.{Grows, told_unit};
ghost use Rattle.hub_devices.specs.Faults.{Rises};
ghost use Rattle.hub_devices.specs.declared.calls.Routing.{Routing};
ghost use Rattle.hub_devices.specs.declared.calls.Routing.TheVariants as Route;
ghost use Rattle.hub_devices.specs.declared.calls.Told.{Told};

use hub_devices::route_link::RouteLink;
use hub_devices::source::Failed;
use hub_kit::target::Target;
use hub_kit::text::Text;

/// Routes the paths of services to their targets. Additions have no serial, so that no list of routes with serials is about them.
pub trait Paths {
    /// The calls with what they told, where it tells them.
    ghost calls: { Self → Option (List (Routing × Told)) };

    /// How often it has failed.
    ghost faults: { Self → ℕ };

    /// Adds the route of a path, or replaces it. A failed call may have been applied, may be applied later, or never is.
    fn add(&mut self, path: &Text, target: &Target) -> Result<(), Failed>
        ensures calls { Grows (calls self.old) ((Route.Add path.now target.now None, told_unit result) ∷ []) (calls self.new) }
        ensures counted { faults self.old ≤ faults self.new }
        ensures cause { OnErr result (Rises (faults self.old) (faults self.new)) };

    /// Deletes the route of a path, if there is one. A failed call may have been applied, may be applied later, or never is.
    fn delete(&mut self, path: &Text, serial: u64) -> Result<(), Failed>
        ensures calls { Grows (calls self.old) ((Route.Delete path.now serial, told_unit result) ∷ []) (calls self.new) }
        ensures counted { faults self.old ≤ faults self.new }
        ensures cause { OnErr result (Rises (faults self.old) (faults self.new)) };
}

/// A route link routes the paths of services beside those of servers.
impl<L: RouteLink> Paths for L {
    ghost calls = { L.calls };

    ghost faults = { L.faults };

    fn add(&mut self, path: &Text, target: &Target) -> Result<(), Failed> {
        <L as RouteLink>::add(self, path, target, None)
    }

    fn delete(&mut self, path: &Text, serial: u64) -> Result<(), Failed> {
        <L as RouteLink>::delete(self, path, serial)
    }
}
