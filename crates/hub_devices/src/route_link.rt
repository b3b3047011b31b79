//! What changes the routes of a proxy.
ghost use Rattle.std.specs.Prelude.{◌≡◌, ℕ, ◌≤◌, [], ◌∷◌, Option, IfOk, IfErr, OnErr};
ghost use Rattle.std.specs.Prelude.{List};
ghost use Rattle.hub_devices.specs.Calls.{Grows, told_unit, told_error};
ghost use Rattle.hub_devices.specs.Faults.{Rises};
ghost use Rattle.hub_devices.specs.declared.calls.Routing.{Routing};
ghost use Rattle.hub_devices.specs.declared.calls.Routing.TheVariants as Route;
ghost use Rattle.hub_devices.specs.declared.calls.Told.{Told};
ghost use Rattle.hub_devices.specs.declared.calls.Told.TheVariants.{Listed};
ghost use Rattle.hub_devices.specs.declared.link_error.LinkError.TheVariants as Link;

use crate::calls::ListedRoute;
use crate::link_error::LinkError;
use crate::source::Failed;
use hub_kit::target::Target;
use hub_kit::text::Text;

/// Changes the routes of a proxy. Others may change them too, so nothing is known of what `list` gives. A failed call may
/// have been applied, may be applied later, or never is.
pub trait RouteLink {
    /// The calls with what they told, where it tells them.
    ghost calls: { Self → Option (List (Routing × Told)) };

    /// How often it has failed.
    ghost faults: { Self → ℕ };

    /// Adds a route, or replaces the one of its path. Any answer of the proxy but 201 is a failure.
    fn add(&mut self, path: &Text, target: &Target, serial: Option<u64>) -> Result<(), Failed>
        ensures calls { Grows (calls self.old) ((Route.Add path.now target.now serial, told_unit result) ∷ []) (calls self.new) }
        ensures counted { faults self.old ≤ faults self.new }
        ensures cause { OnErr result (Rises (faults self.old) (faults self.new)) };

    /// Deletes the route of a path. The proxy's 204, 404 and 409 are done.
    fn delete(&mut self, path: &Text, serial: u64) -> Result<(), Failed>
        ensures calls { Grows (calls self.old) ((Route.Delete path.now serial, told_unit result) ∷ []) (calls self.new) }
        ensures counted { faults self.old ≤ faults self.new }
        ensures cause { OnErr result (Rises (faults self.old) (faults self.new)) };

    /// Lists the routes.
    fn list(&mut self) -> Result<Vec<ListedRoute>, LinkError>
        ensures calls { IfOk result (λ routes. Grows (calls self.old) ((Route.List, Listed routes.items) ∷ []) (calls self.new)) }
        ensures failed { IfErr result (λ e. Grows (calls self.old) ((Route.List, told_error e) ∷ []) (calls self.new)) }
        ensures counted { faults self.old ≤ faults self.new }
        ensures cause { IfErr result (λ e. e ≡ Link.Failed → Rises (faults self.old) (faults self.new)) };
}
