//! What has routes to look up.
ghost use Rattle.std.specs.Prelude.{◌≡◌, ℕ, List, Result, Some, Err, IfErr};
ghost use Rattle.route_table.specs.declared.route.RouteRefusal as refusals;
ghost use Rattle.route_table.specs.Path.{bad_place};
ghost use Rattle.route_table.specs.Table.{IsLookRefusal};

use crate::route::RouteRefusal;
use hub_kit::moment::Moment;
use hub_kit::target::Target;
use std::alloc::Global;

/// A table of routes that a proxy asks.
pub trait Lookup {
    /// Of a path and a moment, what a look-up answers, and what it leaves.
    ghost found: { Self → List ℕ → ℕ → Result (List ℕ) refusals.RouteRefusal → Self → Type 0 };

    /// The target of the route with the most segments that is a prefix of the path. Its last activity is now.
    fn look(&mut self, alloc: Global, path: &[u8], now: Moment) -> Result<Target, RouteRefusal>
        ensures bad { (at : ℕ) → bad_place path.now ≡ Some at → result ≡ Err (RouteRefusal.BadPath at) }
        ensures few { IfErr result (λ e. IsLookRefusal path.now e) }
        ensures found { found self.old path.now now result self.new };
}
