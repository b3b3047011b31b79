//! What the contract of `run` comes to.
ghost use Rattle.std.specs.Prelude.{ℕ, Option};
ghost use Rattle.hub_serving.specs.Commands.{RunEnds};
ghost use Rattle.hub_serving.specs.Ends.{End};
ghost use Rattle.hub_serving.specs.Good.{EndsWell, IsGood, NoneRose};
ghost use Rattle.hub_serving.specs.Hall.{Hall, SidesTell};
ghost use Rattle.hub_serving.specs.Histories.{HistoriesAreGained};
ghost use Rattle.hub_serving.specs.Law.{PlannedAreLawful};
ghost use Rattle.hub_serving.specs.declared.plan.Plan.{Plan};

use hub_devices::listener::Listener;
use keeper::keeper::Keeper;

/// What `service_doors::laws::attended_law` says, of the services of any file that `serve` takes.
pub fn planned_law()
    ensures { PlannedAreLawful }
{}

/// The names of the plan are kept or configured, the rows of the chosen store read, and with what the plan adds they fit the pool and the
/// limits; and the counts of faults of the store, the listener and the output didn't rise, over a store that tells its rows. Then all the
/// connections that were asked for are served, the line says so and the status is 0, or it is 7 for want of memory.
pub fn a_good_hub_serves<K: Keeper, L: Listener>()
    ensures { (plan : Plan) (h h' : Hall) (k k' : K) (told : Option End) (status : ℕ)
        → IsGood K.rows K.Chooses plan h.clock k → K.Tells k' → NoneRose K.faults h h' k k'
        → RunEnds K.Tells K.rows K.faults (SidesTell L.are_sides L.In.left L.Out.held) K.Chooses plan h h' k k' told status
        → EndsWell plan told status }
{}

/// Over a book that was opened, the history at the end has what taking the servers back gained, what the connections gained, and nothing
/// else.
pub fn a_history_is_gained<K: Keeper, L: Listener>()
    ensures { HistoriesAreGained K.Tells K.rows K.faults (SidesTell L.are_sides L.In.left L.Out.held) }
{}
