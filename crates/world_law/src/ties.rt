//! How the definitions of the hub's code are those of the world.
ghost use Rattle.std.specs.Prelude.{◌≡◌, ◌≢◌, ◌*◌, ◌+◌, ℕ, List, Some, Ok};
ghost use Rattle.std.specs.Option.{option_to_list};
ghost use Rattle.std.specs.FinMap.{get};
ghost use Rattle.hub_core.specs.declared.live.LiveServer.{LiveServer};
ghost use Rattle.hub_devices.specs.declared.calls.ListedRoute.{ListedRoute};
ghost use Rattle.hub_devices.specs.declared.calls.Routing.TheVariants as Route;
ghost use Rattle.hub_kit.specs.declared.names.ServerKey.{ServerKey};
ghost use Rattle.hub_lives.specs.LiveServers.{begins};
ghost use Rattle.hub_lives.specs.Lives.{Lives};
ghost use Rattle.hub_lives.specs.declared.lives.Leased.{Leased};
ghost use Rattle.hub_machine.specs.State.{Hub, next_generation};
ghost use Rattle.hub_machine.specs.Apply.{effect};
ghost use Rattle.hub_machine.specs.declared.change.Change.TheVariants as change;
ghost use Rattle.hub_rows.specs.declared.changes.RowChange.{RowChange};
ghost use Rattle.hub_sync.specs.Plans.{addition_of, deletion_of};
ghost use Rattle.hub_sync.specs.Syncing.{asked_of};
ghost use Rattle.hub_sync.specs.declared.calls.RouteCall.{RouteCall};
ghost use Rattle.server_life.specs.LifeTable.{life_after};
ghost use Rattle.server_life.specs.declared.life.Life.{Life};
ghost use Rattle.server_life.specs.declared.life.LifeEvent.{LifeEvent};
ghost use Rattle.server_life.specs.declared.life.Todo.{Todo};
ghost use Rattle.server_work.specs.LifeSteps.{left_of};
ghost use Rattle.server_work.specs.Outcomes.{todo_of};
ghost use Rattle.server_work.specs.RoutePaths.{route_path};
ghost use Rattle.server_work.specs.declared.work.Work.{Work};
ghost use Rattle.world_law.specs.World.{call_of, with_life};
ghost use Rattle.world_law.specs.Ties.{asked, live_of};

/// What a change of the hub's history makes of its live servers is what a step of the world does. It does nothing.
pub fn changes_are_steps()
    // A change of rows alone leaves them.
    ensures rows { (s : Hub) (rows : List RowChange) → (effect (change.Rows rows) s).lives ≡ s.lives }

    // A start under the next generation is the world's.
    ensures begins { (s : Hub) (server : ServerKey) (rows : List RowChange)
        → (effect (change.Begin (next_generation s.tables) server rows) s).lives ≡ (begins server (live_of s)).lives }

    // So is each event that the life of a live generation takes.
    ensures lives { (s : Hub) (g : ℕ) (event : LifeEvent) (l : Leased) (made : Life × Todo) → get s.lives g ≡ Some l
        → life_after l.life g event ≡ Ok made → (effect (change.Life g event) s).lives ≡ with_life g l (left_of made.0) s.lives }
{}

/// The calls that an outcome of a chain tells of are those that the world owes. It does nothing.
pub fn calls_are_owed()
    ensures { (work : Work) (outcome : LifeEvent) → asked work outcome ≡ option_to_list (call_of work (todo_of outcome)) }
{}

/// The calls by which route sync brings a list into step are those of the world's sync. It does nothing.
pub fn sync_is_steps()
    // An addition is that of its server's route, with the number of the server's generation.
    ensures additions { (routes : List ListedRoute) (s : LiveServer) (call : RouteCall) → addition_of routes s ≡ Some call
        → asked_of call ≡ Route.Add (route_path s.server) s.target (Some (2 * s.generation)) }

    // A deletion is of a listed serial of a generation that isn't live for the path, and has the serial after it.
    ensures deletions { (lives : Lives) (r : ListedRoute) (call : RouteCall) → deletion_of lives r ≡ Some call
        → (g : ℕ) × (r.serial ≡ Some (2 * g)) × ((l : Leased) → get lives g ≡ Some l → route_path l.server ≢ r.path)
        × (asked_of call ≡ Route.Delete r.path (2 * g + 1)) }
{}
