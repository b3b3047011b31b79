//! Laws of the world.
ghost use Rattle.std.specs.Prelude.{ℕ, ◌*◌};
ghost use Rattle.server_life.specs.declared.life.LifeEvent.{LifeEvent};
ghost use Rattle.world_law.specs.World.{World};
ghost use Rattle.world_law.specs.Steps.{Run, Takes};
ghost use Rattle.world_law.specs.Law.{IsReached, LeasesAreApart, RoutesAreLeased, ProgramsAreLeased, Ends, IsNeverListed, SparesLive};

/// In every world that is reached routes and programs are those of live servers. It does nothing: its contract is the law.
pub fn world_law()
    // Live servers have different targets and generations.
    ensures leases { (w : World) → IsReached w → LeasesAreApart w }

    // Each route that is listed with a serial is that of a live generation, at its path and its target.
    ensures routes { (w : World) → IsReached w → RoutesAreLeased w }

    // Each program that runs has the target that is leased to its generation, and no two have one.
    ensures programs { (w : World) → IsReached w → ProgramsAreLeased w }

    // After the end of a generation its route is never listed again.
    ensures over { (w v u : World) (g : ℕ) (event : LifeEvent) → IsReached w → Takes w g event v → Ends event → Run v u
        → IsNeverListed u (2 * g) }

    // Route sync deletes no route of a generation that is live for its path.
    ensures spared { (w : World) → IsReached w → SparesLive w }
{}
