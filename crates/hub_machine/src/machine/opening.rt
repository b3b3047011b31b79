//! The state that a hub begins with.
ghost use Rattle.std.specs.Prelude.{◌≡◌, ◌≤◌, ◌*◌, ◌^◌, length};
ghost use Rattle.hub_machine.specs.State.{next_generation, opening_next, owed, KeepsLeases};

use crate::machine::Machine;
use hub_kit::target::Target;
use hub_lives::Lives;
use hub_tables::tables::Tables;

impl Machine {
    /// The state with these rows and live servers, and a history without entries.
    pub fn opening(tables: Tables, lives: Lives, hub_url: Option<Target>, no_trail: bool) -> Machine
        requires limit { tables.limits.trail_bytes ≤ 2 ^ 62 }
        requires next { lives.next ≡ next_generation tables }
        requires few { lives.next ≤ opening_next lives.pool }
        requires kept { KeepsLeases tables lives.lives }
        requires owed { owed lives.lives ≤ 4 * length lives.pool }
        ensures { result ≡ record {
          tables = tables;
          lives = lives.lives;
          length = 0;
          cost = 0;
          pool = lives.pool;
          hub_url = hub_url;
          no_trail = no_trail;
        } }
    {
        // it tells that the targets are few
        lives.are_apart();
        Machine {
            tables,
            lives,
            length: 0,
            cost: 0,
            hub_url,
            no_trail,
        }
    }
}
