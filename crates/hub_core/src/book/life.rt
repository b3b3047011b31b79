//! What came of the calls that servers owe.
ghost use Rattle.std.specs.Prelude.{◌≡◌, ◌≤◌, true};
ghost use Rattle.server_life.specs.Lives.{is_outcome};
ghost use Rattle.hub_core.specs.Lived.{LivesOn, LivedAt};
ghost use Rattle.hub_core.specs.Visits.{IsReached, entries_of};

use crate::book::Book;
use hub_machine::change::Change;
use hub_machine::step::Step;
use keeper::keeper::Keeper;
use keeper::trail::Trail;
use server_life::{LifeEvent, LifeRefusal};

impl<K: Keeper, T: Trail<Entry = Change>> Book<K, T> {
    /// Takes what came of a call that a generation owed, and notes it, or refuses it as the life table says, with all as before. An end is
    /// committed; where that is refused, `EndUnkept` is noted in its place. Takes no memory but in that commit.
    pub fn life(&mut self, generation: u64, event: LifeEvent) -> Result<Step, LifeRefusal>
        requires outcome { is_outcome event ≡ true }
        ensures lives { LivesOn self.old self.new generation event result }
        ensures start { self.new.start ≡ self.old.start }
        ensures counted { self.old.faults ≤ self.new.faults }
        ensures reached { IsReached self.new }
        // the same in words of places: the outcome is taken in the state that the entries before it left
        ensures placed { LivedAt self.old.start (entries_of self.old) (entries_of self.new) self.old.faults self.new.faults generation event
            result }
    {
        self.machine.step(
            self.alloc,
            &mut self.keeper,
            &mut self.trail,
            generation,
            event,
        )
    }
}
