//! A book that the lives of servers go through, and the visit with an outcome.
ghost use Rattle.std.specs.Prelude.{◌≡◌, ◌≢◌, ◌≤◌, ℕ, List, Some, Option};
ghost use mathlib.Core.List.{IsPrefix};
ghost use Rattle.server_life.specs.declared.life.LifeEvent.{LifeEvent};
ghost use Rattle.server_life.specs.declared.life.Todo.TheVariants.{Nothing};
ghost use Rattle.server_work.specs.Outcomes.{todo_of};
ghost use Rattle.server_work.specs.LifeSteps.{Lives};
ghost use Rattle.server_work.specs.LifeVisits.{LifeVisited};
ghost use Rattle.server_work.specs.Broken.{LifeEntry, Follows};

use crate::work::Kept;
use desk::Booked;
use server_life::{LifeEvent, LifeRefusal, Todo};

/// What an outcome that was taken leaves: the call that is owed next, whether an end was kept, and the length of the history with its
/// entry.
#[derive(Clone, Copy)]
pub struct Lived {
    pub todo: Todo,
    pub kept: Kept,
    pub length: u64,
}

/// A book whose history tells the lives of servers by their generations.
pub trait LifeBook: Booked {
    ghost lives: { Self → Lives };

    /// From the base these entries lead to these lives.
    ghost reached: { Option Self.Base → List Self.Entry → Lives → Type 0 };

    /// The entry is this event of the life of this generation.
    ghost notes: { Self.Entry → ℕ → LifeEvent → Type 0 };

    /// Takes what came of a call that a life owed, or tells why the life doesn't take it.
    fn life(&mut self, generation: u64, outcome: LifeEvent) -> Result<Lived, LifeRefusal>
        ensures found { reached (Some (Self.base self.old)) (Self.entries self.old) (lives self.old) }
        ensures left { reached (Some (Self.base self.new)) (Self.entries self.new) (lives self.new) }
        ensures visited { todo_of outcome ≢ Nothing → LifeVisited notes (Self.entries self.old) (Self.entries self.new) (lives self.old)
            (lives self.new) (Self.faults self.old) (Self.faults self.new) generation outcome result }
        ensures appends { IsPrefix (Self.entries self.old) (Self.entries self.new) }
        ensures base { Self.base self.new ≡ Self.base self.old }
        ensures counted { Self.faults self.old ≤ Self.faults self.new };
}

/// A book whose history after each place is a legal one of lives.
pub trait ToldBook: LifeBook {
    /// What an entry is, as far as lives go.
    ghost is_entry: { Self.Entry → LifeEntry → Type 0 };

    /// It does nothing: its contract is the law.
    fn follows()
        ensures { Follows Self.reached is_entry };
}
