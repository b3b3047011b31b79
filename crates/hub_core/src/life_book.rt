//! The book as the chains of `server_work` see it.
ghost use Rattle.std.specs.Prelude.{◌≡◌};
ghost use Rattle.server_life.specs.Lives as lives;
ghost use Rattle.hub_core.specs.LifeBook.{LeadsToLives, Notes, kept_of, lived_of, lives_of};

use crate::book::Book;
use hub_machine::change::Change;
use hub_machine::step as machine;
use hub_machine::step::Step;
use keeper::keeper::Keeper;
use keeper::trail::Trail;
use server_life::{LifeEvent, LifeRefusal};
use server_work::book::{LifeBook, Lived};
use server_work::work::Kept;

/// Whether the event came of a call.
fn is_outcome(event: LifeEvent) -> bool
    ensures { result ≡ lives.is_outcome event }
{
    !matches!(&event, LifeEvent::Begin | LifeEvent::AskStop)
}

/// Whether an end was kept, in the words of a chain.
fn kept_of(kept: machine::Kept) -> Kept
    ensures { result ≡ kept_of kept }
{
    match kept {
        machine::Kept::NotAsked => Kept::NotAsked,
        machine::Kept::Kept => Kept::Kept,
        machine::Kept::KeeperFault => Kept::KeeperFault,
        machine::Kept::Memory => Kept::Memory,
    }
}

/// What is left of a step, in the words of a chain.
fn lived(step: Step) -> Lived
    ensures { result ≡ lived_of step }
{
    Lived {
        todo: step.todo,
        kept: kept_of(step.kept),
        length: step.length,
    }
}

impl<K: Keeper, T: Trail<Entry = Change>> LifeBook for Book<K, T> {
    ghost lives = { λ b. lives_of b.hub.lives };

    ghost reached = { LeadsToLives };

    ghost notes = { Notes };

    fn life(&mut self, generation: u64, outcome: LifeEvent) -> Result<Lived, LifeRefusal> {
        self.stands();
        if !is_outcome(outcome) {
            return Err(LifeRefusal::NotNow);
        }
        let came = self.life(generation, outcome);
        self.stands();
        match came {
            Ok(step) => Ok(lived(step)),
            Err(refusal) => Err(refusal),
        }
    }
}
