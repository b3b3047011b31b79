//! Whether the history has room for a change.
ghost use Rattle.std.specs.Prelude.{◌≡◌, ◌≤◌, if◌then◌else◌, Some, None, IfOk, IsOk};
ghost use Rattle.hub_machine.specs.Trails as spec;
ghost use Rattle.hub_machine.specs.Answers.{answer_view};
ghost use Rattle.hub_machine.specs.Apply.{is_past_trail, effect, lived};
ghost use Rattle.hub_machine.specs.State.{owed};
ghost use Rattle.hub_machine.specs.Written.{IsWritten};
ghost use Rattle.hub_machine.specs.declared.answer.Answer.TheVariants.{Refuses};
ghost use Rattle.hub_machine.specs.declared.refusal.Refusal.TheVariants.{TrailFull};

use crate::answer::Answer;
use crate::change::Change;
use crate::machine::Machine;
use crate::planned::{Planned, Written};
use crate::refusal::Refusal;
use server_life::{LifeEvent, Phase};
use std::alloc::{AllocError, Global};

/// The greatest length of a history without a trail.
const LONGEST: u128 = 1 << 62;

/// The bytes of an entry but for its keys and texts.
const ENTRY: u128 = 64;

impl Machine {
    /// How many entries are owed after an event in the life of a generation.
    fn owed_lived(&self, generation: u64, event: LifeEvent) -> u128
        ensures { result ≡ owed (lived generation event self.now).lives }
    {
        match self.lives.step_at(generation, event) {
            Ok((next, _)) => self.lives.owed_with(generation, next.phase),
            Err(_) => self.lives.owed() as u128,
        }
    }

    /// How many entries are owed after a change.
    pub(crate) fn owed_after(&self, change: &Change) -> u128
        ensures { result ≡ owed (effect change.now self.now).lives }
    {
        match change {
            Change::Rows { .. } => self.lives.owed() as u128,
            Change::Begin { generation, .. } => {
                let phase = Phase::Spawning(*generation);
                self.lives.owed_with(*generation, phase)
            }
            Change::Life { generation, event } => self.owed_lived(*generation, *event),
        }
    }

    /// Whether the entry of a change, and those that are owed after it, don't fit.
    fn is_past_trail(&self, change: &Change, written: &Written) -> bool
        requires { IsWritten change.now written.now }
        ensures { result ≡ is_past_trail self.now change.now }
    {
        let owed = self.owed_after(change);
        if self.no_trail {
            return LONGEST < self.length as u128 + 1 + owed;
        }
        let after = self.cost as u128 + (ENTRY + written.cost as u128) + ENTRY * owed;
        (self.tables.limits().trail_bytes as u128) < after
    }

    /// The answer, or the refusal of a change for which the history has no room.
    pub fn in_trail(&self, alloc: Global, answer: Answer) -> Result<Answer, AllocError>
        ensures { IfOk result (λ a. answer_view a ≡ spec.in_trail self.now (answer_view answer)) }
    {
        match answer {
            Answer::Changes { change, good } => match self.with_room(alloc, change) {
                Ok(Some(change)) => Ok(Answer::Changes { change, good }),
                none => {
                    // what isn't answered is dropped in one call, since it has many parts
                    drop(good);
                    refused(none)
                }
            },
            Answer::RefusesWith { change, refusal } => match self.with_room(alloc, change) {
                Ok(Some(change)) => Ok(Answer::RefusesWith { change, refusal }),
                none => {
                    drop(refusal);
                    refused(none)
                }
            },
            Answer::Works { change, work } => match self.with_room(alloc, change) {
                Ok(Some(change)) => Ok(Answer::Works { change, work }),
                none => {
                    drop(work);
                    refused(none)
                }
            },
            other => Ok(other),
        }
    }

    /// The change, its batch written, if the history has room for it.
    fn with_room(&self, alloc: Global, change: Planned) -> Result<Option<Planned>, AllocError>
        ensures { IfOk result (λ room. room ≡ (if is_past_trail self.now change then None else Some change)) }
    {
        let (change, written) = change.write(alloc)?;
        if self.is_past_trail(&change, &written) {
            // in one call each, since they have many parts
            drop(change);
            drop(written);
            return Ok(None);
        }
        Ok(Some(Planned::of_written(change, written)))
    }
}

/// The refusal of a change without room, or want of memory.
fn refused(none: Result<Option<Planned>, AllocError>) -> Result<Answer, AllocError>
    ensures { IfOk result (λ a. (a ≡ Refuses TrailFull) × IsOk none) }
{
    // what is left of the change is dropped here
    let _none = none?;
    Ok(Answer::Refuses(Refusal::TrailFull))
}
