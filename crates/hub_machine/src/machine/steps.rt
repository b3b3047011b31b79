//! What came of the calls that are owed.
ghost use Rattle.std.specs.Prelude.{◌≡◌, ◌≢◌, ◌<◌, ◌≤◌, ℕ, true, false, OnErr, IsOk};
ghost use Rattle.hub_devices.specs.Faults.{Rises};
ghost use Rattle.server_life.specs.Lives.{is_outcome};
ghost use Rattle.server_life.specs.declared.life.LifeEvent.{LifeEvent};
ghost use Rattle.hub_machine.specs.Apply.{apply, is_past, lived, step_at};
ghost use Rattle.hub_machine.specs.KeptRows.{Keeps};
ghost use Rattle.hub_machine.specs.State.{owed};
ghost use Rattle.hub_machine.specs.Steps as spec;
ghost use Rattle.hub_machine.specs.declared.change.Change.TheVariants.{Life};
ghost use Rattle.hub_machine.specs.declared.step.Kept.TheVariants as Of;

use crate::carry::carry_end;
use crate::change::Change;
use crate::machine::Machine;
use crate::step::{Kept, Step};
use keeper::keeper::Keeper;
use keeper::trail::Trail;
use server_life::{LifeEvent, LifeRefusal, life_laws};
use std::alloc::Global;

/// Whether the program is gone, so that the lease ends.
fn is_end(event: LifeEvent) -> bool
    ensures { result ≡ spec.is_end event }
{
    matches!(&event, LifeEvent::Ended | LifeEvent::SpawnFailed)
}

impl Machine {
    /// That the history has room for each outcome, and is owed less after it. It does nothing.
    fn has_room(&self)
        ensures room { (g : ℕ) (event : LifeEvent) → is_outcome event ≡ true → IsOk (step_at self.now.lives g event)
            → is_past self.now (Life g event) ≡ false }
        ensures fewer { (g : ℕ) (event : LifeEvent) → is_outcome event ≡ true → IsOk (step_at self.now.lives g event)
            → owed (lived g event self.now).lives < owed self.now.lives }
    {
        let _length = self.length;
        life_laws();
    }

    /// Takes a step of a life that isn't over then. Takes no memory.
    pub(crate) fn live(&mut self, generation: u64, event: LifeEvent)
        requires room { is_past self.old (Life generation event) ≡ false }
        requires may { IsOk (step_at self.old.lives generation event) }
        requires goes_on { spec.is_end event ≡ false }
        ensures hub { self.new ≡ apply (Life generation event) self.old }
        ensures rows { self.new.tables ≡ self.old.tables }
    {
        // it tells that the life is of this generation
        self.lives.are_apart();
        let Ok((next, _)) = self.lives.step_at(generation, event) else {
            return;
        };
        let cost = self.entry_cost(0);
        self.lives.set_life(generation, next);
        self.length += 1;
        self.cost += cost;
    }

    /// Ends the lease of a generation, if the keeper keeps its rows. Else all is as it was.
    fn end<K: Keeper>(
        &mut self,
        alloc: Global,
        keeper: &mut K,
        generation: u64,
        event: LifeEvent,
    ) -> Kept
        requires room { is_past self.old (Life generation event) ≡ false }
        requires may { IsOk (step_at self.old.lives generation event) }
        requires over { spec.is_end event ≡ true }
        ensures asked { result ≢ Of.NotAsked }
        ensures kept { result ≡ Of.Kept → self.new ≡ apply (Life generation event) self.old }
        ensures unkept { result ≢ Of.Kept → self.new ≡ self.old }
        ensures told { K.Tells keeper.new → K.Tells keeper.old }
        ensures keeps { K.Tells keeper.new → Keeps (K.rows keeper.old) self.old.tables → Keeps (K.rows keeper.new) self.new.tables }
        ensures counted { K.faults keeper.old ≤ K.faults keeper.new }
        ensures cause { result ≡ Of.KeeperFault → Rises (K.faults keeper.old) (K.faults keeper.new) }
    {
        // it tells that no other live server has the target
        self.lives.are_apart();
        let cost = self.entry_cost(0);
        let Some(lease) = self.lives.get(generation) else {
            return Kept::Memory;
        };
        let kept = carry_end(alloc, &mut self.tables, keeper, lease);
        if kept == Kept::Kept {
            self.lives.end(generation);
            self.length += 1;
            self.cost += cost;
        }
        kept
    }

    /// Takes a step that the life table has: an end is committed, and where that is refused `EndUnkept` is the step. Takes no memory but
    /// in that commit.
    fn take<K: Keeper>(
        &mut self,
        alloc: Global,
        keeper: &mut K,
        generation: u64,
        event: LifeEvent,
    ) -> Kept
        requires outcome { is_outcome event ≡ true }
        requires may { IsOk (step_at self.old.lives generation event) }
        ensures kept { spec.KeptAs (spec.is_end event) (K.faults keeper.old) (K.faults keeper.new) result }
        ensures hub { self.new ≡ apply (spec.entry_of generation event result) self.old }
        ensures told { K.Tells keeper.new → K.Tells keeper.old }
        ensures keeps { K.Tells keeper.new → Keeps (K.rows keeper.old) self.old.tables → Keeps (K.rows keeper.new) self.new.tables }
        ensures counted { K.faults keeper.old ≤ K.faults keeper.new }
        ensures calm { spec.is_end event ≡ false → keeper.new ≡ keeper.old }
    {
        // it tells that there is room for the entry
        self.has_room();
        if !is_end(event) {
            self.live(generation, event);
            return Kept::NotAsked;
        }
        let kept = self.end(alloc, keeper, generation, event);
        if kept != Kept::Kept {
            self.live(generation, LifeEvent::EndUnkept);
        }
        kept
    }

    /// What came of a call that a generation owed. The step is refused as the life table says, and then all is as before; else it is
    /// taken, and noted in room that was kept for it. An end is committed; where that is refused, `EndUnkept` is noted in its place.
    /// Takes no memory but in that commit.
    pub fn step<K: Keeper, T: Trail<Entry = Change>>(
        &mut self,
        alloc: Global,
        keeper: &mut K,
        trail: &mut T,
        generation: u64,
        event: LifeEvent,
    ) -> Result<Step, LifeRefusal>
        requires outcome { is_outcome event ≡ true }
        requires room { owed self.old.lives ≤ T.spare trail.old }
        ensures steps { spec.Steps generation event result self.old self.new (T.told trail.old) (T.told trail.new) (K.faults keeper.old)
            (K.faults keeper.new) }
        ensures room { owed self.new.lives ≤ T.spare trail.new }
        ensures told { K.Tells keeper.new → K.Tells keeper.old }
        ensures keeps { K.Tells keeper.new → Keeps (K.rows keeper.old) self.old.tables → Keeps (K.rows keeper.new) self.new.tables }
        ensures counted { K.faults keeper.old ≤ K.faults keeper.new }
        ensures calm { spec.is_end event ≡ false → keeper.new ≡ keeper.old }
        ensures untouched { OnErr result (keeper.new ≡ keeper.old) }
    {
        let (_, todo) = self.lives.step_at(generation, event)?;
        // it tells that there is room for the entry
        self.has_room();
        let kept = self.take(alloc, keeper, generation, event);
        let event = noted(event, kept);
        trail.note(Change::Life { generation, event });
        Ok(Step {
            todo,
            kept,
            length: self.length,
        })
    }
}

/// What is noted of an event: `EndUnkept` in place of an end that isn't kept.
fn noted(event: LifeEvent, kept: Kept) -> LifeEvent
    ensures { result ≡ spec.noted_event event kept }
{
    match kept {
        Kept::NotAsked | Kept::Kept => event,
        Kept::KeeperFault | Kept::Memory => LifeEvent::EndUnkept,
    }
}
