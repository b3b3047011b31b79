//! The book: the machine with its keeper and its history.
//! Whenever nobody acts on it, its state is what its history leaves, and its keeper, where it tells its rows, has exactly those of that
//! state: so the rows kept are those of the history.
ghost use Rattle.std.specs.Prelude.{◌≡◌, ◌≤◌, ◌^◌, ◌↔◌, IsTrue, Some, [], IfOk, IfErr, length};
ghost use Rattle.hub_machine.specs.Answers.{answer_view, outcome_view};
ghost use Rattle.hub_machine.specs.Replies.{outcome_of};
ghost use Rattle.hub_machine.specs.KeptRows.{Keeps};
ghost use Rattle.hub_machine.specs.State.{owed};
ghost use Rattle.hub_core.specs.Current.{Looked};
ghost use Rattle.hub_core.specs.Judged.{decider};
ghost use Rattle.hub_core.specs.Works.{IsSoundOutcome};
ghost use Rattle.hub_core.specs.Opened.{HasOpened};
ghost use Rattle.hub_opening.specs.Kept.{MakeTable};
ghost use Rattle.hub_opening.specs.Opening.{IsRefused};
ghost use Rattle.hub_core.specs.Visits.{Visited, VisitedAt, IsReached, entries_of};
ghost use Rattle.hub_core.specs.Carrying.{Carried, MayBeDone, long_after};
ghost use Rattle.hub_core.specs.History.{change_of};
ghost use Rattle.keeper.specs.Rows.{AreSame};

mod life;
mod live;

use crate::decide::decide;
use crate::stamps::Stamps;
use hub_kit::moment::Moment;
use hub_machine::answer::{Answer, good_reply, refusal_reply};
use hub_machine::call::Asked;
use hub_machine::change::Change;
use hub_machine::machine::Machine;
use hub_machine::planned::Planned;
use hub_machine::refusal::Refusal;
use hub_machine::reply::Outcome;
use hub_opening::config::HubConfig;
use hub_opening::open_error::OpenError;
use hub_opening::opening::open_machine;
use keeper::keeper::Keeper;
use keeper::trail::Trail;
use roles::cache::RightsCache;
use std::alloc::{AllocError, Global};
use std::marker::Model;
use std::snapshot::Snapshot;

/// The hub's state, what keeps its rows, and the history that led to it.
pub struct Book<K: Keeper, T: Trail<Entry = Change>> {
    keeper: K,
    trail: T,
    machine: Machine,
    /// The grants of the tokens that were looked for last.
    rights: RightsCache,
    /// How often rights have changed, which is the stamp of the grants of now, and since when they come from the same sources.
    stamps: Stamps,
    /// The machine as it was at opening, for contracts alone.
    start: Snapshot<Machine>,
    /// The keeper as it was then, for contracts alone.
    found: Snapshot<K>,
    /// For the commit of an end.
    alloc: Global,
}

impl<K: Keeper + Drop, T: Trail<Entry = Change> + Drop> Drop for Book<K, T> {
    fn drop(self) {
        let Book {
            keeper: _,
            trail: _,
            machine: _,
            rights: _,
            stamps: _,
            start: _,
            found: _,
            alloc: _,
        } = self;
    }
}

/// How many grants a book keeps.
const CAPACITY: u32 = 1024;

impl<K: Keeper, T: Trail<Entry = Change>> Model for Book<K, T> {
    ghost use Rattle.std.specs.Prelude.{◌≤◌, IsTrue};
    ghost use Rattle.hub_core.specs.Current.{IsStamped};
    ghost use Rattle.hub_machine.specs.KeptRows.{Keeps};
    ghost use Rattle.hub_machine.specs.State.{owed};
    ghost use Rattle.hub_core.specs.Visits.{Standing, Reached};
    ghost use Rattle.std.specs.Coded.{codes};
    ghost use Rattle.std.specs.FinMap.{code};

    ghost Value = { Standing };

    ghost coded = { Prim.hlevel (codes, code) };

    ghost view = { λ b. record {
      start = record { machine = b.start.value; has_rows = K.is_told b.found.value };
      hub = b.machine;
      told = T.told b.trail;
      faults = K.faults b.keeper;
      rights = b.rights;
      stamp = b.stamps.stamp;
    } };

    ghost invariant = { λ b. Reached (record { machine = b.start.value; has_rows = K.is_told b.found.value }) (T.told b.trail) b.machine
        × IsStamped b.rights b.machine.tables b.stamps.since b.stamps.stamp b.machine.length × (owed b.machine.lives ≤ T.spare b.trail)
        × (K.Tells b.keeper → Keeps (K.rows b.keeper) b.machine.tables) × (K.Tells b.keeper → IsTrue (K.is_told b.found.value)) };
}

/// Carries an answer out: its change, if it has one, and what is said at the length that it leaves.
fn carry<K: Keeper, T: Trail<Entry = Change>>(
    alloc: Global,
    machine: &mut Machine,
    keeper: &mut K,
    trail: &mut T,
    stamps: &mut Stamps,
    answer: Answer,
) -> Result<Outcome, AllocError>
    requires may { MayBeDone machine.old (change_of (answer_view answer)) }
    requires room { stamps.old.stamp ≤ machine.old.length }
    ensures carried { Carried (change_of (answer_view answer))
        (outcome_of (long_after (change_of (answer_view answer)) machine.old.length) (answer_view answer)) result
        (record {
          hub = machine.old;
          told = T.told trail.old;
          stamp = stamps.old.stamp;
          since = stamps.old.since;
          faults = K.faults keeper.old;
        })
        (record {
          hub = machine.new;
          told = T.told trail.new;
          stamp = stamps.new.stamp;
          since = stamps.new.since;
          faults = K.faults keeper.new;
        }) }
    ensures counted { K.faults keeper.old ≤ K.faults keeper.new }
    ensures spare { owed machine.old.lives ≤ T.spare trail.old → owed machine.new.lives ≤ T.spare trail.new }
    ensures told { K.Tells keeper.new → K.Tells keeper.old }
    // the keeper goes on having the rows of the state
    ensures keeps { (K.Tells keeper.old → Keeps (K.rows keeper.old) machine.old.tables) → K.Tells keeper.new
        → Keeps (K.rows keeper.new) machine.new.tables }
{
    let length = machine.length();
    let (change, says) = match answer {
        Answer::Refuses(refusal) => {
            return Ok(Outcome::Answer(refusal_reply(alloc, length, &refusal)?));
        }
        Answer::Gives(good) => return Ok(Outcome::Answer(good_reply(length, good))),
        Answer::RefusesWith { change, refusal } => {
            let Ok(reply) = refusal_reply(alloc, length + 1, &refusal) else {
                drop(change);
                return Err(AllocError);
            };
            (change, Outcome::Answer(reply))
        }
        Answer::Changes { change, good } => {
            (change, Outcome::Answer(good_reply(length + 1, good)))
        }
        Answer::Works { change, work } => (change, Outcome::Work(work)),
    };
    carry_change(alloc, machine, keeper, trail, stamps, change, says)
}

/// Carries a change out, after which this is said.
fn carry_change<K: Keeper, T: Trail<Entry = Change>>(
    alloc: Global,
    machine: &mut Machine,
    keeper: &mut K,
    trail: &mut T,
    stamps: &mut Stamps,
    change: Planned,
    says: Outcome,
) -> Result<Outcome, AllocError>
    requires may { MayBeDone machine.old (Some change) }
    requires room { stamps.old.stamp ≤ machine.old.length }
    ensures carried { Carried (Some change) (outcome_view says) result
        (record {
          hub = machine.old;
          told = T.told trail.old;
          stamp = stamps.old.stamp;
          since = stamps.old.since;
          faults = K.faults keeper.old;
        })
        (record {
          hub = machine.new;
          told = T.told trail.new;
          stamp = stamps.new.stamp;
          since = stamps.new.since;
          faults = K.faults keeper.new;
        }) }
    ensures counted { K.faults keeper.old ≤ K.faults keeper.new }
    ensures spare { owed machine.old.lives ≤ T.spare trail.old → owed machine.new.lives ≤ T.spare trail.new }
    ensures told { K.Tells keeper.new → K.Tells keeper.old }
    ensures keeps { (K.Tells keeper.old → Keeps (K.rows keeper.old) machine.old.tables) → K.Tells keeper.new
        → Keeps (K.rows keeper.new) machine.new.tables }
{
    // The reply to a refusal of the keeper is made before the change is tried, so that no memory can be wanting between them.
    let Ok(fault) = refusal_reply(alloc, machine.length(), &Refusal::KeeperFault) else {
        drop(change);
        drop(says);
        return Err(AllocError);
    };
    let after = stamps.after(machine.tables(), change.change());
    // What isn't said is dropped in one call each, since it has many parts.
    match machine.enter(alloc, keeper, trail, change) {
        Ok(true) => {
            drop(fault);
            *stamps = after;
            Ok(says)
        }
        Ok(false) => {
            drop(says);
            Ok(Outcome::Answer(fault))
        }
        Err(error) => {
            drop(says);
            drop(fault);
            Err(error)
        }
    }
}

impl<K: Keeper, T: Trail<Entry = Change>> Book<K, T> {
    /// A book over the keeper's rows with those of the configuration, which the keeper keeps from now on, and a trail that has no entry. A
    /// refusal hands the keeper back.
    pub fn open(
        alloc: Global,
        keeper: K,
        trail: T,
        config: &HubConfig,
        now: Moment,
    ) -> Result<Book<K, T>, (K, OpenError)>
        requires empty { T.told trail ≡ [] }
        requires limits { config.now.limits.trail_bytes ≤ 2 ^ 62 }
        requires scopes { MakeTable config.now.custom_scopes }
        ensures ok { IfOk result (HasOpened config.now now (K.Tells keeper) (K.rows keeper) (K.faults keeper)) }
        ensures err { IfErr result (λ e. IsRefused config.now now (K.Tells e.0) (K.rows keeper) (K.faults keeper) (K.faults e.0) e.1) }
        ensures counted { IfErr result (λ e. K.faults keeper ≤ K.faults e.0) }
        // a keeper that is handed back has the rows that it had
        ensures kept { IfErr result (λ e. K.Tells e.0 → K.Tells keeper × AreSame (K.rows e.0) (K.rows keeper)) }
    {
        let Ok(rights) = RightsCache::new(alloc, CAPACITY) else {
            return Err((keeper, OpenError::Memory));
        };
        let mut keeper = keeper;
        let mut trail = trail;
        match open_machine(alloc, &mut keeper, &mut trail, config, now) {
            Ok(machine) => {
                let start = Snapshot::of(&machine);
                let found = Snapshot::of(&keeper);
                Ok(Book {
                    keeper,
                    trail,
                    machine,
                    rights,
                    stamps: Stamps { stamp: 0, since: 0 },
                    start,
                    found,
                    alloc,
                })
            }
            Err(error) => {
                drop(rights);
                Err((keeper, error))
            }
        }
    }

    /// Answers an asked call, and notes the change of the answer. The draw is for the calls that draw.
    pub fn visit(
        &mut self,
        alloc: Global,
        now: Moment,
        draw: Option<[u8; 16]>,
        asked: &Asked,
    ) -> Result<Outcome, AllocError>
        ensures visited { Visited self.old now draw asked.now result self.new }
        ensures start { self.new.start ≡ self.old.start }
        ensures counted { self.old.faults ≤ self.new.faults }
        ensures reached { IsReached self.new }
        // the token whose rights decide is looked for once in the cache, which no answer depends on
        ensures looked { Looked self.old.rights self.old.stamp (decider self.old.hub now asked.now) result self.new.rights }
        // work that is given can be done
        ensures sound { IfOk result IsSoundOutcome }
        // the same in words of places: the answer is that of the state that the entries before it left
        ensures placed { VisitedAt self.old.start (entries_of self.old) (entries_of self.new) self.old.faults self.new.faults now draw
            asked.now result }
    {
        let answer = decide(
            alloc,
            &self.machine,
            &mut self.rights,
            self.stamps,
            now,
            draw,
            asked,
        )?;
        self.machine.are_leased();
        let _generation = self.machine.next_generation();
        carry(
            alloc,
            &mut self.machine,
            &mut self.keeper,
            &mut self.trail,
            &mut self.stamps,
            answer,
        )
    }

    /// That the history leads to the state. It does nothing.
    pub fn stands(&self)
        ensures { IsReached self.now }
    {
        let _ = &self.trail;
    }

    /// The length of the history.
    pub fn length(&self) -> u64
        ensures value { result ≡ self.now.hub.length }
        ensures entries { result ≡ length (entries_of self.now) }
        ensures room { result ≤ 2 ^ 62 }
    {
        let _ = &self.trail;
        self.machine.length()
    }

    /// How many visits found the rights of their token kept, or the greatest `u64`.
    pub fn hits(&self) -> u64
        ensures { result ≡ self.now.rights.hits }
    {
        let _ = &self.trail;
        self.rights.hits()
    }

    /// Whether the history is at least so long.
    pub fn seen_at_least(&self, n: u64) -> bool
        ensures { IsTrue result ↔ (n ≤ self.now.hub.length) }
    {
        n <= self.machine.length()
    }

    /// The keeper and the trail. Takes no memory.
    pub fn into_parts(self) -> (K, T)
        ensures told { T.told result.1 ≡ self.told }
        ensures reached { IsReached self }
        ensures faults { K.faults result.0 ≡ self.faults }
        // the rows kept are those of the state, which is what the history leaves
        ensures rows { K.Tells result.0 → Keeps (K.rows result.0) self.hub.tables }
        // what tells its rows at the end told them at the opening
        ensures had { K.Tells result.0 → IsTrue self.start.has_rows }
        // the entries that are still owed take no memory
        ensures spare { owed self.hub.lives ≤ T.spare result.1 }
    {
        let Book {
            keeper,
            trail,
            machine: _,
            rights: _,
            stamps: _,
            start: _,
            found: _,
            alloc: _,
        } = self;
        (keeper, trail)
    }
}
