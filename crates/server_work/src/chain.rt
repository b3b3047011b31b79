//! One chain: a call on a device, a visit with its outcome, and so on until nothing is owed.
ghost use Rattle.std.specs.Prelude.{◌≡◌, ◌≢◌, ◌≤◌, ◌<◌, ◌^◌, IsTrue, ◌↔◌, Some, IfSome, IsSome, true, false};
ghost use Rattle.server_life.specs.declared.life.Todo.TheVariants.{Nothing, Start};
ghost use Rattle.hub_devices.specs.Calls.{Grows};
ghost use Rattle.hub_devices.specs.Faults.{Rises};
ghost use Rattle.hub_devices.specs.Running.{Sets};
ghost use Rattle.server_work.specs.declared.work.Device.TheVariants as Device;
ghost use Rattle.server_work.specs.Outcomes.{todo_of, device_of, spawner_did, routes_did, is_end};
ghost use Rattle.server_work.specs.Runs.{KeepsOthers};
ghost use Rattle.server_work.specs.LifeVisits.{LifeVisited};
ghost use Rattle.server_work.specs.Chains.{Chain, ChainEnds};
ghost use Rattle.server_work.specs.Taken.{Took};

use crate::book::{LifeBook, Lived};
use crate::tale::Tale;
use crate::work::Work;
use desk::{Desk, Job, Pass};
use hub_devices::route_link::RouteLink;
use hub_devices::spawner::Spawner;
use server_life::{LifeEvent, LifeRefusal, Todo};
use std::sync::Wait;

/// Takes an outcome to the book.
pub struct LifeJob {
    generation: u64,
    outcome: LifeEvent,
    acted: bool,
}

impl Drop for LifeJob {
    fn drop(self) {
        let LifeJob {
            generation: _,
            outcome: _,
            acted: _,
        } = self;
    }
}

impl<B: LifeBook> Job<B> for LifeJob {
    type Answer = Result<Lived, LifeRefusal>;

    ghost acted = { λ j. j.acted };

    ghost does = { λ j b r j' b'. B.reached (Some (B.base b)) (B.entries b) (B.lives b)
        × B.reached (Some (B.base b')) (B.entries b') (B.lives b')
        × (todo_of j.outcome ≢ Nothing → LifeVisited B.notes (B.entries b) (B.entries b') (B.lives b) (B.lives b') (B.faults b)
        (B.faults b') j.generation j.outcome r) };

    fn act(&mut self, book: &mut B) -> Result<Lived, LifeRefusal> {
        self.acted = true;
        book.life(self.generation, self.outcome)
    }
}

/// One visit with an outcome.
fn take_outcome<B: LifeBook, R: Wait>(
    rt: &R,
    desk: &Desk<B>,
    pass: &mut Pass<B>,
    generation: u64,
    outcome: LifeEvent,
) -> Result<Lived, LifeRefusal>
    requires of { pass.old.of ≡ desk.now }
    requires outcome { todo_of outcome ≢ Nothing }
    ensures took { Took B.reached B.notes pass.old pass.new generation outcome result }
{
    let mut job = LifeJob {
        generation,
        outcome,
        acted: false,
    };
    desk.visit(rt, pass, &mut job)
}

/// Makes the one call that is owed, and tells its outcome.
#[tactic(auto, using(crate::proofs::Running::keeps_same, crate::proofs::Running::sets_keeps))]
fn ask<S: Spawner, P: RouteLink>(
    spawner: &mut S,
    routes: &mut P,
    work: &Work,
    owed: Todo,
) -> LifeEvent
    requires small { work.now.generation < 2 ^ 63 }
    requires owed { owed ≢ Nothing }
    requires secret { owed ≡ Start → IsSome work.now.secret }
    ensures of { todo_of result ≡ owed }
    ensures spawner { Grows (S.calls spawner.old) (spawner_did work.now result) (S.calls spawner.new) }
    ensures routes { Grows (P.calls routes.old) (routes_did work.now result) (P.calls routes.new) }
    ensures spawner_counted { S.faults spawner.old ≤ S.faults spawner.new }
    ensures routes_counted { P.faults routes.old ≤ P.faults routes.new }
    ensures others { KeepsOthers (S.may_run spawner.old) work.now.generation (S.may_run spawner.new) }
    ensures gone { is_end result ≡ true → Sets (S.may_run spawner.old) work.now.generation false (S.may_run spawner.new) }
    ensures spawner_cause { device_of result ≡ Some Device.Spawner → Rises (S.faults spawner.old) (S.faults spawner.new) }
    ensures routes_cause { device_of result ≡ Some Device.Proxy → Rises (P.faults routes.old) (P.faults routes.new) }
{
    let g = work.generation;
    match owed {
        Todo::Start => match &work.secret {
            Some(secret) => match spawner.start(g, &work.server, &work.target, secret) {
                Ok(()) => LifeEvent::Spawned,
                Err(_) => LifeEvent::SpawnFailed,
            },
            None => unreachable!(),
        },
        Todo::StopProgram => match spawner.stop(g, &work.target) {
            Ok(()) => LifeEvent::Ended,
            Err(_) => LifeEvent::StopFailed,
        },
        Todo::Poll => match spawner.poll(g, &work.target) {
            Ok(true) => LifeEvent::Alive,
            Ok(false) => LifeEvent::Dead,
            Err(_) => LifeEvent::PollFailed,
        },
        Todo::AddRoute => match routes.add(&work.path, &work.target, Some(2 * g)) {
            Ok(()) => LifeEvent::Routed,
            Err(_) => LifeEvent::RouteFailed,
        },
        Todo::DeleteRoute => match routes.delete(&work.path, 2 * g + 1) {
            Ok(()) => LifeEvent::Unrouted,
            Err(_) => LifeEvent::UnrouteFailed,
        },
        Todo::Nothing => unreachable!(),
    }
}

fn is_nothing(todo: Todo) -> bool
    ensures { IsTrue result ↔ (todo ≡ Nothing) }
{
    matches!(todo, Todo::Nothing)
}

/// Drives a chain from the call that is owed first to its end. None is a chain that is broken: the life at that place doesn't
/// take the outcome of the last call.
pub fn drive<B: LifeBook, S: Spawner, P: RouteLink, R: Wait>(
    rt: &R,
    desk: &Desk<B>,
    pass: &mut Pass<B>,
    spawner: &mut S,
    routes: &mut P,
    work: &Work,
    first: Todo,
) -> Option<Tale>
    requires of { pass.old.of ≡ desk.now }
    requires small { work.now.generation < 2 ^ 63 }
    requires owed { first ≢ Nothing }
    requires secret { first ≡ Start → IsSome work.now.secret }
    ensures of { pass.new.of ≡ pass.old.of }
    ensures ends { (chain : Chain B.Entry) × ChainEnds B.reached B.notes work.now
        (record { pass = pass.old; spawner = S.calls spawner.old; routes = P.calls routes.old }) first chain result
        (record { pass = pass.new; spawner = S.calls spawner.new; routes = P.calls routes.new }) }
    ensures spawner_counted { S.faults spawner.old ≤ S.faults spawner.new }
    ensures routes_counted { P.faults routes.old ≤ P.faults routes.new }
    ensures others { KeepsOthers (S.may_run spawner.old) work.now.generation (S.may_run spawner.new) }
    ensures gone { IfSome result (λ tale. tale.stopped ≡ true
        → Sets (S.may_run spawner.old) work.now.generation false (S.may_run spawner.new)) }
    ensures spawner_cause { IfSome result (λ tale. tale.failed ≡ Some Device.Spawner
        → Rises (S.faults spawner.old) (S.faults spawner.new)) }
    ensures routes_cause { IfSome result (λ tale. tale.failed ≡ Some Device.Proxy → Rises (P.faults routes.old) (P.faults routes.new)) }
{
    let mut owed = first;
    let mut tale = Tale::new();
    'steps: loop {
        let outcome = ask(spawner, routes, work, owed);
        match take_outcome(rt, desk, pass, work.generation, outcome) {
            Ok(lived) => {
                tale = tale.with(outcome, lived);
                if is_nothing(lived.todo) {
                    return Some(tale);
                }
                owed = lived.todo;
            }
            Err(_) => return None,
        }
    }
}
