//! The visit of an asked call.
ghost use Rattle.std.specs.Prelude.{◌≡◌, true, Some, is_some, IfOk, IfErr};
ghost use Rattle.hub_core.specs.Works.{IsSoundOutcome};
ghost use Rattle.hub_core.specs.declared.start.Start.{Start};
ghost use Rattle.hub_devices.specs.Faults.{Rises};
ghost use Rattle.hub_machine.specs.Draws.{draws};
ghost use Rattle.hub_run.specs.Steps.{Asks};
ghost use Rattle.hub_run.specs.Turns.{Drew, view_of};

use desk::{Desk, Pass};
use hub_api::draws;
use hub_core::ask::Ask;
use hub_core::book::Book;
use hub_core::kit::HubKit;
use hub_devices::clock::Clock;
use hub_devices::random::Random;
use hub_devices::route_link::RouteLink;
use hub_devices::source::Failed;
use hub_devices::spawner::Spawner;
use hub_machine::call::{Asked, Call};
use hub_machine::change::Change;
use hub_machine::reply::Outcome;
use keeper::keeper::Keeper;
use keeper::trail::Trail;
use std::alloc::Global;
use std::sync::Wait;

/// Why a call has no answer.
#[derive(Clone, Copy)]
pub(crate) enum Unanswered {
    /// It draws, and no draw came.
    NoDraw,
    Memory,
}

/// The draw of a call that draws.
fn draw_for<R: Random>(random: &mut R, call: &Call) -> Result<Option<[u8; 16]>, Failed>
    ensures drawn { IfOk result (λ draw. (is_some draw ≡ draws call.now) × Drew draw (R.left random.old) (R.faults random.old)
        (R.left random.new) (R.faults random.new)) }
    ensures failed { IfErr result (λ e. (draws call.now ≡ true) × (R.left random.new ≡ R.left random.old)
        × Rises (R.faults random.old) (R.faults random.new)) }
{
    if draws(call) {
        Ok(Some(random.draw()?))
    } else {
        Ok(None)
    }
}

/// Draws for a call that draws, reads the clock, and visits the book with the call. Where no draw comes nothing is visited, and the clock
/// isn't read.
pub(crate) fn ask<
    K: Keeper,
    T: Trail<Entry = Change>,
    S: Spawner,
    P: RouteLink,
    C: Clock,
    R: Random,
    W: Wait,
>(
    rt: &W,
    alloc: Global,
    desk: &Desk<Book<K, T>>,
    pass: &mut Pass<Book<K, T>>,
    kit: &mut HubKit<S, P, C, R>,
    asked: Asked,
) -> Result<Outcome, Unanswered>
    requires { pass.old.of ≡ desk.now }
    ensures of { pass.new.of ≡ pass.old.of }
    ensures base { pass.new.base ≡ pass.old.base }
    ensures alone { pass.new.alone ≡ pass.old.alone }
    ensures asks { (start : Start) → pass.old.base ≡ Some start
        → Asks start (view_of C.to_come R.left S.calls P.calls R.faults S.faults P.faults pass.old kit.old)
        (view_of C.to_come R.left S.calls P.calls R.faults S.faults P.faults pass.new kit.new) asked result }
    // work that is given can be done
    ensures sound { IfOk result IsSoundOutcome }
{
    let draw = match draw_for(&mut kit.random, &asked.call) {
        Ok(draw) => draw,
        Err(_) => {
            drop(asked);
            return Err(Unanswered::NoDraw);
        }
    };
    let now = kit.clock.now();
    let mut ask = Ask::new(alloc, now, draw, asked);
    let outcome = desk.visit(rt, pass, &mut ask);
    // in one call, since it has many parts
    drop(ask);
    match outcome {
        Ok(outcome) => Ok(outcome),
        Err(_) => Err(Unanswered::Memory),
    }
}
