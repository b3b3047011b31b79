//! One visit to a service.
ghost use Rattle.std.specs.Prelude.{◌<◌, ◌≤◌};
ghost use Rattle.services_run.specs.Rules.{Visited, Freed, Unrouted, Begun, Looked, FreedQuietly, tending, halting};

use crate::paths::Paths;
use crate::place::{Outcome, Place, State, Turn};
use crate::running::Running;
use hub_kit::moment::Moment;

/// Deletes the path and, if that is done, stops the program.
fn free<R: Running, P: Paths>(place: &Place, g: u64, running: &mut R, paths: &mut P) -> State
    ensures freed { Freed g place.now result (R.calls running.old) (R.calls running.new) (P.calls paths.old) (P.calls paths.new) }
    ensures runs { R.faults running.old ≤ R.faults running.new }
    ensures paths { P.faults paths.old ≤ P.faults paths.new }
{
    match paths.delete(&place.path, g) {
        Ok(()) => match running.stop(g, &place.managed.target) {
            Ok(()) => State::Down,
            Err(_) => State::Loose(g),
        },
        Err(_) => State::Loose(g),
    }
}

/// Starts the program and routes its path.
fn begin<R: Running, P: Paths>(place: &Place, g: u64, running: &mut R, paths: &mut P) -> Turn
    requires { place.now.tries < 5 }
    ensures begun { Begun g place.now result (R.calls running.old) (R.calls running.new) (P.calls paths.old) (P.calls paths.new) }
    ensures runs { R.faults running.old ≤ R.faults running.new }
    ensures paths { P.faults paths.old ≤ P.faults paths.new }
{
    let tries = place.tries;
    let managed = &place.managed;
    match running.start(g, &managed.name, &managed.target, &managed.secret) {
        Ok(()) => match paths.add(&place.path, &managed.target) {
            Ok(()) => Turn {
                state: State::Up(g),
                tries,
                last: g,
                outcome: Outcome::Started,
            },
            Err(_) => {
                let state = free(place, g, running, paths);
                Turn {
                    state,
                    tries: tries + 1,
                    last: g,
                    outcome: Outcome::Failing,
                }
            }
        },
        Err(_) => Turn {
            state: State::Down,
            tries: tries + 1,
            last: g,
            outcome: Outcome::Failing,
        },
    }
}

/// Deletes the path of a program that has ended.
fn unroute<P: Paths>(place: &Place, g: u64, paths: &mut P) -> State
    ensures unrouted { Unrouted g place.now result (P.calls paths.old) (P.calls paths.new) }
    ensures paths { P.faults paths.old ≤ P.faults paths.new }
{
    match paths.delete(&place.path, g) {
        Ok(()) => State::Down,
        Err(_) => State::Loose(g),
    }
}

/// Asks whether the program still runs.
fn look<R: Running, P: Paths>(
    place: &Place,
    g: u64,
    last: u64,
    running: &mut R,
    paths: &mut P,
) -> Turn
    ensures looked { Looked g last place.now result (R.calls running.old) (R.calls running.new) (P.calls paths.old) (P.calls paths.new) }
    ensures runs { R.faults running.old ≤ R.faults running.new }
    ensures paths { P.faults paths.old ≤ P.faults paths.new }
{
    match running.poll(g, &place.managed.target) {
        Ok(true) => Turn {
            state: State::Up(g),
            tries: 0,
            last,
            outcome: Outcome::Quiet,
        },
        Ok(false) => {
            let state = unroute(place, g, paths);
            Turn {
                state,
                tries: place.tries.saturating_add(1),
                last,
                outcome: Outcome::Lost,
            }
        }
        Err(_) => Turn {
            state: State::Up(g),
            tries: place.tries,
            last,
            outcome: Outcome::Quiet,
        },
    }
}

/// Treats a service by its state.
pub fn tend_one<R: Running, P: Paths>(
    place: &Place,
    now: Moment,
    last: u64,
    running: &mut R,
    paths: &mut P,
) -> Turn
    ensures visited { Visited (tending now) last place.now result
        (R.calls running.old) (R.calls running.new) (P.calls paths.old) (P.calls paths.new) }
    ensures runs { R.faults running.old ≤ R.faults running.new }
    ensures paths { P.faults paths.old ≤ P.faults paths.new }
{
    match place.state {
        State::Down => {
            if place.tries < 5 {
                return begin(
                    place,
                    now.seconds().max(last.saturating_add(1)),
                    running,
                    paths,
                );
            }
            Turn {
                state: State::GivenUp,
                tries: place.tries,
                last,
                outcome: Outcome::Quiet,
            }
        }
        State::Up(g) => look(place, g, last, running, paths),
        State::Loose(g) => free_quietly(place, g, last, running, paths),
        State::GivenUp => Turn {
            state: State::GivenUp,
            tries: place.tries,
            last,
            outcome: Outcome::Quiet,
        },
    }
}

/// Frees a service, and counts nothing.
fn free_quietly<R: Running, P: Paths>(
    place: &Place,
    g: u64,
    last: u64,
    running: &mut R,
    paths: &mut P,
) -> Turn
    ensures freed { FreedQuietly g last place.now result
        (R.calls running.old) (R.calls running.new) (P.calls paths.old) (P.calls paths.new) }
    ensures runs { R.faults running.old ≤ R.faults running.new }
    ensures paths { P.faults paths.old ≤ P.faults paths.new }
{
    let state = free(place, g, running, paths);
    Turn {
        state,
        tries: place.tries,
        last,
        outcome: Outcome::Quiet,
    }
}

/// Stops a service that may run.
pub fn halt_one<R: Running, P: Paths>(
    place: &Place,
    last: u64,
    running: &mut R,
    paths: &mut P,
) -> Turn
    ensures visited { Visited halting last place.now result
        (R.calls running.old) (R.calls running.new) (P.calls paths.old) (P.calls paths.new) }
    ensures runs { R.faults running.old ≤ R.faults running.new }
    ensures paths { P.faults paths.old ≤ P.faults paths.new }
{
    match place.state {
        State::Up(g) => free_quietly(place, g, last, running, paths),
        State::Loose(g) => free_quietly(place, g, last, running, paths),
        State::Down => Turn {
            state: State::Down,
            tries: place.tries,
            last,
            outcome: Outcome::Quiet,
        },
        State::GivenUp => Turn {
            state: State::GivenUp,
            tries: place.tries,
            last,
            outcome: Outcome::Quiet,
        },
    }
}
