//! One round over all services.
ghost use Rattle.std.specs.Prelude.{◌≡◌, ◌<◌, ◌≤◌, ◌+◌, ◌-◌, ◌^◌, length};
ghost use Rattle.services_run.specs.Rules.{tending, halting};
ghost use Rattle.services_run.specs.Rounds.{Rounded, put_turn, counted, loose_of, loose_count};
ghost use Rattle.services_run.specs.Book.{NoneUp};

use crate::paths::Paths;
use crate::place::{Outcome, Place, State, Tended, Turn};
use crate::running::Running;
use crate::visits::{halt_one, tend_one};
use hub_kit::moment::Moment;

/// What a round counted, and the last number.
pub struct Round {
    pub last: u64,
    pub tally: Tended,
}

impl Drop for Round {
    fn drop(self) {
        let Round { last: _, tally: _ } = self;
    }
}

fn put(place: &mut Place, turn: Turn)
    ensures { place.new ≡ put_turn place.old turn }
{
    place.state = turn.state;
    place.tries = turn.tries;
}

fn count(tally: Tended, outcome: Outcome) -> Tended
    requires { tally.started + tally.lost + tally.failed < 2 ^ 32 - 1 }
    ensures is { result ≡ counted tally outcome }
    ensures more { result.started + result.lost + result.failed ≤ tally.started + tally.lost + tally.failed + 1 }
{
    match outcome {
        Outcome::Quiet => tally,
        Outcome::Started => Tended {
            started: tally.started + 1,
            lost: tally.lost,
            failed: tally.failed,
        },
        Outcome::Lost => Tended {
            started: tally.started,
            lost: tally.lost + 1,
            failed: tally.failed,
        },
        Outcome::Failing => Tended {
            started: tally.started,
            lost: tally.lost,
            failed: tally.failed + 1,
        },
    }
}

/// Treats each service once, in order.
pub fn tend_all<R: Running, P: Paths>(
    places: &mut [Place],
    now: Moment,
    last: u64,
    running: &mut R,
    paths: &mut P,
) -> Round
    requires { length places.old < 2 ^ 32 }
    ensures rounded { Rounded (tending now) places.old last (R.calls running.old) (P.calls paths.old) (length places.old)
        places.new result.last result.tally (R.calls running.new) (P.calls paths.new) }
    ensures runs { R.faults running.old ≤ R.faults running.new }
    ensures paths { P.faults paths.old ≤ P.faults paths.new }
{
    let mut number = last;
    let mut tally = Tended {
        started: 0,
        lost: 0,
        failed: 0,
    };
    let mut at = 0;
    'visits: while at < places.len() {
        let turn = tend_one(&places[at], now, number, running, paths);
        put(&mut places[at], turn);
        number = turn.last;
        tally = count(tally, turn.outcome);
        at += 1;
    }
    Round {
        last: number,
        tally,
    }
}

/// Stops each service that may run.
pub fn halt_all<R: Running, P: Paths>(
    places: &mut [Place],
    last: u64,
    running: &mut R,
    paths: &mut P,
) -> Round
    requires { length places.old < 2 ^ 32 }
    ensures none_up { NoneUp places.new (length places.new) }
    ensures rounded { Rounded halting places.old last (R.calls running.old) (P.calls paths.old) (length places.old)
        places.new result.last result.tally (R.calls running.new) (P.calls paths.new) }
    ensures runs { R.faults running.old ≤ R.faults running.new }
    ensures paths { P.faults paths.old ≤ P.faults paths.new }
{
    let mut number = last;
    let mut tally = Tended {
        started: 0,
        lost: 0,
        failed: 0,
    };
    let mut at = 0;
    'visits: while at < places.len() {
        let turn = halt_one(&places[at], number, running, paths);
        put(&mut places[at], turn);
        number = turn.last;
        tally = count(tally, turn.outcome);
        at += 1;
    }
    Round {
        last: number,
        tally,
    }
}

fn is_loose(state: State) -> u32
    ensures is { result ≡ loose_of state }
    ensures few { result ≤ 1 }
{
    match state {
        State::Loose(_) => 1,
        State::Down | State::Up(_) | State::GivenUp => 0,
    }
}

/// How many services are loose.
pub fn count_loose(places: &[Place]) -> u32
    requires { length places.now < 2 ^ 32 }
    ensures { result ≡ loose_count places.now }
{
    let mut count = 0u32;
    'places: for place in places {
        count += is_loose(place.state);
    }
    count
}
