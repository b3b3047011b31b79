//! Rounds, one after the other.
ghost use Rattle.std.specs.Prelude.{◌≡◌, ◌≤◌, IfErr, OnOk, Err};
ghost use Rattle.hub_devices.specs.Faults.{Rises};
ghost use Rattle.idle_culler.specs.declared.rounds.Round.{Round};
ghost use Rattle.hub_culling.specs.Scenes.{scene};
ghost use Rattle.hub_culling.specs.Turns as spec;

use crate::cause::{Cause, End};
use crate::lines::write_line;
use crate::pause::Pause;
use crate::world::{Outside, World};
use hub_devices::clock::Clock;
use hub_kit::text::Text;
use idle_culler::rounds::cull_round;
use idle_culler::rules::CullOptions;
use std::alloc::Global;

/// One round at the next moment, and its line.
fn make_round<W: World>(
    alloc: Global,
    token: &Text,
    options: &CullOptions,
    outside: &mut Outside<W>,
) -> Result<(), Cause>
    ensures ok { OnOk result ((round : Round) × spec.Turn W.Asks.asked W.Asks.does token.now options.now
        (scene W.Time.to_come W.Out.held W.Rests.waits outside.old.link outside.old.clock outside.old.output outside.old.rest) round
        (scene W.Time.to_come W.Out.held W.Rests.waits outside.new.link outside.new.clock outside.new.output outside.new.rest)) }
    ensures err { IfErr result (λ cause. spec.TurnFails W.Asks.asked W.Asks.does token.now options.now
        (scene W.Time.to_come W.Out.held W.Rests.waits outside.old.link outside.old.clock outside.old.output outside.old.rest) cause
        (scene W.Time.to_come W.Out.held W.Rests.waits outside.new.link outside.new.clock outside.new.output outside.new.rest)) }
    ensures files { outside.new.files ≡ outside.old.files }
    ensures asks { W.Asks.faults outside.old.link ≤ W.Asks.faults outside.new.link }
    ensures writes { W.Out.faults outside.old.output ≤ W.Out.faults outside.new.output }
    ensures link { result ≡ Err Cause.Link → Rises (W.Asks.faults outside.old.link) (W.Asks.faults outside.new.link) }
    ensures output { result ≡ Err Cause.Output → Rises (W.Out.faults outside.old.output) (W.Out.faults outside.new.output) }
{
    let now = outside.clock.now();
    match cull_round(alloc, &mut outside.link, token, options, now) {
        Ok(round) => write_line(alloc, &mut outside.output, round),
        Err(fault) => Err(Cause::of_fault(fault)),
    }
}

/// So many rounds, each with its line, and a wait of so many seconds between two.
pub(crate) fn make_rounds<W: World>(
    alloc: Global,
    token: &Text,
    options: &CullOptions,
    seconds: u64,
    count: u64,
    outside: &mut Outside<W>,
) -> End
    ensures ends { spec.RoundsEnd W.Asks.asked W.Asks.does token.now options.now seconds count
        (scene W.Time.to_come W.Out.held W.Rests.waits outside.old.link outside.old.clock outside.old.output outside.old.rest) result
        (scene W.Time.to_come W.Out.held W.Rests.waits outside.new.link outside.new.clock outside.new.output outside.new.rest) }
    ensures files { outside.new.files ≡ outside.old.files }
    ensures asks { W.Asks.faults outside.old.link ≤ W.Asks.faults outside.new.link }
    ensures writes { W.Out.faults outside.old.output ≤ W.Out.faults outside.new.output }
    ensures link { result ≡ Err Cause.Link → Rises (W.Asks.faults outside.old.link) (W.Asks.faults outside.new.link) }
    ensures output { result ≡ Err Cause.Output → Rises (W.Out.faults outside.old.output) (W.Out.faults outside.new.output) }
{
    if count == 0 {
        return Ok(());
    }
    let mut made = 0;
    'rounds: while made < count - 1 {
        match make_round(alloc, token, options, outside) {
            Ok(()) => outside.rest.wait(seconds),
            Err(cause) => return Err(cause),
        }
        made += 1;
    }
    make_round(alloc, token, options, outside)
}
