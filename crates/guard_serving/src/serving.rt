//! A guard over its listener.
ghost use Rattle.std.specs.Prelude.{◌<◌, ◌≡◌, ◌≤◌, length, reverse};
ghost use Rattle.worker_hall.specs.Shifts.{AreServed};
ghost use Rattle.guard_serving.specs.Ends.{IsOver};
ghost use Rattle.guard_serving.specs.Hall.{hall};

use crate::ends::{GuardEnd, GuardFault, unserved};
use crate::guards::Guards;
use crate::hiring::{hire_at_door, hire_by_token};
use crate::kit::GuardKit;
use carries::Carrier;
use guard_login::door::Door;
use http_wire::writes::write_all;
use hub_devices::listener::Listener;
use hub_devices::random::Random;
use hub_devices::sink::Sink;
use hub_kit::names::ServerKey;
use hub_kit::target::Target;
use hub_link::link::HubLink;
use std::alloc::Global;
use std::sync::Wait;
use std::thread::Threads;
use tunnel::shuts::Shuts;
use worker_hall::{Serves, dismiss, serve};

const READY: &[u8] = b"ready\n";

/// Says that it is ready, and has the listener's connections served until it fails.
fn serve_all<
    L: Listener<In: Send, Out: Send> + Send,
    G: Serves<L::In, L::Out> + Send,
    O: Sink,
    W: Threads + Wait + Sync,
>(rt: &W, alloc: Global, guards: &mut Vec<G>, doors: &mut L, output: &mut O) -> GuardEnd
    requires guards { 0 < length guards.old.items }
    ensures served { AreServed L.are_sides G.served guards.old.items result.served guards.new.items }
    ensures as_many { length guards.new.items ≡ length guards.old.items }
    ensures over { IsOver (hall L.given L.faults O.held O.faults doors.old output.old) result
        (hall L.given L.faults O.held O.faults doors.new output.new) }
    ensures writes { O.faults output.old ≤ O.faults output.new }
{
    if write_all(output, READY).is_err() {
        return unserved(GuardFault::Output);
    }
    let (tally, served) = serve(rt, alloc, doors, guards, u64::MAX);
    GuardEnd {
        served: tally.count(),
        fault: GuardFault::of_hall(served),
    }
}

/// Serves by the tokens of requests alone.
pub(crate) fn serve_by_token<
    L: Listener<In: Send, Out: Shuts + Send> + Send,
    H: HubLink + Send + Drop,
    R: Random + Send + Drop,
    U: Carrier<L::In, L::Out, Reads: Send, Writes: Send> + Send + Drop,
    O: Sink,
    W: Threads + Wait + Sync,
>(
    rt: &W,
    alloc: Global,
    key: &ServerKey,
    target: &Target,
    doors: &mut L,
    kits: &mut Vec<GuardKit<H, R, U>>,
    output: &mut O,
) -> GuardEnd
    requires kits { 0 < length kits.old.items }
    ensures served { AreServed L.are_sides (⟦<GuardKit<H, R, U> as Guards<L::In, L::Out>>⟧.guarded (key.now, target.now))
        (reverse kits.old.items) result.served (reverse kits.new.items) }
    ensures over { IsOver (hall L.given L.faults O.held O.faults doors.old output.old) result
        (hall L.given L.faults O.held O.faults doors.new output.new) }
    ensures writes { O.faults output.old ≤ O.faults output.new }
{
    let mut guards = match hire_by_token(alloc, key, target, kits) {
        Ok(guards) => guards,
        Err(_) => return unserved(GuardFault::Memory),
    };
    let end = serve_all(rt, alloc, &mut guards, doors, output);
    dismiss(guards, kits);
    end
}

/// Serves, and lets browsers sign in.
pub(crate) fn serve_at_door<
    L: Listener<In: Send, Out: Shuts + Send> + Send,
    H: HubLink + Send + Drop,
    R: Random + Send + Drop,
    U: Carrier<L::In, L::Out, Reads: Send, Writes: Send> + Send + Drop,
    O: Sink,
    W: Threads + Wait + Sync,
>(
    rt: &W,
    alloc: Global,
    door: &Door,
    doors: &mut L,
    kits: &mut Vec<GuardKit<H, R, U>>,
    output: &mut O,
) -> GuardEnd
    requires kits { 0 < length kits.old.items }
    ensures served { AreServed L.are_sides (⟦<GuardKit<H, R, U> as Guards<L::In, L::Out>>⟧.signed_in door.now)
        (reverse kits.old.items) result.served (reverse kits.new.items) }
    ensures over { IsOver (hall L.given L.faults O.held O.faults doors.old output.old) result
        (hall L.given L.faults O.held O.faults doors.new output.new) }
    ensures writes { O.faults output.old ≤ O.faults output.new }
{
    let mut guards = match hire_at_door(alloc, door, kits) {
        Ok(guards) => guards,
        Err(_) => return unserved(GuardFault::Memory),
    };
    let end = serve_all(rt, alloc, &mut guards, doors, output);
    dismiss(guards, kits);
    end
}
