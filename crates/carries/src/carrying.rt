//! One request that is carried.
ghost use Rattle.std.specs.Prelude.{◌≡◌, ◌≢◌, ◌≤◌, ◌++◌, ℕ, List, []};
ghost use Rattle.carries.specs.Carries.{CarriesOn, CarryEnds, going};
ghost use Rattle.proxy_core.specs.Telling.{place_of};
ghost use Rattle.carries.specs.Telling.{sides_of};

use crate::carried::{Carried, one_of};
use crate::carrier::Carrier;
use crate::upgraded::carry_upgrade;
use http_wire::error::SessionFault;
use http_wire::head::Head;
use http_wire::heads::read_head;
use hub_devices::source::Source;
use hub_kit::moment::Moment;
use hub_kit::target::Target;
use piece_window::rooms::Rooms;
use proxy_core::forward::{choose, stopped};
use proxy_core::passes::pass_on;
use proxy_core::refusals::refuse;
use proxy_wire::framing::Framing;
use proxy_wire::upgrades::is_upgrade;
use route_table::lookup::Lookup;
use std::alloc::Global;
use std::thread::Threads;
use tunnel::shuts::Shuts;
use upstreams::tunnelled::Tunnelled;

/// Carries a request whose head was read to a target, over one connection to it, which is asked for once: as a tunnel, where it is an
/// upgrade and the upstream's reply switches over, and else as `pass_on` does. Where no tunnel opens, what was taken of the client behind
/// the request is lost (`rest`), since a connection takes one request.
pub fn carry_head<R: Threads, I: Source + Send, O: Shuts, U: Tunnelled<Writes: Send>>(
    rt: &R,
    alloc: Global,
    head: &Head,
    framing: Framing,
    target: &Target,
    input: &mut I,
    rooms: &mut Rooms,
    output: &mut O,
    up: &mut U,
) -> Result<Carried<U::Reads, U::Writes>, SessionFault>
    requires minor { head.now.minor ≤ 1 }
    requires sized { framing ≢ Framing.ToEnd }
    ensures ends { let place = place_of I.Source O.Sink U.Upstream in
        let sides = sides_of U.Reads.Source U.Writes.Sink (O.closed output.new) in
        CarriesOn sides (going head.now framing) target.now (place input.old rooms.old.kept output.old up.old)
        (place input.new rooms.new.kept output.new up.new) result }
    ensures reads { I.faults input.old ≤ I.faults input.new }
    ensures links { U.faults up.old ≤ U.faults up.new }
    ensures writes { O.faults output.old ≤ O.faults output.new }
{
    if is_upgrade(head, framing) {
        return carry_upgrade(rt, alloc, head, target, input, rooms, output, up);
    }
    one_of(pass_on(alloc, head, framing, target, input, rooms, output, up))
}

/// The same as `carry_one`, in rooms that keep nothing.
fn carry_kept<L: Lookup, I: Source, O: Shuts, U: Carrier<I, O>>(
    alloc: Global,
    routes: &mut L,
    now: Moment,
    input: &mut I,
    rooms: &mut Rooms,
    output: &mut O,
    up: &mut U,
) -> Result<Carried<U::Reads, U::Writes>, SessionFault>
    requires { rooms.old.kept ≡ [] }
    ensures ends { let place = place_of I.Source O.Sink U.Upstream in
        let sides = sides_of U.Reads.Source U.Writes.Sink (O.closed output.new) in
        (kept : List ℕ) × CarryEnds L.found sides now (place input.old [] output.old up.old)
        (place input.new kept output.new up.new) routes.old routes.new result }
    ensures reads { I.faults input.old ≤ I.faults input.new }
    ensures links { U.faults up.old ≤ U.faults up.new }
    ensures writes { O.faults output.old ≤ O.faults output.new }
{
    let head = match read_head(alloc, input, &mut rooms.kept) {
        Ok(head) => head,
        Err(e) => return one_of(stopped(output, e)),
    };
    let choice = match choose(alloc, &head, routes, now) {
        Ok(choice) => choice,
        Err(refusal) => return one_of(refuse(output, refusal)),
    };
    up.carry(
        alloc,
        &head,
        choice.framing,
        &choice.target,
        input,
        rooms,
        output,
    )
}

/// Reads one request and carries it to the target of its path's route: as a tunnel, where it is an upgrade and the upstream's reply
/// switches over, and else as `forward_one` does. A tunnel ends when both directions have. What the rooms held before is dropped.
pub fn carry_one<L: Lookup, I: Source, O: Shuts, U: Carrier<I, O>>(
    alloc: Global,
    routes: &mut L,
    now: Moment,
    input: &mut I,
    rooms: &mut Rooms,
    output: &mut O,
    up: &mut U,
) -> Result<Carried<U::Reads, U::Writes>, SessionFault>
    ensures ends { let place = place_of I.Source O.Sink U.Upstream in
        let sides = sides_of U.Reads.Source U.Writes.Sink (O.closed output.new) in
        (kept : List ℕ) × CarryEnds L.found sides now (place input.old [] output.old up.old)
        (place input.new kept output.new up.new) routes.old routes.new result }
    ensures reads { I.faults input.old ≤ I.faults input.new }
    ensures links { U.faults up.old ≤ U.faults up.new }
    ensures writes { O.faults output.old ≤ O.faults output.new }
{
    rooms.clear();
    carry_kept(alloc, routes, now, input, rooms, output, up)
}
