//! One request at a guard that may become a tunnel.
ghost use Rattle.std.specs.Prelude.{◌≡◌, ◌≢◌, ◌≤◌, ◌++◌, ℕ, List, []};
ghost use Rattle.hub_link.specs.Links.{Exchange, Asks};
ghost use Rattle.proxy_core.specs.Telling.{place_of};
ghost use Rattle.carries.specs.Carries.{going};
ghost use Rattle.carries.specs.Telling.{sides_of};
ghost use Rattle.guard.specs.Carrying.{CarryFollows, GuardCarries};

use crate::denials::deny;
use crate::guards::{Verdict, judge};
use carries::{Carried, Carrier, one_of};
use http_wire::error::SessionFault;
use http_wire::head::Head;
use http_wire::heads::read_head;
use hub_devices::source::Source;
use hub_kit::names::ServerKey;
use hub_kit::target::Target;
use hub_link::link::HubLink;
use piece_window::rooms::Rooms;
use proxy_core::forward::stopped;
use proxy_core::refusals::{Refusal, refuse, wire_refusal};
use proxy_wire::framing::{Framing, request_framing};
use std::alloc::Global;
use tunnel::shuts::Shuts;

/// Carries a request, or refuses it with nothing sent. Of what was read, `rest` and then what is kept is behind the request.
pub fn carry_follow<I: Source, O: Shuts, U: Carrier<I, O>>(
    alloc: Global,
    verdict: Verdict,
    head: &Head,
    framing: Framing,
    target: &Target,
    input: &mut I,
    rooms: &mut Rooms,
    output: &mut O,
    up: &mut U,
) -> Result<Carried<U::Reads, U::Writes>, SessionFault>
    requires minor { head.now.minor ≤ 1 }
    requires sized { framing ≢ Framing.ToEnd }
    ensures ends { let place = place_of I.Source O.Sink U.Upstream in
        let sides = sides_of U.Reads.Source U.Writes.Sink (O.closed output.new) in
        (rest : List ℕ) × CarryFollows verdict sides (going head.now framing) target.now
        (place input.old rooms.old.kept output.old up.old) (place input.new (rest ++ rooms.new.kept) output.new up.new) result }
    ensures reads { I.faults input.old ≤ I.faults input.new }
    ensures links { U.faults up.old ≤ U.faults up.new }
    ensures writes { O.faults output.old ≤ O.faults output.new }
{
    match verdict {
        Verdict::Pass => up.carry(alloc, head, framing, target, input, rooms, output),
        Verdict::Deny(denial) => one_of(deny(output, denial)),
        Verdict::Memory => one_of(refuse(output, Refusal::Memory)),
    }
}

/// The same as `guard_carry_one`, in rooms that keep nothing.
fn guard_carry_kept<H: HubLink, I: Source, O: Shuts, U: Carrier<I, O>>(
    alloc: Global,
    key: &ServerKey,
    target: &Target,
    link: &mut H,
    input: &mut I,
    rooms: &mut Rooms,
    output: &mut O,
    up: &mut U,
) -> Result<Carried<U::Reads, U::Writes>, SessionFault>
    requires { rooms.old.kept ≡ [] }
    ensures ends { let place = place_of I.Source O.Sink U.Upstream in
        let sides = sides_of U.Reads.Source U.Writes.Sink (O.closed output.new) in
        (asks : List Exchange) × (kept : List ℕ) × Asks H.asked H.does link.old asks link.new × GuardCarries key.now target.now sides
        asks (H.faults link.old) (H.faults link.new) (place input.old [] output.old up.old) (place input.new kept output.new up.new)
        result }
    ensures asks { H.faults link.old ≤ H.faults link.new }
    ensures reads { I.faults input.old ≤ I.faults input.new }
    ensures links { U.faults up.old ≤ U.faults up.new }
    ensures writes { O.faults output.old ≤ O.faults output.new }
{
    let head = match read_head(alloc, input, &mut rooms.kept) {
        Ok(head) => head,
        Err(e) => return one_of(stopped(output, e)),
    };
    let framing = match request_framing(&head) {
        Ok(framing) => framing,
        Err(e) => return one_of(refuse(output, wire_refusal(e))),
    };
    let verdict = judge(alloc, key, &head, link);
    carry_follow(
        alloc, verdict, &head, framing, target, input, rooms, output, up,
    )
}

/// The same as `guard_one`, and a tunnel where the request is an upgrade that the hub admits and the upstream's reply switches over. A
/// token that is taken away doesn't cut a tunnel that is open. What the rooms held before is dropped.
pub fn guard_carry_one<H: HubLink, I: Source, O: Shuts, U: Carrier<I, O>>(
    alloc: Global,
    key: &ServerKey,
    target: &Target,
    link: &mut H,
    input: &mut I,
    rooms: &mut Rooms,
    output: &mut O,
    up: &mut U,
) -> Result<Carried<U::Reads, U::Writes>, SessionFault>
    ensures ends { let place = place_of I.Source O.Sink U.Upstream in
        let sides = sides_of U.Reads.Source U.Writes.Sink (O.closed output.new) in
        (asks : List Exchange) × (kept : List ℕ) × Asks H.asked H.does link.old asks link.new × GuardCarries key.now target.now sides
        asks (H.faults link.old) (H.faults link.new) (place input.old [] output.old up.old) (place input.new kept output.new up.new)
        result }
    ensures asks { H.faults link.old ≤ H.faults link.new }
    ensures reads { I.faults input.old ≤ I.faults input.new }
    ensures links { U.faults up.old ≤ U.faults up.new }
    ensures writes { O.faults output.old ≤ O.faults output.new }
{
    rooms.clear();
    guard_carry_kept(alloc, key, target, link, input, rooms, output, up)
}
