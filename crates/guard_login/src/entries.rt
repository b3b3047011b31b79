//! One request at a guard that lets browsers sign in and carries upgrades.
ghost use Rattle.std.specs.Prelude.{◌≡◌, ◌≢◌, ◌≤◌, ◌++◌, ℕ, List, []};
ghost use Rattle.hub_link.specs.Links.{Exchange, Asks};
ghost use Rattle.guard.specs.Guards.{Judges};
ghost use Rattle.proxy_wire.specs.Upgrades.{is_upgrade};
ghost use Rattle.proxy_core.specs.Telling.{place_of};
ghost use Rattle.carries.specs.Telling.{sides_of};
ghost use Rattle.guard_login.specs.Entries.{IsTaken, EnterEnds};
ghost use Rattle.guard_login.specs.Entries as spec;
ghost use Rattle.guard_login.specs.Signed as signed;

use crate::answers::{Signed, signing};
use crate::door::Door;
use crate::logins::sign_in;
use crate::steps::token_given;
use carries::{Carried, Carrier};
use guard::carrying::carry_follow;
use guard::denials::Denial;
use guard::guards::{Verdict, judge_token};
use http_wire::error::SessionFault;
use http_wire::head::Head;
use http_wire::heads::read_head;
use hub_devices::random::Random;
use hub_devices::source::Source;
use hub_link::link::HubLink;
use piece_window::rooms::Rooms;
use proxy_core::forward::stopped;
use proxy_core::refusals::{refuse, wire_refusal};
use proxy_wire::framing::{Framing, request_framing};
use proxy_wire::upgrades::is_upgrade;
use std::alloc::Global;
use tunnel::shuts::Shuts;

/// How a request ended.
#[derive(Drop)]
pub enum Entered<R, W> {
    /// As one that is no upgrade.
    Signed(Signed),
    /// As an upgrade.
    Carried(Carried<R, W>),
}

fn signed_as<R, W>(outcome: Result<Signed, SessionFault>) -> Result<Entered<R, W>, SessionFault>
    ensures { result ≡ spec.signed_as outcome }
{
    match outcome {
        Ok(signed) => Ok(Entered::Signed(signed)),
        Err(fault) => Err(fault),
    }
}

fn carried_as<R, W>(
    outcome: Result<Carried<R, W>, SessionFault>,
) -> Result<Entered<R, W>, SessionFault>
    ensures { result ≡ spec.carried_as outcome }
{
    match outcome {
        Ok(carried) => Ok(Entered::Carried(carried)),
        Err(fault) => Err(fault),
    }
}

/// Asks the hub about the token of an upgrade, which is the header's, else the cookie's, if it has one.
fn judge_given<H: HubLink>(alloc: Global, door: &Door, head: &Head, link: &mut H) -> Verdict
    ensures judges { (asks : List Exchange) × Asks H.asked H.does link.old asks link.new
        × Judges door.now.key (signed.token_given head.now) asks (H.faults link.old) (H.faults link.new) result }
    ensures counted { H.faults link.old ≤ H.faults link.new }
{
    match token_given(head) {
        Some(token) => judge_token(alloc, &door.key, token, link),
        None => Verdict::Deny(Denial::NoToken),
    }
}

/// Takes a request whose head was read. Of what was read, `rest` and then what is kept is behind the request.
fn enter<H: HubLink, R: Random, I: Source, O: Shuts, U: Carrier<I, O>>(
    alloc: Global,
    door: &Door,
    head: &Head,
    framing: Framing,
    link: &mut H,
    random: &mut R,
    input: &mut I,
    rooms: &mut Rooms,
    output: &mut O,
    up: &mut U,
) -> Result<Entered<U::Reads, U::Writes>, SessionFault>
    requires minor { head.now.minor ≤ 1 }
    requires sized { framing ≢ Framing.ToEnd }
    ensures ends { let place = place_of I.Source O.Sink U.Upstream in
        let sides = sides_of U.Reads.Source U.Writes.Sink (O.closed output.new) in
        (asks : List Exchange) × (rest : List ℕ) × Asks H.asked H.does link.old asks link.new × IsTaken R.left R.faults random.old
        random.new sides (is_upgrade head.now framing) door.now head.now framing asks (H.faults link.old) (H.faults link.new)
        (place input.old rooms.old.kept output.old up.old) (place input.new (rest ++ rooms.new.kept) output.new up.new) result }
    ensures asks { H.faults link.old ≤ H.faults link.new }
    ensures draws { R.faults random.old ≤ R.faults random.new }
    ensures reads { I.faults input.old ≤ I.faults input.new }
    ensures links { U.faults up.old ≤ U.faults up.new }
    ensures writes { O.faults output.old ≤ O.faults output.new }
{
    if is_upgrade(head, framing) {
        let verdict = judge_given(alloc, door, head, link);
        carried_as(carry_follow(
            alloc,
            verdict,
            head,
            framing,
            &door.target,
            input,
            rooms,
            output,
            up,
        ))
    } else {
        signed_as(sign_in(
            alloc, door, head, framing, link, random, input, rooms, output, up,
        ))
    }
}

/// The same as `enter_one`, in rooms that keep nothing.
fn enter_kept<H: HubLink, R: Random, I: Source, O: Shuts, U: Carrier<I, O>>(
    alloc: Global,
    door: &Door,
    link: &mut H,
    random: &mut R,
    input: &mut I,
    rooms: &mut Rooms,
    output: &mut O,
    up: &mut U,
) -> Result<Entered<U::Reads, U::Writes>, SessionFault>
    requires { rooms.old.kept ≡ [] }
    ensures ends { let place = place_of I.Source O.Sink U.Upstream in
        let sides = sides_of U.Reads.Source U.Writes.Sink (O.closed output.new) in
        (asks : List Exchange) × (kept : List ℕ) × Asks H.asked H.does link.old asks link.new × EnterEnds R.left R.faults random.old
        random.new sides door.now asks (H.faults link.old) (H.faults link.new) (place input.old [] output.old up.old)
        (place input.new kept output.new up.new) result }
    ensures asks { H.faults link.old ≤ H.faults link.new }
    ensures draws { R.faults random.old ≤ R.faults random.new }
    ensures reads { I.faults input.old ≤ I.faults input.new }
    ensures links { U.faults up.old ≤ U.faults up.new }
    ensures writes { O.faults output.old ≤ O.faults output.new }
{
    let head = match read_head(alloc, input, &mut rooms.kept) {
        Ok(head) => head,
        Err(e) => return signed_as(signing(stopped(output, e))),
    };
    let framing = match request_framing(&head) {
        Ok(framing) => framing,
        Err(e) => return signed_as(signing(refuse(output, wire_refusal(e)))),
    };
    enter(
        alloc, door, &head, framing, link, random, input, rooms, output, up,
    )
}

/// Takes one request. An upgrade is carried exactly where the hub admits its token, which is that of its header or of the guard's cookie,
/// and is refused otherwise, since it is no page that a browser could go to. Any other request goes as in `login_one`. What the rooms held
/// before is dropped.
pub fn enter_one<H: HubLink, R: Random, I: Source, O: Shuts, U: Carrier<I, O>>(
    alloc: Global,
    door: &Door,
    link: &mut H,
    random: &mut R,
    input: &mut I,
    rooms: &mut Rooms,
    output: &mut O,
    up: &mut U,
) -> Result<Entered<U::Reads, U::Writes>, SessionFault>
    ensures ends { let place = place_of I.Source O.Sink U.Upstream in
        let sides = sides_of U.Reads.Source U.Writes.Sink (O.closed output.new) in
        (asks : List Exchange) × (kept : List ℕ) × Asks H.asked H.does link.old asks link.new × EnterEnds R.left R.faults random.old
        random.new sides door.now asks (H.faults link.old) (H.faults link.new) (place input.old [] output.old up.old)
        (place input.new kept output.new up.new) result }
    ensures asks { H.faults link.old ≤ H.faults link.new }
    ensures draws { R.faults random.old ≤ R.faults random.new }
    ensures reads { I.faults input.old ≤ I.faults input.new }
    ensures links { U.faults up.old ≤ U.faults up.new }
    ensures writes { O.faults output.old ≤ O.faults output.new }
{
    rooms.clear();
    enter_kept(alloc, door, link, random, input, rooms, output, up)
}
