//! One request at a guard that lets browsers sign in.
ghost use Rattle.std.specs.Prelude.{◌≡◌, ◌≢◌, ◌≤◌, ◌++◌, ℕ, List, Option, [], true};
ghost use Rattle.hub_link.specs.Links.{Exchange, Asks};
ghost use Rattle.proxy_core.specs.Telling.{place_of};
ghost use Rattle.guard_login.specs.Answers.{WritesAnswer, Drew};
ghost use Rattle.guard_login.specs.Logins.{Finishes, IsTreated, LoginEnds};
ghost use Rattle.guard_login.specs.Signed.{started};

use crate::answers::{Signed, carrying, deny, give, signing, start_text, want, write};
use crate::door::Door;
use crate::steps::{Step, next_step};
use guard::denials::Denial;
use http_wire::error::SessionFault;
use http_wire::head::Head;
use http_wire::heads::read_head;
use hub_devices::random::Random;
use hub_devices::sink::Sink;
use hub_devices::source::Source;
use hub_link::link::HubLink;
use piece_window::rooms::Rooms;
use proxy_core::forward::stopped;
use proxy_core::passes::pass_on;
use proxy_core::refusals::{refuse, wire_refusal};
use proxy_wire::framing::{Framing, request_framing};
use std::alloc::Global;
use upstreams::upstream::Upstream;

/// Sends a browser to sign in.
fn start<R: Random, O: Sink>(
    alloc: Global,
    door: &Door,
    head: &Head,
    random: &mut R,
    output: &mut O,
) -> Result<Signed, SessionFault>
    ensures starts { (draw : Option (List ℕ)) × Drew R.left R.faults random.old random.new true draw
        × WritesAnswer door.now (started door.now head.now draw) (O.held output.old) (O.held output.new)
        (O.faults output.old) (O.faults output.new) result }
    ensures draws { R.faults random.old ≤ R.faults random.new }
    ensures writes { O.faults output.old ≤ O.faults output.new }
{
    match random.draw() {
        Ok(draw) => match start_text(alloc, door, head, &draw) {
            Ok(text) => write(output, text.as_slice(), Signed::Sent),
            Err(_) => want(output),
        },
        Err(_) => deny(output, Denial::Random),
    }
}

/// Does what the step says. Of what was read, `rest` and then what is kept is behind the request.
fn finish<R: Random, I: Source, O: Sink, U: Upstream>(
    alloc: Global,
    door: &Door,
    head: &Head,
    framing: Framing,
    step: &Step,
    random: &mut R,
    input: &mut I,
    rooms: &mut Rooms,
    output: &mut O,
    up: &mut U,
) -> Result<Signed, SessionFault>
    requires minor { head.now.minor ≤ 1 }
    requires sized { framing ≢ Framing.ToEnd }
    ensures ends { let place = place_of I.Source O.Sink U.Upstream in
        (rest : List ℕ) × Finishes R.left R.faults random.old random.new door.now head.now framing step.now
        (place input.old rooms.old.kept output.old up.old) (place input.new (rest ++ rooms.new.kept) output.new up.new) result }
    ensures draws { R.faults random.old ≤ R.faults random.new }
    ensures reads { I.faults input.old ≤ I.faults input.new }
    ensures links { U.faults up.old ≤ U.faults up.new }
    ensures writes { O.faults output.old ≤ O.faults output.new }
{
    match step {
        Step::Pass => carrying(pass_on(
            alloc,
            head,
            framing,
            &door.target,
            input,
            rooms,
            output,
            up,
        )),
        Step::Deny(denial) => deny(output, *denial),
        Step::Start => start(alloc, door, head, random, output),
        Step::Give(token, next) => give(alloc, door, token, next, output),
    }
}

/// Asks about a request whose head was read, and answers it or passes it on. Of what was read, `rest` and then what is kept is behind
/// the request.
pub(crate) fn sign_in<H: HubLink, R: Random, I: Source, O: Sink, U: Upstream>(
    alloc: Global,
    door: &Door,
    head: &Head,
    framing: Framing,
    link: &mut H,
    random: &mut R,
    input: &mut I,
    rooms: &mut Rooms,
    output: &mut O,
    up: &mut U,
) -> Result<Signed, SessionFault>
    requires minor { head.now.minor ≤ 1 }
    requires sized { framing ≢ Framing.ToEnd }
    ensures ends { let place = place_of I.Source O.Sink U.Upstream in
        (asks : List Exchange) × (rest : List ℕ) × Asks H.asked H.does link.old asks link.new × IsTreated R.left R.faults random.old
        random.new door.now head.now framing asks (H.faults link.old) (H.faults link.new)
        (place input.old rooms.old.kept output.old up.old) (place input.new (rest ++ rooms.new.kept) output.new up.new) result }
    ensures asks { H.faults link.old ≤ H.faults link.new }
    ensures draws { R.faults random.old ≤ R.faults random.new }
    ensures reads { I.faults input.old ≤ I.faults input.new }
    ensures links { U.faults up.old ≤ U.faults up.new }
    ensures writes { O.faults output.old ≤ O.faults output.new }
{
    let step = match next_step(alloc, door, head, link) {
        Ok(step) => step,
        Err(_) => return want(output),
    };
    finish(
        alloc, door, head, framing, &step, random, input, rooms, output, up,
    )
}

/// The same as `login_one`, in rooms that are handed in and keep nothing.
fn login_kept<H: HubLink, R: Random, I: Source, O: Sink, U: Upstream>(
    alloc: Global,
    door: &Door,
    link: &mut H,
    random: &mut R,
    input: &mut I,
    rooms: &mut Rooms,
    output: &mut O,
    up: &mut U,
) -> Result<Signed, SessionFault>
    requires { rooms.old.kept ≡ [] }
    ensures ends { let place = place_of I.Source O.Sink U.Upstream in
        (asks : List Exchange) × (kept : List ℕ) × Asks H.asked H.does link.old asks link.new × LoginEnds R.left R.faults random.old
        random.new door.now asks (H.faults link.old) (H.faults link.new) (place input.old [] output.old up.old)
        (place input.new kept output.new up.new) result }
    ensures asks { H.faults link.old ≤ H.faults link.new }
    ensures draws { R.faults random.old ≤ R.faults random.new }
    ensures reads { I.faults input.old ≤ I.faults input.new }
    ensures links { U.faults up.old ≤ U.faults up.new }
    ensures writes { O.faults output.old ≤ O.faults output.new }
{
    let head = match read_head(alloc, input, &mut rooms.kept) {
        Ok(head) => head,
        Err(e) => return signing(stopped(output, e)),
    };
    let framing = match request_framing(&head) {
        Ok(framing) => framing,
        Err(e) => return signing(refuse(output, wire_refusal(e))),
    };
    sign_in(
        alloc, door, &head, framing, link, random, input, rooms, output, up,
    )
}

/// Takes one request. It is passed on to the server's target exactly where the hub admits its token, which is that of its
/// header or of the guard's cookie; without such a token a browser is sent to sign in at the hub, for a state that is drawn
/// now, and when it comes back with that state its code is traded for the token of its cookie. All else is refused with
/// nothing sent.
pub fn login_one<H: HubLink, R: Random, I: Source, O: Sink, U: Upstream>(
    alloc: Global,
    door: &Door,
    link: &mut H,
    random: &mut R,
    input: &mut I,
    output: &mut O,
    up: &mut U,
) -> Result<Signed, SessionFault>
    ensures ends { let place = place_of I.Source O.Sink U.Upstream in
        (asks : List Exchange) × (kept : List ℕ) × Asks H.asked H.does link.old asks link.new × LoginEnds R.left R.faults random.old
        random.new door.now asks (H.faults link.old) (H.faults link.new) (place input.old [] output.old up.old)
        (place input.new kept output.new up.new) result }
    ensures asks { H.faults link.old ≤ H.faults link.new }
    ensures draws { R.faults random.old ≤ R.faults random.new }
    ensures reads { I.faults input.old ≤ I.faults input.new }
    ensures links { U.faults up.old ≤ U.faults up.new }
    ensures writes { O.faults output.old ≤ O.faults output.new }
{
    let mut rooms = Rooms::new(alloc);
    login_kept(alloc, door, link, random, input, &mut rooms, output, up)
}
