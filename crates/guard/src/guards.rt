//! One request at a guard.
ghost use Rattle.std.specs.Prelude.{◌≡◌, ◌≢◌, ◌≤◌, ◌++◌, ℕ, List, [], false};
ghost use Rattle.std.specs.Prelude as prelude;
ghost use Rattle.http_wire.specs.Token as tokens;
ghost use Rattle.hub_link.specs.Links.{Exchange, Asks};
ghost use Rattle.proxy_wire.specs.Heads as heads;
ghost use Rattle.proxy_core.specs.Passes.{plain};
ghost use Rattle.proxy_core.specs.Telling.{place_of};
ghost use Rattle.guard.specs.Guards.{Judges, Follows, GuardEnds};
ghost use Rattle.guard.specs.Guards as spec;

use crate::access::{Access, ask_access};
use crate::denials::{Denial, deny};
use http_wire::error::SessionFault;
use http_wire::head::Head;
use http_wire::heads::read_head;
use http_wire::token::token_of;
use hub_devices::link_error::LinkError;
use hub_devices::sink::Sink;
use hub_devices::source::Source;
use hub_kit::names::ServerKey;
use hub_kit::target::Target;
use hub_link::link::HubLink;
use piece_window::rooms::Rooms;
use proxy_core::forward::stopped;
use proxy_core::passes::pass_on;
use proxy_core::refusals::{Forwarded, Refusal, refuse, wire_refusal};
use proxy_wire::framing::{Framing, request_framing};
use std::alloc::Global;
use upstreams::upstream::Upstream;

/// What a guard does with a request: it passes it on, refuses it, or says that there was no memory to decide.
#[derive(Clone, Copy, Debug, PartialEq, Eq)]
pub enum Verdict {
    Pass,
    Deny(Denial),
    Memory,
}

/// What the hub's answer means for a request.
fn verdict_of(answer: Result<Access, LinkError>) -> Verdict
    ensures { result ≡ spec.verdict_of answer }
{
    match answer {
        Ok(Access::Yes) => Verdict::Pass,
        Ok(Access::No) => Verdict::Deny(Denial::NoAccess),
        Ok(Access::NoToken) => Verdict::Deny(Denial::NoToken),
        Ok(Access::BadReply) => Verdict::Deny(Denial::BadHub),
        Err(LinkError::Failed) => Verdict::Deny(Denial::Hub),
        Err(LinkError::Memory) => Verdict::Memory,
    }
}

/// Asks the hub about a token.
pub fn judge_token<H: HubLink>(
    alloc: Global,
    key: &ServerKey,
    token: &[u8],
    link: &mut H,
) -> Verdict
    ensures judges { (asks : List Exchange) × Asks H.asked H.does link.old asks link.new
        × Judges key.now (prelude.Some token.now) asks (H.faults link.old) (H.faults link.new) result }
    ensures counted { H.faults link.old ≤ H.faults link.new }
{
    verdict_of(ask_access(alloc, key, token, link))
}

/// Asks the hub about a request's token, if it has one.
pub(crate) fn judge<H: HubLink>(
    alloc: Global,
    key: &ServerKey,
    head: &Head,
    link: &mut H,
) -> Verdict
    ensures judges { (asks : List Exchange) × Asks H.asked H.does link.old asks link.new
        × Judges key.now (tokens.token_of head.now.headers) asks (H.faults link.old) (H.faults link.new) result }
    ensures counted { H.faults link.old ≤ H.faults link.new }
{
    match token_of(head) {
        Some(token) => judge_token(alloc, key, token, link),
        None => Verdict::Deny(Denial::NoToken),
    }
}

/// Passes a request on, or refuses it with nothing sent. Of what was read, `rest` and then what is kept is behind the request.
pub fn follow<I: Source, O: Sink, U: Upstream>(
    alloc: Global,
    verdict: Verdict,
    head: &Head,
    framing: Framing,
    target: &Target,
    input: &mut I,
    rooms: &mut Rooms,
    output: &mut O,
    up: &mut U,
) -> Result<Forwarded, SessionFault>
    requires minor { head.now.minor ≤ 1 }
    requires sized { framing ≢ Framing.ToEnd }
    ensures ends { let place = place_of I.Source O.Sink U.Upstream in
        (rest : List ℕ) × Follows verdict (plain head.now.method (heads.request_text false head.now) framing) target.now
        (place input.old rooms.old.kept output.old up.old) (place input.new (rest ++ rooms.new.kept) output.new up.new) result }
    ensures reads { I.faults input.old ≤ I.faults input.new }
    ensures links { U.faults up.old ≤ U.faults up.new }
    ensures writes { O.faults output.old ≤ O.faults output.new }
{
    match verdict {
        Verdict::Pass => pass_on(alloc, head, framing, target, input, rooms, output, up),
        Verdict::Deny(denial) => deny(output, denial),
        Verdict::Memory => refuse(output, Refusal::Memory),
    }
}

/// The same as `guard_one`, in rooms that are handed in and keep nothing.
fn guard_kept<H: HubLink, I: Source, O: Sink, U: Upstream>(
    alloc: Global,
    key: &ServerKey,
    target: &Target,
    link: &mut H,
    input: &mut I,
    rooms: &mut Rooms,
    output: &mut O,
    up: &mut U,
) -> Result<Forwarded, SessionFault>
    requires { rooms.old.kept ≡ [] }
    ensures ends { let place = place_of I.Source O.Sink U.Upstream in
        (asks : List Exchange) × (kept : List ℕ) × Asks H.asked H.does link.old asks link.new × GuardEnds key.now target.now asks
        (H.faults link.old) (H.faults link.new) (place input.old [] output.old up.old) (place input.new kept output.new up.new) result }
    ensures asks { H.faults link.old ≤ H.faults link.new }
    ensures reads { I.faults input.old ≤ I.faults input.new }
    ensures links { U.faults up.old ≤ U.faults up.new }
    ensures writes { O.faults output.old ≤ O.faults output.new }
{
    let head = match read_head(alloc, input, &mut rooms.kept) {
        Ok(head) => head,
        Err(e) => return stopped(output, e),
    };
    let framing = match request_framing(&head) {
        Ok(framing) => framing,
        Err(e) => return refuse(output, wire_refusal(e)),
    };
    let verdict = judge(alloc, key, &head, link);
    follow(
        alloc, verdict, &head, framing, target, input, rooms, output, up,
    )
}

/// Reads one request, asks the hub once whether its token admits to the server, and passes it on to the server's target exactly
/// where the reply to that ask is 200 with `"access":true`; else it writes one refusal and sends nothing: of the head first, then of
/// the body's framing, both before the ask, and then of the token. What was read of the client is the request, and `kept`, which was
/// read behind it. A request without a token asks nothing.
pub fn guard_one<H: HubLink, I: Source, O: Sink, U: Upstream>(
    alloc: Global,
    key: &ServerKey,
    target: &Target,
    link: &mut H,
    input: &mut I,
    output: &mut O,
    up: &mut U,
) -> Result<Forwarded, SessionFault>
    ensures ends { let place = place_of I.Source O.Sink U.Upstream in
        (asks : List Exchange) × (kept : List ℕ) × Asks H.asked H.does link.old asks link.new × GuardEnds key.now target.now asks
        (H.faults link.old) (H.faults link.new) (place input.old [] output.old up.old) (place input.new kept output.new up.new) result }
    ensures asks { H.faults link.old ≤ H.faults link.new }
    ensures reads { I.faults input.old ≤ I.faults input.new }
    ensures links { U.faults up.old ≤ U.faults up.new }
    ensures writes { O.faults output.old ≤ O.faults output.new }
{
    let mut rooms = Rooms::new(alloc);
    guard_kept(alloc, key, target, link, input, &mut rooms, output, up)
}
