//! One request, forwarded by its path.
ghost use Rattle.std.specs.Prelude.{◌≡◌, ◌≢◌, ◌≤◌, ◌<◌, ◌==◌, ℕ, List, [], length, position, IfSome, IfOk, IfErr};
ghost use Rattle.http_wire.specs.Target as targets;
ghost use Rattle.proxy_core.specs.Forward.{IsStopped, IsUnchosen, IsChosen, ForwardEnds};
ghost use Rattle.proxy_core.specs.Forward as spec;
ghost use Rattle.proxy_core.specs.Telling.{place_of};

use crate::passes::pass_on;
use crate::refusals::{Forwarded, Refusal, refuse, wire_refusal};
use http_wire::error::{SessionFault, WireError};
use http_wire::head::Head;
use http_wire::heads::read_head;
use hub_devices::sink::Sink;
use hub_devices::source::Source;
use hub_kit::moment::Moment;
use hub_kit::target::Target;
use piece_window::rooms::Rooms;
use proxy_wire::framing::{Framing, request_framing};
use route_table::lookup::Lookup;
use route_table::route::RouteRefusal;
use std::alloc::Global;
use upstreams::upstream::Upstream;

/// Where the query begins.
fn first_mark(target: &[u8]) -> Option<usize>
    ensures value { result ≡ position (λ b. b == 63) target.now }
    ensures within { IfSome result (λ at. at < length target.now) }
{
    target.iter().position(|b| *b == b'?')
}

/// The bytes before the first question mark, or all.
fn path_of(target: &[u8]) -> &[u8]
    ensures { result.now ≡ targets.path_of target.now }
{
    match first_mark(target) {
        Some(at) => &target[..at],
        None => target,
    }
}

fn route_refusal(error: RouteRefusal) -> Refusal
    ensures { result ≡ spec.route_refusal error }
{
    match error {
        RouteRefusal::NotFound => Refusal::NotFound,
        RouteRefusal::BadPath(_) => Refusal::BadPath,
        RouteRefusal::Stale { given: _, seen: _ } => Refusal::Memory,
        RouteRefusal::BadTarget => Refusal::Memory,
        RouteRefusal::Full(_) => Refusal::Memory,
        RouteRefusal::Memory => Refusal::Memory,
    }
}

/// Answers where there is no head. The error is that of `read_head`.
pub fn stopped<O: Sink>(output: &mut O, error: WireError) -> Result<Forwarded, SessionFault>
    ensures stopped { IsStopped error (O.held output.old) (O.held output.new) (O.faults output.old) (O.faults output.new) result }
    ensures counted { O.faults output.old ≤ O.faults output.new }
{
    match error {
        WireError::BadHead => refuse(output, Refusal::BadHead),
        WireError::TooLarge(_) => refuse(output, Refusal::TooLarge),
        WireError::Coding => refuse(output, Refusal::Coding),
        WireError::Memory => refuse(output, Refusal::Memory),
        WireError::Ended => Ok(Forwarded::Ended),
        WireError::Cut => Ok(Forwarded::Cut),
        WireError::ReadFault => Err(SessionFault::ReadFault(0)),
    }
}

/// How a request's body is framed and where it goes.
pub struct Choice {
    pub framing: Framing,
    pub target: Target,
}

impl Drop for Choice {
    fn drop(self) {
        let Choice {
            framing: _,
            target: _,
        } = self;
    }
}

/// The body's framing first, and then the route of the path; or why the request is refused.
pub fn choose<L: Lookup>(
    alloc: Global,
    head: &Head,
    routes: &mut L,
    now: Moment,
) -> Result<Choice, Refusal>
    ensures ok { IfOk result (λ c. IsChosen L.found head.now now routes.old routes.new c.framing c.target
        × (c.framing ≢ Framing.ToEnd)) }
    ensures err { IfErr result (IsUnchosen L.found head.now now routes.old routes.new) }
{
    let framing = match request_framing(head) {
        Ok(framing) => framing,
        Err(e) => return Err(wire_refusal(e)),
    };
    match routes.look(alloc, path_of(head.target.as_slice()), now) {
        Ok(target) => Ok(Choice { framing, target }),
        Err(e) => Err(route_refusal(e)),
    }
}

/// The same as `forward_one`, in rooms that are handed in and keep nothing.
fn forward_kept<L: Lookup, I: Source, O: Sink, U: Upstream>(
    alloc: Global,
    routes: &mut L,
    now: Moment,
    input: &mut I,
    rooms: &mut Rooms,
    output: &mut O,
    up: &mut U,
) -> Result<Forwarded, SessionFault>
    requires { rooms.old.kept ≡ [] }
    ensures ends { let place = place_of I.Source O.Sink U.Upstream in
        (kept : List ℕ) × ForwardEnds L.found now (place input.old [] output.old up.old) (place input.new kept output.new up.new)
        routes.old routes.new result }
    ensures reads { I.faults input.old ≤ I.faults input.new }
    ensures links { U.faults up.old ≤ U.faults up.new }
    ensures writes { O.faults output.old ≤ O.faults output.new }
{
    let head = match read_head(alloc, input, &mut rooms.kept) {
        Ok(head) => head,
        Err(e) => return stopped(output, e),
    };
    let choice = match choose(alloc, &head, routes, now) {
        Ok(choice) => choice,
        Err(refusal) => return refuse(output, refusal),
    };
    pass_on(
        alloc,
        &head,
        choice.framing,
        &choice.target,
        input,
        rooms,
        output,
        up,
    )
}

/// Reads one request and passes it on to the target of its path's route, or writes one refusal: of the head first, then of
/// the body's framing, then of the path. What was read of the client is the request, and `kept`, which was read behind it.
pub fn forward_one<L: Lookup, I: Source, O: Sink, U: Upstream>(
    alloc: Global,
    routes: &mut L,
    now: Moment,
    input: &mut I,
    output: &mut O,
    up: &mut U,
) -> Result<Forwarded, SessionFault>
    ensures ends { let place = place_of I.Source O.Sink U.Upstream in
        (kept : List ℕ) × ForwardEnds L.found now (place input.old [] output.old up.old) (place input.new kept output.new up.new)
        routes.old routes.new result }
    ensures reads { I.faults input.old ≤ I.faults input.new }
    ensures links { U.faults up.old ≤ U.faults up.new }
    ensures writes { O.faults output.old ≤ O.faults output.new }
{
    let mut rooms = Rooms::new(alloc);
    forward_kept(alloc, routes, now, input, &mut rooms, output, up)
}
