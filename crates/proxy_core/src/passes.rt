//! One request that is passed on to a target.
ghost use Rattle.std.specs.Prelude.{◌≡◌, ◌≢◌, ◌≤◌, ◌++◌, ℕ, List, length, take, drop, false, OnOk, OnErr};
ghost use Rattle.hub_devices.specs.Faults.{Rises};
ghost use Rattle.hub_devices.specs.Streams.{Appends};
ghost use Rattle.upstreams.specs.Upstream.{IsOpen};
ghost use Rattle.proxy_wire.specs.Heads as heads;
ghost use Rattle.proxy_core.specs.Passes.{PassEnds, BackEnds, PassOn, plain};
ghost use Rattle.proxy_core.specs.Telling.{place_of};

use crate::exchange::{Stop, exchange};
use crate::refusals::{Forwarded, Refusal, refuse};
use http_wire::error::SessionFault;
use http_wire::head::Head;
use http_wire::writes::write_all;
use hub_devices::sink::Sink;
use hub_devices::source::{Failed, Source};
use hub_kit::target::Target;
use piece_window::rooms::Rooms;
use piece_window::window::Window;
use proxy_bodies::backs::{back_body, first_bytes, write_first};
use proxy_wire::framing::Framing;
use proxy_wire::heads::request_text;
use proxy_wire::replies::Reply;
use std::alloc::Global;
use upstreams::upstream::Upstream;

/// Writes a head, and behind it the first n bytes of the window: in one write, where there is room for the head before them.
fn give_head<O: Sink>(
    text: &[u8],
    n: usize,
    back: &mut Window,
    output: &mut O,
) -> Result<(), Failed>
    requires within { n ≤ length back.old }
    requires short { n ≤ 16384 }
    ensures ok { OnOk result ((back.new ≡ drop n back.old)
        × Appends (O.held output.old) (text.now ++ take n back.old) (O.held output.new)) }
    ensures err { OnErr result ((part more : List ℕ) × (text.now ++ take n back.old ≡ part ++ more)
        × Appends (O.held output.old) part (O.held output.new)) }
    ensures counted { O.faults output.old ≤ O.faults output.new }
    ensures cause { OnErr result (Rises (O.faults output.old) (O.faults output.new)) }
{
    if back.put_front(text) {
        return write_first(back, output, text.len() + n);
    }
    match write_all(output, text) {
        Ok(()) => write_first(back, output, n),
        Err(_) => Err(Failed),
    }
}

/// Passes back a reply whose head was read, and takes no memory. The first bytes of its body go in one write with the head.
pub fn give_back<O: Sink, U: Upstream>(
    reply: &Reply,
    back: &mut Window,
    output: &mut O,
    up: &mut U,
) -> Result<Forwarded, SessionFault>
    requires { IsOpen (U.told up.old) }
    ensures ends { BackEnds reply.now.text reply.now.framing back.old (O.held output.old) (O.held output.new)
        (U.told up.old) (U.told up.new) (U.faults up.old) (U.faults up.new) (O.faults output.old) (O.faults output.new) result }
    ensures links { U.faults up.old ≤ U.faults up.new }
    ensures writes { O.faults output.old ≤ O.faults output.new }
{
    let (count, left) = first_bytes(reply.framing, back);
    match give_head(reply.text.as_slice(), count, back, output) {
        Ok(()) => {}
        Err(_) => return Err(SessionFault::WriteFault(0)),
    }
    back_body(left, up, back, output);
    Ok(Forwarded::Passed)
}

/// Passes a request on to an upstream that is connected. What the windows held before is dropped.
fn pass_linked<I: Source, O: Sink, U: Upstream>(
    alloc: Global,
    method: &[u8],
    text: &[u8],
    framing: Framing,
    input: &mut I,
    rooms: &mut Rooms,
    output: &mut O,
    up: &mut U,
) -> Result<Forwarded, SessionFault>
    requires sized { framing ≢ Framing.ToEnd }
    requires open { IsOpen (U.told up.old) }
    ensures ends { let place = place_of I.Source O.Sink U.Upstream in
        (rest : List ℕ) × PassEnds (plain method.now text.now framing)
        (place input.old rooms.old.kept output.old up.old) (place input.new (rest ++ rooms.new.kept) output.new up.new) result }
    ensures reads { I.faults input.old ≤ I.faults input.new }
    ensures links { U.faults up.old ≤ U.faults up.new }
    ensures writes { O.faults output.old ≤ O.faults output.new }
{
    rooms.window.clear();
    rooms.back.clear();
    match exchange(
        alloc,
        method,
        text,
        framing,
        input,
        &mut rooms.kept,
        &mut rooms.window,
        up,
        &mut rooms.back,
    ) {
        Ok(reply) => give_back(&reply, &mut rooms.back, output, up),
        Err(stop) => match stop {
            Stop::Cut => Ok(Forwarded::Cut),
            Stop::ReadFault => Err(SessionFault::ReadFault(0)),
            Stop::Refused(refusal) => refuse(output, refusal),
        },
    }
}

/// Passes a request on whose head was read and whose body is framed so, to a target, and its reply back, over one connection
/// to it, which is asked for once. What was taken of the client behind the body is lost (`rest`), since a connection takes one request.
pub fn pass_on<I: Source, O: Sink, U: Upstream>(
    alloc: Global,
    head: &Head,
    framing: Framing,
    target: &Target,
    input: &mut I,
    rooms: &mut Rooms,
    output: &mut O,
    up: &mut U,
) -> Result<Forwarded, SessionFault>
    requires minor { head.now.minor ≤ 1 }
    requires sized { framing ≢ Framing.ToEnd }
    ensures ends { let place = place_of I.Source O.Sink U.Upstream in
        (rest : List ℕ) × PassOn (plain head.now.method (heads.request_text false head.now) framing) target.now
        (place input.old rooms.old.kept output.old up.old) (place input.new (rest ++ rooms.new.kept) output.new up.new) result }
    ensures reads { I.faults input.old ≤ I.faults input.new }
    ensures links { U.faults up.old ≤ U.faults up.new }
    ensures writes { O.faults output.old ≤ O.faults output.new }
{
    let Ok(text) = request_text(alloc, false, head) else {
        return refuse(output, Refusal::Memory);
    };
    match up.connect(target) {
        Ok(()) => {}
        Err(_) => return refuse(output, Refusal::Link),
    }
    let outcome = pass_linked(
        alloc,
        head.method.as_bytes(),
        text.as_slice(),
        framing,
        input,
        rooms,
        output,
        up,
    );
    up.finish();
    outcome
}
