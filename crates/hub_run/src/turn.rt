//! One turn: what comes next is read, and its reply is written.
ghost use Rattle.std.specs.Prelude.{◌≡◌, ◌≤◌, ◌||◌, ◌++◌, ℕ, true, List, length, Some, IfOk, IfErr};
ghost use Rattle.hub_devices.specs.Streams.{Appends};
ghost use Rattle.hub_devices.specs.Faults.{Rises};
ghost use Rattle.http_wire.specs.Took.{Took};
ghost use Rattle.http_wire.specs.Request.{IsRequestText};
ghost use Rattle.http_wire.specs.Wire.{head_limit};
ghost use Rattle.hub_core.specs.declared.start.Start.{Start};
ghost use Rattle.hub_run.specs.Steps.{StopsAt, TurnEnds};
ghost use Rattle.hub_run.specs.Turns.{Turn, TurnAt, Moves, turn_text, closes, view_of};
ghost use Rattle.hub_run.specs.Written.{written_bytes};

use crate::answering::answer;
use crate::served::TurnEnd;
use crate::written::{Written, text_of_wire};
use desk::{Desk, Pass};
use http_wire::buffer::WireBuffer;
use http_wire::error::WireError;
use http_wire::requests::read_request;
use http_wire::writes::write_all;
use hub_core::book::Book;
use hub_core::kit::HubKit;
use hub_devices::clock::Clock;
use hub_devices::random::Random;
use hub_devices::route_link::RouteLink;
use hub_devices::sink::Sink;
use hub_devices::source::Source;
use hub_devices::spawner::Spawner;
use hub_machine::change::Change;
use keeper::keeper::Keeper;
use keeper::trail::Trail;
use std::alloc::Global;
use std::sync::Wait;

/// Reads what comes next, and makes its reply. `true` says that the connection is to be closed.
fn next_reply<
    K: Keeper,
    T: Trail<Entry = Change>,
    I: Source,
    S: Spawner,
    P: RouteLink,
    C: Clock,
    R: Random,
    W: Wait,
>(
    rt: &W,
    alloc: Global,
    desk: &Desk<Book<K, T>>,
    pass: &mut Pass<Book<K, T>>,
    input: &mut I,
    kept: &mut WireBuffer,
    kit: &mut HubKit<S, P, C, R>,
    last: bool,
) -> Result<(Written, bool), TurnEnd>
    requires of { pass.old.of ≡ desk.now }
    ensures of { pass.new.of ≡ pass.old.of }
    ensures base { pass.new.base ≡ pass.old.base }
    ensures alone { pass.new.alone ≡ pass.old.alone }
    ensures last { IfOk result (λ r. last ≡ true → r.1 ≡ true) }
    ensures ok { (start : Start) → pass.old.base ≡ Some start → IfOk result (λ r. (turn : Turn) × (bytes : List ℕ)
        × Took (I.left input.old) kept.old (I.left input.new) bytes × TurnAt start (I.left input.new) bytes turn kept.new
        × Moves (view_of C.to_come R.left S.calls P.calls R.faults S.faults P.faults pass.old kit.old) turn
        (view_of C.to_come R.left S.calls P.calls R.faults S.faults P.faults pass.new kit.new)
        × (r.1 ≡ (closes turn || last)) × (written_bytes r.0 ≡ turn_text turn r.1)) }
    ensures err { IfErr result (λ e. (bytes : List ℕ) × Took (I.left input.old) kept.old (I.left input.new) bytes
        × StopsAt (I.left input.new) bytes e
        × (view_of C.to_come R.left S.calls P.calls R.faults S.faults P.faults pass.new kit.new ≡ view_of C.to_come R.left S.calls P.calls
        R.faults S.faults P.faults pass.old kit.old)) }
    ensures kept { length kept.new ≤ head_limit }
    ensures counted { I.faults input.old ≤ I.faults input.new }
    ensures cause { result ≡ Err TurnEnd.ReadFault → Rises (I.faults input.old) (I.faults input.new) }
{
    match read_request(alloc, input, kept) {
        Ok(request) => Ok(answer(rt, alloc, desk, pass, kit, request, last)),
        Err(WireError::Ended) => Err(TurnEnd::Ended),
        Err(WireError::Cut) => Err(TurnEnd::Cut),
        Err(WireError::ReadFault) => Err(TurnEnd::ReadFault),
        Err(error) => Ok((text_of_wire(alloc, error), true)),
    }
}

/// Reads what comes next and writes its reply. `true` says that the connection is to be closed.
pub(crate) fn turn<
    K: Keeper,
    T: Trail<Entry = Change>,
    I: Source,
    O: Sink,
    S: Spawner,
    P: RouteLink,
    C: Clock,
    R: Random,
    W: Wait,
>(
    rt: &W,
    alloc: Global,
    desk: &Desk<Book<K, T>>,
    pass: &mut Pass<Book<K, T>>,
    input: &mut I,
    output: &mut O,
    kept: &mut WireBuffer,
    kit: &mut HubKit<S, P, C, R>,
    last: bool,
) -> Result<bool, TurnEnd>
    requires of { pass.old.of ≡ desk.now }
    ensures of { pass.new.of ≡ pass.old.of }
    ensures base { pass.new.base ≡ pass.old.base }
    ensures alone { pass.new.alone ≡ pass.old.alone }
    ensures last { IfOk result (λ close. last ≡ true → close ≡ true) }
    ensures ok { (start : Start) → pass.old.base ≡ Some start → IfOk result (λ close. (turn : Turn) × (bytes : List ℕ)
        × Took (I.left input.old) kept.old (I.left input.new) bytes × TurnAt start (I.left input.new) bytes turn kept.new
        × Moves (view_of C.to_come R.left S.calls P.calls R.faults S.faults P.faults pass.old kit.old) turn
        (view_of C.to_come R.left S.calls P.calls R.faults S.faults P.faults pass.new kit.new)
        × (close ≡ (closes turn || last))
        × Appends (O.held output.old) (turn_text turn close) (O.held output.new)) }
    ensures err { (start : Start) → pass.old.base ≡ Some start → IfErr result (λ e. (bytes : List ℕ)
        × Took (I.left input.old) kept.old (I.left input.new) bytes
        × TurnEnds start last (view_of C.to_come R.left S.calls P.calls R.faults S.faults P.faults pass.old kit.old)
        (view_of C.to_come R.left S.calls P.calls R.faults S.faults P.faults pass.new kit.new)
        (I.left input.new) (O.held output.old) (O.held output.new) bytes e) }
    ensures kept { length kept.new ≤ head_limit }
    ensures reads { I.faults input.old ≤ I.faults input.new }
    ensures writes { O.faults output.old ≤ O.faults output.new }
    ensures read_fault { result ≡ Err TurnEnd.ReadFault → Rises (I.faults input.old) (I.faults input.new) }
    ensures write_fault { result ≡ Err TurnEnd.WriteFault → Rises (O.faults output.old) (O.faults output.new) }
{
    match next_reply(rt, alloc, desk, pass, input, kept, kit, last) {
        Ok((written, close)) => match write_all(output, written.as_slice()) {
            Ok(()) => {
                drop(written);
                Ok(close)
            }
            Err(_) => {
                drop(written);
                Err(TurnEnd::WriteFault)
            }
        },
        Err(end) => Err(end),
    }
}
