//! One connection from its first request to its end.
ghost use Rattle.std.specs.Prelude.{◌≡◌, ℕ, [], Some, Ok, Err};
ghost use Rattle.hub_core.specs.declared.start.Start.{Start};
ghost use Rattle.hub_run.specs.Connections.{ConnectionEnds, Goes, known_of};

use crate::served::{Served, TurnEnd};
use crate::turn::turn;
use desk::{Desk, Pass};
use http_wire::buffer::WireBuffer;
use http_wire::error::SessionFault;
use hub_core::book::Book;
use hub_core::kit::HubKit;
use hub_devices::clock::Clock;
use hub_devices::random::Random;
use hub_devices::route_link::RouteLink;
use hub_devices::sink::Sink;
use hub_devices::source::Source;
use hub_devices::spawner::Spawner;
use hub_machine::change::Change;
use keeper::keeper::Keeper;
use keeper::trail::Trail;
use std::alloc::Global;
use std::sync::Wait;

/// The reply after which a connection is closed in any case.
pub const REPLY_LIMIT: u64 = 1000;

/// Serves one connection: reads requests one after the other and writes one reply for each. It ends where the input ends,
/// after a reply that closes the connection (one that a request asks to be the last, one to HTTP/1.0, a refusal of the
/// wire, a 507, or the thousandth), or at the first fault of the source or the sink.
pub fn serve_connection<
    K: Keeper,
    T: Trail<Entry = Change>,
    I: Source,
    O: Sink,
    S: Spawner,
    P: RouteLink,
    C: Clock,
    R: Random,
    W: Wait,
>(
    rt: &W,
    alloc: Global,
    desk: &Desk<Book<K, T>>,
    pass: &mut Pass<Book<K, T>>,
    input: &mut I,
    output: &mut O,
    kit: &mut HubKit<S, P, C, R>,
) -> Result<Served, SessionFault>
    requires { pass.old.of ≡ desk.now }
    ensures of { pass.new.of ≡ pass.old.of }
    ensures base { pass.new.base ≡ pass.old.base }
    ensures alone { pass.new.alone ≡ pass.old.alone }
    ensures ends { let known = known_of S.Spawner P.RouteLink C.Clock R.Random I.Source O.Sink in (start : Start)
        → pass.old.base ≡ Some start
        → ConnectionEnds start (known pass.old kit.old input.old output.old) (known pass.new kit.new input.new output.new) result }
    ensures goes { let known = known_of S.Spawner P.RouteLink C.Clock R.Random I.Source O.Sink in
        Goes (known pass.old kit.old input.old output.old) (known pass.new kit.new input.new output.new) }
{
    let mut kept = WireBuffer::new(alloc);
    let served = serve_turns(rt, alloc, desk, pass, input, output, &mut kept, kit);
    drop(kept);
    served
}

/// The turns of a connection, by a buffer of its own.
fn serve_turns<
    K: Keeper,
    T: Trail<Entry = Change>,
    I: Source,
    O: Sink,
    S: Spawner,
    P: RouteLink,
    C: Clock,
    R: Random,
    W: Wait,
>(
    rt: &W,
    alloc: Global,
    desk: &Desk<Book<K, T>>,
    pass: &mut Pass<Book<K, T>>,
    input: &mut I,
    output: &mut O,
    kept: &mut WireBuffer,
    kit: &mut HubKit<S, P, C, R>,
) -> Result<Served, SessionFault>
    requires of { pass.old.of ≡ desk.now }
    requires kept { kept.old ≡ [] }
    ensures of { pass.new.of ≡ pass.old.of }
    ensures base { pass.new.base ≡ pass.old.base }
    ensures alone { pass.new.alone ≡ pass.old.alone }
    ensures ends { let known = known_of S.Spawner P.RouteLink C.Clock R.Random I.Source O.Sink in (start : Start)
        → pass.old.base ≡ Some start
        → ConnectionEnds start (known pass.old kit.old input.old output.old) (known pass.new kit.new input.new output.new) result }
    ensures goes { let known = known_of S.Spawner P.RouteLink C.Clock R.Random I.Source O.Sink in
        Goes (known pass.old kit.old input.old output.old) (known pass.new kit.new input.new output.new) }
{
    let mut count = 0;
    'turns: loop {
        match turn(
            rt,
            alloc,
            desk,
            pass,
            input,
            output,
            kept,
            kit,
            count + 1 == REPLY_LIMIT,
        ) {
            Ok(close) => {
                count += 1;
                if close {
                    return Ok(Served::Closed(count));
                }
            }
            Err(end) => return ended(end, count),
        }
    }
}

/// How a connection ended after so many replies, by the turn that ended without a whole one.
fn ended(end: TurnEnd, count: u64) -> Result<Served, SessionFault>
    ensures ended { end ≡ TurnEnd.Ended → result ≡ Ok (Served.Ended count) }
    ensures cut { end ≡ TurnEnd.Cut → result ≡ Ok (Served.Cut count) }
    ensures read_fault { end ≡ TurnEnd.ReadFault → result ≡ Err (SessionFault.ReadFault count) }
    ensures write_fault { end ≡ TurnEnd.WriteFault → result ≡ Err (SessionFault.WriteFault count) }
    ensures of_read { (n : ℕ) → result ≡ Err (SessionFault.ReadFault n) → end ≡ TurnEnd.ReadFault }
    ensures of_write { (n : ℕ) → result ≡ Err (SessionFault.WriteFault n) → end ≡ TurnEnd.WriteFault }
{
    match end {
        TurnEnd::Ended => Ok(Served::Ended(count)),
        TurnEnd::Cut => Ok(Served::Cut(count)),
        TurnEnd::ReadFault => Err(SessionFault::ReadFault(count)),
        TurnEnd::WriteFault => Err(SessionFault::WriteFault(count)),
    }
}
