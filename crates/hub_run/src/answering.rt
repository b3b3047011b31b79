//! The reply to a request.
ghost use Rattle.std.specs.Prelude.{◌≡◌, ◌||◌, ℕ, true, Bool, List, Some, Ok};
ghost use Rattle.http_wire.specs.Request.{IsRequestText};
ghost use Rattle.http_wire.specs.declared.request.Request.{Request};
ghost use Rattle.hub_api.specs.Calls.{call_read};
ghost use Rattle.hub_core.specs.declared.start.Start.{Start};
ghost use Rattle.hub_run.specs.Steps.{Made};
ghost use Rattle.hub_run.specs.Turns.{view_of};
ghost use Rattle.hub_run.specs.Works.{path_for};
ghost use Rattle.hub_run.specs.Written.{written_bytes};

use crate::routed::{text_of_reply, way_of};
use crate::visit::{Unanswered, ask};
use crate::works::{path_for, work_done};
use crate::written::{Written, text_of_no_draw, text_of_refusal, text_of_tale};
use desk::{Desk, Pass};
use http_wire::request::Request;
use hub_api::{ApiRefusal, read_call};
use hub_core::book::Book;
use hub_core::kit::HubKit;
use hub_devices::clock::Clock;
use hub_devices::random::Random;
use hub_devices::route_link::RouteLink;
use hub_devices::spawner::Spawner;
use hub_kit::text::Text;
use hub_machine::call::Asked;
use hub_machine::change::Change;
use hub_machine::reply::Outcome;
use keeper::keeper::Keeper;
use keeper::trail::Trail;
use std::alloc::Global;
use std::sync::Wait;

/// The reply to a request, with whether the connection is to be closed.
pub(crate) fn answer<
    K: Keeper,
    T: Trail<Entry = Change>,
    S: Spawner,
    P: RouteLink,
    C: Clock,
    R: Random,
    W: Wait,
>(
    rt: &W,
    alloc: Global,
    desk: &Desk<Book<K, T>>,
    pass: &mut Pass<Book<K, T>>,
    kit: &mut HubKit<S, P, C, R>,
    request: Request,
    last: bool,
) -> (Written, bool)
    requires of { pass.old.of ≡ desk.now }
    ensures of { pass.new.of ≡ pass.old.of }
    ensures base { pass.new.base ≡ pass.old.base }
    ensures alone { pass.new.alone ≡ pass.old.alone }
    ensures last { last ≡ true → result.1 ≡ true }
    ensures answers { (start : Start) → pass.old.base ≡ Some start → (text : List ℕ) → IsRequestText request text
        → Made start (view_of C.to_come R.left S.calls P.calls R.faults S.faults P.faults pass.old kit.old)
        (view_of C.to_come R.left S.calls P.calls R.faults S.faults P.faults pass.new kit.new)
        text last (written_bytes result.0) result.1 }
{
    let close = closes_after(&request, last);
    match read_call(alloc, request) {
        Ok(asked) => match path_for(alloc, &asked.call) {
            Ok(path) => answer_call(rt, alloc, desk, pass, kit, asked, path, close),
            Err(_) => {
                drop(asked);
                (Written::NoMemory, true)
            }
        },
        Err(ApiRefusal::Memory) => (Written::NoMemory, true),
        Err(refusal) => text_of_refusal(alloc, refusal, close),
    }
}

/// Visits the book with a call, and does what its answer owes by the path of its server, or asks the route link what it lets the call ask.
fn answer_call<
    K: Keeper,
    T: Trail<Entry = Change>,
    S: Spawner,
    P: RouteLink,
    C: Clock,
    R: Random,
    W: Wait,
>(
    rt: &W,
    alloc: Global,
    desk: &Desk<Book<K, T>>,
    pass: &mut Pass<Book<K, T>>,
    kit: &mut HubKit<S, P, C, R>,
    asked: Asked,
    path: Text,
    close: bool,
) -> (Written, bool)
    requires of { pass.old.of ≡ desk.now }
    requires path { path ≡ path_for asked.call }
    ensures of { pass.new.of ≡ pass.old.of }
    ensures base { pass.new.base ≡ pass.old.base }
    ensures alone { pass.new.alone ≡ pass.old.alone }
    ensures last { close ≡ true → result.1 ≡ true }
    ensures answers { (start : Start) → pass.old.base ≡ Some start → (request : Request) → (text : List ℕ) → (last : Bool)
        → IsRequestText request text → call_read request ≡ Ok asked
        → close ≡ (request.close || last)
        → Made start (view_of C.to_come R.left S.calls P.calls R.faults S.faults P.faults pass.old kit.old)
        (view_of C.to_come R.left S.calls P.calls R.faults S.faults P.faults pass.new kit.new)
        text last (written_bytes result.0) result.1 }
{
    let way = way_of(&asked.call);
    match ask(rt, alloc, desk, pass, kit, asked) {
        Ok(Outcome::Work(work)) => {
            let owed = work.todo;
            let told = work_done(rt, desk, pass, kit, work, path);
            text_of_tale(alloc, owed, told, close)
        }
        Ok(Outcome::Answer(reply)) => {
            drop(path);
            let text = text_of_reply(rt, alloc, desk, pass, kit, way, &reply, close);
            // in one call, since it has many parts
            drop(reply);
            text
        }
        Err(Unanswered::NoDraw) => {
            drop(path);
            text_of_no_draw(alloc, close)
        }
        Err(Unanswered::Memory) => {
            drop(path);
            (Written::NoMemory, true)
        }
    }
}

/// Whether the connection closes after a request.
fn closes_after(request: &Request, last: bool) -> bool
    ensures value { result ≡ (request.now.close || last) }
    ensures last { last ≡ true → result ≡ true }
{
    request.close || last
}
