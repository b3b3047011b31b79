//! The calls that go on to the route link once their visit lets them.
ghost use Rattle.std.specs.Prelude.{◌≡◌, ◌≤◌, ◌∷◌, [], true, List, map, Option, Result, Some, Ok, Err, IfOk, OnOk};
ghost use Rattle.desk.specs.Passes.{IsSamePass};
ghost use Rattle.hub_devices.specs.Calls.{Grows, is_fault};
ghost use Rattle.hub_devices.specs.Faults.{Rises};
ghost use Rattle.hub_devices.specs.declared.calls.ListedRoute.{ListedRoute};
ghost use Rattle.hub_devices.specs.declared.calls.Routing.{Routing};
ghost use Rattle.hub_devices.specs.declared.calls.Routing.TheVariants as Route;
ghost use Rattle.hub_devices.specs.declared.calls.Told.{Told};
ghost use Rattle.hub_devices.specs.declared.link_error.LinkError.{LinkError};
ghost use Rattle.hub_view.specs.Body.{body_tokens};
ghost use Rattle.hub_view.specs.Json.{maybe, whole};
ghost use Rattle.hub_core.specs.declared.start.Start.{Start};
ghost use Rattle.hub_machine.specs.Answers.{reply_view};
ghost use Rattle.hub_machine.specs.State.{Hub};
ghost use Rattle.hub_run.specs.Routed.{IsListReply, IsSyncReply, listing, syncing, proxy_fault, told_list, way_of};
ghost use Rattle.hub_run.specs.Routed as spec;
ghost use Rattle.hub_run.specs.Steps.{GoesOn, SaysAsked, SaysMade};
ghost use Rattle.hub_run.specs.Turns.{view_of};
ghost use Rattle.hub_run.specs.Written.{written_bytes};
ghost use Rattle.hub_sync.specs.Plans.{IsPlanFor};
ghost use Rattle.hub_sync.specs.Syncing.{SyncTold};
ghost use Rattle.hub_sync.specs.declared.calls.Synced.{Synced};
ghost use Rattle.hub_sync.specs.declared.calls.SyncFault.{SyncFault};
ghost use Rattle.hub_sync.specs.declared.calls.SyncFault.TheVariants as Fault;
ghost use Rattle.server_work.specs.Chains.{sight, Comes};

use crate::written::{Written, text_of};
use desk::{Desk, Pass};
use hub_core::book::Book;
use hub_core::kit::HubKit;
use hub_devices::calls::ListedRoute;
use hub_devices::clock::Clock;
use hub_devices::link_error::LinkError;
use hub_devices::listing::listed_routes;
use hub_devices::random::Random;
use hub_devices::route_link::RouteLink;
use hub_devices::spawner::Spawner;
use hub_kit::text::Text;
use hub_machine::answer::refusal_reply;
use hub_machine::call::Call;
use hub_machine::change::Change;
use hub_machine::refusal::Refusal;
use hub_machine::reply::Reply;
use hub_sync::{SyncFault, Synced, sync_own_routes};
use hub_view::{Body, add_member, line};
use keeper::keeper::Keeper;
use keeper::trail::Trail;
use std::alloc::{AllocError, Global};
use std::sync::Wait;

/// What a call asks of the route link.
#[derive(Clone, Copy)]
pub enum Way {
    /// Its list.
    List,
    /// To come into step with the servers.
    Sync,
}

/// What the call asks of the route link, if it does.
pub(crate) fn way_of(call: &Call) -> Option<Way>
    ensures { result ≡ way_of call.now }
{
    match call {
        Call::GetProxy => Some(Way::List),
        Call::PostProxy => Some(Way::Sync),
        _ => None,
    }
}

/// Where the reply of its visit lets a call go on.
fn lets_by(way: Option<Way>, reply: &Reply) -> Option<Way>
    ensures { result ≡ spec.lets_by way (reply_view reply.now) }
{
    if reply.status == 200 { way } else { None }
}

/// An Ok with this body, with the revision of the visit's reply.
fn with_body(gave: &Reply, body: Body) -> Reply
    ensures { reply_view result ≡ spec.with_body (reply_view gave.now) (body_tokens body) }
{
    Reply {
        status: 200,
        body,
        location: None,
        no_store: false,
        revision: gave.revision,
    }
}

/// A serial, or null where a route has none.
fn serial_body(serial: Option<u64>) -> Body
    ensures { body_tokens result ≡ maybe whole serial }
{
    match serial {
        Some(serial) => Body::Number(serial),
        None => Body::Null,
    }
}

/// A route's serial and target.
fn route_body(alloc: Global, route: &ListedRoute) -> Result<Body, AllocError>
    ensures { IfOk result (λ body. body_tokens body ≡ spec.route_body route.now) }
{
    let mut fields = Vec::new(alloc);
    add_member(
        alloc,
        &mut fields,
        true,
        "serial",
        serial_body(route.serial),
    )?;
    let target = line(alloc, route.target.as_str())?;
    add_member(alloc, &mut fields, true, "target", target)?;
    Ok(Body::Pairs(fields))
}

/// The routes under their paths.
fn routes_body(alloc: Global, routes: &[ListedRoute]) -> Result<Body, AllocError>
    ensures { IfOk result (λ body. body_tokens body ≡ spec.routes_body routes.now) }
{
    let mut fields = Vec::new(alloc);
    for route in routes {
        let body = route_body(alloc, route)?;
        add_member(alloc, &mut fields, true, route.path.as_str(), body)?;
    }
    Ok(Body::Pairs(fields))
}

/// The reply with the routes of a list.
fn list_reply(alloc: Global, gave: &Reply, listed: &[ListedRoute]) -> Result<Reply, AllocError>
    ensures { IfOk result (λ reply. IsListReply (reply_view gave.now) (Ok listed.now) (reply_view reply)) }
{
    let shown = listed_routes(alloc, listed)?;
    let body = routes_body(alloc, shown.as_slice())?;
    Ok(with_body(gave, body))
}

/// The reply with how many routes were added and deleted.
fn synced_reply(alloc: Global, gave: &Reply, synced: Synced) -> Result<Reply, AllocError>
    ensures { IfOk result (λ reply. IsSyncReply (reply_view gave.now) (Ok synced) (reply_view reply)) }
{
    let mut fields = Vec::new(alloc);
    add_member(
        alloc,
        &mut fields,
        true,
        "added",
        Body::Number(synced.added),
    )?;
    add_member(
        alloc,
        &mut fields,
        true,
        "deleted",
        Body::Number(synced.deleted),
    )?;
    Ok(with_body(gave, Body::Pairs(fields)))
}

/// The reply where the route link has failed.
fn fault_reply(alloc: Global, gave: &Reply) -> Result<Reply, AllocError>
    ensures { IfOk result (λ reply. reply_view reply ≡ proxy_fault (reply_view gave.now)) }
{
    let mut reply = refusal_reply(alloc, 0, &Refusal::ProxyFault)?;
    reply.revision = gave.revision;
    Ok(reply)
}

/// The text of a reply that was made, or the text for want of memory.
fn text_of_made(alloc: Global, made: Result<Reply, AllocError>, close: bool) -> (Written, bool)
    ensures says { SaysMade made close (written_bytes result.0) result.1 }
    ensures last { close ≡ true → result.1 ≡ true }
{
    match made {
        Ok(reply) => {
            let text = text_of(alloc, &reply, close);
            // in one call, since it has many parts
            drop(reply);
            text
        }
        Err(_) => (Written::NoMemory, true),
    }
}

/// The text with the routes that the link lists.
fn text_of_list<P: RouteLink>(
    alloc: Global,
    routes: &mut P,
    gave: &Reply,
    close: bool,
) -> (Written, bool)
    ensures asked { (came : Result (List ListedRoute) LinkError) × Grows (P.calls routes.old) ((Route.List, told_list came) ∷ [])
        (P.calls routes.new)
        × SaysAsked (reply_view gave.now) (listing came) close (written_bytes result.0) result.1
        × (is_fault came ≡ true → Rises (P.faults routes.old) (P.faults routes.new)) }
    ensures counted { P.faults routes.old ≤ P.faults routes.new }
    ensures last { close ≡ true → result.1 ≡ true }
{
    match routes.list() {
        Ok(listed) => {
            let made = list_reply(alloc, gave, listed.as_slice());
            drop(listed);
            text_of_made(alloc, made, close)
        }
        Err(LinkError::Failed) => text_of_made(alloc, fault_reply(alloc, gave), close),
        Err(LinkError::Memory) => (Written::NoMemory, true),
    }
}

/// The text that tells how the routes were brought into step.
fn text_of_sync<K: Keeper, T: Trail<Entry = Change>, P: RouteLink, W: Wait>(
    rt: &W,
    alloc: Global,
    desk: &Desk<Book<K, T>>,
    pass: &mut Pass<Book<K, T>>,
    routes: &mut P,
    gave: &Reply,
    close: bool,
) -> (Written, bool)
    requires of { pass.old.of ≡ desk.now }
    ensures same { IsSamePass pass.old pass.new }
    ensures mine { pass.new.mine ≡ pass.old.mine }
    ensures failed { pass.new.failed ≡ pass.old.failed }
    ensures comes { Comes pass.old.alone (sight pass.old) (sight pass.new) }
    ensures asked { (start : Start) → pass.old.base ≡ Some start → (told : List (Routing × Told)) × (end : Result Synced SyncFault)
        × Grows (P.calls routes.old) told (P.calls routes.new)
        × SyncTold (IsPlanFor start pass.new.seen (λ (s : Hub). s.hub_url)) told end × SaysAsked (reply_view gave.now) (syncing told end)
        close (written_bytes result.0) result.1
        × (end ≡ Err Fault.Routes → Rises (P.faults routes.old) (P.faults routes.new)) }
    ensures counted { P.faults routes.old ≤ P.faults routes.new }
    ensures last { close ≡ true → result.1 ≡ true }
{
    match sync_own_routes(rt, alloc, desk, pass, routes) {
        Ok(synced) => text_of_made(alloc, synced_reply(alloc, gave, synced), close),
        Err(SyncFault::Routes) => text_of_made(alloc, fault_reply(alloc, gave), close),
        Err(SyncFault::Memory) => (Written::NoMemory, true),
    }
}

/// The text of the reply that a visit gave; or where this lets the call go on to the route link, of the one that is made of what came.
pub(crate) fn text_of_reply<
    K: Keeper,
    T: Trail<Entry = Change>,
    S: Spawner,
    P: RouteLink,
    C: Clock,
    R: Random,
    W: Wait,
>(
    rt: &W,
    alloc: Global,
    desk: &Desk<Book<K, T>>,
    pass: &mut Pass<Book<K, T>>,
    kit: &mut HubKit<S, P, C, R>,
    way: Option<Way>,
    gave: &Reply,
    close: bool,
) -> (Written, bool)
    requires of { pass.old.of ≡ desk.now }
    ensures of { pass.new.of ≡ pass.old.of }
    ensures base { pass.new.base ≡ pass.old.base }
    ensures alone { pass.new.alone ≡ pass.old.alone }
    ensures goes { (start : Start) → pass.old.base ≡ Some start
        → GoesOn (view_of C.to_come R.left S.calls P.calls R.faults S.faults P.faults pass.old kit.old)
        (view_of C.to_come R.left S.calls P.calls R.faults S.faults P.faults pass.new kit.new)
        (spec.lets_by way (reply_view gave.now)) (reply_view gave.now) close (written_bytes result.0) result.1 }
    ensures last { close ≡ true → result.1 ≡ true }
{
    match lets_by(way, gave) {
        Some(Way::List) => text_of_list(alloc, &mut kit.routes, gave, close),
        Some(Way::Sync) => text_of_sync(rt, alloc, desk, pass, &mut kit.routes, gave, close),
        None => text_of(alloc, gave, close),
    }
}
