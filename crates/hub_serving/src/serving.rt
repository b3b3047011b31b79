//! What is done over the book of `serve`.
ghost use Rattle.std.specs.Prelude.{◌≡◌, ◌==◌, ◌≤◌, ◌<◌, ◌^◌, ◌↔◌, [], true, IsTrue, Some, Err, IfSome, IsSome, IfErr, is_ok, length, map};
ghost use mathlib.Core.List.{IsPrefix};
ghost use Rattle.hub_config.specs.Managed.{are_distinct};
ghost use Rattle.hub_core.specs.Visits.{entries_of};
ghost use Rattle.hub_core.specs.declared.start.Start.{Start};
ghost use Rattle.hub_serve.specs.Ends.{IsFault};
ghost use Rattle.hub_serve.specs.Given.{GaveMore};
ghost use Rattle.hub_serve.specs.Sessions.{devices_of};
ghost use Rattle.service_doors.specs.Tending.{Tends, services_told};
ghost use Rattle.services_run.specs.New.{ArePlaced};
ghost use Rattle.hub_serving.specs.Services.{service_of};
ghost use Rattle.hub_serving.specs.Hall.{SidesTell, hall, view_in};
ghost use Rattle.hub_serving.specs.Served as spec;

use crate::end::{End, NotServed};
use crate::line::end_of;
use crate::plan::Plan;
use crate::services::services_of;
use crate::world::{ServeOutside, ServeWorld};
use desk::{Desk, Pass};
use hub_adopt::adopt;
use hub_core::book::Book;
use hub_machine::change::Change;
use hub_main::cause::Cause;
use hub_run::HubKit;
use hub_serve::{ServeFault, serve};
use hub_sync::{SyncFault, Synced, sync_routes};
use keeper::trail::Trail;
use service_doors::doors::{Front, Season, TendedDoors, halt};
use service_doors::kit::ServiceKit;
use services_run::services::Services;
use std::alloc::Global;
use std::marker::Brand;
use std::sync::Wait;
use std::thread::Threads;

/// Takes the running servers back, brings the routes into step, and serves connections with the services, over a book without entries. It
/// gives the store that the book kept its rows in.
pub(crate) fn serve_book<W: ServeWorld, T: Trail<Entry = Change> + Send, R: Threads + Wait + Sync>(
    rt: &R,
    alloc: Global,
    book: Book<W::Store, T>,
    plan: &Plan,
    outside: &mut ServeOutside<W>,
) -> (End, W::Store)
    requires new { entries_of book ≡ [] }
    requires kits { 0 < length outside.old.kits.items }
    requires apart { are_distinct plan.now.managed ≡ true }
    ensures ends { spec.EndsOver W.Store.Tells W.Store.rows W.Store.faults
        (SidesTell W.Doors.are_sides W.Doors.In.left W.Doors.Out.held) book.start book.faults plan.now
        (hall W.Out.held W.Out.faults W.Doors.given W.Doors.faults W.Time.to_come W.Draws.left W.Starts.calls W.Paths.calls W.Draws.faults
        W.Starts.faults W.Paths.faults W.Runs.calls W.Runs.faults
        outside.old.output outside.old.doors outside.old.kit outside.old.kits.items outside.old.services)
        (hall W.Out.held W.Out.faults W.Doors.given W.Doors.faults W.Time.to_come W.Draws.left W.Starts.calls W.Paths.calls W.Draws.faults
        W.Starts.faults W.Paths.faults W.Runs.calls W.Runs.faults
        outside.new.output outside.new.doors outside.new.kit outside.new.kits.items outside.new.services) result.1 result.0 }
    ensures counted { book.faults ≤ W.Store.faults result.1 }
    ensures writes { W.Out.faults outside.old.output ≤ W.Out.faults outside.new.output }
    ensures had { W.Store.Tells result.1 → IsTrue book.start.has_rows }
{
    match Desk::open(alloc, book) {
        Ok((desk, pass)) => serve_desk(rt, alloc, desk, pass, plan, outside),
        Err((book, _)) => {
            let (store, trail) = book.into_parts();
            drop(trail);
            (Err(NotServed::Because(Cause::Memory)), store)
        }
    }
}

/// The same by the first pass of a desk.
fn serve_desk<W: ServeWorld, T: Trail<Entry = Change> + Send, R: Threads + Wait + Sync>(
    rt: &R,
    alloc: Global,
    desk: Desk<Book<W::Store, T>>,
    mut pass: Pass<Book<W::Store, T>>,
    plan: &Plan,
    outside: &mut ServeOutside<W>,
) -> (End, W::Store)
    requires of { pass.of ≡ desk }
    requires alone { pass.alone ≡ true }
    requires new { pass.seen ≡ [] }
    requires kits { 0 < length outside.old.kits.items }
    requires apart { are_distinct plan.now.managed ≡ true }
    ensures ends { (start : Start) → pass.base ≡ Some start → spec.EndsDesk W.Store.Tells W.Store.rows W.Store.faults
        (SidesTell W.Doors.are_sides W.Doors.In.left W.Doors.Out.held) start pass plan.now
        (hall W.Out.held W.Out.faults W.Doors.given W.Doors.faults W.Time.to_come W.Draws.left W.Starts.calls W.Paths.calls W.Draws.faults
        W.Starts.faults W.Paths.faults W.Runs.calls W.Runs.faults
        outside.old.output outside.old.doors outside.old.kit outside.old.kits.items outside.old.services)
        (hall W.Out.held W.Out.faults W.Doors.given W.Doors.faults W.Time.to_come W.Draws.left W.Starts.calls W.Paths.calls W.Draws.faults
        W.Starts.faults W.Paths.faults W.Runs.calls W.Runs.faults
        outside.new.output outside.new.doors outside.new.kit outside.new.kits.items outside.new.services) result.1 result.0 }
    ensures counted { pass.faults ≤ W.Store.faults result.1 }
    ensures writes { W.Out.faults outside.old.output ≤ W.Out.faults outside.new.output }
    ensures had { (start : Start) → pass.base ≡ Some start → W.Store.Tells result.1 → IsTrue start.has_rows }
{
    match adopt(rt, alloc, &desk, &mut pass, &mut outside.kit) {
        Ok(_) => serve_synced(rt, alloc, desk, pass, plan, outside),
        Err(_) => {
            let (store, trail) = desk.close(rt, pass).into_parts();
            drop(trail);
            (Err(NotServed::Because(Cause::Memory)), store)
        }
    }
}

/// Whether memory was wanting to bring the routes into step.
fn is_wanting(answer: Result<Synced, SyncFault>) -> bool
    ensures { IsTrue result ↔ (answer ≡ Err SyncFault.Memory) }
{
    match answer {
        Ok(_) => false,
        Err(SyncFault::Routes) => false,
        Err(SyncFault::Memory) => true,
    }
}

/// Brings the routes into step with the servers and the hub's own target, and serves connections. A link that fails keeps nobody from being
/// served: what its proxy lacks is added at the next start.
fn serve_synced<W: ServeWorld, T: Trail<Entry = Change> + Send, R: Threads + Wait + Sync>(
    rt: &R,
    alloc: Global,
    desk: Desk<Book<W::Store, T>>,
    mut pass: Pass<Book<W::Store, T>>,
    plan: &Plan,
    outside: &mut ServeOutside<W>,
) -> (End, W::Store)
    requires of { pass.of ≡ desk }
    requires alone { pass.alone ≡ true }
    requires kits { 0 < length outside.old.kits.items }
    requires apart { are_distinct plan.now.managed ≡ true }
    ensures ends { (start : Start) → pass.base ≡ Some start → spec.EndsSynced W.Store.Tells W.Store.rows W.Store.faults
        (SidesTell W.Doors.are_sides W.Doors.In.left W.Doors.Out.held) start pass plan.now
        (hall W.Out.held W.Out.faults W.Doors.given W.Doors.faults W.Time.to_come W.Draws.left W.Starts.calls W.Paths.calls W.Draws.faults
        W.Starts.faults W.Paths.faults W.Runs.calls W.Runs.faults
        outside.old.output outside.old.doors outside.old.kit outside.old.kits.items outside.old.services)
        (hall W.Out.held W.Out.faults W.Doors.given W.Doors.faults W.Time.to_come W.Draws.left W.Starts.calls W.Paths.calls W.Draws.faults
        W.Starts.faults W.Paths.faults W.Runs.calls W.Runs.faults
        outside.new.output outside.new.doors outside.new.kit outside.new.kits.items outside.new.services) result.1 result.0 }
    ensures counted { pass.faults ≤ W.Store.faults result.1 }
    ensures writes { W.Out.faults outside.old.output ≤ W.Out.faults outside.new.output }
    ensures had { (start : Start) → pass.base ≡ Some start → W.Store.Tells result.1 → IsTrue start.has_rows }
{
    let hub = plan.hub.hub_url.as_ref();
    let answer = sync_routes(rt, alloc, &desk, &mut pass, &mut outside.kit.routes, hub);
    if is_wanting(answer) {
        let (store, trail) = desk.close(rt, pass).into_parts();
        drop(trail);
        return (Err(NotServed::Because(Cause::Memory)), store);
    }
    serve_ready(rt, alloc, desk, pass, plan, outside)
}

/// Serves connections and tends the services, once the running servers are taken back and the routes are in step.
fn serve_ready<W: ServeWorld, T: Trail<Entry = Change> + Send, R: Threads + Wait + Sync>(
    rt: &R,
    alloc: Global,
    desk: Desk<Book<W::Store, T>>,
    pass: Pass<Book<W::Store, T>>,
    plan: &Plan,
    outside: &mut ServeOutside<W>,
) -> (End, W::Store)
    requires of { pass.of ≡ desk }
    requires alone { pass.alone ≡ true }
    requires kits { 0 < length outside.old.kits.items }
    requires apart { are_distinct plan.now.managed ≡ true }
    ensures ends { (start : Start) → pass.base ≡ Some start → spec.EndsReady W.Store.Tells W.Store.rows W.Store.faults
        (SidesTell W.Doors.are_sides W.Doors.In.left W.Doors.Out.held) start pass plan.now
        (hall W.Out.held W.Out.faults W.Doors.given W.Doors.faults W.Time.to_come W.Draws.left W.Starts.calls W.Paths.calls W.Draws.faults
        W.Starts.faults W.Paths.faults W.Runs.calls W.Runs.faults
        outside.old.output outside.old.doors outside.old.kit outside.old.kits.items outside.old.services)
        (hall W.Out.held W.Out.faults W.Doors.given W.Doors.faults W.Time.to_come W.Draws.left W.Starts.calls W.Paths.calls W.Draws.faults
        W.Starts.faults W.Paths.faults W.Runs.calls W.Runs.faults
        outside.new.output outside.new.doors outside.new.kit outside.new.kits.items outside.new.services) result.1 result.0 }
    ensures counted { pass.faults ≤ W.Store.faults result.1 }
    ensures writes { W.Out.faults outside.old.output ≤ W.Out.faults outside.new.output }
    ensures had { (start : Start) → pass.base ≡ Some start → W.Store.Tells result.1 → IsTrue start.has_rows }
{
    match services_of(alloc, plan.managed.as_slice()) {
        Ok(services) => serve_attended(rt, alloc, desk, pass, plan, services, outside),
        Err(_) => {
            let (store, trail) = desk.close(rt, pass).into_parts();
            drop(trail);
            (Err(NotServed::Because(Cause::Memory)), store)
        }
    }
}

/// The same with services that are all down. They are stopped at the end.
fn serve_attended<W: ServeWorld, T: Trail<Entry = Change> + Send, R: Threads + Wait + Sync>(
    rt: &R,
    alloc: Global,
    desk: Desk<Book<W::Store, T>>,
    pass: Pass<Book<W::Store, T>>,
    plan: &Plan,
    services: Services,
    outside: &mut ServeOutside<W>,
) -> (End, W::Store)
    requires of { pass.of ≡ desk }
    requires alone { pass.alone ≡ true }
    requires kits { 0 < length outside.old.kits.items }
    requires services { ArePlaced (map service_of plan.now.managed) services.places × (services.last ≡ 0) }
    requires few { length plan.now.managed < 2 ^ 32 }
    ensures ends { (start : Start) → pass.base ≡ Some start → spec.EndsReady W.Store.Tells W.Store.rows W.Store.faults
        (SidesTell W.Doors.are_sides W.Doors.In.left W.Doors.Out.held) start pass plan.now
        (hall W.Out.held W.Out.faults W.Doors.given W.Doors.faults W.Time.to_come W.Draws.left W.Starts.calls W.Paths.calls W.Draws.faults
        W.Starts.faults W.Paths.faults W.Runs.calls W.Runs.faults
        outside.old.output outside.old.doors outside.old.kit outside.old.kits.items outside.old.services)
        (hall W.Out.held W.Out.faults W.Doors.given W.Doors.faults W.Time.to_come W.Draws.left W.Starts.calls W.Paths.calls W.Draws.faults
        W.Starts.faults W.Paths.faults W.Runs.calls W.Runs.faults
        outside.new.output outside.new.doors outside.new.kit outside.new.kits.items outside.new.services) result.1 result.0 }
    ensures counted { pass.faults ≤ W.Store.faults result.1 }
    ensures writes { W.Out.faults outside.old.output ≤ W.Out.faults outside.new.output }
    ensures had { (start : Start) → pass.base ≡ Some start → W.Store.Tells result.1 → IsTrue start.has_rows }
{
    let (book, count, served, services) = serve_services::<W, T, R>(
        rt,
        alloc,
        desk,
        pass,
        &mut outside.doors,
        &mut outside.services,
        services,
        &mut outside.kits,
        plan.connections,
    );
    let mut services = services;
    halt(&mut services, &mut outside.services);
    outside.stopped = Some(services);
    let (store, trail) = book.into_parts();
    drop(trail);
    (end_of(alloc, &mut outside.output, count, served), store)
}

/// Serves connections and tends the services: once before the first connection, and once after each.
fn serve_services<W: ServeWorld, T: Trail<Entry = Change> + Send, R: Threads + Wait + Sync>(
    rt: &R,
    alloc: Global,
    desk: Desk<Book<W::Store, T>>,
    pass: Pass<Book<W::Store, T>>,
    doors: &mut W::Doors,
    kit: &mut ServiceKit<W::Runs, W::Paths, W::Time>,
    services: Services,
    kits: &mut Vec<HubKit<W::Starts, W::Paths, W::Time, W::Draws>>,
    connections: u64,
) -> (Book<W::Store, T>, u64, Result<(), ServeFault>, Services)
    requires of { pass.of ≡ desk }
    requires alone { pass.alone ≡ true }
    requires kits { 0 < length kits.old.items }
    ensures begins { IsPrefix pass.seen (entries_of result.0) }
    ensures base { pass.base ≡ Some result.0.start }
    ensures counted { pass.faults ≤ result.0.faults }
    ensures given { GaveMore (W.Doors.given doors.old) result.1 (W.Doors.given doors.new) }
    ensures most { result.1 ≤ connections }
    ensures all { is_ok result.2 ≡ (result.1 == connections) }
    ensures fault { IfErr result.2 (IsFault result.1 (W.Doors.faults doors.old) (W.Doors.faults doors.new)) }
    ensures served { spec.AreServedBy (SidesTell W.Doors.are_sides W.Doors.In.left W.Doors.Out.held)
        result.0.start pass (entries_of result.0) result.1
        (map (devices_of W.Time.to_come W.Draws.left W.Starts.calls W.Paths.calls W.Draws.faults W.Starts.faults W.Paths.faults)
        kits.old.items)
        (map (devices_of W.Time.to_come W.Draws.left W.Starts.calls W.Paths.calls W.Draws.faults W.Starts.faults W.Paths.faults)
        kits.new.items) }
    ensures untouched { result.2 ≡ Err ServeFault.Memory → (W.Doors.given doors.new ≡ W.Doors.given doors.old)
        × (W.Doors.faults doors.new ≡ W.Doors.faults doors.old) }
    ensures tended { ∥ Tends services (services_told W.Runs.calls W.Paths.calls W.Time.to_come W.Runs.faults W.Paths.faults kit.old)
        (W.Doors.given doors.old)
        result.3 (services_told W.Runs.calls W.Paths.calls W.Time.to_come W.Runs.faults W.Paths.faults kit.new)
        (W.Doors.given doors.new) ∥₁ }
{
    let mut left = None;
    let front = Front::new(doors, kit);
    let ended = serve_tended::<Brand, W, T, R>(
        rt,
        alloc,
        desk,
        pass,
        front,
        services,
        kits,
        connections,
        &mut left,
    );
    let (count, served) = (ended.0, ended.1);
    let Some((book, services)) = left else {
        unreachable!()
    };
    (book, count, served, services)
}

/// Serves connections through a listener that tends the services, where the type N stands for this use of it. What was lent comes back; the
/// book and the services are left apart, since a result that owns memory would keep the borrows from ending.
fn serve_tended<
    'a,
    N: Season + Send,
    W: ServeWorld,
    T: Trail<Entry = Change> + Send,
    R: Threads + Wait + Sync,
>(
    rt: &R,
    alloc: Global,
    desk: Desk<Book<W::Store, T>>,
    pass: Pass<Book<W::Store, T>>,
    front: Front<'a, W::Doors, W::Runs, W::Paths, W::Time>,
    services: Services,
    kits: &mut Vec<HubKit<W::Starts, W::Paths, W::Time, W::Draws>>,
    connections: u64,
    left: &mut Option<(Book<W::Store, T>, Services)>,
) -> (
    u64,
    Result<(), ServeFault>,
    Front<'a, W::Doors, W::Runs, W::Paths, W::Time>,
)
    requires of { pass.of ≡ desk }
    requires alone { pass.alone ≡ true }
    requires kits { 0 < length kits.old.items }
    requires doors { front.doors.ghost_name ≡ N.doors }
    requires kit { front.kit.ghost_name ≡ N.kit }
    requires book { services ≡ N.book }
    requires told { services_told W.Runs.calls W.Paths.calls W.Time.to_come W.Runs.faults W.Paths.faults front.kit.now ≡ N.told }
    requires given { W.Doors.given front.doors.now ≡ N.given }
    requires faults { W.Doors.faults front.doors.now ≡ N.faults }
    ensures left { IsSome left.new }
    ensures begins { IfSome left.new (λ l. IsPrefix pass.seen (entries_of l.0)) }
    ensures base { IfSome left.new (λ l. pass.base ≡ Some l.0.start) }
    ensures counted { IfSome left.new (λ l. pass.faults ≤ l.0.faults) }
    ensures given { GaveMore N.given result.0 (W.Doors.given result.2.doors.now) }
    ensures most { result.0 ≤ connections }
    ensures all { is_ok result.1 ≡ (result.0 == connections) }
    ensures fault { IfErr result.1 (IsFault result.0 N.faults (W.Doors.faults result.2.doors.now)) }
    ensures served { IfSome left.new (λ l. spec.AreServedBy (SidesTell W.Doors.are_sides W.Doors.In.left W.Doors.Out.held)
        l.0.start pass (entries_of l.0) result.0
        (map (devices_of W.Time.to_come W.Draws.left W.Starts.calls W.Paths.calls W.Draws.faults W.Starts.faults W.Paths.faults)
        kits.old.items)
        (map (devices_of W.Time.to_come W.Draws.left W.Starts.calls W.Paths.calls W.Draws.faults W.Starts.faults W.Paths.faults)
        kits.new.items)) }
    ensures untouched { result.1 ≡ Err ServeFault.Memory → (W.Doors.given result.2.doors.now ≡ N.given)
        × (W.Doors.faults result.2.doors.now ≡ N.faults) }
    ensures same_doors { result.2.doors.ghost_name ≡ front.entry.doors.ghost_name }
    ensures same_kit { result.2.kit.ghost_name ≡ front.entry.kit.ghost_name }
    ensures tended { IfSome left.new (λ l. ∥ Tends N.book N.told N.given l.1
        (services_told W.Runs.calls W.Paths.calls W.Time.to_come W.Runs.faults W.Paths.faults result.2.kit.now)
        (W.Doors.given result.2.doors.now) ∥₁) }
{
    let mut doors = TendedDoors::<'a, W::Doors, W::Runs, W::Paths, W::Time, N>::new(
        front, services,
    );
    let (book, tally, served) = serve(rt, alloc, desk, pass, &mut doors, kits, connections);
    let (front, services) = doors.end();
    *left = Some((book, services));
    (tally.count(), served, front)
}
