//! Brings a proxy's routes into step: the list, one visit, and then the additions and the deletions in order.
ghost use Rattle.std.specs.Prelude.{◌≡◌, ◌≤◌, List, Some, Err, IfOk};
ghost use Rattle.std.specs.Option.{option_copied};
ghost use Rattle.desk.specs.Passes.{IsSamePass};
ghost use Rattle.hub_devices.specs.declared.calls.Routing.{Routing};
ghost use Rattle.hub_devices.specs.declared.calls.Told.{Told};
ghost use Rattle.hub_devices.specs.Calls.{Grows};
ghost use Rattle.hub_devices.specs.Faults.{Rises};
ghost use Rattle.server_work.specs.Chains.{sight, Comes};
ghost use Rattle.hub_core.specs.declared.start.Start.{Start};
ghost use Rattle.hub_machine.specs.State.{Hub};
ghost use Rattle.hub_sync.specs.declared.calls.SyncFault.TheVariants as Fault;
ghost use Rattle.hub_sync.specs.Plans.{IsPlanAt, IsPlanFor, target_of};
ghost use Rattle.hub_sync.specs.Syncing.{SyncTold};

use crate::calls::{RouteCall, SyncFault, Synced, make};
use crate::planning::Planning;
use desk::{Desk, Pass};
use hub_core::book::Book;
use hub_devices::calls::ListedRoute;
use hub_devices::link_error::LinkError;
use hub_devices::route_link::RouteLink;
use hub_kit::target::Target;
use hub_machine::change::Change;
use keeper::keeper::Keeper;
use keeper::trail::Trail;
use std::alloc::{AllocError, Global};
use std::sync::Wait;

/// One visit that tells the calls. It makes no entry.
fn ask_plan<K: Keeper, T: Trail<Entry = Change>, W: Wait>(
    rt: &W,
    alloc: Global,
    desk: &Desk<Book<K, T>>,
    pass: &mut Pass<Book<K, T>>,
    own: bool,
    hub: Option<&Target>,
    listed: &[ListedRoute],
) -> Result<Vec<RouteCall>, AllocError>
    requires of { pass.old.of ≡ desk.now }
    ensures same { IsSamePass pass.old pass.new }
    ensures mine { pass.new.mine ≡ pass.old.mine }
    ensures failed { pass.new.failed ≡ pass.old.failed }
    ensures comes { Comes pass.old.alone (sight pass.old) (sight pass.new) }
    ensures planned { (start : Start) → pass.old.base ≡ Some start
        → IfOk result (λ calls. IsPlanFor start pass.new.seen (target_of own (option_copied hub.entry)) listed.now calls.items) }
{
    let mut planning = Planning {
        alloc,
        own,
        hub,
        listed,
        acted: false,
    };
    desk.visit(rt, pass, &mut planning)
}

/// Brings the routes into step, with the hub's own route to the book's target or to the given one.
fn sync_with<K: Keeper, T: Trail<Entry = Change>, P: RouteLink, W: Wait>(
    rt: &W,
    alloc: Global,
    desk: &Desk<Book<K, T>>,
    pass: &mut Pass<Book<K, T>>,
    routes: &mut P,
    own: bool,
    hub: Option<&Target>,
) -> Result<Synced, SyncFault>
    requires of { pass.old.of ≡ desk.now }
    ensures same { IsSamePass pass.old pass.new }
    ensures mine { pass.new.mine ≡ pass.old.mine }
    ensures failed { pass.new.failed ≡ pass.old.failed }
    ensures comes { Comes pass.old.alone (sight pass.old) (sight pass.new) }
    ensures told { (start : Start) → pass.old.base ≡ Some start → (told : List (Routing × Told))
        × Grows (P.calls routes.old) told (P.calls routes.new)
        × SyncTold (IsPlanFor start pass.new.seen (target_of own (option_copied hub.entry))) told result }
    ensures counted { P.faults routes.old ≤ P.faults routes.new }
    ensures cause { result ≡ Err Fault.Routes → Rises (P.faults routes.old) (P.faults routes.new) }
{
    let listed = match routes.list() {
        Ok(listed) => listed,
        Err(LinkError::Failed) => return Err(SyncFault::Routes),
        Err(LinkError::Memory) => return Err(SyncFault::Memory),
    };
    let calls = match ask_plan(rt, alloc, desk, pass, own, hub, listed.as_slice()) {
        Ok(calls) => calls,
        Err(_) => return Err(SyncFault::Memory),
    };
    match make(routes, calls.as_slice()) {
        Ok(synced) => Ok(synced),
        Err(_) => Err(SyncFault::Routes),
    }
}

/// Brings the routes of a proxy into step with the servers: lists the routes, looks once which servers are ready and which listed
/// generations are live, and then adds and deletes in order up to the first call that fails. The hub's own route is added where its
/// target is given. It makes no entry, and takes all its memory before the first change of a route.
pub fn sync_routes<K: Keeper, T: Trail<Entry = Change>, P: RouteLink, W: Wait>(
    rt: &W,
    alloc: Global,
    desk: &Desk<Book<K, T>>,
    pass: &mut Pass<Book<K, T>>,
    routes: &mut P,
    hub: Option<&Target>,
) -> Result<Synced, SyncFault>
    requires of { pass.old.of ≡ desk.now }
    ensures same { IsSamePass pass.old pass.new }
    ensures mine { pass.new.mine ≡ pass.old.mine }
    ensures failed { pass.new.failed ≡ pass.old.failed }
    ensures comes { Comes pass.old.alone (sight pass.old) (sight pass.new) }
    ensures told { (start : Start) → pass.old.base ≡ Some start → (told : List (Routing × Told))
        × Grows (P.calls routes.old) told (P.calls routes.new) × SyncTold (IsPlanAt start pass.new.seen (option_copied hub.entry)) told
        result }
    ensures counted { P.faults routes.old ≤ P.faults routes.new }
    ensures cause { result ≡ Err Fault.Routes → Rises (P.faults routes.old) (P.faults routes.new) }
{
    sync_with(rt, alloc, desk, pass, routes, false, hub)
}

/// The same with the hub's own target, which its book has.
pub fn sync_own_routes<K: Keeper, T: Trail<Entry = Change>, P: RouteLink, W: Wait>(
    rt: &W,
    alloc: Global,
    desk: &Desk<Book<K, T>>,
    pass: &mut Pass<Book<K, T>>,
    routes: &mut P,
) -> Result<Synced, SyncFault>
    requires of { pass.old.of ≡ desk.now }
    ensures same { IsSamePass pass.old pass.new }
    ensures mine { pass.new.mine ≡ pass.old.mine }
    ensures failed { pass.new.failed ≡ pass.old.failed }
    ensures comes { Comes pass.old.alone (sight pass.old) (sight pass.new) }
    ensures told { (start : Start) → pass.old.base ≡ Some start → (told : List (Routing × Told))
        × Grows (P.calls routes.old) told (P.calls routes.new) × SyncTold (IsPlanFor start pass.new.seen (λ (s : Hub). s.hub_url)) told
        result }
    ensures counted { P.faults routes.old ≤ P.faults routes.new }
    ensures cause { result ≡ Err Fault.Routes → Rises (P.faults routes.old) (P.faults routes.new) }
{
    sync_with(rt, alloc, desk, pass, routes, true, None)
}
