//! The servers that are being adopted are driven to their ends, one after the other.
ghost use Rattle.std.specs.Prelude.{◌≡◌, ◌≤◌, Some, IfOk, IfErr};
ghost use Rattle.hub_adopt.specs.Adopting.{Looks, TakesBack};
ghost use Rattle.hub_core.specs.declared.start.Start.{Start};
ghost use Rattle.hub_core.specs.Views.{view_of};

use crate::search::Search;
use crate::works::works_for;
use desk::{Desk, Pass};
use hub_core::book::Book;
use hub_core::kit::HubKit;
use hub_devices::clock::Clock;
use hub_devices::random::Random;
use hub_devices::route_link::RouteLink;
use hub_devices::spawner::Spawner;
use hub_machine::change::Change;
use keeper::keeper::Keeper;
use keeper::trail::Trail;
use server_work::adopt::Adopted;
use std::alloc::{AllocError, Global};
use std::sync::Wait;

/// Takes back the servers that are being adopted: looks once which they are, and drives one chain for each, in the order of their targets.
/// Tells how many ended ready, stopped and parked. All that needs memory is made before the first call, and the turn isn't held during one.
pub fn adopt<
    K: Keeper,
    T: Trail<Entry = Change>,
    S: Spawner,
    P: RouteLink,
    C: Clock,
    R: Random,
    W: Wait,
>(
    rt: &W,
    alloc: Global,
    desk: &Desk<Book<K, T>>,
    pass: &mut Pass<Book<K, T>>,
    kit: &mut HubKit<S, P, C, R>,
) -> Result<Adopted, AllocError>
    requires of { pass.old.of ≡ desk.now }
    ensures of { pass.new.of ≡ pass.old.of }
    ensures base { pass.new.base ≡ pass.old.base }
    ensures alone { pass.new.alone ≡ pass.old.alone }
    ensures counted { pass.old.faults ≤ pass.new.faults }
    ensures adopted { (start : Start) → pass.old.base ≡ Some start
        → IfOk result (λ told. TakesBack start (view_of C.to_come R.left S.calls P.calls R.faults S.faults P.faults pass.old kit.old) told
        (view_of C.to_come R.left S.calls P.calls R.faults S.faults P.faults pass.new kit.new)) }
    // no call was made
    ensures memory { IfErr result (λ e. Looks (view_of C.to_come R.left S.calls P.calls R.faults S.faults P.faults pass.old kit.old)
        (view_of C.to_come R.left S.calls P.calls R.faults S.faults P.faults pass.new kit.new)) }
{
    let mut search = Search::new(alloc);
    let servers = desk.visit(rt, pass, &mut search)?;
    let works = works_for(alloc, servers.as_slice());
    drop(servers);
    let works = works?;
    let told = server_work::adopt::adopt(
        rt,
        desk,
        pass,
        &mut kit.spawner,
        &mut kit.routes,
        works.as_slice(),
    );
    drop(works);
    Ok(told)
}
