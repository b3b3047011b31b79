//! The work that a start or a stop owes.
ghost use Rattle.std.specs.Prelude.{◌≡◌, IfOk};
ghost use Rattle.hub_core.specs.Works.{IsSound};
ghost use Rattle.hub_run.specs.Turns.{Errand, Drives, view_of};
ghost use Rattle.hub_run.specs.Works as spec;
ghost use Rattle.hub_run.specs.Works.{errand_of};

use desk::{Desk, Pass};
use hub_core::book::Book;
use hub_core::kit::HubKit;
use hub_devices::clock::Clock;
use hub_devices::random::Random;
use hub_devices::route_link::RouteLink;
use hub_devices::spawner::Spawner;
use hub_kit::text::Text;
use hub_machine::call::Call;
use hub_machine::change::Change;
use hub_machine::work::Work;
use keeper::keeper::Keeper;
use keeper::trail::Trail;
use server_work::chain::drive;
use server_work::route::route_path;
use server_work::tale::Tale;
use std::alloc::{AllocError, Global};
use std::sync::Wait;

/// The path of the server that a call starts or stops, which is made before its visit so that no memory is wanting after it. That of
/// another call is empty.
pub(crate) fn path_for(alloc: Global, call: &Call) -> Result<Text, AllocError>
    ensures { IfOk result (λ path. path ≡ spec.path_for call.now) }
{
    match call {
        Call::PostServer { server } => route_path(alloc, server),
        Call::DeleteServer { server, .. } => route_path(alloc, server),
        _ => Ok(Text::new(alloc)),
    }
}

/// Does the work by the path of its server's route: makes the call that is owed, and all that are owed after it. The turn isn't held
/// meanwhile.
pub(crate) fn work_done<
    K: Keeper,
    T: Trail<Entry = Change>,
    S: Spawner,
    P: RouteLink,
    C: Clock,
    R: Random,
    W: Wait,
>(
    rt: &W,
    desk: &Desk<Book<K, T>>,
    pass: &mut Pass<Book<K, T>>,
    kit: &mut HubKit<S, P, C, R>,
    work: Work,
    path: Text,
) -> Option<Tale>
    requires of { pass.old.of ≡ desk.now }
    requires sound { IsSound work }
    ensures of { pass.new.of ≡ pass.old.of }
    ensures base { pass.new.base ≡ pass.old.base }
    ensures alone { pass.new.alone ≡ pass.old.alone }
    ensures done { (e : Errand) × (e.work ≡ errand_of path work) × (e.owed ≡ work.todo) × (e.tale ≡ result)
        × Drives (view_of C.to_come R.left S.calls P.calls R.faults S.faults P.faults pass.old kit.old) e
        (view_of C.to_come R.left S.calls P.calls R.faults S.faults P.faults pass.new kit.new) }
{
    let Work {
        generation,
        server,
        target,
        todo,
        secret,
    } = work;
    let errand = server_work::work::Work {
        generation,
        server,
        path,
        target,
        secret,
    };
    let told = drive(
        rt,
        desk,
        pass,
        &mut kit.spawner,
        &mut kit.routes,
        &errand,
        todo,
    );
    // in one call, since it has many parts
    drop(errand);
    told
}
