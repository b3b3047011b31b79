//! The calls that bring a proxy's routes into step.
ghost use Rattle.std.specs.Prelude.{◌≡◌, ◌≤◌, ◌<◌, ◌-◌, ◌^◌, ◌+◌, List, [], ◌∷◌, map, IfOk, OnErr};
ghost use Rattle.hub_devices.specs.declared.calls.Routing.{Routing};
ghost use Rattle.hub_devices.specs.declared.calls.Told.{Told};
ghost use Rattle.hub_devices.specs.Calls.{Grows, told_unit};
ghost use Rattle.hub_devices.specs.Faults.{Rises};
ghost use Rattle.hub_sync.specs.Syncing.{asked_of, added_one, deleted_one, as_done, AllDone, UpToFailure};

use hub_devices::route_link::RouteLink;
use hub_devices::source::Failed;
use hub_kit::target::Target;
use hub_kit::text::Text;

/// One change of a proxy's routes.
#[derive(Drop)]
pub enum RouteCall {
    Add(Text, Target, Option<u64>),
    Delete(Text, u64),
}

/// How many routes were added and deleted.
#[derive(Clone, Copy)]
pub struct Synced {
    pub added: u64,
    pub deleted: u64,
}

/// Why the routes weren't brought into step.
#[derive(Clone, Copy)]
pub enum SyncFault {
    Routes,
    Memory,
}

/// Makes one of the calls.
fn call<P: RouteLink>(routes: &mut P, one: &RouteCall) -> Result<(), Failed>
    ensures calls { Grows (P.calls routes.old) ((asked_of one.now, told_unit result) ∷ []) (P.calls routes.new) }
    ensures counted { P.faults routes.old ≤ P.faults routes.new }
    ensures cause { OnErr result (Rises (P.faults routes.old) (P.faults routes.new)) }
{
    match one {
        RouteCall::Add(path, target, serial) => routes.add(path, target, *serial),
        RouteCall::Delete(path, serial) => routes.delete(path, *serial),
    }
}

impl Synced {
    /// One call more.
    fn with(self, one: &RouteCall) -> Synced
        requires few { self.added + self.deleted < 2 ^ 64 - 1 }
        ensures added { result.added ≡ self.added + added_one one.now }
        ensures deleted { result.deleted ≡ self.deleted + deleted_one one.now }
        ensures one { result.added + result.deleted ≡ self.added + self.deleted + 1 }
    {
        match one {
            RouteCall::Add(_, _, _) => Synced {
                added: self.added + 1,
                ..self
            },
            RouteCall::Delete(_, _) => Synced {
                deleted: self.deleted + 1,
                ..self
            },
        }
    }
}

/// Makes the calls in order, up to the first that fails.
pub(crate) fn make<P: RouteLink>(routes: &mut P, calls: &[RouteCall]) -> Result<Synced, Failed>
    ensures ok { IfOk result (λ s. AllDone calls.now s × Grows (P.calls routes.old) (map as_done calls.now) (P.calls routes.new)) }
    ensures err { OnErr result ((told : List (Routing × Told)) × UpToFailure calls.now told
        × Grows (P.calls routes.old) told (P.calls routes.new)) }
    ensures counted { P.faults routes.old ≤ P.faults routes.new }
    ensures cause { OnErr result (Rises (P.faults routes.old) (P.faults routes.new)) }
{
    let mut synced = Synced {
        added: 0,
        deleted: 0,
    };
    for one in calls {
        match call(routes, one) {
            Ok(()) => {}
            Err(failed) => return Err(failed),
        }
        synced = synced.with(one);
    }
    Ok(synced)
}
