//! A guard that asks directly.
ghost use Rattle.std.specs.Prelude.{◌≡◌, ◌≤◌, ◌++◌, ℕ, List, [], Some};
ghost use Rattle.httparse.specs.Grammar.{RequestHead, print_request};
ghost use Rattle.http_wire.specs.Head.{head_of};
ghost use Rattle.http_wire.specs.Wire.{IsServedHead};
ghost use Rattle.hub_core.specs.declared.start.Start.{Start};
ghost use Rattle.hub_link.specs.Links.{Exchange, Chain};
ghost use Rattle.hub_run.specs.Turns.{view_of};
ghost use Rattle.guard.specs.Guards.{GuardEnds};
ghost use Rattle.direct_link.specs.Decided.{Decided};
ghost use Rattle.direct_link.specs.Direct.{Direct};

use crate::direct::DirectLink;
use guard::guards::guard_one;
use http_wire::error::SessionFault;
use hub_devices::clock::Clock;
use hub_devices::random::Random;
use hub_devices::route_link::RouteLink;
use hub_devices::sink::Sink;
use hub_devices::source::Source;
use hub_devices::spawner::Spawner;
use hub_kit::names::ServerKey;
use hub_kit::target::Target;
use hub_machine::change::Change;
use keeper::keeper::Keeper;
use keeper::trail::Trail;
use proxy_core::refusals::Forwarded;
use std::alloc::Global;
use std::sync::Wait;
use upstreams::upstream::Upstream;

/// Guards one request as `guard_one` does, with a link that makes at most one connection to the hub, by its own pass and devices. It is
/// passed on, and anything goes to the server, only where its token may enter the server at a place of the history at or past all that the
/// pass had seen, and at the moment of its clock; it is answered 403 exactly without a token, or where at such a place it may not, but for
/// want of memory, a body of no length that is served, a failing stream, and a token of which the hub tells nothing, which is a 502.
pub fn guard_direct<
    'a,
    K: Keeper,
    T: Trail<Entry = Change>,
    S: Spawner,
    P: RouteLink,
    C: Clock,
    R: Random,
    W: Wait,
    I: Source,
    O: Sink,
    U: Upstream,
>(
    alloc: Global,
    key: &ServerKey,
    target: &Target,
    link: &mut DirectLink<'a, K, T, S, P, C, R, W>,
    input: &mut I,
    output: &mut O,
    up: &mut U,
) -> Result<Forwarded, SessionFault>
    ensures same_pass { link.new.pass.ghost_name ≡ link.old.pass.ghost_name }
    ensures same_kit { link.new.kit.ghost_name ≡ link.old.kit.ghost_name }
    ensures ends { (asks : List Exchange) × (kept : List ℕ)
        × Chain Direct (view_of C.to_come R.left S.calls P.calls R.faults S.faults P.faults link.old.pass.now link.old.kit.now) asks
        (view_of C.to_come R.left S.calls P.calls R.faults S.faults P.faults link.new.pass.now link.new.kit.now)
        × GuardEnds key.now target.now asks 0 0
        (record {
          left = I.left input.old;
          kept = [];
          held = O.held output.old;
          told = U.told up.old;
          reads = I.faults input.old;
          links = U.faults up.old;
          writes = O.faults output.old;
        })
        (record {
          left = I.left input.new;
          kept = kept;
          held = O.held output.new;
          told = U.told up.new;
          reads = I.faults input.new;
          links = U.faults up.new;
          writes = O.faults output.new;
        }) result }
    ensures decided { (start : Start) (head : RequestHead) (more : List ℕ) → link.old.pass.now.base ≡ Some start → IsServedHead head
        → I.left input.old ≡ Some (print_request head ++ more)
        → Decided start (view_of C.to_come R.left S.calls P.calls R.faults S.faults P.faults link.old.pass.now link.old.kit.now)
        (view_of C.to_come R.left S.calls P.calls R.faults S.faults P.faults link.new.pass.now link.new.kit.now) key.now (head_of head)
        (record { told = U.told up.old; reads = I.faults input.old; writes = O.faults output.old })
        (record { told = U.told up.new; reads = I.faults input.new; writes = O.faults output.new }) result }
    ensures reads { I.faults input.old ≤ I.faults input.new }
    ensures links { U.faults up.old ≤ U.faults up.new }
    ensures writes { O.faults output.old ≤ O.faults output.new }
{
    // they are names
    let _user = key.user.as_str();
    let _server = key.server.as_str();
    guard_one(alloc, key, target, link, input, output, up)
}
