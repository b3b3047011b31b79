//! One call of `serve`, over any book and by anything that serves: the workers are hired, run and joined.
ghost use Rattle.std.specs.Prelude.{◌≡◌, ◌==◌, ◌≤◌, ◌<◌, true, [], All, Some, length, is_ok, Err, IfErr};
ghost use mathlib.Core.List.{IsPrefix};
ghost use Rattle.hub_run.specs.Connections.{sink_told, source_told};
ghost use Rattle.hub_serve.specs.Ends.{IsFault};
ghost use Rattle.hub_serve.specs.Given.{GaveMore};
ghost use Rattle.hub_serve.specs.Shifts.{AreOf, IsWhole, all_own, count_of, kit_after, kit_before, shifts_of, split_from};

use crate::doors::{Doors, Doorway, Front};
use crate::serving::ServeFault;
use crate::tally::Tally;
use crate::workers::{Serves, hire, join_all, run};
use desk::{Booked, Desk, Pass};
use hub_devices::listener::Listener;
use std::alloc::Global;
use std::snapshot::Snapshot;
use std::sync::Wait;
use std::sync::ledger::Blank;
use std::thread::Threads;

/// Serves, where the type N stands for this call. The listener and the kits come back.
#[tactic(auto, using(crate::proofs::Givens::Gave_none))]
pub(crate) fn serve_as<
    'a,
    N: Doorway + Send + Sync,
    B: Booked + Send,
    L: Listener<In: Send, Out: Send> + Send,
    Q: Serves<B> + Send,
    W: Threads + Wait + Sync,
>(
    rt: &W,
    alloc: Global,
    blank: Blank,
    desk: &Desk<B>,
    pass: &mut Pass<B>,
    front: Front<'a, L>,
    kits: &mut Vec<Q>,
    connections: u64,
    tally: &mut Tally<Pass<B>, Q, L::In, L::Out>,
) -> (Result<(), ServeFault>, Front<'a, L>)
    requires of { pass.old.of ≡ desk.now }
    requires kits { 0 < length kits.old.items }
    requires name { blank.name ≡ N.name }
    requires parts { (blank.parts ≡ N.parts) × (N.parts ≡ length kits.old.items) }
    requires door { front.listener.ghost_name ≡ N.door }
    requires given { L.given front.listener.now ≡ N.given }
    requires faults { L.faults front.listener.now ≡ N.faults }
    requires most { (connections ≡ N.most) × (0 < connections) }
    requires none { (tally.old.count ≡ 0) × (shifts_of tally.old ≡ []) }
    requires first { pass.old.others ≡ Some 0 }
    requires alone { pass.old.alone ≡ true }
    ensures pass { (pass.new.of ≡ pass.old.of) × (pass.new.base ≡ pass.old.base) }
    ensures alone { pass.new.alone ≡ true }
    ensures mine { pass.new.mine ≡ all_own (split_from pass.old) pass.old.mine (shifts_of tally.new) }
    ensures shifts { All (λ cs. IsWhole L.are_sides Q.ends (source_told L.In.Source) (sink_told L.Out.Sink) (split_from pass.old) cs) (shifts_of tally.new) }
    ensures total { count_of (shifts_of tally.new) ≡ tally.new.count }
    ensures kits { AreOf kit_before kit_after kits.old.items (shifts_of tally.new) kits.new.items }
    ensures begins { IsPrefix pass.old.seen pass.new.seen }
    ensures counted { pass.old.faults ≤ pass.new.faults }
    ensures same_reference { result.1.listener.ghost_name ≡ front.entry.listener.ghost_name }
    ensures given { GaveMore (L.given front.entry.listener.now) tally.new.count (L.given result.1.listener.now) }
    ensures most { tally.new.count ≤ connections }
    ensures all { is_ok result.0 ≡ (tally.new.count == connections) }
    ensures fault { IfErr result.0 (IsFault tally.new.count (L.faults front.entry.listener.now) (L.faults result.1.listener.now)) }
    ensures untouched { result.0 ≡ Err ServeFault.Memory → result.1.listener.now ≡ front.entry.listener.now }
{
    let (taken, mut all) = blank.open::<N>();
    let count = kits.len();
    let first = Snapshot::of(&*pass);
    let mut workers = match hire(alloc, desk, pass, kits, &mut all) {
        Ok(workers) => workers,
        Err(_) => return (Err(ServeFault::Memory), front),
    };
    let doors = run(
        rt,
        alloc,
        desk,
        &first,
        Doors::new(front, connections, taken),
        workers.as_mut_slice(),
        count,
    );
    let (front, left, mut taken) = doors.end();
    *tally = join_all(desk, &first, pass, workers, kits, &mut taken, &mut all);
    (ended(left, tally.count()), front)
}

// Ok where none is left, and else how many were served.
fn ended(left: u64, count: u64) -> Result<(), ServeFault>
    ensures ok { is_ok result ≡ (left == 0) }
    ensures err { IfErr result (λ e. e ≡ ServeFault.Listener count) }
{
    if left == 0 {
        Ok(())
    } else {
        Err(ServeFault::Listener(count))
    }
}
