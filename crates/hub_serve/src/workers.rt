//! The workers: each takes connections in turn with the others, and serves them by a pass and a kit of its own. Which book it is, and
//! what a kit has, they don't look at: that all this may go to another thread is asked where they are called.
ghost use Rattle.std.specs.Prelude.{◌≡◌, ◌⊎◌, [], ◌+◌, ◌≤◌, ◌<◌, ◌^◌, ℕ, true, List, All, length, map, reverse};
ghost use Rattle.std.specs.Prelude.{Option, Some, IfOk, IfErr, Result};
ghost use Rattle.std.specs.Vec.{vec_capacity};
ghost use mathlib.Core.List.{IsPrefix};
ghost use Rattle.desk.specs.Passes.{PassState};
ghost use Rattle.desk.specs.Seats.{only};
ghost use Rattle.http_wire.specs.declared.error.SessionFault.{SessionFault};
ghost use Rattle.hub_run.specs.Connections.{StreamTold, sink_told, source_told};
ghost use Rattle.hub_run.specs.declared.served.Served.{Served};
ghost use Rattle.keeper.specs.Pasts.{entries_of};
ghost use Rattle.hub_serve.specs.Shifts.{AreOf, IsServed, IsShift, IsWhole, all_own, count_of};
ghost use Rattle.hub_serve.specs.Shifts.{kit_after, kit_before, shifts_of, split_from};

use crate::doors::{Doors, Doorway};
use crate::tally::{Connection, Shift, Tally};
use desk::{Booked, Desk, Pass};
use hub_devices::listener::Listener;
use keeper::past::Past;
use std::alloc::{AllocError, Global};
use std::snapshot::Snapshot;
use std::sync::ledger::{self, Share};
use std::sync::{Mutex, Wait};
use std::thread::{Threads, for_each_mut};

/// What serves connections over a desk of such books.
pub(crate) trait Serves<B: Booked> {
    /// Of the pass, of what serves and of what both streams tell, before a connection and after it, and of how it ended.
    ghost ends: { PassState B.Entry B.Base → Self → StreamTold → StreamTold
        → PassState B.Entry B.Base → Self → StreamTold → StreamTold → Result Served SessionFault → Type 0 };

    /// Serves a connection on its own two sides, and tells of it.
    fn serve<L: Listener, W: Wait>(
        &mut self,
        rt: &W,
        alloc: Global,
        desk: &Desk<B>,
        pass: &mut Pass<B>,
        input: L::In,
        output: L::Out,
    ) -> Connection<Pass<B>, Self, L::In, L::Out>
        requires sides { L.are_sides input output }
        requires at_desk { pass.old.of ≡ desk.now }
        ensures of { pass.new.of ≡ pass.old.of }
        ensures before { (pass.old ≡ result.before.pass.value) × (self.old ≡ result.before.kit.value) }
        ensures after { (result.after.pass.value ≡ pass.new) × (result.after.kit.value ≡ self.new) }
        ensures served { IsServed L.are_sides ends (source_told L.In.Source) (sink_told L.Out.Sink) result };
}

/// What a worker has. Its share of the connections given is what it has served.
pub(crate) struct Worker<B: Booked, L: Listener, Q, N: Doorway> {
    pub pass: Pass<B>,
    pub count: u64,
    pub shift: Shift<Pass<B>, Q, L::In, L::Out>,
    pub share: Share<N>,
    pub kit: Q,
    /// The kit as it was handed in.
    pub lent: Snapshot<Q>,
    pub ghost one_part: { share.parts ≡ 1 },
    pub ghost given: { share.amount ≡ count },
    pub ghost counted: { length (entries_of shift) ≡ count },
}

impl<B: Booked, L: Listener, Q, N: Doorway> Worker<B, L, Q, N> {
    fn new(pass: Pass<B>, share: Share<N>, kit: Q) -> Worker<B, L, Q, N>
        requires { (share.parts ≡ 1) × (share.amount ≡ 0) }
        ensures idle { (result.pass ≡ pass) × (entries_of result.shift ≡ []) }
        ensures lent { (result.kit ≡ kit) × (result.lent.value ≡ kit) }
    {
        let lent = Snapshot::of(&kit);
        Worker {
            pass,
            count: 0,
            shift: Past::new(),
            share,
            kit,
            lent,
        }
    }
}

/// A worker for each kit, which it takes along, with a pass of its own: the last kit is that of the first worker. Where there is no memory
/// none is made.
pub(crate) fn hire<B: Booked, L: Listener, Q, N: Doorway>(
    alloc: Global,
    desk: &Desk<B>,
    pass: &mut Pass<B>,
    kits: &mut Vec<Q>,
    all: &mut Share<N>,
) -> Result<Vec<Worker<B, L, Q, N>>, AllocError>
    requires of { pass.old.of ≡ desk.now }
    requires first { (pass.old.others ≡ Some 0) × (pass.old.alone ≡ true) }
    requires parts { all.old.parts ≡ length kits.old.items }
    requires none { all.old.amount ≡ 0 }
    ensures others { IfOk result (λ v. pass.new ≡ record pass.old {
      others = Some (length v.items);
      alone = only (Some (length v.items));
    }) }
    ensures kept { IfErr result (λ _. (pass.new ≡ pass.old) × (kits.new.items ≡ kits.old.items)) }
    ensures idle { IfOk result (λ v. All (λ w.
        (w.pass ≡ split_from pass.old) × (entries_of w.shift ≡ []) × (w.kit ≡ w.lent.value)) v.items) }
    ensures lent { IfOk result (λ v. (kits.new.items ≡ []) × (kits.old.items ≡ reverse (map (λ w. w.lent.value) v.items))) }
    ensures parts { IfOk result (λ v. all.new.parts + length v.items ≡ all.old.parts) }
    ensures one_each { IfOk result (λ v. length v.items ≡ length kits.old.items) }
    ensures room { vec_capacity kits.new ≡ vec_capacity kits.old }
    ensures none { all.new.amount ≡ 0 }
{
    let mut workers = Vec::with_capacity(alloc, kits.len())?;
    while let Some(kit) = kits.pop() {
        let own = desk.split(pass).unwrap();
        let share = all.split_off(1, 0);
        match workers.push(Worker::new(own, share, kit)) {
            Ok(()) => {}
            Err(_full) => unreachable!(),
        }
    }
    Ok(workers)
}

/// Lets the workers serve until all connections were taken or the listener has failed. In truth this takes one round.
pub(crate) fn run<
    'a,
    B: Booked + Send,
    L: Listener<In: Send, Out: Send> + Send,
    Q: Serves<B> + Send,
    N: Doorway + Send,
    W: Threads + Wait + Sync,
>(
    rt: &W,
    alloc: Global,
    desk: &Desk<B>,
    first: &Snapshot<Pass<B>>,
    doors: Doors<'a, L, N>,
    workers: &mut [Worker<B, L, Q, N>],
    count: usize,
) -> Doors<'a, L, N>
    requires of { All (λ w. w.pass.of ≡ desk.now) workers.old }
    requires shift { All (λ w. IsShift L.are_sides Q.ends (source_told L.In.Source) (sink_told L.Out.Sink)
        (split_from first.now.value) w.lent.value (entries_of w.shift) w.pass w.kit) workers.old }
    requires threads { 0 < count }
    ensures of { All (λ w. w.pass.of ≡ desk.now) workers.new }
    ensures shift { All (λ w. IsShift L.are_sides Q.ends (source_told L.In.Source) (sink_told L.Out.Sink)
        (split_from first.now.value) w.lent.value (entries_of w.shift) w.pass w.kit) workers.new }
    ensures lent { map (λ w. w.lent.value) workers.new ≡ map (λ w. w.lent.value) workers.old }
    ensures over { (result.left ≡ 0) ⊎ (result.failed ≡ true) }
{
    let mut doors = doors;
    for _ in rt.forever() {
        if doors.is_over() {
            return doors;
        }
        let shared = Mutex::new(doors);
        run_all(rt, alloc, desk, first, &shared, workers, count);
        doors = shared.into_inner();
    }
    unreachable!()
}

// Each worker serves in a thread of its own, until no connection is to be taken.
fn run_all<
    B: Booked + Send,
    L: Listener<In: Send, Out: Send> + Send,
    Q: Serves<B> + Send,
    N: Doorway + Send,
    W: Threads + Wait + Sync,
>(
    rt: &W,
    alloc: Global,
    desk: &Desk<B>,
    first: &Snapshot<Pass<B>>,
    doors: &Mutex<Doors<'_, L, N>>,
    workers: &mut [Worker<B, L, Q, N>],
    count: usize,
)
    requires of { All (λ w. w.pass.of ≡ desk.now) workers.old }
    requires shift { All (λ w. IsShift L.are_sides Q.ends (source_told L.In.Source) (sink_told L.Out.Sink)
        (split_from first.now.value) w.lent.value (entries_of w.shift) w.pass w.kit) workers.old }
    requires threads { 0 < count }
    ensures of { All (λ w. w.pass.of ≡ desk.now) workers.new }
    ensures shift { All (λ w. IsShift L.are_sides Q.ends (source_told L.In.Source) (sink_told L.Out.Sink)
        (split_from first.now.value) w.lent.value (entries_of w.shift) w.pass w.kit) workers.new }
    ensures lent { map (λ w. w.lent.value) workers.new ≡ map (λ w. w.lent.value) workers.old }
{
    for_each_mut(
        rt,
        workers,
        count,
        &|_, worker: &mut Worker<B, L, Q, N>|
            requires { (worker.old.pass.of ≡ desk.now) × IsShift L.are_sides Q.ends (source_told L.In.Source) (sink_told L.Out.Sink)
                (split_from first.now.value) worker.old.lent.value (entries_of worker.old.shift) worker.old.pass worker.old.kit }
            ensures { (worker.new.pass.of ≡ desk.entry.now) × (worker.new.lent.value ≡ worker.old.lent.value)
                × IsShift L.are_sides Q.ends (source_told L.In.Source) (sink_told L.Out.Sink)
                (split_from first.entry.now.value) worker.new.lent.value (entries_of worker.new.shift) worker.new.pass worker.new.kit }
        { work(rt, alloc, desk, first, doors, worker) },
    );
}

// Serves until no connection is to be taken.
fn work<B: Booked, L: Listener, Q: Serves<B>, N: Doorway, W: Wait>(
    rt: &W,
    alloc: Global,
    desk: &Desk<B>,
    first: &Snapshot<Pass<B>>,
    doors: &Mutex<Doors<'_, L, N>>,
    worker: &mut Worker<B, L, Q, N>,
)
    requires of { worker.old.pass.of ≡ desk.now }
    requires shift { IsShift L.are_sides Q.ends (source_told L.In.Source) (sink_told L.Out.Sink)
        (split_from first.now.value) worker.old.lent.value (entries_of worker.old.shift) worker.old.pass worker.old.kit }
    ensures of { worker.new.pass.of ≡ desk.now }
    ensures shift { IsShift L.are_sides Q.ends (source_told L.In.Source) (sink_told L.Out.Sink)
        (split_from first.now.value) worker.new.lent.value (entries_of worker.new.shift) worker.new.pass worker.new.kit }
    ensures lent { worker.new.lent.value ≡ worker.old.lent.value }
{
    for _ in rt.forever() {
        if !turn(rt, alloc, desk, first, doors, worker) {
            break;
        }
    }
}

// Takes the next connection under the lock, and serves it once the lock is free. False where there is none.
fn turn<B: Booked, L: Listener, Q: Serves<B>, N: Doorway, W: Wait>(
    rt: &W,
    alloc: Global,
    desk: &Desk<B>,
    first: &Snapshot<Pass<B>>,
    doors: &Mutex<Doors<'_, L, N>>,
    worker: &mut Worker<B, L, Q, N>,
) -> bool
    requires of { worker.old.pass.of ≡ desk.now }
    requires shift { IsShift L.are_sides Q.ends (source_told L.In.Source) (sink_told L.Out.Sink)
        (split_from first.now.value) worker.old.lent.value (entries_of worker.old.shift) worker.old.pass worker.old.kit }
    ensures of { worker.new.pass.of ≡ desk.now }
    ensures shift { IsShift L.are_sides Q.ends (source_told L.In.Source) (sink_told L.Out.Sink)
        (split_from first.now.value) worker.new.lent.value (entries_of worker.new.shift) worker.new.pass worker.new.kit }
    ensures lent { worker.new.lent.value ≡ worker.old.lent.value }
{
    let _ = first;
    let Worker {
        pass,
        count,
        shift,
        share,
        kit,
        lent: _,
    } = worker;
    // in a statement of its own, which ends with the lock
    let next = doors.lock(rt).next(share);
    let Some((input, output)) = next else {
        return false;
    };
    let connection = kit.serve::<L, W>(rt, alloc, desk, pass, input, output);
    shift.add(connection);
    *count += 1;
    true
}

/// Joins every pass, adds every count, and puts every kit back, the last first.
pub(crate) fn join_all<L: Listener, B: Booked, Q: Serves<B>, N: Doorway>(
    desk: &Desk<B>,
    first: &Snapshot<Pass<B>>,
    pass: &mut Pass<B>,
    mut workers: Vec<Worker<B, L, Q, N>>,
    kits: &mut Vec<Q>,
    taken: &mut ledger::Book<N>,
    all: &mut Share<N>,
) -> Tally<Pass<B>, Q, L::In, L::Out>
    requires of { pass.old.of ≡ desk.now }
    requires others { (pass.old.others ≡ Some (length workers.items)) × (pass.old.alone ≡ only pass.old.others) }
    requires workers { All (λ w. w.pass.of ≡ desk.now) workers.items }
    requires shift { All (λ w. IsShift L.are_sides Q.ends (source_told L.In.Source) (sink_told L.Out.Sink)
        (split_from first.now.value) w.lent.value (entries_of w.shift) w.pass w.kit) workers.items }
    requires out { kits.old.items ≡ [] }
    requires room { length workers.items ≤ vec_capacity kits.old }
    requires none { all.old.amount ≡ 0 }
    requires whole { all.old.parts + length workers.items ≡ N.parts }
    requires fits { taken.old.total < 2 ^ 64 }
    ensures of { (pass.new.of ≡ pass.old.of) × (pass.new.base ≡ pass.old.base) }
    ensures begins { IsPrefix pass.old.seen pass.new.seen }
    ensures counted { pass.old.faults ≤ pass.new.faults }
    ensures alone { pass.new.alone ≡ true }
    ensures mine { pass.new.mine ≡ all_own (split_from first.now.value) pass.old.mine (shifts_of result) }
    ensures shifts { All (λ cs. IsWhole L.are_sides Q.ends (source_told L.In.Source) (sink_told L.Out.Sink) (split_from first.now.value) cs) (shifts_of result) }
    ensures total { (result.count ≡ taken.old.total) × (count_of (shifts_of result) ≡ result.count) }
    ensures kits { AreOf kit_before kit_after (reverse (map (λ w. w.lent.value) workers.items)) (shifts_of result) kits.new.items }
{
    let _ = first;
    let mut tally = Tally::new();
    while let Some(worker) = workers.pop() {
        let Worker {
            pass: own,
            count,
            shift,
            share,
            kit,
            lent: _,
        } = worker;
        desk.join(pass, own);
        all.merge(share);
        taken.audit(all);
        tally.add(count, shift);
        match kits.push(kit) {
            Ok(()) => {}
            Err(_full) => unreachable!(),
        }
    }
    workers.destroy_empty();
    taken.audit(all);
    tally
}
