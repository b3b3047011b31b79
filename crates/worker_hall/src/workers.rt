//! The workers: each takes connections in turn with the others, and has them served by a server of its own.
ghost use Rattle.std.specs.Prelude.{◌≡◌, ◌⊎◌, [], ◌+◌, ◌≤◌, ◌<◌, ◌^◌, All, length, map, reverse, IfOk, IfErr, true};
ghost use Rattle.std.specs.Vec.{vec_capacity};
ghost use Rattle.worker_hall.specs.Shifts.{AreServed, IsShift};

use crate::doors::{Doors, Doorway};
use crate::serves::Serves;
use crate::tally::Tally;
use hub_devices::listener::Listener;
use std::alloc::{AllocError, Global};
use std::snapshot::Snapshot;
use std::sync::ledger::{self, Share};
use std::sync::{Mutex, Wait};
use std::thread::{Threads, for_each_mut};

/// What a worker has. Its share of the connections given is what its server has served.
pub(crate) struct Worker<L: Listener, S, N: Doorway> {
    pub tally: Tally<L>,
    pub share: Share<N>,
    pub server: S,
    /// The server as it was handed in.
    pub lent: Snapshot<S>,
    pub ghost one_part: { share.parts ≡ 1 },
    pub ghost counted: { share.amount ≡ tally },
}

impl<L: Listener, S, N: Doorway> Worker<L, S, N> {
    fn new(share: Share<N>, server: S) -> Worker<L, S, N>
        requires { (share.parts ≡ 1) × (share.amount ≡ 0) }
        ensures idle { (result.tally ≡ 0) × (result.server ≡ server) × (result.lent.value ≡ server) }
    {
        let lent = Snapshot::of(&server);
        Worker {
            tally: Tally::new(),
            share,
            server,
            lent,
        }
    }
}

/// A worker for each server, which it takes along: the last server is that of the first worker. Where there is no memory none is made.
pub(crate) fn hire<L: Listener, S, N: Doorway>(
    alloc: Global,
    servers: &mut Vec<S>,
    all: &mut Share<N>,
) -> Result<Vec<Worker<L, S, N>>, AllocError>
    requires parts { all.old.parts ≡ length servers.old.items }
    requires none { all.old.amount ≡ 0 }
    ensures parts { IfOk result (λ v. all.new.parts + length v.items ≡ all.old.parts) }
    ensures one_each { IfOk result (λ v. length v.items ≡ length servers.old.items) }
    ensures idle { IfOk result (λ v. All (λ w. (w.tally ≡ 0) × (w.server ≡ w.lent.value)) v.items) }
    ensures lent { IfOk result (λ v. (servers.new.items ≡ []) × (servers.old.items ≡ reverse (map (λ w. w.lent.value) v.items))) }
    ensures kept { IfErr result (λ _. servers.new.items ≡ servers.old.items) }
    ensures room { vec_capacity servers.new ≡ vec_capacity servers.old }
    ensures none { all.new.amount ≡ 0 }
{
    let mut workers = Vec::with_capacity(alloc, servers.len())?;
    while let Some(server) = servers.pop() {
        let share = all.split_off(1, 0);
        match workers.push(Worker::new(share, server)) {
            Ok(()) => {}
            Err(_full) => unreachable!(),
        }
    }
    Ok(workers)
}

/// Lets the workers serve until all connections were taken or the listener has failed. In truth this takes one round.
pub(crate) fn run<
    'a,
    L: Listener<In: Send, Out: Send> + Send,
    S: Serves<L::In, L::Out> + Send,
    N: Doorway + Send,
    W: Threads + Wait + Sync,
>(
    rt: &W,
    alloc: Global,
    doors: Doors<'a, L, N>,
    workers: &mut [Worker<L, S, N>],
    count: usize,
) -> Doors<'a, L, N>
    requires threads { 0 < count }
    requires shift { All (λ w. IsShift L.are_sides S.served w.lent.value w.tally w.server) workers.old }
    ensures shift { All (λ w. IsShift L.are_sides S.served w.lent.value w.tally w.server) workers.new }
    ensures lent { map (λ w. w.lent.value) workers.new ≡ map (λ w. w.lent.value) workers.old }
    ensures over { (result.left ≡ 0) ⊎ (result.failed ≡ true) }
{
    let mut doors = doors;
    for _ in rt.forever() {
        if doors.is_over() {
            return doors;
        }
        let shared = Mutex::new(doors);
        run_all(rt, alloc, &shared, workers, count);
        doors = shared.into_inner();
    }
    unreachable!()
}

// Each worker serves in a thread of its own, until no connection is to be taken.
fn run_all<
    L: Listener<In: Send, Out: Send> + Send,
    S: Serves<L::In, L::Out> + Send,
    N: Doorway + Send,
    W: Threads + Wait + Sync,
>(
    rt: &W,
    alloc: Global,
    doors: &Mutex<Doors<'_, L, N>>,
    workers: &mut [Worker<L, S, N>],
    count: usize,
)
    requires threads { 0 < count }
    requires shift { All (λ w. IsShift L.are_sides S.served w.lent.value w.tally w.server) workers.old }
    ensures shift { All (λ w. IsShift L.are_sides S.served w.lent.value w.tally w.server) workers.new }
    ensures lent { map (λ w. w.lent.value) workers.new ≡ map (λ w. w.lent.value) workers.old }
{
    for_each_mut(
        rt,
        workers,
        count,
        &|_, worker: &mut Worker<L, S, N>|
            requires { IsShift L.are_sides S.served worker.old.lent.value worker.old.tally worker.old.server }
            ensures { (worker.new.lent.value ≡ worker.old.lent.value)
                × IsShift L.are_sides S.served worker.new.lent.value worker.new.tally worker.new.server }
        { work(rt, alloc, doors, worker) },
    );
}

// Serves until no connection is to be taken.
fn work<L: Listener, S: Serves<L::In, L::Out>, N: Doorway, W: Wait>(
    rt: &W,
    alloc: Global,
    doors: &Mutex<Doors<'_, L, N>>,
    worker: &mut Worker<L, S, N>,
)
    requires shift { IsShift L.are_sides S.served worker.old.lent.value worker.old.tally worker.old.server }
    ensures shift { IsShift L.are_sides S.served worker.new.lent.value worker.new.tally worker.new.server }
    ensures lent { worker.new.lent.value ≡ worker.old.lent.value }
{
    for _ in rt.forever() {
        if !turn(rt, alloc, doors, worker) {
            break;
        }
    }
}

// Takes the next connection under the lock, and has it served once the lock is free. False where there is none.
fn turn<L: Listener, S: Serves<L::In, L::Out>, N: Doorway, W: Wait>(
    rt: &W,
    alloc: Global,
    doors: &Mutex<Doors<'_, L, N>>,
    worker: &mut Worker<L, S, N>,
) -> bool
    requires shift { IsShift L.are_sides S.served worker.old.lent.value worker.old.tally worker.old.server }
    ensures shift { IsShift L.are_sides S.served worker.new.lent.value worker.new.tally worker.new.server }
    ensures lent { worker.new.lent.value ≡ worker.old.lent.value }
{
    let Worker {
        tally,
        share,
        server,
        lent: _,
    } = worker;
    // in a statement of its own, which ends with the lock
    let next = doors.lock(rt).next(share);
    let Some((input, output)) = next else {
        return false;
    };
    // the connection ends here
    drop(tally.serve(rt, alloc, server, input, output));
    true
}

/// Adds every tally, and puts every server back, the last first.
pub(crate) fn join_all<L: Listener, S: Serves<L::In, L::Out>, N: Doorway>(
    mut workers: Vec<Worker<L, S, N>>,
    servers: &mut Vec<S>,
    taken: &mut ledger::Book<N>,
    all: &mut Share<N>,
) -> Tally<L>
    requires shift { All (λ w. IsShift L.are_sides S.served w.lent.value w.tally w.server) workers.items }
    requires out { servers.old.items ≡ [] }
    requires room { length workers.items ≤ vec_capacity servers.old }
    requires none { all.old.amount ≡ 0 }
    requires whole { all.old.parts + length workers.items ≡ N.parts }
    requires fits { taken.old.total < 2 ^ 64 }
    ensures total { result ≡ taken.old.total }
    ensures served { AreServed L.are_sides S.served (reverse (map (λ w. w.lent.value) workers.items)) result servers.new.items }
{
    let mut tally = Tally::new();
    while let Some(worker) = workers.pop() {
        let Worker {
            tally: served,
            share,
            server,
            lent: _,
        } = worker;
        all.merge(share);
        taken.audit(all);
        tally.add(served);
        match servers.push(server) {
            Ok(()) => {}
            Err(_full) => unreachable!(),
        }
    }
    workers.destroy_empty();
    taken.audit(all);
    tally
}
