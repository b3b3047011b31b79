//! A listener's connections, from the first to the last.
ghost use Rattle.std.specs.Prelude.{◌≡◌, ◌==◌, ◌≤◌, ◌<◌, length, is_ok, Err, IfErr};
ghost use Rattle.worker_hall.specs.Ends.{IsFault};
ghost use Rattle.worker_hall.specs.Given.{GaveMore};
ghost use Rattle.worker_hall.specs.Shifts.{AreServed};

use crate::doors::{Doors, Doorway, Front};
use crate::serves::Serves;
use crate::tally::Tally;
use crate::workers::{hire, join_all, run};
use hub_devices::listener::Listener;
use std::alloc::Global;
use std::marker::Brand;
use std::sync::Wait;
use std::sync::ledger::Blank;
use std::thread::Threads;

/// Why fewer connections were served than asked.
#[derive(Clone, Copy, Debug, PartialEq, Eq)]
pub enum HallFault {
    /// The listener failed, after so many connections.
    Listener(u64),
    /// There was no memory to begin.
    Memory,
}

/// Takes as many connections from the listener and has each served, by as many workers as there are servers: each has one of them, and
/// puts it back in its place. The listener's fault ends all of it, once the connections that were taken are served.
#[tactic(auto, using(crate::proofs::Givens::Gave_none))]
pub fn serve<
    L: Listener<In: Send, Out: Send> + Send,
    S: Serves<L::In, L::Out> + Send,
    W: Threads + Wait + Sync,
>(
    rt: &W,
    alloc: Global,
    doors: &mut L,
    servers: &mut Vec<S>,
    connections: u64,
) -> (Tally<L>, Result<(), HallFault>)
    requires servers { 0 < length servers.old.items }
    ensures served { AreServed L.are_sides S.served servers.old.items result.0 servers.new.items }
    ensures given { GaveMore (L.given doors.old) result.0 (L.given doors.new) }
    ensures most { result.0 ≤ connections }
    ensures all { is_ok result.1 ≡ (result.0 == connections) }
    ensures fault { IfErr result.1 (IsFault result.0 (L.faults doors.old) (L.faults doors.new)) }
    ensures untouched { result.1 ≡ Err HallFault.Memory → doors.new ≡ doors.old }
{
    let mut tally = Tally::new();
    if connections == 0 {
        return (tally, Ok(()));
    }
    let blank = Blank::new(servers.len() as u64);
    let front = Front::new(doors);
    let served = serve_as::<Brand, L, S, W>(
        rt,
        alloc,
        blank,
        front,
        servers,
        connections,
        &mut tally,
    );
    let end = served.0;
    (tally, end)
}

// Serves, where the type N stands for this call. The listener comes back.
#[tactic(auto, using(crate::proofs::Givens::Gave_none))]
fn serve_as<
    'a,
    N: Doorway + Send + Sync,
    L: Listener<In: Send, Out: Send> + Send,
    S: Serves<L::In, L::Out> + Send,
    W: Threads + Wait + Sync,
>(
    rt: &W,
    alloc: Global,
    blank: Blank,
    front: Front<'a, L>,
    servers: &mut Vec<S>,
    connections: u64,
    tally: &mut Tally<L>,
) -> (Result<(), HallFault>, Front<'a, L>)
    requires servers { 0 < length servers.old.items }
    requires name { blank.name ≡ N.name }
    requires parts { (blank.parts ≡ N.parts) × (N.parts ≡ length servers.old.items) }
    requires door { front.listener.ghost_name ≡ N.door }
    requires given { L.given front.listener.now ≡ N.given }
    requires faults { L.faults front.listener.now ≡ N.faults }
    requires most { (connections ≡ N.most) × (0 < connections) }
    requires none { tally.old ≡ 0 }
    ensures same_reference { result.1.listener.ghost_name ≡ front.entry.listener.ghost_name }
    ensures served { AreServed L.are_sides S.served servers.old.items tally.new servers.new.items }
    ensures given { GaveMore (L.given front.entry.listener.now) tally.new (L.given result.1.listener.now) }
    ensures most { tally.new ≤ connections }
    ensures all { is_ok result.0 ≡ (tally.new == connections) }
    ensures fault { IfErr result.0 (IsFault tally.new (L.faults front.entry.listener.now) (L.faults result.1.listener.now)) }
    ensures untouched { result.0 ≡ Err HallFault.Memory → result.1.listener.now ≡ front.entry.listener.now }
{
    let (taken, mut all) = blank.open::<N>();
    let count = servers.len();
    let mut workers = match hire(alloc, servers, &mut all) {
        Ok(workers) => workers,
        Err(_) => return (Err(HallFault::Memory), front),
    };
    let doors = run(
        rt,
        alloc,
        Doors::new(front, connections, taken),
        workers.as_mut_slice(),
        count,
    );
    let (front, left, mut taken) = doors.end();
    *tally = join_all(workers, servers, &mut taken, &mut all);
    (ended(left, tally), front)
}

// Ok where none is left.
fn ended<L: Listener>(left: u64, tally: &Tally<L>) -> Result<(), HallFault>
    ensures ok { is_ok result ≡ (left == 0) }
    ensures err { IfErr result (λ e. e ≡ HallFault.Listener tally.now) }
{
    if left == 0 {
        Ok(())
    } else {
        Err(HallFault::Listener(tally.count()))
    }
}
