//! A listener's connections, from the first to the last.
ghost use Rattle.std.specs.Prelude.{◌≡◌, ◌==◌, ◌≤◌, ◌<◌, true, All, Some, length, is_ok, Err, IfErr};
ghost use mathlib.Core.List.{IsPrefix};
ghost use Rattle.hub_core.specs.Visits.{entries_of};
ghost use Rattle.hub_run.specs.Connections.{sink_told, source_told};
ghost use Rattle.hub_serve.specs.Ends.{IsFault};
ghost use Rattle.hub_serve.specs.Given.{GaveMore};
ghost use Rattle.hub_serve.specs.Sessions.{AreServed, sessions_of};
ghost use Rattle.hub_serve.specs.Shifts.{AreOf, kit_after, kit_before, shifts_of};

use crate::crew::serve_as;
use crate::doors::Front;
use crate::tally::Tally;
use desk::{Desk, Pass};
use hub_core::book::Book;
use hub_devices::clock::Clock;
use hub_devices::listener::Listener;
use hub_devices::random::Random;
use hub_devices::route_link::RouteLink;
use hub_devices::spawner::Spawner;
use hub_machine::change::Change;
use hub_run::HubKit;
use keeper::keeper::Keeper;
use keeper::trail::Trail;
use std::alloc::Global;
use std::marker::Brand;
use std::sync::Wait;
use std::sync::ledger::Blank;
use std::thread::Threads;

/// Why fewer connections were served than asked.
#[derive(Clone, Copy, Debug, PartialEq, Eq)]
pub enum ServeFault {
    /// The listener failed, after so many connections.
    Listener(u64),
    /// There was no memory to begin.
    Memory,
}

#[tactic(auto, using(crate::proofs::Givens::Gave_none))]
/// Takes as many connections from the listener and serves each, by as many workers as there are kits. A connection's
/// fault ends that connection alone, and the listener's fault all of it, once the connections that were taken are served.
/// The tally tells how each connection ended, and the book has the entries that the pass had made of it before, those that
/// these connections gained, and no other.
pub fn serve<
    K: Keeper + Send,
    T: Trail<Entry = Change> + Send,
    L: Listener<In: Send, Out: Send> + Send,
    S: Spawner + Send,
    P: RouteLink + Send,
    C: Clock + Send,
    R: Random + Send,
    W: Threads + Wait + Sync,
>(
    rt: &W,
    alloc: Global,
    desk: Desk<Book<K, T>>,
    pass: Pass<Book<K, T>>,
    doors: &mut L,
    kits: &mut Vec<HubKit<S, P, C, R>>,
    connections: u64,
) -> (
    Book<K, T>,
    Tally<Pass<Book<K, T>>, HubKit<S, P, C, R>, L::In, L::Out>,
    Result<(), ServeFault>,
)
    requires of { pass.of ≡ desk }
    requires alone { pass.alone ≡ true }
    requires kits { 0 < length kits.old.items }
    ensures begins { IsPrefix pass.seen (entries_of result.0) }
    ensures base { pass.base ≡ Some result.0.start }
    ensures counted { pass.faults ≤ result.0.faults }
    ensures given { GaveMore (L.given doors.old) result.1.count (L.given doors.new) }
    ensures most { result.1.count ≤ connections }
    ensures all { is_ok result.2 ≡ (result.1.count == connections) }
    ensures fault { IfErr result.2 (IsFault result.1.count (L.faults doors.old) (L.faults doors.new)) }
    ensures untouched { result.2 ≡ Err ServeFault.Memory → doors.new ≡ doors.old }
    ensures served { AreServed result.0.start pass (entries_of result.0) result.1.count
        (sessions_of C.to_come R.left S.calls P.calls R.faults S.faults P.faults (source_told L.In.Source) (sink_told L.Out.Sink) result.1) }
    ensures kits { AreOf kit_before kit_after kits.old.items (shifts_of result.1) kits.new.items }
    ensures sides { All (λ cs. All (λ c. L.are_sides c.before.input.value c.before.output.value) cs) (shifts_of result.1) }
{
    let mut pass = pass;
    pass.stands();
    let mut tally = Tally::new();
    if connections == 0 {
        return (desk.close(rt, pass), tally, Ok(()));
    }
    let blank = Blank::new(kits.len() as u64);
    let front = Front::new(doors);
    let served = serve_as::<Brand, Book<K, T>, L, HubKit<S, P, C, R>, W>(
        rt,
        alloc,
        blank,
        &desk,
        &mut pass,
        front,
        kits,
        connections,
        &mut tally,
    );
    let end = served.0;
    (desk.close(rt, pass), tally, end)
}
