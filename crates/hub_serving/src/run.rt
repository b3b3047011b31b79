//! The command `serve` by its plan, over the outside that the program makes.
ghost use Rattle.std.specs.Prelude.{◌≡◌, ◌≤◌, ◌<◌, ◌^◌, [], Some, IsSome, length, true};
ghost use Rattle.hub_config.specs.Managed.{are_distinct};
ghost use Rattle.hub_opening.specs.Kept.{MakeTable};
ghost use Rattle.hub_serving.specs.Commands as spec;
ghost use Rattle.hub_main.specs.Told.{files_told};
ghost use Rattle.hub_serving.specs.Hall.{SidesTell, hall};
ghost use Rattle.hub_serving.specs.Plans.{IsPlanOf};
ghost use Rattle.hub_words.specs.Serve.{serve_read};

use crate::end::{End, NotServed, status_of};
use crate::plan::Plan;
use crate::serving::serve_book;
use crate::world::{ServeOutside, ServeWorld};
use hub_devices::clock::Clock;
use hub_devices::files::Files;
use hub_kit::moment::Moment;
use hub_kit::text::Text;
use hub_machine::change::Change;
use hub_main::opening::{choose, open_book};
use keeper::trail::{CountTrail, ListTrail, Trail};
use std::alloc::Global;
use std::sync::Wait;
use std::thread::Threads;

/// What follows over a chosen store, with this trail.
fn run_over<W: ServeWorld, T: Trail<Entry = Change> + Send, R: Threads + Wait + Sync>(
    rt: &R,
    alloc: Global,
    plan: &Plan,
    now: Moment,
    trail: T,
    store: W::Store,
    outside: &mut ServeOutside<W>,
) -> (End, W::Store)
    requires empty { T.told trail ≡ [] }
    requires limits { plan.now.hub.limits.trail_bytes ≤ 2 ^ 62 }
    requires scopes { MakeTable plan.now.hub.custom_scopes }
    requires apart { are_distinct plan.now.managed ≡ true }
    requires kits { 0 < length outside.old.kits.items }
    ensures ends { spec.EndsChosen W.Store.Tells W.Store.rows W.Store.faults
        (SidesTell W.Doors.are_sides W.Doors.In.left W.Doors.Out.held) plan.now now
        (hall W.Out.held W.Out.faults W.Doors.given W.Doors.faults W.Time.to_come W.Draws.left W.Starts.calls W.Paths.calls W.Draws.faults
        W.Starts.faults W.Paths.faults W.Runs.calls W.Runs.faults
        outside.old.output outside.old.doors outside.old.kit outside.old.kits.items outside.old.services)
        (hall W.Out.held W.Out.faults W.Doors.given W.Doors.faults W.Time.to_come W.Draws.left W.Starts.calls W.Paths.calls W.Draws.faults
        W.Starts.faults W.Paths.faults W.Runs.calls W.Runs.faults
        outside.new.output outside.new.doors outside.new.kit outside.new.kits.items outside.new.services) store result.1 result.0 }
    ensures counted { W.Store.faults store ≤ W.Store.faults result.1 }
    ensures writes { W.Out.faults outside.old.output ≤ W.Out.faults outside.new.output }
{
    match open_book(alloc, store, trail, &plan.hub, now) {
        Ok(book) => serve_book(rt, alloc, book, plan, outside),
        Err((store, cause)) => (Err(NotServed::Because(cause)), store),
    }
}

/// What follows over a chosen store, with a trail or its length alone.
fn run_at<W: ServeWorld, R: Threads + Wait + Sync>(
    rt: &R,
    alloc: Global,
    plan: &Plan,
    now: Moment,
    store: W::Store,
    outside: &mut ServeOutside<W>,
) -> (End, W::Store)
    requires limits { plan.now.hub.limits.trail_bytes ≤ 2 ^ 62 }
    requires scopes { MakeTable plan.now.hub.custom_scopes }
    requires apart { are_distinct plan.now.managed ≡ true }
    requires kits { 0 < length outside.old.kits.items }
    ensures ends { spec.EndsChosen W.Store.Tells W.Store.rows W.Store.faults
        (SidesTell W.Doors.are_sides W.Doors.In.left W.Doors.Out.held) plan.now now
        (hall W.Out.held W.Out.faults W.Doors.given W.Doors.faults W.Time.to_come W.Draws.left W.Starts.calls W.Paths.calls W.Draws.faults
        W.Starts.faults W.Paths.faults W.Runs.calls W.Runs.faults
        outside.old.output outside.old.doors outside.old.kit outside.old.kits.items outside.old.services)
        (hall W.Out.held W.Out.faults W.Doors.given W.Doors.faults W.Time.to_come W.Draws.left W.Starts.calls W.Paths.calls W.Draws.faults
        W.Starts.faults W.Paths.faults W.Runs.calls W.Runs.faults
        outside.new.output outside.new.doors outside.new.kit outside.new.kits.items outside.new.services) store result.1 result.0 }
    ensures counted { W.Store.faults store ≤ W.Store.faults result.1 }
    ensures writes { W.Out.faults outside.old.output ≤ W.Out.faults outside.new.output }
{
    if plan.hub.no_trail {
        run_over(rt, alloc, plan, now, CountTrail::new(), store, outside)
    } else {
        run_over(rt, alloc, plan, now, ListTrail::new(alloc), store, outside)
    }
}

/// What follows the plan. The hub is opened at the clock's moment.
fn run_planned<W: ServeWorld, R: Threads + Wait + Sync>(
    rt: &R,
    alloc: Global,
    plan: &Plan,
    store: W::Store,
    outside: &mut ServeOutside<W>,
) -> (End, W::Store)
    requires limits { plan.now.hub.limits.trail_bytes ≤ 2 ^ 62 }
    requires scopes { MakeTable plan.now.hub.custom_scopes }
    requires apart { are_distinct plan.now.managed ≡ true }
    requires kits { 0 < length outside.old.kits.items }
    ensures ends { spec.EndsPlanned W.Store.Tells W.Store.rows W.Store.faults
        (SidesTell W.Doors.are_sides W.Doors.In.left W.Doors.Out.held) W.Store.Chooses plan.now
        (hall W.Out.held W.Out.faults W.Doors.given W.Doors.faults W.Time.to_come W.Draws.left W.Starts.calls W.Paths.calls W.Draws.faults
        W.Starts.faults W.Paths.faults W.Runs.calls W.Runs.faults
        outside.old.output outside.old.doors outside.old.kit outside.old.kits.items outside.old.services)
        (hall W.Out.held W.Out.faults W.Doors.given W.Doors.faults W.Time.to_come W.Draws.left W.Starts.calls W.Paths.calls W.Draws.faults
        W.Starts.faults W.Paths.faults W.Runs.calls W.Runs.faults
        outside.new.output outside.new.doors outside.new.kit outside.new.kits.items outside.new.services) store result.1 result.0 }
    ensures counted { W.Store.faults store ≤ W.Store.faults result.1 }
    ensures writes { W.Out.faults outside.old.output ≤ W.Out.faults outside.new.output }
{
    let mut store = store;
    if let Err(cause) = choose(&mut store, &plan.db) {
        return (Err(NotServed::Because(cause)), store);
    }
    let now = outside.kit.clock.now();
    run_at(rt, alloc, plan, now, store, outside)
}

/// Runs the command `serve` by the plan that `read_plan` read of these words and their file, over the store that the outside has, which is
/// put back at the end, whatever the status. Words and file stand here so that the plan has to be theirs: nothing is read of either again.
///
/// The status is 3 where a name in a list is neither kept nor configured, where a running server has a target that the pool hasn't, or a
/// table would pass its limit; 4 where the store doesn't take its place, fails at opening, or has a row that doesn't read; 7 where memory
/// is wanting before the first connection. Nothing is accepted or written then. Otherwise running servers were taken back, the routes were
/// brought into step unless their link failed, the services were tended and stopped, the line `served N` is written, and the history has
/// what these servers and these connections gained and nothing else; the rows are those of its last state. The status is then 0 where as
/// many connections were served as the words ask for, 8 where the listener failed before that, 6 where the output failed, and 7 where
/// memory was wanting for the line.
pub fn run<F: Files, W: ServeWorld, R: Threads + Wait + Sync>(
    rt: &R,
    alloc: Global,
    words: &[Text],
    files: &F,
    plan: &Plan,
    outside: &mut ServeOutside<W>,
) -> u8
    requires read { IsPlanOf (serve_read words.now) (files_told F.files F.faults files.now) plan.now }
    requires store { IsSome outside.old.store }
    requires kits { 0 < length outside.old.kits.items }
    ensures store { IsSome outside.new.store }
    ensures ends { (k k' : W.Store) → outside.old.store ≡ Some k → outside.new.store ≡ Some k'
        → spec.RunEnds W.Store.Tells W.Store.rows W.Store.faults
        (SidesTell W.Doors.are_sides W.Doors.In.left W.Doors.Out.held) W.Store.Chooses plan.now
        (hall W.Out.held W.Out.faults W.Doors.given W.Doors.faults W.Time.to_come W.Draws.left W.Starts.calls W.Paths.calls W.Draws.faults
        W.Starts.faults W.Paths.faults W.Runs.calls W.Runs.faults
        outside.old.output outside.old.doors outside.old.kit outside.old.kits.items outside.old.services)
        (hall W.Out.held W.Out.faults W.Doors.given W.Doors.faults W.Time.to_come W.Draws.left W.Starts.calls W.Paths.calls W.Draws.faults
        W.Starts.faults W.Paths.faults W.Runs.calls W.Runs.faults
        outside.new.output outside.new.doors outside.new.kit outside.new.kits.items outside.new.services) k k' outside.new.end result }
    ensures counted { (k k' : W.Store) → outside.old.store ≡ Some k → outside.new.store ≡ Some k' → W.Store.faults k ≤ W.Store.faults k' }
    ensures writes { W.Out.faults outside.old.output ≤ W.Out.faults outside.new.output }
{
    // what they say is the plan
    let _ = words;
    let _ = files;
    let Some(store) = outside.store.take() else {
        unreachable!()
    };
    let (end, store) = run_planned(rt, alloc, plan, store, outside);
    let status = status_of(&end);
    outside.store = Some(store);
    outside.end = Some(end);
    status
}
