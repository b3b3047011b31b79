//! What is done over the book of a session.
ghost use Rattle.std.specs.Prelude.{◌≡◌, ◌≤◌, [], true, IsTrue, Some};
ghost use Rattle.hub_core.specs.Visits.{entries_of};
ghost use Rattle.hub_core.specs.declared.start.Start.{Start};
ghost use Rattle.hub_run.specs.Turns.{view_of};
ghost use Rattle.hub_main.specs.Served as spec;
ghost use Rattle.hub_main.specs.Told.{sides, kit_told};

use crate::cause::Cause;
use crate::end::End;
use crate::world::{Outside, World};
use desk::{Desk, Pass};
use hub_adopt::adopt;
use hub_core::book::Book;
use hub_devices::clock::Clock;
use hub_devices::mem_clock::FixedClock;
use hub_kit::moment::Moment;
use hub_machine::change::Change;
use hub_run::serve_connection;
use keeper::trail::Trail;
use std::alloc::Global;
use std::sync::Wait;

/// Takes the running servers back and serves one connection from the input to the output, over a book without entries, by a clock that
/// stands still. It gives the store that the book kept its rows in.
pub(crate) fn serve_book<W: World, T: Trail<Entry = Change>, R: Wait>(
    rt: &R,
    alloc: Global,
    book: Book<W::Store, T>,
    now: Moment,
    outside: &mut Outside<W>,
) -> (End, W::Store)
    requires new { entries_of book ≡ [] }
    ensures ends { spec.SessionEndsOver W.Store.Tells W.Store.rows W.Store.faults book.start book.faults now
        (sides W.In.left W.In.faults W.Out.held W.Out.faults outside.old.input outside.old.output
        (kit_told W.Draws.left W.Starts.calls W.Paths.calls W.Draws.faults W.Starts.faults W.Paths.faults outside.old.kit))
        (sides W.In.left W.In.faults W.Out.held W.Out.faults outside.new.input outside.new.output
        (kit_told W.Draws.left W.Starts.calls W.Paths.calls W.Draws.faults W.Starts.faults W.Paths.faults outside.new.kit)) result.1
        result.0 }
    ensures files { outside.new.files ≡ outside.old.files }
    ensures reads { W.In.faults outside.old.input ≤ W.In.faults outside.new.input }
    ensures writes { W.Out.faults outside.old.output ≤ W.Out.faults outside.new.output }
    ensures counted { book.faults ≤ W.Store.faults result.1 }
    ensures had { W.Store.Tells result.1 → IsTrue book.start.has_rows }
{
    match Desk::open(alloc, book) {
        Ok((desk, pass)) => serve_alone(rt, alloc, desk, pass, now, outside),
        Err((book, _)) => {
            let (store, trail) = book.into_parts();
            drop(trail);
            (Err(Cause::Memory), store)
        }
    }
}

/// The same by the first pass of a desk, which stays alone.
fn serve_alone<W: World, T: Trail<Entry = Change>, R: Wait>(
    rt: &R,
    alloc: Global,
    desk: Desk<Book<W::Store, T>>,
    mut pass: Pass<Book<W::Store, T>>,
    now: Moment,
    outside: &mut Outside<W>,
) -> (End, W::Store)
    requires of { pass.of ≡ desk }
    requires alone { pass.alone ≡ true }
    ensures ends { (start : Start) → pass.base ≡ Some start → spec.SessionEndsBy W.Store.Tells W.Store.rows W.Store.faults pass start now
        (sides W.In.left W.In.faults W.Out.held W.Out.faults outside.old.input outside.old.output
        (kit_told W.Draws.left W.Starts.calls W.Paths.calls W.Draws.faults W.Starts.faults W.Paths.faults outside.old.kit))
        (sides W.In.left W.In.faults W.Out.held W.Out.faults outside.new.input outside.new.output
        (kit_told W.Draws.left W.Starts.calls W.Paths.calls W.Draws.faults W.Starts.faults W.Paths.faults outside.new.kit)) result.1
        result.0 }
    ensures files { outside.new.files ≡ outside.old.files }
    ensures reads { W.In.faults outside.old.input ≤ W.In.faults outside.new.input }
    ensures writes { W.Out.faults outside.old.output ≤ W.Out.faults outside.new.output }
    ensures counted { pass.faults ≤ W.Store.faults result.1 }
    ensures had { (start : Start) → pass.base ≡ Some start → W.Store.Tells result.1 → IsTrue start.has_rows }
{
    let end = serve_pass(rt, alloc, &desk, &mut pass, now, outside);
    let (store, trail) = desk.close(rt, pass).into_parts();
    drop(trail);
    (end, store)
}

/// Takes the running servers back and serves one connection, by a pass that is alone.
fn serve_pass<W: World, T: Trail<Entry = Change>, R: Wait>(
    rt: &R,
    alloc: Global,
    desk: &Desk<Book<W::Store, T>>,
    pass: &mut Pass<Book<W::Store, T>>,
    now: Moment,
    outside: &mut Outside<W>,
) -> End
    requires of { pass.old.of ≡ desk.now }
    requires alone { pass.old.alone ≡ true }
    ensures ends { (start : Start) → pass.old.base ≡ Some start → spec.PassEnds start
        (spec.view_with pass.old now (kit_told W.Draws.left W.Starts.calls W.Paths.calls W.Draws.faults W.Starts.faults W.Paths.faults
        outside.old.kit))
        (view_of (⟦<FixedClock as Clock>⟧.to_come) W.Draws.left W.Starts.calls W.Paths.calls W.Draws.faults W.Starts.faults W.Paths.faults
        pass.new outside.new.kit)
        (sides W.In.left W.In.faults W.Out.held W.Out.faults outside.old.input outside.old.output
        (kit_told W.Draws.left W.Starts.calls W.Paths.calls W.Draws.faults W.Starts.faults W.Paths.faults outside.old.kit))
        (sides W.In.left W.In.faults W.Out.held W.Out.faults outside.new.input outside.new.output
        (kit_told W.Draws.left W.Starts.calls W.Paths.calls W.Draws.faults W.Starts.faults W.Paths.faults outside.new.kit)) result }
    ensures of { pass.new.of ≡ pass.old.of }
    ensures base { pass.new.base ≡ pass.old.base }
    ensures alone { pass.new.alone ≡ true }
    ensures files { outside.new.files ≡ outside.old.files }
    ensures reads { W.In.faults outside.old.input ≤ W.In.faults outside.new.input }
    ensures writes { W.Out.faults outside.old.output ≤ W.Out.faults outside.new.output }
    ensures counted { (start : Start) → pass.old.base ≡ Some start → pass.old.faults ≤ pass.new.faults }
{
    outside.kit.clock = FixedClock(now);
    match adopt(rt, alloc, desk, pass, &mut outside.kit) {
        Ok(_) => Ok(serve_connection(
            rt,
            alloc,
            desk,
            pass,
            &mut outside.input,
            &mut outside.output,
            &mut outside.kit,
        )),
        Err(_) => Err(Cause::Memory),
    }
}
