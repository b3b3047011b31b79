//! The hubs of the tests: a book that is opened over a file of configuration and a keeper in memory, and its desk.
ghost use Rattle.std.specs.Prelude.{◌≡◌, IsSome, true};
ghost use Rattle.hub_opening.specs.Kept.{MakeTable};

use crate::check::failing;
use desk::{Booked, Desk, Pass};
use hub_config::reading::read_config;
use hub_core::book::Book;
use hub_kit::list::List;
use hub_kit::moment::Moment;
use hub_machine::change::Change;
use hub_opening::config::greatest_limits;
use keeper::keeper::Keeper;
use keeper::mem_keeper::MemKeeper;
use keeper::trail::ListTrail;
use scope_names::custom::CustomRow;
use std::alloc::Global;
use std::process::Abort;
use std::sync::Wait;

/// The book of a hub over a keeper.
pub type BookOver<K> = Book<K, ListTrail<Change>>;

pub type MemBook = BookOver<MemKeeper>;

/// The number of a call that doesn't come.
pub const NEVER: u64 = u64::MAX;

/// When the hub is opened: 2023-11-14T22:13:20Z.
pub const NOW: u64 = 1_700_000_000;

/// No custom scopes, which make a table.
fn no_scopes(alloc: Global) -> List<CustomRow>
    ensures { MakeTable result }
{
    List::new(alloc)
}

/// The book over a keeper that a file gives which has neither limits nor custom scopes; or the keeper, where the book is refused.
pub fn open_book<K: Keeper>(
    rt: &impl Abort,
    alloc: Global,
    file: &str,
    keeper: K,
) -> Result<BookOver<K>, K> {
    let mut config = read_config(alloc, file.as_bytes()).expect(rt, file);
    config.hub.limits = greatest_limits();
    config.hub.custom_scopes = no_scopes(alloc);
    let now = Moment::up_to(NOW);
    let book = Book::open(alloc, keeper, ListTrail::new(alloc), &config.hub, now);
    drop(config);
    match book {
        Ok(book) => Ok(book),
        Err((keeper, _)) => Err(keeper),
    }
}

/// The book of a file over an empty keeper in memory. The keeper's call of the number fails; the opening makes the first two.
pub fn book(rt: &impl Abort, alloc: Global, file: &str, failing_commit: u64) -> MemBook {
    let failing = failing(rt, alloc, failing_commit);
    let keeper = MemKeeper::new(alloc, Vec::new(alloc), failing).expect(rt, "there is memory");
    match open_book(rt, alloc, file, keeper) {
        Ok(book) => book,
        Err(_) => panic!(rt; "no book"),
    }
}

/// A desk over the book, and its first pass.
pub fn open_desk<B: Booked>(rt: &impl Abort, alloc: Global, book: B) -> (Desk<B>, Pass<B>)
    ensures of { result.1.of ≡ result.0 }
    ensures first { IsSome result.1.others }
    ensures alone { result.1.alone ≡ true }
{
    match Desk::open(alloc, book) {
        Ok(opened) => opened,
        Err(_) => panic!(rt; "no desk"),
    }
}

/// A desk over the book of a file, and its first pass.
pub fn open_hub(rt: &impl Abort, alloc: Global, file: &str) -> (Desk<MemBook>, Pass<MemBook>)
    ensures of { result.1.of ≡ result.0 }
    ensures first { IsSome result.1.others }
    ensures alone { result.1.alone ≡ true }
{
    open_desk(rt, alloc, book(rt, alloc, file, NEVER))
}

/// Closes the hub.
pub fn close_hub<R: Wait>(rt: &R, desk: Desk<MemBook>, pass: Pass<MemBook>)
    requires { pass.of ≡ desk }
{
    let book = desk.close(rt, pass);
    drop(book);
}
