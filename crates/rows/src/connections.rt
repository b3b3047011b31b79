//! Rows of connections, one after the other, to one hub.
ghost use Rattle.std.specs.Prelude.{◌≡◌};

use crate::calls::{route_words, spawner_words};
use crate::ends::sink_of;
use crate::given::{
    check_words, compare_end, compare_number, cut_of, failing, joined, number, part_of, text_of,
};
use crate::hubs::{MemBook, MemKit, kit, open_book};
use desk::{Desk, Pass};
use http_wire::error::SessionFault;
use hub_devices::calls::ListedRoute;
use hub_devices::mem_bytes::{MemSink, MemSource};
use hub_devices::mem_routes::MemRouteLink;
use hub_devices::mem_spawner::MemSpawner;
use hub_kit::text::Text;
use hub_run::{Served, serve_connection};
use row_texts::compare::{Report, compare_messages, compare_words};
use row_texts::item::{Item, Row, count, find};
use row_texts::trouble::Trouble;
use std::alloc::Global;
use std::sync::Wait;

/// The words that may stand before the rows of such a file, and those that such a row may have.
const OPENING: [&str; 7] = ["kind", "hub", "trail", "after", "reads", "times", ">"];

const WORDS: [&str; 14] = [
    "hub", "trail", "fails", "after", "reads", "times", "listed", "end", "hits", "spawner",
    "routes", "--", ">", "<",
];

/// Puts the route that an item says, as `PATH TARGET SERIAL`, behind these.
fn push_listed(
    alloc: Global,
    routes: &mut Vec<ListedRoute>,
    item: &Item<'_>,
) -> Result<(), Trouble> {
    let wrong = Trouble::At(item.line, "no path, target and serial");
    let (path, rest) = item.words.split_once(' ').ok_or(wrong)?;
    let (target, serial) = rest.split_once(' ').ok_or(wrong)?;
    let serial = Some(serial.parse::<u64>().ok().ok_or(wrong)?);
    let path = Text::from_str(alloc, path)?;
    let target = Text::from_str(alloc, target)?;
    routes.push(ListedRoute {
        path,
        target,
        serial,
    })?;
    Ok(())
}

/// The routes that the link begins with.
fn listed(alloc: Global, items: &[Item<'_>]) -> Result<Vec<ListedRoute>, Trouble> {
    let mut routes = Vec::new(alloc);
    for item in items {
        if item.key == "listed" {
            push_listed(alloc, &mut routes, item)?;
        }
    }
    Ok(routes)
}

/// How a connection ended, in words. Where the row says no number of replies, none is told.
fn end_words(
    alloc: Global,
    end: Result<Served, SessionFault>,
    replies: u64,
) -> Result<String, Trouble> {
    let (word, number) = match end {
        Ok(Served::Ended(number)) => ("ended", number),
        Ok(Served::Cut(number)) => ("cut", number),
        Ok(Served::Closed(number)) => ("closed", number),
        Err(SessionFault::ReadFault(number)) => ("no read", number),
        Err(SessionFault::WriteFault(number)) => ("no write", number),
    };
    if number == replies {
        Ok(String::from_str(alloc, word)?)
    } else {
        Ok(format!(in alloc; "{word} after {number} replies")?)
    }
}

/// The link to a proxy's routes.
fn routes_of(alloc: Global, part: &[Item<'_>]) -> Result<MemRouteLink, Trouble> {
    let failing = failing(alloc, part, "routes")?;
    let routes = listed(alloc, part)?;
    Ok(MemRouteLink::beginning(alloc, routes, failing))
}

/// The devices of a connection.
fn kit_of<'x>(alloc: Global, opening: &[Item<'x>], part: &[Item<'x>]) -> Result<MemKit, Trouble> {
    let after = number(part, opening, "after", 0)?;
    let draws = failing(alloc, part, "draw")?;
    let spawner = MemSpawner::new(alloc, failing(alloc, part, "spawner")?);
    let routes = routes_of(alloc, part)?;
    kit(alloc, after, spawner, routes, draws)
}

/// Compares what the devices were asked.
fn compare_calls(
    alloc: Global,
    report: &mut Report<'_>,
    part: &[Item<'_>],
    kit: &MemKit,
) -> Result<(), Trouble> {
    let asked = spawner_words(alloc, kit.spawner.calls())?;
    let compared = compare_words(report, part, "spawner", &asked);
    drop(asked);
    compared?;
    let asked = route_words(alloc, kit.routes.calls())?;
    let compared = compare_words(report, part, "routes", &asked);
    drop(asked);
    compared
}

/// What a connection meets.
struct Met {
    source: MemSource,
    sink: MemSink,
    kit: MemKit,
}

impl Drop for Met {
    fn drop(self) {
        let Met {
            source: _,
            sink: _,
            kit: _,
        } = self;
    }
}

/// What is sent on a connection, which the opening may say for all rows.
fn sent_on(
    alloc: Global,
    opening: &[Item<'_>],
    part: &[Item<'_>],
    times: u64,
) -> Result<MemSource, Trouble> {
    let cut = cut_of(part, opening, 100)?;
    let failing = failing(alloc, part, "read")?;
    let input = if count(part, ">") == 0 {
        joined(alloc, opening, ">", times)?
    } else {
        joined(alloc, part, ">", times)?
    };
    Ok(MemSource::new(input, cut, failing))
}

/// What a connection meets, by these items.
fn met_of<'x>(
    alloc: Global,
    opening: &[Item<'x>],
    part: &[Item<'x>],
    times: u64,
) -> Result<Met, Trouble> {
    let sink = sink_of(alloc, part)?;
    let source = sent_on(alloc, opening, part, times)?;
    let kit = kit_of(alloc, opening, part)?;
    Ok(Met { source, sink, kit })
}

/// Serves one connection: how it ends.
fn serve<R: Wait>(
    rt: &R,
    alloc: Global,
    desk: &Desk<MemBook>,
    pass: &mut Pass<MemBook>,
    met: &mut Met,
) -> Result<Served, SessionFault>
    requires { pass.old.of ≡ desk.now }
    ensures { pass.new.of ≡ desk.now }
{
    let (source, sink, kit) = (&mut met.source, &mut met.sink, &mut met.kit);
    serve_connection(rt, alloc, desk, pass, source, sink, kit)
}

/// Compares what was written, and what the devices were asked.
fn compare_met(
    alloc: Global,
    report: &mut Report<'_>,
    part: &[Item<'_>],
    times: u64,
    met: &Met,
) -> Result<(), Trouble> {
    compare_messages(report, part, "<", times, met.sink.as_slice())?;
    compare_calls(alloc, report, part, &met.kit)
}

/// Compares how a connection ended.
fn compare_served(
    alloc: Global,
    report: &mut Report<'_>,
    part: &[Item<'_>],
    line: u64,
    times: u64,
    end: Result<Served, SessionFault>,
) -> Result<(), Trouble> {
    let replies = count(part, "<").saturating_mul(times);
    let end = end_words(alloc, end, replies)?;
    let compared = compare_end(report, part, line, "ended", &end);
    drop(end);
    compared
}

/// Plays one connection.
fn play_part<'x, R: Wait>(
    rt: &R,
    alloc: Global,
    desk: &Desk<MemBook>,
    pass: &mut Pass<MemBook>,
    opening: &[Item<'x>],
    part: &[Item<'x>],
    line: u64,
    report: &mut Report<'_>,
) -> Result<(), Trouble>
    requires { pass.old.of ≡ desk.now }
    ensures { pass.new.of ≡ desk.now }
{
    let times = number(part, opening, "times", 1)?.min(10_000);
    let mut met = met_of(alloc, opening, part, times)?;
    let end = serve(rt, alloc, desk, pass, &mut met);
    let compared = compare_met(alloc, report, part, times, &met);
    drop(met);
    compared?;
    compare_served(alloc, report, part, line, times, end)
}

/// Plays the connections of a row.
fn play_parts<'x, R: Wait>(
    rt: &R,
    alloc: Global,
    desk: &Desk<MemBook>,
    pass: &mut Pass<MemBook>,
    opening: &[Item<'x>],
    row: &Row<'x>,
    report: &mut Report<'_>,
) -> Result<(), Trouble>
    requires { pass.old.of ≡ desk.now }
    ensures { pass.new.of ≡ desk.now }
{
    for number in 0..=count(&row.items, "--") {
        if let Some(part) = part_of(&row.items, number) {
            play_part(rt, alloc, desk, pass, opening, part, row.line, report)?;
        }
    }
    Ok(())
}

/// The book of a row.
fn book_of<'x>(alloc: Global, opening: &[Item<'x>], row: &Row<'x>) -> Result<MemBook, Trouble> {
    let Some(file) = text_of(&row.items, opening, "hub") else {
        return Err(Trouble::At(row.line, "a row without a hub"));
    };
    let trail = number(&row.items, opening, "trail", 1_073_741_824)?;
    let trail = u32::try_from(trail).unwrap_or(u32::MAX);
    let failing = failing(alloc, &row.items, "keeper")?;
    open_book(alloc, file, failing, trail)
}

/// Plays a row, and tells what differs.
pub fn play<'x, R: Wait>(
    rt: &R,
    alloc: Global,
    opening: &[Item<'x>],
    row: &Row<'x>,
    report: &mut Report<'_>,
) -> Result<(), Trouble> {
    check_words(opening, &OPENING)?;
    check_words(&row.items, &WORDS)?;
    let book = book_of(alloc, opening, row)?;
    let (desk, mut pass) = match Desk::open(alloc, book) {
        Ok(opened) => opened,
        Err((book, _)) => {
            drop(book);
            return Err(Trouble::Memory);
        }
    };
    let played = play_parts(rt, alloc, &desk, &mut pass, opening, row, report);
    let book = desk.close(rt, pass);
    let hits = book.hits();
    drop(book);
    played?;
    match find(&row.items, "hits") {
        Some(item) => compare_number(
            alloc,
            report,
            item.line,
            "hits",
            item.words.as_bytes(),
            hits,
        ),
        None => Ok(()),
    }
}
