//! Rows of requests that are forwarded to the target of a route.
use crate::ends::{Ends, compare_ends, ends_of};
use crate::given::{Ended, check_words, compare_ended, said};
use http_wire::error::SessionFault;
use hub_kit::moment::Moment;
use hub_kit::targets::read_target;
use proxy_core::forward::forward_one;
use proxy_core::refusals::Forwarded;
use route_table::extra::Extra;
use route_table::route::RouteEntry;
use route_table::routes::Routes;
use row_texts::compare::Report;
use row_texts::item::{Item, Row};
use row_texts::trouble::Trouble;
use std::alloc::Global;

/// The words that may stand before the rows of such a file, and those that such a row may have.
const OPENING: [&str; 3] = ["kind", "route", "reads"];

const WORDS: [&str; 7] = ["reads", "fails", "end", ">", "<", "up>", "up<"];

/// Adds the route that an item says.
fn add_route(alloc: Global, routes: &mut Routes, item: &Item<'_>) -> Result<(), Trouble> {
    let wrong = Trouble::At(item.line, "no path and target");
    let (path, target) = item.words.split_once(' ').ok_or(wrong)?;
    let Ok(target) = read_target(alloc, target.as_bytes()) else {
        return Err(wrong);
    };
    let entry = RouteEntry {
        target,
        serial: None,
        extra: Extra::new(),
    };
    match routes.add(path.as_bytes(), entry, Moment::zero()) {
        Ok(_) => Ok(()),
        Err(_) => Err(wrong),
    }
}

/// Adds the routes that the items say.
fn add_routes(alloc: Global, routes: &mut Routes, items: &[Item<'_>]) -> Result<(), Trouble> {
    for item in items {
        if item.key == "route" {
            add_route(alloc, routes, item)?;
        }
    }
    Ok(())
}

/// How a request that is forwarded ends.
pub fn forwarded(end: Forwarded) -> Ended {
    match end {
        Forwarded::Passed => ("passed", 0),
        Forwarded::Refused(status) => ("refused", status),
        Forwarded::Ended => ("ended", 0),
        Forwarded::Cut => ("cut", 0),
    }
}

/// How a request ends at which a read or a write fails.
pub fn fault(fault: SessionFault) -> Ended {
    match fault {
        SessionFault::ReadFault(_) => ("no read", 0),
        SessionFault::WriteFault(_) => ("no write", 0),
    }
}

/// Forwards one request by the routes of the opening: how it ends.
fn forward(
    alloc: Global,
    routes: &mut Routes,
    opening: &[Item<'_>],
    ends: &mut Ends,
) -> Result<Ended, Trouble> {
    add_routes(alloc, routes, opening)?;
    let (source, sink, up) = (&mut ends.source, &mut ends.sink, &mut ends.up);
    match forward_one(alloc, routes, Moment::zero(), source, sink, up) {
        Ok(how) => Ok(forwarded(how)),
        Err(why) => Ok(fault(why)),
    }
}

/// Plays a row by reads of at most so many bytes.
fn play_at<'x>(
    alloc: Global,
    opening: &[Item<'x>],
    row: &Row<'x>,
    cut: usize,
    report: &mut Report<'_>,
) -> Result<(), Trouble> {
    let items = row.items.as_slice();
    let mut ends = ends_of(alloc, items, cut)?;
    let mut routes = Routes::new(alloc, 10);
    let end = forward(alloc, &mut routes, opening, &mut ends);
    drop(routes);
    let compared = compare_ends(report, items, &ends);
    drop(ends);
    compared?;
    compare_ended(alloc, report, items, row.line, end?)
}

/// Plays a row by each number of bytes that it names behind `reads`, and tells what differs.
pub fn play<'x>(
    alloc: Global,
    opening: &[Item<'x>],
    row: &Row<'x>,
    report: &mut Report<'_>,
) -> Result<(), Trouble> {
    check_words(opening, &OPENING)?;
    check_words(&row.items, &WORDS)?;
    let (line, sizes) = said(&row.items, opening, "reads").unwrap_or((0, "1000"));
    for size in sizes.split(' ') {
        match size.parse::<usize>() {
            Ok(cut) => play_at(alloc, opening, row, cut, report)?,
            Err(_) => return Err(Trouble::At(line, "no number")),
        }
    }
    Ok(())
}
