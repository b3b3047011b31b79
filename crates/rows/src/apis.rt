//! Rows of requests to the interface of a proxy, one after the other on one table of routes.
use crate::ends::{sink_of, source_of};
use crate::given::{check_words, compare_number, cut_of, number, said};
use hub_kit::moment::Moment;
use hub_kit::text::Text;
use proxy_api::api::api_one;
use route_table::routes::Routes;
use row_texts::compare::{Report, compare_messages};
use row_texts::item::{Item, Row, find};
use row_texts::trouble::Trouble;
use std::alloc::Global;

/// The words that may stand before the rows of such a file, and those that such a row may have.
const OPENING: [&str; 3] = ["kind", "secret", "room"];

const WORDS: [&str; 7] = ["room", "reads", "fails", "status", "--", ">", "<"];

/// 2023-11-14T22:13:20Z.
const NOW: u64 = 1_700_000_000;

/// Compares the status that was given with what the part says, or where it says none, with that of the reply.
fn compare_status(
    alloc: Global,
    report: &mut Report<'_>,
    part: &[Item<'_>],
    reply: &[u8],
    given: u16,
) -> Result<(), Trouble> {
    let (line, wanted) = match (find(part, "status"), part.first()) {
        (Some(item), _) => (item.line, item.words.as_bytes()),
        (None, Some(item)) => (item.line, reply.get(9..12).unwrap_or(b"")),
        (None, None) => return Ok(()),
    };
    compare_number(alloc, report, line, "status", wanted, u64::from(given))
}

/// Plays one request.
fn play_part(
    alloc: Global,
    routes: &mut Routes,
    secret: &Text,
    part: &[Item<'_>],
    report: &mut Report<'_>,
) -> Result<(), Trouble> {
    let mut source = source_of(alloc, part, cut_of(part, part, 7)?)?;
    let mut sink = sink_of(alloc, part)?;
    let now = Moment::up_to(NOW);
    let given = api_one(alloc, routes, secret, now, &mut source, &mut sink);
    drop(source);
    let written = compare_messages(report, part, "<", 1, sink.as_slice());
    // a status of 1 stands for a fault of the input or the output
    let status = compare_status(alloc, report, part, sink.as_slice(), given.unwrap_or(1));
    drop(sink);
    report.end_row();
    written?;
    status
}

/// Plays each part of a row as a row of its own.
fn play_parts(
    alloc: Global,
    routes: &mut Routes,
    secret: &Text,
    row: &Row<'_>,
    report: &mut Report<'_>,
) -> Result<(), Trouble> {
    for part in row.items.split(|item| item.key == "--") {
        if !part.is_empty() {
            play_part(alloc, routes, secret, part, report)?;
        }
    }
    Ok(())
}

/// Plays the parts of a row on one table.
pub fn play<'x>(
    alloc: Global,
    opening: &[Item<'x>],
    row: &Row<'x>,
    report: &mut Report<'_>,
) -> Result<(), Trouble> {
    check_words(opening, &OPENING)?;
    check_words(&row.items, &WORDS)?;
    let room = u32::try_from(number(&row.items, opening, "room", 5)?).unwrap_or(5);
    let (_, secret) = said(opening, opening, "secret").unwrap_or((0, ""));
    let secret = Text::from_str(alloc, secret)?;
    let mut routes = Routes::new(alloc, room);
    let played = play_parts(alloc, &mut routes, &secret, row, report);
    drop(routes);
    drop(secret);
    played
}
