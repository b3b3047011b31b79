//! Rows of whole rounds of the culler: what it asks, what it is told, and its numbers.
use crate::given::{check_words, compare_end, number, said};
use crate::hub_links::{compare_asked, hub_link};
use hub_kit::moment::Moment;
use hub_kit::text::Text;
use idle_culler::pages::CullFault;
use idle_culler::rounds::{Round, cull_round};
use idle_culler::rules::CullOptions;
use row_texts::compare::Report;
use row_texts::item::{Item, Row};
use row_texts::trouble::Trouble;
use std::alloc::Global;

/// The words that may stand before the rows of such a file, and those that such a row may have.
const OPENING: [&str; 6] = [
    "kind",
    "token",
    "timeout",
    "max-age",
    "cull-users",
    "remove-named",
];

const WORDS: [&str; 9] = [
    "token",
    "timeout",
    "max-age",
    "cull-users",
    "remove-named",
    "fails",
    "end",
    "hub>",
    "hub<",
];

/// 2023-11-14T22:13:20Z.
const NOW: u64 = 1_700_000_000;

fn end_words(alloc: Global, end: Result<Round, CullFault>) -> Result<String, Trouble> {
    Ok(match end {
        Ok(round) => {
            let (users, culled, refused) = (round.users, round.culled, round.refused);
            format!(in alloc; "users {users} culled {culled} refused {refused}")?
        }
        Err(CullFault::LinkFault) => String::from_str(alloc, "the link failed")?,
        Err(CullFault::BadReply(status)) => format!(in alloc; "bad reply {status}")?,
        Err(CullFault::Memory) => return Err(Trouble::Memory),
    })
}

fn is_said<'x>(items: &[Item<'x>], opening: &[Item<'x>], key: &str) -> bool {
    match said(items, opening, key) {
        Some((_, words)) => words == "yes",
        None => false,
    }
}

/// Plays a row, and tells what differs.
pub fn play<'x>(
    alloc: Global,
    opening: &[Item<'x>],
    row: &Row<'x>,
    report: &mut Report<'_>,
) -> Result<(), Trouble> {
    check_words(opening, &OPENING)?;
    check_words(&row.items, &WORDS)?;
    let options = CullOptions {
        timeout: number(&row.items, opening, "timeout", 600)?,
        max_age: number(&row.items, opening, "max-age", 0)?,
        cull_users: is_said(&row.items, opening, "cull-users"),
        remove_named: is_said(&row.items, opening, "remove-named"),
    };
    let (_, token) = said(&row.items, opening, "token").unwrap_or((0, ""));
    let token = Text::from_str(alloc, token)?;
    let mut link = hub_link(alloc, &row.items)?;
    let end = cull_round(alloc, &mut link, &token, &options, Moment::up_to(NOW));
    drop(token);
    let asked = compare_asked(alloc, report, &row.items, &link);
    drop(link);
    asked?;
    let end = end_words(alloc, end)?;
    let compared = compare_end(report, &row.items, row.line, "", &end);
    drop(end);
    compared
}
