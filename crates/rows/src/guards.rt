//! Rows of requests at a guard, one after the other: of a guard of tokens, or one where browsers sign in too.
use crate::ends::{Ends, compare_ends, ends_of};
use crate::forwards::{fault, forwarded};
use crate::given::{Ended, check_words, compare_ended, said};
use crate::hub_links::{compare_asked, hub_link};
use guard::guards::guard_one;
use guard_login::answers::Signed;
use guard_login::door::Door;
use guard_login::logins::login_one;
use hub_devices::mem_random::ListRandom;
use hub_kit::names::read_key;
use hub_kit::target::Target;
use hub_kit::targets::read_target;
use hub_kit::text::Text;
use hub_link::mem_link::MemHubLink;
use row_texts::compare::Report;
use row_texts::item::{Item, Row};
use row_texts::trouble::Trouble;
use std::alloc::Global;

/// The words that may stand before the rows of such a file, and those that such a row may have.
const OPENING: [&str; 6] = ["kind", "for", "target", "hub", "secret", "reads"];

const WORDS: [&str; 10] = [
    "reads", "fails", "end", "--", ">", "<", "up>", "up<", "hub>", "hub<",
];

fn target(alloc: Global, opening: &[Item<'_>], key: &str) -> Result<Target, Trouble> {
    let (line, url) = said(opening, opening, key).unwrap_or((0, ""));
    match read_target(alloc, url.as_bytes()) {
        Ok(target) => Ok(target),
        Err(_) => Err(Trouble::At(line, "no target")),
    }
}

/// The target behind the guard, and the hub.
fn targets(alloc: Global, opening: &[Item<'_>]) -> Result<(Target, Target), Trouble> {
    let behind = target(alloc, opening, "target")?;
    let hub = target(alloc, opening, "hub")?;
    Ok((behind, hub))
}

/// The secret of the opening, or none.
fn secret(alloc: Global, opening: &[Item<'_>]) -> Result<Text, Trouble> {
    let (_, secret) = said(opening, opening, "secret").unwrap_or((0, ""));
    Ok(Text::from_str(alloc, secret)?)
}

/// The guard of the opening.
fn door(alloc: Global, opening: &[Item<'_>]) -> Result<Door, Trouble> {
    let (line, key) = said(opening, opening, "for").unwrap_or((0, ""));
    let Ok(key) = read_key(key.as_bytes()) else {
        return Err(Trouble::At(line, "no server"));
    };
    let (target, hub) = targets(alloc, opening)?;
    let secret = secret(alloc, opening)?;
    Ok(Door {
        key,
        target,
        hub,
        secret,
        secure_cookies: false,
    })
}

/// One draw, which is 1.
fn draws(alloc: Global) -> Result<ListRandom, Trouble> {
    let mut draws = Vec::new(alloc);
    draws.push([0, 0, 0, 0, 0, 0, 0, 0, 0, 0, 0, 0, 0, 0, 0, 1])?;
    Ok(ListRandom::new(draws, Vec::new(alloc)))
}

/// How a request ends at a guard where browsers sign in.
fn signed(end: Signed) -> Ended {
    match end {
        Signed::Carried(how) => forwarded(how),
        Signed::Sent => ("sent to sign in", 0),
        Signed::GaveCookie => ("gave a cookie", 0),
        Signed::Refused(status) => ("refused", status),
        Signed::Ended => ("ended", 0),
        Signed::Cut => ("cut", 0),
    }
}

/// How one request ends at a guard of tokens.
fn at_guard(alloc: Global, door: &Door, link: &mut MemHubLink, ends: &mut Ends) -> Ended {
    let (source, sink, up) = (&mut ends.source, &mut ends.sink, &mut ends.up);
    match guard_one(alloc, &door.key, &door.target, link, source, sink, up) {
        Ok(how) => forwarded(how),
        Err(why) => fault(why),
    }
}

/// How one request ends at the door: at a guard of tokens, or where there is a secret, at one where browsers sign in.
fn end_of(
    alloc: Global,
    door: &Door,
    link: &mut MemHubLink,
    ends: &mut Ends,
) -> Result<Ended, Trouble> {
    if door.secret.is_empty() {
        return Ok(at_guard(alloc, door, link, ends));
    }
    let mut random = draws(alloc)?;
    let (source, sink, up) = (&mut ends.source, &mut ends.sink, &mut ends.up);
    let end = login_one(alloc, door, link, &mut random, source, sink, up);
    drop(random);
    Ok(match end {
        Ok(how) => signed(how),
        Err(why) => fault(why),
    })
}

/// Plays one request by reads of at most so many bytes.
fn play_part(
    alloc: Global,
    door: &Door,
    link: &mut MemHubLink,
    part: &[Item<'_>],
    line: u64,
    cut: usize,
    report: &mut Report<'_>,
) -> Result<(), Trouble> {
    let mut ends = ends_of(alloc, part, cut)?;
    let end = end_of(alloc, door, link, &mut ends);
    let compared = compare_ends(report, part, &ends);
    drop(ends);
    compared?;
    compare_ended(alloc, report, part, line, end?)
}

/// Plays the requests of a row, one after the other.
fn play_parts(
    alloc: Global,
    door: &Door,
    link: &mut MemHubLink,
    row: &Row<'_>,
    cut: usize,
    report: &mut Report<'_>,
) -> Result<(), Trouble> {
    for part in row.items.split(|item| item.key == "--") {
        if !part.is_empty() {
            play_part(alloc, door, link, part, row.line, cut, report)?;
        }
    }
    Ok(())
}

/// Plays a row by reads of at most so many bytes.
fn play_at(
    alloc: Global,
    door: &Door,
    row: &Row<'_>,
    cut: usize,
    report: &mut Report<'_>,
) -> Result<(), Trouble> {
    let mut link = hub_link(alloc, &row.items)?;
    let played = play_parts(alloc, door, &mut link, row, cut, report);
    let asked = compare_asked(alloc, report, &row.items, &link);
    drop(link);
    played?;
    asked
}

/// Plays a row by each number of bytes that stands behind `reads`.
fn play_sizes<'x>(
    alloc: Global,
    door: &Door,
    opening: &[Item<'x>],
    row: &Row<'x>,
    report: &mut Report<'_>,
) -> Result<(), Trouble> {
    let (line, sizes) = said(&row.items, opening, "reads").unwrap_or((0, "1000"));
    for size in sizes.split(' ') {
        match size.parse::<usize>() {
            Ok(cut) => play_at(alloc, door, row, cut, report)?,
            Err(_) => return Err(Trouble::At(line, "no number")),
        }
    }
    Ok(())
}

/// Plays a row, and tells what differs.
pub fn play<'x>(
    alloc: Global,
    opening: &[Item<'x>],
    row: &Row<'x>,
    report: &mut Report<'_>,
) -> Result<(), Trouble> {
    check_words(opening, &OPENING)?;
    check_words(&row.items, &WORDS)?;
    let door = door(alloc, opening)?;
    let played = play_sizes(alloc, &door, opening, row, report);
    drop(door);
    played
}
