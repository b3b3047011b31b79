//! Rows of whole sessions, from their words to the status and what is written.
ghost use Rattle.std.specs.Prelude.{IsSome, IfOk};

use crate::ends::{sink_of, source_of};
use crate::given::{check_words, compare_number, cut_of, part_of, said, text_of};
use crate::word_lines::words_of;
use hub_devices::mem_bytes::{MemSink, MemSource};
use hub_devices::mem_clock::FixedClock;
use hub_devices::mem_files::MemFiles;
use hub_devices::mem_random::ListRandom;
use hub_devices::mem_routes::MemRouteLink;
use hub_devices::mem_spawner::MemSpawner;
use hub_kit::bytes::Bytes;
use hub_kit::moment::Moment;
use hub_kit::text::Text;
use hub_main::run::run;
use hub_main::world::{Outside, World};
use hub_run::HubKit;
use keeper::keeper::Row as KeptRow;
use keeper::mem_keeper::MemKeeper;
use row_texts::compare::{Report, compare_messages};
use row_texts::item::{Item, Row, count};
use row_texts::trouble::Trouble;
use std::alloc::Global;
use std::sync::Wait;

/// Devices in memory.
pub struct InMemory;

impl World for InMemory {
    type In = MemSource;

    type Out = MemSink;

    type Store = MemKeeper;

    type Starts = MemSpawner;

    type Paths = MemRouteLink;

    type Draws = ListRandom;

    type Reads = MemFiles;
}

/// The words that may stand before the rows of such a file, and those that such a row may have.
const OPENING: [&str; 6] = ["kind", "words", "file", "kept", "reads", "status"];

const WORDS: [&str; 9] = [
    "words", "file", "kept", "reads", "fails", "status", "--", ">", "<",
];

/// Puts the row that a line says, as `1 bob {}`, behind these.
fn push_kept(alloc: Global, rows: &mut Vec<KeptRow>, line: &str) -> Result<(), Trouble> {
    let wrong = Trouble::At(0, "no kind, key and text of a kept row");
    let (kind, rest) = line.split_once(' ').ok_or(wrong)?;
    let (key, text) = rest.split_once(' ').ok_or(wrong)?;
    let kind = kind.parse::<u8>().ok().ok_or(wrong)?;
    let key = Text::from_str(alloc, key)?;
    let text = Text::from_str(alloc, text)?;
    rows.push(KeptRow { kind, key, text })?;
    Ok(())
}

/// A store that keeps the rows of these lines.
fn store(alloc: Global, kept: &[u8]) -> Result<MemKeeper, Trouble> {
    let Ok(kept) = std::str::from_utf8(kept) else {
        return Err(Trouble::At(0, "no text"));
    };
    let mut rows = Vec::new(alloc);
    for line in kept.lines() {
        push_kept(alloc, &mut rows, line)?;
    }
    Ok(MemKeeper::new(alloc, rows, Vec::new(alloc))?)
}

/// A file `hub.toml` with this text.
fn files(alloc: Global, text: &[u8]) -> Result<MemFiles, Trouble> {
    let mut files = Vec::new(alloc);
    let name = Text::from_str(alloc, "hub.toml")?;
    files.push((name, Bytes::from_slice(alloc, text)?))?;
    Ok(MemFiles::new(alloc, files, Vec::new(alloc)))
}

/// What is outside of the sessions, to which nothing comes yet.
fn outside<'x>(
    alloc: Global,
    opening: &[Item<'x>],
    items: &[Item<'x>],
) -> Result<Outside<InMemory>, Trouble>
    ensures { IfOk result (λ outside. IsSome outside.store) }
{
    let store = store(alloc, text_of(items, opening, "kept").unwrap_or(b""))?;
    let files = files(alloc, text_of(items, opening, "file").unwrap_or(b""))?;
    Ok(Outside {
        input: MemSource::new(Bytes::new(alloc), 1, Vec::new(alloc)),
        output: MemSink::new(alloc, Vec::new(alloc)),
        store: Some(store),
        kit: HubKit {
            spawner: MemSpawner::new(alloc, Vec::new(alloc)),
            routes: MemRouteLink::new(alloc, Vec::new(alloc)),
            clock: FixedClock(Moment::zero()),
            random: ListRandom::new(Vec::new(alloc), Vec::new(alloc)),
        },
        files,
        end: None,
    })
}

/// The status of a session with these words.
fn status_of<R: Wait>(
    rt: &R,
    alloc: Global,
    line: &str,
    outside: &mut Outside<InMemory>,
) -> Result<u8, Trouble>
    requires { IsSome outside.old.store }
    ensures { IsSome outside.new.store }
{
    let words = words_of(alloc, line)?;
    let status = run(rt, alloc, words.as_slice(), outside);
    drop(words);
    Ok(status)
}

/// Gives the next session what comes to it, and where what it writes goes.
fn give<'x>(
    alloc: Global,
    outside: &mut Outside<InMemory>,
    opening: &[Item<'x>],
    part: &[Item<'x>],
) -> Result<(), Trouble>
    requires { IsSome outside.old.store }
    ensures { IsSome outside.new.store }
{
    let source = source_of(alloc, part, cut_of(part, opening, 1000)?)?;
    let sink = sink_of(alloc, part)?;
    outside.input = source;
    outside.output = sink;
    Ok(())
}

/// Compares the status and what was written with what the part says.
fn compare_session<'x>(
    alloc: Global,
    report: &mut Report<'_>,
    opening: &[Item<'x>],
    part: &[Item<'x>],
    line: u64,
    written: &[u8],
    status: u8,
) -> Result<(), Trouble> {
    let (line, wanted) = said(part, opening, "status").unwrap_or((line, "0"));
    compare_messages(report, part, "<", 1, written)?;
    compare_number(
        alloc,
        report,
        line,
        "status",
        wanted.as_bytes(),
        u64::from(status),
    )
}

/// Plays one session, over what the sessions before it left.
fn play_part<'x, R: Wait>(
    rt: &R,
    alloc: Global,
    outside: &mut Outside<InMemory>,
    opening: &[Item<'x>],
    part: &[Item<'x>],
    line: u64,
    report: &mut Report<'_>,
) -> Result<(), Trouble>
    requires { IsSome outside.old.store }
    ensures { IsSome outside.new.store }
{
    give(alloc, outside, opening, part)?;
    let (_, words) = said(part, opening, "words").unwrap_or((0, ""));
    let status = status_of(rt, alloc, words, outside)?;
    let written = outside.output.as_slice();
    compare_session(alloc, report, opening, part, line, written, status)
}

/// Plays the sessions of a row, one after the other.
fn play_parts<'x, R: Wait>(
    rt: &R,
    alloc: Global,
    outside: &mut Outside<InMemory>,
    opening: &[Item<'x>],
    row: &Row<'x>,
    report: &mut Report<'_>,
) -> Result<(), Trouble>
    requires { IsSome outside.old.store }
{
    for number in 0..=count(&row.items, "--") {
        if let Some(part) = part_of(&row.items, number) {
            play_part(rt, alloc, outside, opening, part, row.line, report)?;
        }
    }
    Ok(())
}

/// Plays a row, and tells what differs.
pub fn play<'x, R: Wait>(
    rt: &R,
    alloc: Global,
    opening: &[Item<'x>],
    row: &Row<'x>,
    report: &mut Report<'_>,
) -> Result<(), Trouble> {
    check_words(opening, &OPENING)?;
    check_words(&row.items, &WORDS)?;
    let mut outside = outside(alloc, opening, &row.items)?;
    let played = play_parts(rt, alloc, &mut outside, opening, row, report);
    drop(outside);
    played
}
