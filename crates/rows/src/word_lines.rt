//! Rows of lines of words, each of which a command takes or doesn't.
use crate::given::{check_words, said};
use hub_kit::text::Text;
use hub_words::backup::read_backup;
use hub_words::check::read_check;
use hub_words::cull::read_cull;
use hub_words::guard::read_guard;
use hub_words::load::read_load;
use hub_words::proxy::read_proxy;
use hub_words::serve::read_serve;
use hub_words::session::read_session;
use row_texts::compare::{Report, compare_texts};
use row_texts::item::{Item, Row};
use row_texts::trouble::Trouble;
use std::alloc::Global;

/// The words that may stand before the rows of such a file, and those that such a row may have.
const OPENING: [&str; 2] = ["kind", "of"];

const WORDS: [&str; 3] = ["of", "yes", "no"];

/// The words of a line, which stand between single spaces.
pub fn words_of(alloc: Global, line: &str) -> Result<Vec<Text>, Trouble> {
    let mut words = Vec::new(alloc);
    for word in line.split(' ') {
        words.push(Text::from_str(alloc, word)?)?;
    }
    Ok(words)
}

/// Whether the command takes these words.
fn takes(alloc: Global, command: &str, words: &[Text], line: u64) -> Result<bool, Trouble> {
    Ok(match command {
        "session" => read_session(alloc, words).is_ok(),
        "serve" => read_serve(alloc, words).is_ok(),
        "proxy" => read_proxy(alloc, words).is_ok(),
        "guard" => read_guard(alloc, words).is_ok(),
        "cull" => read_cull(alloc, words).is_ok(),
        "load" => read_load(alloc, words).is_ok(),
        "check" => read_check(alloc, words).is_ok(),
        "backup" => read_backup(alloc, words).is_ok(),
        _ => return Err(Trouble::At(line, "a command that there isn't")),
    })
}

/// Plays one line, which the command has to take or to refuse, as its key says.
fn play_line(
    alloc: Global,
    command: &str,
    line: u64,
    item: &Item<'_>,
    report: &mut Report<'_>,
) -> Result<(), Trouble> {
    let words = words_of(alloc, item.words)?;
    let taken = takes(alloc, command, words.as_slice(), line);
    drop(words);
    let came = if taken? { "yes" } else { "no" };
    let wanted = item.key.as_bytes();
    compare_texts(report, item.line, item.words, wanted, came.as_bytes())
}

/// Plays each line of a row as a row of its own.
pub fn play<'x>(
    alloc: Global,
    opening: &[Item<'x>],
    row: &Row<'x>,
    report: &mut Report<'_>,
) -> Result<(), Trouble> {
    check_words(opening, &OPENING)?;
    check_words(&row.items, &WORDS)?;
    let (line, command) = said(&row.items, opening, "of").unwrap_or((row.line, ""));
    for item in &row.items {
        if (item.key == "yes") | (item.key == "no") {
            play_line(alloc, command, line, item, report)?;
            report.end_row();
        }
    }
    Ok(())
}
