//! The files of rows.
use crate::{apis, connections, forwards, guards, rounds, sessions, word_lines};
use row_texts::compare::Report;
use row_texts::item::{Item, Row, Rows, find};
use row_texts::reading::read_rows;
use row_texts::trouble::Trouble;
use std::alloc::Global;
use std::rt::Files;
use std::sync::Wait;
use std::{env, fs, io};

/// How many rows were played, and differed.
#[derive(Clone, Copy)]
struct Found {
    rows: u64,
    differ: u64,
}

/// The names of the files of this folder that end so, in their order; or those that the words name.
pub fn found_files(rt: &HostRuntime) -> io::Result<Vec<String>> {
    let mut names = Vec::new(rt.alloc());
    for word in env::args(rt)?.skip(1) {
        names.push(word)?;
    }
    if !names.is_empty() {
        return Ok(names);
    }
    for entry in fs::read_dir(rt, ".")? {
        let entry = entry?;
        let name = entry.file_name();
        if name.ends_with(".rows") {
            names.push(String::from_str(rt.alloc(), name)?)?;
        }
        drop(entry);
    }
    names.sort()?;
    Ok(names)
}

/// Plays one row by its kind.
fn play_kind<'x, R: Wait>(
    rt: &R,
    alloc: Global,
    opening: &[Item<'x>],
    row: &Row<'x>,
    report: &mut Report<'_>,
) -> Result<(), Trouble> {
    if row.items.is_empty() {
        return Err(Trouble::At(row.line, "a row that says nothing"));
    }
    let kind = match find(opening, "kind") {
        Some(item) => item.words,
        None => "",
    };
    match kind {
        "connection" => connections::play(rt, alloc, opening, row, report)?,
        "guard" => guards::play(alloc, opening, row, report)?,
        "round" => rounds::play(alloc, opening, row, report)?,
        "forward" => forwards::play(alloc, opening, row, report)?,
        "session" => sessions::play(rt, alloc, opening, row, report)?,
        "api" => return apis::play(alloc, opening, row, report),
        "words" => return word_lines::play(alloc, opening, row, report),
        _ => return Err(Trouble::At(row.line, "a kind that there isn't")),
    }
    report.end_row();
    Ok(())
}

/// Plays one row, which differs where it can't be played.
fn play_row<'x, R: Wait>(
    rt: &R,
    alloc: Global,
    opening: &[Item<'x>],
    row: &Row<'x>,
    report: &mut Report<'_>,
) -> Result<(), Trouble> {
    match play_kind(rt, alloc, opening, row, report) {
        Err(Trouble::At(line, why)) => {
            report.begin(if line == 0 { row.line } else { line }, why)?;
            report.end_row();
            Ok(())
        }
        other => other,
    }
}

/// Plays the rows of a text: what is told of them.
fn play_rows<R: Wait>(
    rt: &R,
    alloc: Global,
    file: &str,
    rows: &Rows<'_>,
    found: &mut Found,
) -> Result<String, Trouble> {
    let mut text = String::new(alloc);
    for row in &rows.rows {
        let mut report = Report::new(alloc, file, row.name);
        play_row(rt, alloc, &rows.opening, row, &mut report)?;
        found.rows = found.rows.saturating_add(report.rows);
        found.differ = found.differ.saturating_add(report.differ);
        text.push_str(&report.text)?;
        drop(report);
    }
    Ok(text)
}

/// What is told of a text.
fn told_of<R: Wait>(
    rt: &R,
    alloc: Global,
    file: &str,
    text: &str,
    found: &mut Found,
) -> Result<String, Trouble> {
    match read_rows(alloc, text) {
        Ok(rows) => play_rows(rt, alloc, file, &rows, found),
        Err(Trouble::At(line, why)) => {
            found.differ = found.differ.saturating_add(1);
            Ok(format!(in alloc; "{file}:{line}: {why}\n")?)
        }
        Err(Trouble::Memory) => Err(Trouble::Memory),
    }
}

/// Plays a file, and prints what is told of it.
fn play_file<R: Files + AllocGlobal + Print + Wait>(
    rt: &R,
    name: &str,
    found: &mut Found,
) -> io::Result<()> {
    let text = fs::read_to_string(rt, name)?;
    match told_of(rt, rt.alloc(), name, &text, found) {
        Ok(told) => print!(rt; "{told}"),
        Err(_) => Err(io::Error::from(io::ErrorKind::OutOfMemory)),
    }
}

/// Plays the files, and prints how many rows there are and differ: how many differ.
pub fn play_files<R: Files + AllocGlobal + Print + Wait>(
    rt: &R,
    names: &[String],
) -> io::Result<u64> {
    let mut found = Found { rows: 0, differ: 0 };
    for name in names {
        play_file(rt, name.as_str(), &mut found)?;
    }
    let Found { rows, differ } = found;
    println!(rt; "{rows} rows, {differ} differ")?;
    Ok(differ)
}
