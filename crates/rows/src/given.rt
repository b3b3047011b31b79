//! What the items of a row give.
use hub_kit::bytes::Bytes;
use row_texts::compare::{Report, compare_texts};
use row_texts::item::{Item, find};
use row_texts::trouble::Trouble;
use std::alloc::Global;

fn is_one_of(key: &str, words: &[&str]) -> bool {
    let mut found = false;
    for word in words {
        found |= *word == key;
    }
    found
}

/// Whether each item's key is one of these words.
pub fn check_words(items: &[Item<'_>], words: &[&str]) -> Result<(), Trouble> {
    for item in items {
        if !is_one_of(item.key, words) {
            return Err(Trouble::At(item.line, "a word that there isn't"));
        }
    }
    Ok(())
}

/// What stands behind a word in these items, or in the opening of the file.
pub fn said<'a>(items: &[Item<'a>], opening: &[Item<'a>], key: &str) -> Option<(u64, &'a str)> {
    match find(items, key) {
        Some(item) => Some((item.line, item.words)),
        None => find(opening, key).map(|item| (item.line, item.words)),
    }
}

/// The number behind a word.
pub fn number<'x>(
    items: &[Item<'x>],
    opening: &[Item<'x>],
    key: &str,
    default: u64,
) -> Result<u64, Trouble> {
    match said(items, opening, key) {
        Some((line, words)) => match words.parse::<u64>() {
            Ok(number) => Ok(number),
            Err(_) => Err(Trouble::At(line, "no number")),
        },
        None => Ok(default),
    }
}

/// The most bytes of one read.
pub fn cut_of<'x>(
    items: &[Item<'x>],
    opening: &[Item<'x>],
    default: u64,
) -> Result<usize, Trouble> {
    let cut = number(items, opening, "reads", default)?;
    Ok(usize::try_from(cut).unwrap_or(usize::MAX))
}

/// Compares what a key says at a line with a number that came.
pub fn compare_number(
    alloc: Global,
    report: &mut Report<'_>,
    line: u64,
    key: &str,
    wanted: &[u8],
    came: u64,
) -> Result<(), Trouble> {
    let came = format!(in alloc; "{came}")?;
    let compared = compare_texts(report, line, key, wanted, came.as_bytes());
    drop(came);
    compared
}

/// The numbers of the device's calls that fail.
pub fn failing(alloc: Global, items: &[Item<'_>], device: &str) -> Result<Vec<u64>, Trouble> {
    let mut numbers = Vec::new(alloc);
    for item in items {
        if item.key == "fails" {
            let mut words = item.words.split(' ');
            if words.next() == Some(device) {
                for word in words {
                    let Ok(number) = word.parse::<u64>() else {
                        return Err(Trouble::At(item.line, "no number"));
                    };
                    numbers.push(number)?;
                }
            }
        }
    }
    Ok(numbers)
}

/// All messages of a key, one behind the other, so many times.
pub fn joined(alloc: Global, items: &[Item<'_>], key: &str, times: u64) -> Result<Bytes, Trouble> {
    let mut all = Bytes::new(alloc);
    for _ in 0..times {
        for item in items {
            if item.key == key {
                all.push_all(&item.bytes)?;
            }
        }
    }
    Ok(all)
}

/// How a request ended: a word, and its status where it has one, or 0.
pub type Ended = (&'static str, u16);

/// Compares how a request ended, as `passed` or `refused 503`. A row that says nothing of it has to be passed on.
pub fn compare_ended(
    alloc: Global,
    report: &mut Report<'_>,
    items: &[Item<'_>],
    line: u64,
    came: Ended,
) -> Result<(), Trouble> {
    let (word, status) = came;
    if status == 0 {
        return compare_end(report, items, line, "passed", word);
    }
    let came = format!(in alloc; "{word} {status}")?;
    let compared = compare_end(report, items, line, "passed", &came);
    drop(came);
    compared
}

/// Compares how something ended. A row that says nothing of it has to end as by default.
pub fn compare_end(
    report: &mut Report<'_>,
    items: &[Item<'_>],
    line: u64,
    default: &str,
    came: &str,
) -> Result<(), Trouble> {
    let (line, wanted) = match find(items, "end") {
        Some(item) => (item.line, item.words),
        None => (line, default),
    };
    compare_texts(report, line, "end", wanted.as_bytes(), came.as_bytes())
}

/// The text behind a word of the row, or of the opening of its file.
pub fn text_of<'b, 'x>(
    items: &'b [Item<'x>],
    opening: &'b [Item<'x>],
    key: &str,
) -> Option<&'b [u8]> {
    let item = match find(items, key) {
        Some(item) => Some(item),
        None => find(opening, key),
    };
    match item {
        Some(item) => Some(item.bytes.as_slice()),
        None => None,
    }
}

/// Where the part of this number begins and ends, which stands between lines `--`.
fn bounds_of(items: &[Item<'_>], number: u64) -> (usize, usize) {
    let mut at: u64 = 0;
    let mut from: usize = 0;
    let mut to: usize = 0;
    let mut behind: usize = 0;
    for item in items {
        behind = behind.saturating_add(1);
        if item.key == "--" {
            at = at.saturating_add(1);
            if at == number {
                from = behind;
            }
        } else if at == number {
            to = behind;
        }
    }
    (from, to)
}

/// The part of this number of a row, where something stands in it.
pub fn part_of<'b, 'x>(items: &'b [Item<'x>], number: u64) -> Option<&'b [Item<'x>]> {
    let (from, to) = bounds_of(items, number);
    if from < to { items.get(from..to) } else { None }
}
