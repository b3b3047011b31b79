//! What the system tells of processes, in the files under `/proc`.
use libc::getpid;
use std::{fs, io};

/// What one of a process's files holds.
pub(crate) fn told(rt: &HostRuntime, number: u32, file: &str) -> io::Result<Vec<u8>> {
    let path = format!(in rt.alloc(); "/proc/{number}/{file}")?;
    fs::read(rt, path.as_str())
}

/// The parts before and behind the first byte of a kind.
pub(crate) fn cut(text: &[u8], kind: u8) -> Option<(&[u8], &[u8])> {
    for at in 0..text.len() {
        if text[at] == kind {
            return Some((&text[..at], &text[at + 1..]));
        }
    }
    None
}

/// The number that a text is.
pub(crate) fn read_number(text: &[u8]) -> Option<u64> {
    std::str::from_utf8(text).ok()?.parse().ok()
}

/// The number that a text is, where it may be a process's.
pub(crate) fn read_process(text: &[u8]) -> Option<u32> {
    u32::try_from(read_number(text)?).ok()
}

/// Whether a child that wasn't waited for has ended. Its number stays its own until then, and so does that of its group.
pub(crate) fn has_ended(rt: &HostRuntime, number: u32) -> io::Result<bool> {
    let stat = told(rt, number, "stat")?;
    Ok(is_over(behind_name(stat.as_slice())))
}

/// The group of a process that runs.
pub(crate) fn running_group(rt: &HostRuntime, number: u32) -> Option<u32> {
    let stat = told(rt, number, "stat").ok()?;
    group_in(behind_name(stat.as_slice()))
}

/// When a process that runs began, as the system counts it. Another process that has its number later has begun later.
pub(crate) fn beginning(rt: &HostRuntime, number: u32) -> Option<u64> {
    let stat = told(rt, number, "stat").ok()?;
    beginning_in(behind_name(stat.as_slice()))
}

/// The group of this process.
pub(crate) fn own_group(rt: &HostRuntime) -> Option<u32> {
    running_group(rt, own_number())
}

/// The number of this process.
pub(crate) fn own_number() -> u32 {
    getpid().cast_unsigned()
}

/// What stands behind the program's name, which is in brackets and may have any bytes.
fn behind_name(stat: &[u8]) -> &[u8] {
    for at in (0..stat.len()).rev() {
        if stat[at] == b')' {
            return &stat[at + 1..];
        }
    }
    stat
}

/// Whether this state is that of a process that has ended.
fn is_over(state: &[u8]) -> bool {
    state.starts_with(b" Z")
}

/// The group of a process that runs. It stands behind the state and the parent.
fn group_in(state: &[u8]) -> Option<u32> {
    if is_over(state) {
        None
    } else {
        read_process(word_behind(state, 3)?)
    }
}

/// When a process that runs began.
fn beginning_in(state: &[u8]) -> Option<u64> {
    if is_over(state) {
        None
    } else {
        read_number(word_behind(state, 20)?)
    }
}

/// The word behind so many blanks.
fn word_behind(text: &[u8], blanks: usize) -> Option<&[u8]> {
    let mut rest = text;
    for _ in 0..blanks {
        let (_, more) = cut(rest, b' ')?;
        rest = more;
    }
    let (word, _) = cut(rest, b' ')?;
    Some(word)
}
