//! What a backup says to people: why there is no copy, on standard error, or that there is one, on standard output.
use file_copies::copy_error::CopyError;
use hub_edge::output::say;
use hub_words::backup::BackupWords;
use std::io::ErrorKind;
use std::process::ExitCode;

/// Why there is no copy.
#[derive(Clone, Copy)]
pub(crate) enum Fault {
    /// The file and its log aren't copied, or are no hub's.
    NotCopied(CopyError),
    /// Something is there under the copy's name.
    IsThere,
    /// A log is there that would be taken for the copy's own.
    LogIsThere,
    /// An unfinished copy is there, of a backup that runs or was cut off.
    PartIsThere,
    /// The disk doesn't take the copy.
    NotMade(ErrorKind),
    Memory,
}

pub(crate) fn say_memory(rt: &HostRuntime) -> ExitCode {
    say(rt, 7, "there is no memory")
}

pub(crate) fn say_words(rt: &HostRuntime) -> ExitCode {
    say(
        rt,
        2,
        "these are not the words of `backup`: see `hub help backup`",
    )
}

/// What the disk says.
fn disk_text(kind: ErrorKind) -> &'static str {
    match kind {
        ErrorKind::NotFound => "there is no such folder",
        ErrorKind::PermissionDenied | ErrorKind::ReadOnlyFilesystem =>
            "its folder may not be written",
        ErrorKind::StorageFull | ErrorKind::QuotaExceeded => "there is no room",
        _ => "writing it failed",
    }
}

/// Says why there is no copy: status 4 for the hub's file, 6 for the copy's place, 7 for want of memory.
pub(crate) fn tell_fault(rt: &HostRuntime, words: &BackupWords, fault: Fault) -> ExitCode {
    let db = words.db.as_str();
    let to = words.to.as_str();
    let (said, status) = match fault {
        Fault::NotCopied(CopyError::Memory) | Fault::Memory => return say_memory(rt),
        Fault::NotCopied(error) => (eprintln!(rt; "hub: {db} isn't copied: {error}"), 4),
        Fault::IsThere => (
            eprintln!(rt; "hub: {to} is there already: give a name that nothing has"),
            6,
        ),
        Fault::LogIsThere => (
            eprintln!(rt; "hub: the log {to}-wal is there, and would spoil the copy: remove it"),
            6,
        ),
        Fault::PartIsThere => (
            eprintln!(rt;
                "hub: {to}.part is there: another backup runs, or one was cut off: then remove it"
            ),
            6,
        ),
        Fault::NotMade(kind) => {
            let why = disk_text(kind);
            (eprintln!(rt; "hub: {to} isn't made: {why}"), 6)
        }
    };
    let _ = said;
    ExitCode::from(status)
}

/// Says that there is a copy, and how many rows it has.
pub(crate) fn tell_good(rt: &HostRuntime, words: &BackupWords, rows: u64) -> ExitCode {
    let db = words.db.as_str();
    let to = words.to.as_str();
    match println!(rt; "{to} has all {rows} rows of {db}") {
        Ok(()) => ExitCode::from(0),
        Err(_) => say(rt, 6, "writing the output failed"),
    }
}
