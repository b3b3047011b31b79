//! A new file that is there whole or not at all.
use crate::telling::Fault;
use std::fs::{self, OpenOptions};
use std::io::{self, ErrorKind, Write};
use std::os::unix::fs::OpenOptionsExt;

/// What is wrong with the disk.
fn fault_of(error: io::Error) -> Fault {
    match error.kind() {
        ErrorKind::OutOfMemory => Fault::Memory,
        kind => Fault::NotMade(kind),
    }
}

/// Refuses a name under which something is, or under which a log is that would be taken for the copy's own.
pub(crate) fn find_free(rt: &HostRuntime, to: &str) -> Result<(), Fault> {
    let log = match format!(in rt.alloc(); "{to}-wal") {
        Ok(log) => log,
        Err(_) => return Err(Fault::Memory),
    };
    match (fs::exists(rt, to), fs::exists(rt, log.as_str())) {
        (Ok(false), Ok(false)) => Ok(()),
        (Ok(true), _) => Err(Fault::IsThere),
        (_, Ok(true)) => Err(Fault::LogIsThere),
        (Err(error), _) => Err(fault_of(error)),
        (_, Err(error)) => Err(fault_of(error)),
    }
}

/// Makes a file with these bytes, which its owner alone may read, and has the disk keep them.
fn fill(rt: &HostRuntime, path: &str, bytes: &[u8]) -> io::Result<()> {
    let mut how = OpenOptions::new();
    how.write(true).create_new(true).mode(0o600);
    let mut file = how.open(rt, path)?;
    file.write_all(bytes)?;
    file.sync_all()
}

/// Gives the file at `part` its name. What fails is removed.
fn named(rt: &HostRuntime, part: &str, to: &str, filled: io::Result<()>) -> Result<(), Fault> {
    let failed = match filled {
        Ok(()) => match fs::rename(rt, part, to) {
            Ok(()) => return Ok(()),
            Err(error) => error,
        },
        // it is another's
        Err(error) if error.kind() == ErrorKind::AlreadyExists => return Err(Fault::PartIsThere),
        Err(error) => error,
    };
    let _ = fs::remove_file(rt, part);
    Err(fault_of(failed))
}

/// Makes the file `to` with these bytes. It gets its name once the disk has all of them.
pub(crate) fn make_whole(rt: &HostRuntime, to: &str, bytes: &[u8]) -> Result<(), Fault> {
    let part = match format!(in rt.alloc(); "{to}.part") {
        Ok(part) => part,
        Err(_) => return Err(Fault::Memory),
    };
    find_free(rt, to)?;
    named(rt, part.as_str(), to, fill(rt, part.as_str(), bytes))
}
