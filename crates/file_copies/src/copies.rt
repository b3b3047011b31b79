//! The bytes of a file and of its log, as a crash at one moment might have left them. No clause tells what the system reads.
use crate::copy_error::CopyError;
use std::alloc::{AllocError, Global};
use std::fs;
use std::fs::File;
use std::io::{self, ErrorKind, Read};
use std::os::unix::fs::MetadataExt;

/// How often the two are read until the log isn't begun anew meanwhile.
const TRIES: u32 = 100;

/// How long the head of a log is. A log that is begun anew gets another one.
const HEAD_BYTES: u64 = 32;

/// The bytes of a file and of the log beside it.
#[derive(Drop)]
pub struct Copies {
    pub log: Vec<u8>,
    pub db: Vec<u8>,
}

impl Copies {
    /// Those of a file that has these bytes and no log.
    pub fn alone(alloc: Global, bytes: &[u8]) -> Result<Copies, AllocError> {
        let mut db = Vec::new(alloc);
        db.extend_from_slice(bytes)?;
        Ok(Copies {
            log: Vec::new(alloc),
            db,
        })
    }

    /// Those of a file that isn't there.
    pub fn empty(alloc: Global) -> Copies {
        Copies {
            log: Vec::new(alloc),
            db: Vec::new(alloc),
        }
    }
}

/// By what two looks at the files show that the log wasn't begun anew between them. Without a log it is when the file was changed.
#[derive(Drop)]
struct Mark {
    head: Vec<u8>,
    changed: Option<(i64, i64)>,
}

impl Mark {
    fn is(&self, other: &Mark) -> bool {
        self.head.as_slice() == other.head.as_slice() && self.changed == other.changed
    }
}

/// At most so many bytes of the log, and none where there is no log.
fn log_bytes(rt: &HostRuntime, path: &str, most: u64) -> io::Result<Vec<u8>> {
    let log = format!(in rt.alloc(); "{path}-wal")?;
    let mut bytes = Vec::new(rt.alloc());
    match File::open(rt, log.as_str()) {
        Ok(file) => {
            file.take(most).read_to_end(&mut bytes)?;
            Ok(bytes)
        }
        Err(error) if error.kind() == ErrorKind::NotFound => Ok(bytes),
        Err(error) => Err(error),
    }
}

/// What a look at the files shows now.
fn look(rt: &HostRuntime, path: &str) -> io::Result<Mark> {
    let head = log_bytes(rt, path, HEAD_BYTES)?;
    let found = fs::metadata(rt, path)?;
    if !found.is_file() {
        return Err(io::Error::from(ErrorKind::InvalidInput));
    }
    let changed = if head.is_empty() {
        Some((found.mtime(), found.mtime_nsec()))
    } else {
        None
    };
    Ok(Mark { head, changed })
}

/// The file is read before its log. What went from the log into the file meanwhile still stands in the log, unless that was begun anew.
fn read_both(rt: &HostRuntime, path: &str) -> io::Result<Copies> {
    for _ in 0..TRIES {
        let before = look(rt, path)?;
        let db = fs::read(rt, path)?;
        let log = log_bytes(rt, path, u64::MAX)?;
        if look(rt, path)?.is(&before) {
            return Ok(Copies { log, db });
        }
    }
    Err(io::Error::from(ErrorKind::ResourceBusy))
}

/// Copies the file at a path, and its log, as they are at one moment, also while a hub has the two.
pub fn read_copies(rt: &HostRuntime, path: &str) -> Result<Copies, CopyError> {
    if path == ":memory:" || path.starts_with("file:") {
        return Err(CopyError::NoPath);
    }
    match read_both(rt, path) {
        Ok(copies) => Ok(copies),
        Err(error) => Err(CopyError::of_kind(error.kind())),
    }
}
