//! Why a file and its log aren't copied, or their copies aren't opened.
use std::fmt;
use std::io::ErrorKind;

/// Why a file and its log aren't copied, or their copies aren't opened. All but want of memory are faults.
#[derive(Clone, Copy, Debug, PartialEq, Eq)]
pub enum CopyError {
    Memory,
    /// SQLite reads this path as something else than a file's.
    NoPath,
    /// There is no such file.
    Missing,
    /// A folder, a pipe or a device is there.
    NoFile,
    /// The file or its log may not be read.
    Closed,
    /// The disk failed.
    Disk,
    /// The log was begun anew each time while the two were read.
    Restless,
    /// The two are no database, or a damaged one.
    NoDatabase,
    /// They are a database of another program.
    Foreign,
}

impl CopyError {
    /// What the failure of a read says.
    pub(crate) fn of_kind(kind: ErrorKind) -> CopyError {
        match kind {
            ErrorKind::OutOfMemory => CopyError::Memory,
            ErrorKind::NotFound => CopyError::Missing,
            ErrorKind::InvalidInput | ErrorKind::IsADirectory => CopyError::NoFile,
            ErrorKind::PermissionDenied => CopyError::Closed,
            ErrorKind::ResourceBusy => CopyError::Restless,
            _ => CopyError::Disk,
        }
    }

    /// The same in words.
    pub fn text(self) -> &'static str {
        match self {
            CopyError::Memory => "there is no memory",
            CopyError::NoPath =>
                "SQLite reads this as something else than the path of a file: ./ before it makes it one",
            CopyError::Missing => "there is no such file",
            CopyError::NoFile => "it is no regular file",
            CopyError::Closed => "it may not be read",
            CopyError::Disk => "reading it failed",
            CopyError::Restless =>
                "a hub began its log anew each time while it was read: try again",
            CopyError::NoDatabase => "it is no database, or a damaged one",
            CopyError::Foreign => "it is a database of another program",
        }
    }
}

impl fmt::Display for CopyError {
    fn fmt<W: fmt::Write>(&self, f: &mut fmt::Formatter<W>) -> fmt::Result {
        f.write_str(self.text())
    }
}
