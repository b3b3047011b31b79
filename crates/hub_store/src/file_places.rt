//! Stores in files of SQLite.
ghost use Rattle.std.specs.Prelude.{◌≡◌, IsTrue, true, false, IfOk};
ghost use Rattle.sqlite.specs.Files.{file_state, IsOpened};
ghost use Rattle.sqlite.specs.Start.{FindsIn};
ghost use Rattle.sqlite.specs.State.{HasCleanDisk};
ghost use Rattle.sqlite_std_file.specs.File.{file_is_usable, IsFresh};
ghost use Rattle.sqlite_wal.specs.Files.{image_at};
ghost use Rattle.hub_store.specs.Files.{IsOver, IsResumed};

use crate::places::{Places, ProgramPlaces};
use hub_kit::text::Text;
use keeper::keeper::KeeperError;
use keeper_sqlite::sqlite_keeper::SqliteKeeper;
use sqlite::{
    Alter, Connection, Error, ErrorCode, FileFrom, FileStore, Files, Options, Start, Unknown,
};
use sqlite_pager::Pager;
use sqlite_pages::Error as PoolError;
use sqlite_pool::Pool;
use sqlite_std_file::OpenError;
use sqlite_wal::PageSize;
use std::alloc::Global;
use std::fs::{File, OpenOptions};
use std::hash::{BuildHasher, RandomState};
use std::io::ErrorKind;
use std::os::unix::fs::{FileExt, OpenOptionsExt};
use std::{fmt, fs, io};

/// How much of a file is kept in memory at least: a file of 10,000 users stands in it.
const LEAST_CACHE_BYTES: u64 = 4_096_000;

/// And at most: a file of 190,000 users stands in it.
const MOST_CACHE_BYTES: u64 = 65_536_000;

/// How large the pages are of a file that the hub makes. A commit of a few small rows copies and sums whole pages, so that it costs less
/// with small ones; where they are smaller than this an opening costs more.
const NEW_PAGE_BYTES: usize = 2_048;

/// Where the head of a database says how large its pages are.
const PAGE_SIZE_AT: u64 = 16;

/// Why a file isn't taken as a store. All but want of memory are faults.
#[derive(Clone, Copy, Debug, PartialEq, Eq)]
pub enum FileError {
    Memory,
    /// Another hub has the file open.
    Busy,
    /// SQLite reads this path as something else than a file's.
    NoPath,
    /// There is no such folder, or the file may not be opened.
    CannotOpen,
    /// The disk failed.
    Disk,
    /// The file is no database, or a damaged one.
    NoDatabase,
    /// The file is a database of another program.
    Foreign,
    /// The one file was opened already.
    Twice,
}

impl FileError {
    fn cause(self) -> KeeperError {
        match self {
            FileError::Memory => KeeperError::Memory,
            _ => KeeperError::Failed,
        }
    }

    /// The same in words.
    pub fn text(self) -> &'static str {
        match self {
            FileError::Memory => "there is no memory",
            FileError::Busy => "another hub has the file",
            FileError::NoPath =>
                "SQLite reads this as something else than the path of a file: ./ before it makes it one",
            FileError::CannotOpen => "there is no such folder, or the file may not be opened",
            FileError::Disk => "the disk failed",
            FileError::NoDatabase => "the file is no database, or a damaged one",
            FileError::Foreign => "the file is a database of another program",
            FileError::Twice => "a file was opened already",
        }
    }
}

impl fmt::Display for FileError {
    fn fmt<W: fmt::Write>(&self, f: &mut fmt::Formatter<W>) -> fmt::Result {
        f.write_str(self.text())
    }
}

/// Opens one file of SQLite, and the log beside it, once an empty database is made where there is none. `S` names what is supposed of what
/// the two hold then, and of the disk: `main` passes `Unknown`.
#[derive(Drop)]
pub struct FilePlaces<S: Start> {
    rt: HostRuntime,
    start: Option<S>,
    refusal: Option<FileError>,
}

/// A keeper over a file.
pub type FileKeeper<S> = SqliteKeeper<FileStore<FileFrom<S>>>;

impl<S: Start> FilePlaces<S> {
    pub fn new(rt: HostRuntime, start: S) -> FilePlaces<S> {
        FilePlaces {
            rt,
            start: Some(start),
            refusal: None,
        }
    }

    /// Why the last opening was refused, if it was.
    pub fn refusal(&self) -> Option<FileError> {
        self.refusal
    }
}

impl<S: Start> Places for FilePlaces<S> {
    type Kept = FileKeeper<S>;

    ghost Opens = { λ place kept. IsOver (image_at S.Start) kept.connection kept.faults kept.is_own };

    fn open(&mut self, place: &Text) -> Result<FileKeeper<S>, KeeperError> {
        let Some(start) = self.start.take() else {
            self.refusal = Some(FileError::Twice);
            return Err(KeeperError::Failed);
        };
        match open_file(&self.rt, place.as_str(), start) {
            Ok(kept) => Ok(kept),
            Err(error) => {
                self.refusal = Some(error);
                Err(error.cause())
            }
        }
    }
}

impl<S: Start> ProgramPlaces for FilePlaces<S> {
    fn refusal(&self) -> Option<FileError> {
        self.refusal
    }

    fn close(kept: FileKeeper<S>) {
        let _ = close(kept);
    }
}

/// Closes the file of a keeper: the log is copied into it. Where the keeper is let go instead, the log stays beside the file and
/// belongs to it.
pub fn close<S: Start>(kept: FileKeeper<S>) -> Result<(), FileError> {
    match kept.into_connection().close() {
        Ok(()) => Ok(()),
        Err(error) => Err(refusal_of(error)),
    }
}

/// The keeper over the database at a path, which is made where there is none.
fn open_file<S: Start>(rt: &HostRuntime, path: &str, start: S) -> Result<FileKeeper<S>, FileError>
    ensures { IfOk result (λ kept. IsOver (image_at S.Start) kept.connection kept.faults kept.is_own) }
{
    match open_database(rt, path, start) {
        Ok(connection) => keeper_over(rt.alloc(), connection),
        Err(error) => Err(error),
    }
}

/// The database at a path, as the library's own call for a path opens it, but for the size of the cache.
fn open_database<S: Start>(
    rt: &HostRuntime,
    path: &str,
    start: S,
) -> Result<Connection<FileStore<FileFrom<S>>>, FileError>
    ensures opened { IfOk result (λ c. HasCleanDisk (file_state c) → IsOpened c) }
    ensures found { IfOk result (λ c. HasCleanDisk (file_state c) → FindsIn (image_at S.Start) (file_state c)) }
{
    let options = options(rt, path)?;
    if may_be_unmade(rt, path) {
        make_empty(rt, path, options)?;
    }
    let files = open_pair(rt, path, start)?;
    match Connection::open_files(rt.alloc(), files, options) {
        Ok(connection) => Ok(connection),
        Err((error, _)) => Err(refusal_of(error)),
    }
}

/// The size of the pages of a file that the hub makes.
fn new_page_size() -> PageSize {
    PageSize::new(NEW_PAGE_BYTES).unwrap()
}

/// The size of the pages that the head of the file at a path tells, if it is one of SQLite's.
fn read_page_size(rt: &HostRuntime, path: &str) -> io::Result<Option<PageSize>> {
    let mut told = [0u8; 2];
    File::open(rt, path)?.read_exact_at(&mut told, PAGE_SIZE_AT)?;
    Ok(match u16::from_be_bytes(told) {
        // so SQLite writes the one size that two bytes don't hold
        1 => PageSize::new(65_536),
        bytes => PageSize::new(bytes as usize),
    })
}

/// The size of the pages of the file at a path. What has none yet gets that of a new file.
fn page_size(rt: &HostRuntime, path: &str) -> PageSize {
    match read_page_size(rt, path) {
        Ok(Some(size)) => size,
        _ => new_page_size(),
    }
}

/// How many pages of the file at a path are kept in memory: all that it has now, within limits, since an opening reads each several times.
fn cache_pages(rt: &HostRuntime, path: &str) -> usize {
    let (length, page) = match fs::metadata(rt, path) {
        Ok(found) if found.is_file() => (found.len(), page_size(rt, path)),
        _ => (0, new_page_size()),
    };
    let kept = length.clamp(LEAST_CACHE_BYTES, MOST_CACHE_BYTES) as usize;
    kept / page.bytes()
}

/// What a connection to the file at a path keeps in memory. Its log begins at random.
fn options(rt: &HostRuntime, path: &str) -> Result<Options, FileError> {
    let Ok(state) = RandomState::new(rt) else {
        return Err(FileError::CannotOpen);
    };
    Ok(Options {
        cache_pages: cache_pages(rt, path),
        ..Options::new(state.hash_one(&0u8))
    })
}

/// Makes an empty file at a path, if nothing is there, which its owner alone may read: the rows have what tokens can be guessed by. The
/// library gives the log the same mode. Where it can't be made, the opening says why.
fn make_private(rt: &HostRuntime, path: &str) {
    let mut how = OpenOptions::new();
    how.write(true).create_new(true).mode(0o600);
    if let Ok(file) = how.open(rt, path) {
        drop(file);
    }
}

/// The file at a path and its log, which no other process has open. A path that SQLite reads in another way isn't opened.
fn open_pair<S: Start>(
    rt: &HostRuntime,
    path: &str,
    start: S,
) -> Result<Files<FileFrom<S>>, FileError>
    ensures usable { IfOk result (λ files. IsTrue (file_is_usable S.Start files.log) × IsTrue (file_is_usable S.Start files.db)) }
    ensures fresh { IfOk result (λ files. IsFresh true files.log × IsFresh false files.db) }
{
    if path == ":memory:" || path.starts_with("file:") {
        return Err(FileError::NoPath);
    }
    make_private(rt, path);
    match sqlite_std_file::open(rt, path, start) {
        Ok(files) => Ok(files),
        Err(OpenError::OutOfMemory) => Err(FileError::Memory),
        Err(OpenError::Busy) => Err(FileError::Busy),
        Err(OpenError::Io(error)) if error.kind() == ErrorKind::OutOfMemory => {
            Err(FileError::Memory)
        }
        Err(_) => Err(FileError::CannotOpen),
    }
}

/// Whether there may be no database at a path, or one that a crash left half made: neither is longer than a page.
fn may_be_unmade(rt: &HostRuntime, path: &str) -> bool {
    match fs::metadata(rt, path) {
        Ok(found) => found.len() <= NEW_PAGE_BYTES as u64,
        Err(_) => true,
    }
}

/// Makes an empty database at a path where there is none, or one that a crash left half made, and leaves anything else alone. A
/// connection would make it with larger pages.
fn make_empty(rt: &HostRuntime, path: &str, options: Options) -> Result<(), FileError> {
    let alloc = rt.alloc();
    let files = open_pair(rt, path, Unknown)?;
    let Ok(pager) = Pager::new(alloc, files, new_page_size(), options) else {
        return Err(FileError::Memory);
    };
    let Ok(mut pool) = Pool::new(alloc, pager, false) else {
        return Err(FileError::Memory);
    };
    match pool.create() {
        // what is there already is for the connection to judge
        Ok(()) | Err(PoolError::Corrupt) => Ok(()),
        Err(PoolError::OutOfMemory) => Err(FileError::Memory),
        Err(PoolError::Io | PoolError::Full) => Err(FileError::Disk),
    }
}

/// The keeper over a database of this program, or over an empty one.
fn keeper_over<S: Alter + Drop>(
    alloc: Global,
    connection: Connection<S>,
) -> Result<SqliteKeeper<S>, FileError>
    ensures { IfOk result (λ kept. IsResumed S.Store connection kept.connection kept.faults kept.is_own) }
{
    match SqliteKeeper::resume(alloc, connection) {
        Ok(kept) => {
            if kept.is_own() {
                Ok(kept)
            } else {
                Err(FileError::Foreign)
            }
        }
        Err((KeeperError::Memory, _)) => Err(FileError::Memory),
        Err((KeeperError::Failed, _)) => Err(FileError::Disk),
    }
}

/// What a refusal to open says of the file.
fn refusal_of(error: Error) -> FileError {
    match error {
        Error::SqliteFailure(ErrorCode::OutOfMemory) => FileError::Memory,
        Error::SqliteFailure(ErrorCode::DatabaseBusy) => FileError::Busy,
        Error::SqliteFailure(ErrorCode::CannotOpen) => FileError::CannotOpen,
        Error::SqliteFailure(ErrorCode::SystemIoFailure | ErrorCode::DiskFull) => FileError::Disk,
        _ => FileError::NoDatabase,
    }
}
