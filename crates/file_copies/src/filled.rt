//! The database that copies have, opened in memory.
ghost use Rattle.std.specs.Prelude.{◌≡◌, IsTrue, IfOk};
ghost use Rattle.sqlite.specs.Files.{file_state, IsOpened};
ghost use Rattle.sqlite.specs.Start.{FindsIn};
ghost use Rattle.sqlite.specs.State.{HasCleanDisk};
ghost use Rattle.sqlite_disk.specs.Memory.{memory_bytes, memory_is_usable};
ghost use Rattle.file_copies.specs.Copied.{image};

use crate::copies::Copies;
use crate::copy_error::CopyError;
use sqlite::{Connection, Error, ErrorCode, FileStore, Files, Options};
use sqlite_disk::{Disk, Memory};
use std::alloc::{AllocError, Global};

/// A file in memory with these bytes.
fn filled(alloc: Global, bytes: &[u8]) -> Result<Memory, AllocError>
    ensures { IfOk result (λ file. (memory_bytes file ≡ bytes.now) × IsTrue (memory_is_usable file)) }
{
    let mut file = Memory::new(alloc);
    if bytes.is_empty() {
        return Ok(file);
    }
    match file.write_at(0, bytes) {
        Ok(()) => Ok(file),
        Err(_) => Err(AllocError),
    }
}

/// The two files in memory.
fn both_filled(alloc: Global, copies: &Copies) -> Result<Files<Memory>, AllocError>
    ensures same { IfOk result (λ files. (memory_bytes files.log ≡ copies.now.log.items) × (memory_bytes files.db ≡ copies.now.db.items)) }
    ensures usable { IfOk result (λ files. IsTrue (memory_is_usable files.log) × IsTrue (memory_is_usable files.db)) }
{
    let log = filled(alloc, copies.log.as_slice())?;
    let db = filled(alloc, copies.db.as_slice())?;
    Ok(Files { log, db })
}

/// What a refusal of the database says.
pub(crate) fn refusal_of(error: Error) -> CopyError {
    match error {
        Error::SqliteFailure(ErrorCode::OutOfMemory) => CopyError::Memory,
        _ => CopyError::NoDatabase,
    }
}

/// The database that copies have.
pub(crate) fn opened(
    alloc: Global,
    copies: &Copies,
) -> Result<Connection<FileStore<Memory>>, CopyError>
    ensures opened { IfOk result (λ c. HasCleanDisk (file_state c) → IsOpened c) }
    ensures found { IfOk result (λ c. HasCleanDisk (file_state c)
        → FindsIn (image copies.now.log.items copies.now.db.items) (file_state c)) }
{
    let Ok(files) = both_filled(alloc, copies) else {
        return Err(CopyError::Memory);
    };
    match Connection::open_files(alloc, files, Options::new(1)) {
        Ok(connection) => Ok(connection),
        Err((error, _)) => Err(refusal_of(error)),
    }
}
