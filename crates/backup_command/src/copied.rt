//! The bytes of a copy that stands alone, which is opened before it counts.
ghost use Rattle.std.specs.Prelude.{IfOk};
ghost use Rattle.file_copies.specs.Copied.{HasAll};
ghost use Rattle.sqlite_disk.specs.Memory.{memory_bytes};

use file_copies::alone::stand_alone;
use file_copies::copies::Copies;
use file_copies::copy_error::CopyError;
use file_copies::keeping::keeper_over;
use keeper::keeper::{Keeper, KeeperError};
use sqlite_disk::Memory;
use std::alloc::Global;

/// How many rows a file has that stands alone. It is opened as a hub opens it, and each row is read.
fn count_rows(alloc: Global, file: &Memory) -> Result<u64, CopyError> {
    let alone = match Copies::alone(alloc, file.bytes()) {
        Ok(alone) => alone,
        Err(_) => return Err(CopyError::Memory),
    };
    let mut kept = keeper_over(alloc, &alone)?;
    match kept.load() {
        Ok(rows) => Ok(rows.len() as u64),
        Err(KeeperError::Memory) => Err(CopyError::Memory),
        Err(KeeperError::Failed) => Err(CopyError::NoDatabase),
    }
}

/// The file that stands alone with what these copies have, and how many rows a hub finds in it.
pub fn copied(alloc: Global, copies: &Copies) -> Result<(Memory, u64), CopyError>
    ensures { IfOk result (λ made. HasAll copies.now.log.items copies.now.db.items (memory_bytes made.0)) }
{
    let file = match stand_alone(alloc, copies) {
        Ok(file) => file,
        Err(error) => return Err(error),
    };
    match count_rows(alloc, &file) {
        Ok(rows) => Ok((file, rows)),
        Err(error) => Err(error),
    }
}
