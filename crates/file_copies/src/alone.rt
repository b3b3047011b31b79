//! One file that has what a file and its log have.
ghost use Rattle.std.specs.Prelude.{◌≡◌, IfOk};
ghost use Rattle.file_copies.specs.Copied.{HasAll};
ghost use Rattle.sqlite_disk.specs.Memory.{memory_bytes};

use crate::copies::Copies;
use crate::copy_error::CopyError;
use crate::filled::{opened, refusal_of};
use sqlite::Files;
use sqlite_disk::Memory;
use std::alloc::Global;

/// The file that a hub would leave that opens these copies and ends: it has their database, and needs no log.
pub fn stand_alone(alloc: Global, copies: &Copies) -> Result<Memory, CopyError>
    ensures { IfOk result (λ file. HasAll copies.now.log.items copies.now.db.items (memory_bytes file)) }
{
    let connection = match opened(alloc, copies) {
        Ok(connection) => connection,
        Err(error) => return Err(error),
    };
    match connection.close_files() {
        Ok(Files { log, db }) => {
            drop(log);
            Ok(db)
        }
        Err((error, store)) => {
            drop(store);
            Err(refusal_of(error))
        }
    }
}
