//! A keeper over copies: what it commits is kept in memory, and lost with it.
ghost use Rattle.std.specs.Prelude.{◌≡◌, IfOk};
ghost use Rattle.file_copies.specs.Copied.{image};
ghost use Rattle.hub_store.specs.Files.{IsOver, IsResumed};

use crate::copies::Copies;
use crate::copy_error::CopyError;
use crate::filled::opened;
use keeper::keeper::KeeperError;
use keeper_sqlite::sqlite_keeper::SqliteKeeper;
use sqlite::{Alter, Connection, FileStore};
use sqlite_disk::Memory;
use std::alloc::Global;

/// A keeper over copies.
pub type CopyKeeper = SqliteKeeper<FileStore<Memory>>;

/// The keeper over a database of a hub, or over an empty one.
fn resumed<S: Alter + Drop>(
    alloc: Global,
    connection: Connection<S>,
) -> Result<SqliteKeeper<S>, CopyError>
    ensures { IfOk result (λ kept. IsResumed S.Store connection kept.connection kept.faults kept.is_own) }
{
    match SqliteKeeper::resume(alloc, connection) {
        Ok(kept) => {
            if kept.is_own() {
                Ok(kept)
            } else {
                Err(CopyError::Foreign)
            }
        }
        Err((KeeperError::Memory, _)) => Err(CopyError::Memory),
        Err((KeeperError::Failed, _)) => Err(CopyError::NoDatabase),
    }
}

/// The keeper over copies of a hub's file, or of an empty one.
pub fn keeper_over(alloc: Global, copies: &Copies) -> Result<CopyKeeper, CopyError>
    ensures { IfOk result (λ kept. IsOver (image copies.now.log.items copies.now.db.items) kept.connection kept.faults kept.is_own) }
{
    match opened(alloc, copies) {
        Ok(connection) => resumed(alloc, connection),
        Err(error) => Err(error),
    }
}
