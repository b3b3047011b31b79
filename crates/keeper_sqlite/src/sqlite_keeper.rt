//! A keeper over a database.
ghost use Rattle.std.specs.Prelude.{◌≡◌, ◌≤◌, ◌⊎◌, false, Ok, IsTrue, IfOk, IfErr, IsOkAnd, IfSome, MatchResult, OnOk, OnErr};
ghost use Rattle.hub_devices.specs.FailingCalls.{one_more};
ghost use Rattle.hub_devices.specs.Faults.{Rises};
ghost use Rattle.keeper.specs.Rows.{AreSame, Lists, no_rows, after_items, place_of};
ghost use Rattle.sqlite.specs.State.{HasCleanDisk};
ghost use Rattle.sqlite.specs.Held.{state};
ghost use Rattle.sqlite.specs.View.{doubt};
ghost use Rattle.sqlite.specs.Steps.{over_memory};
ghost use Rattle.row_table.specs.Open.{StaysOpen};
ghost use Rattle.row_table.specs.Tables.{no_schema};
ghost use Rattle.keeper_sqlite.specs.Own.{AreAll, IsOwned, IsOwnStore, IsShutByFault, IsTold, Stands, decided, is_told, undecided};
ghost use Rattle.keeper_sqlite.specs.Own.{told_rows};
ghost use Rattle.keeper_sqlite.specs.Statements.{IsCommitted, IsLoaded};
ghost use Rattle.keeper_sqlite.specs.Causes.{cause_of, counted, faults_after, IsNotRead};

use crate::store;
use hub_kit::text::Text;
use keeper::keeper::{Batch, Keeper, KeeperError, Row};
use sqlite::{Alter, Connection, Error, ErrorCode, MemStore};
use std::alloc::{AllocError, Global};

/// What a refusal of the database is to the hub: want of memory is no fault, and all else is one.
fn cause_of(error: Error) -> KeeperError
    ensures { result ≡ cause_of error }
{
    match error {
        Error::SqliteFailure(ErrorCode::OutOfMemory) => KeeperError::Memory,
        _ => KeeperError::Failed,
    }
}

/// Keeps rows in the tables of a database, which it makes at the first commit to an empty store.
///
/// Its rows are told where the store was found to be one of this program when it was taken, while the connection is open and the
/// disk gives back what was written.
pub struct SqliteKeeper<S: Alter> {
    alloc: Global,
    connection: Connection<S>,
    faults: u64,
    /// Whether the store was found to be one of this program.
    is_own: bool,
    /// Its rows, where they were read then, until they are loaded or changed.
    read: Option<Vec<Row>>,
    ghost owned: { ∥ (IsTrue is_own → IsOwned S.Store connection) ∥₁ },
    ghost held: { ∥ IfSome read (λ all. AreAll S.Store connection all.items) ∥₁ },
}

impl<S: Alter + Drop> Drop for SqliteKeeper<S> {
    fn drop(self) {
        let SqliteKeeper {
            alloc: _,
            connection: _,
            faults: _,
            is_own: _,
            read: _,
        } = self;
    }
}

impl SqliteKeeper<MemStore> {
    /// A keeper over an empty store in memory. Runs no statement.
    pub fn in_memory(alloc: Global) -> Result<SqliteKeeper<MemStore>, AllocError>
        ensures faults { IfOk result (λ k. k.faults ≡ 0) }
        ensures told { IfOk result (λ k. IsTold over_memory k.connection k.is_own × AreSame (told_rows over_memory k.connection) no_rows) }
    {
        Ok(SqliteKeeper::over(alloc, Connection::open_in_memory(alloc)?))
    }
}

impl<S: Alter + Drop> SqliteKeeper<S> {
    /// A keeper over the store of a connection. Runs no statement, so its rows are told only where the store is empty. Its commits
    /// fail while the connection is in a transaction that was begun before.
    pub fn over(alloc: Global, connection: Connection<S>) -> SqliteKeeper<S>
        ensures taken { (result.connection ≡ connection) × (result.faults ≡ 0) }
        ensures fresh { IsTrue result.is_own → (connection.in_transaction ≡ false) × (connection.schema ≡ no_schema) }
        ensures own { connection.in_transaction ≡ false → connection.schema ≡ no_schema → IsTrue result.is_own }
    {
        let is_own = store::is_fresh(&connection);
        SqliteKeeper {
            alloc,
            connection,
            faults: 0,
            is_own,
            read: None,
        }
    }

    /// A keeper over the store of a connection, which may have tables. Reads every row of a store that has them, and keeps its rows
    /// until they are loaded: they are told where the tables and the rows are those of this program, or the store is empty, and of
    /// no other store. Where the rows can't be read the connection comes back with the cause.
    pub fn resume(
        alloc: Global,
        connection: Connection<S>,
    ) -> Result<SqliteKeeper<S>, (KeeperError, Connection<S>)>
        ensures faults { IfOk result (λ k. k.faults ≡ 0) }
        ensures clean { MatchResult result (λ k. doubt (state S.Store connection).is_clean ≤ doubt (state S.Store k.connection).is_clean)
            (λ e. doubt (state S.Store connection).is_clean ≤ doubt (state S.Store e.1).is_clean) }
        ensures stays { MatchResult result (λ k. StaysOpen (state S.Store connection) (state S.Store k.connection))
            (λ e. StaysOpen (state S.Store connection) (state S.Store e.1)) }
        ensures open { IfOk result (λ k. HasCleanDisk (state S.Store k.connection) → IsTrue (state S.Store connection).is_open
            → IsTrue (state S.Store k.connection).is_open) }
        ensures stands { MatchResult result (λ k. HasCleanDisk (state S.Store k.connection) → Stands S.Store connection k.connection)
            (λ e. HasCleanDisk (state S.Store e.1) → Stands S.Store connection e.1) }
        ensures known { IfOk result (λ k. IsTrue k.is_own → IsOwned S.Store k.connection) }
        ensures only { IfOk result (λ k. HasCleanDisk (state S.Store k.connection) → connection.in_transaction ≡ false
            → IsOwnStore (state S.Store connection).now → IsTrue k.is_own) }
        ensures fresh { connection.in_transaction ≡ false → connection.schema ≡ no_schema → IsOkAnd result (λ k. IsTrue k.is_own) }
        ensures unread { IfErr result (λ e. HasCleanDisk (state S.Store e.1)
            → IsNotRead (state S.Store connection) (state S.Store e.1) e.0) }
    {
        let mut connection = connection;
        match store::find(alloc, &mut connection) {
            Ok(found) => Ok(SqliteKeeper {
                alloc,
                connection,
                faults: 0,
                is_own: found.is_own,
                read: found.read,
            }),
            Err(error) => Err((cause_of(error), connection)),
        }
    }

    /// Whether the store was found to be one of this program, so that its rows are told.
    pub fn is_own(&self) -> bool
        ensures { result ≡ self.now.is_own }
    {
        self.is_own
    }

    /// The connection.
    pub fn into_connection(self) -> Connection<S>
        ensures { result ≡ self.connection }
    {
        let SqliteKeeper {
            alloc: _,
            connection,
            faults: _,
            is_own: _,
            read: _,
        } = self;
        connection
    }

    /// Counts a fault. The count stands still at the greatest `u64`.
    fn count_fault(&mut self)
        ensures counted { self.new.faults ≡ one_more self.old.faults }
        ensures same { (self.new.connection ≡ self.old.connection) × (self.new.is_own ≡ self.old.is_own) }
        ensures kept { self.old.faults ≤ self.new.faults }
    {
        self.faults = self.faults.saturating_add(1);
    }

    /// Counts a refusal that is a fault.
    fn refused(&mut self, error: Error) -> KeeperError
        ensures cause { result ≡ cause_of error }
        ensures kept { self.old.faults ≤ self.new.faults }
        ensures counted { self.new.faults ≡ counted result self.old.faults }
        ensures same { (self.new.connection ≡ self.old.connection) × (self.new.is_own ≡ self.old.is_own) }
    {
        let cause = cause_of(error);
        match cause {
            KeeperError::Failed => self.count_fault(),
            KeeperError::Memory => {}
        }
        cause
    }
}

impl<S: Alter + Drop> Keeper for SqliteKeeper<S> {
    ghost Tells = { λ k. IsTold S.Store k.connection k.is_own };

    ghost is_told = { λ k. is_told S.Store k.connection k.is_own };

    ghost rows = { λ k. told_rows S.Store k.connection };

    ghost faults = { λ k. k.faults };

    ghost Chooses = { λ old place new. new ≡ old };

    /// Stays with its store, whatever place is chosen.
    fn choose(&mut self, _place: Option<&Text>) -> Result<(), KeeperError>
        ensures chosen { OnOk result (self.new ≡ self.old) }
        ensures fine { result ≡ Ok tt }
    {
        Ok(())
    }

    /// All rows, in the order of kind and key: the first time those that `resume` read. A store without tables has none, and one of
    /// another form than 1 and 2 is refused.
    /// A store of this program stays as it is, whether it could be read or not.
    fn load(&mut self) -> Result<Vec<Row>, KeeperError>
        ensures counted { self.old.faults ≤ self.new.faults }
        ensures cause { IfErr result (λ e. e ≡ KeeperError.Failed → Rises self.old.faults self.new.faults) }
        ensures faults { self.new.faults ≡ faults_after result self.old.faults }
        ensures listed { IsTold S.Store self.new.connection self.new.is_own
            → IfOk result (λ all. Lists (told_rows S.Store self.old.connection) all.items) }
        ensures kept { IsTold S.Store self.new.connection self.new.is_own → IsTold S.Store self.old.connection self.old.is_own
            × AreSame (told_rows S.Store self.new.connection) (told_rows S.Store self.old.connection) }
        ensures own { self.new.is_own ≡ self.old.is_own }
        ensures stands { HasCleanDisk (state S.Store self.new.connection) → IsTrue self.old.is_own
            → Stands S.Store self.old.connection self.new.connection }
        ensures tells { HasCleanDisk (state S.Store self.new.connection)
            → OnOk result (IsTold S.Store self.old.connection self.old.is_own → IsTold S.Store self.new.connection self.new.is_own) }
        ensures stays { HasCleanDisk (state S.Store self.new.connection) → IsTold S.Store self.old.connection self.old.is_own
            → IsTold S.Store self.new.connection self.new.is_own ⊎ IsShutByFault S.Store self.old.connection self.new.connection }
        ensures disk { (state S.Store self.old.connection).faults ≤ (state S.Store self.new.connection).faults }
        ensures loaded { HasCleanDisk (state S.Store self.new.connection)
            → IfOk result (λ all. IsLoaded S.Store self.old.connection self.new.connection all.items) }
    {
        let read = self.read.take();
        match store::all_rows(self.alloc, &mut self.connection, read) {
            Ok(rows) => Ok(rows),
            Err(error) => Err(self.refused(error)),
        }
    }

    /// Does all items in order in one transaction, or none. Makes the tables in an empty store, and refuses a store of another
    /// form than 1 and 2.
    fn commit(&mut self, batch: &Batch) -> Result<(), KeeperError>
        ensures counted { self.old.faults ≤ self.new.faults }
        ensures cause { IfErr result (λ e. e ≡ KeeperError.Failed → Rises self.old.faults self.new.faults) }
        ensures faults { self.new.faults ≡ faults_after result self.old.faults }
        ensures told { IsTold S.Store self.new.connection self.new.is_own → IsTold S.Store self.old.connection self.old.is_own }
        ensures ok { IsTold S.Store self.new.connection self.new.is_own
            → OnOk result (AreSame (told_rows S.Store self.new.connection)
            (after_items batch.now (told_rows S.Store self.old.connection))) }
        ensures err { IsTold S.Store self.new.connection self.new.is_own
            → OnErr result (AreSame (told_rows S.Store self.new.connection) (told_rows S.Store self.old.connection)) }
        ensures own { self.new.is_own ≡ self.old.is_own }
        ensures tells { HasCleanDisk (state S.Store self.new.connection)
            → OnOk result (IsTold S.Store self.old.connection self.old.is_own → IsTold S.Store self.new.connection self.new.is_own) }
        ensures stays { HasCleanDisk (state S.Store self.new.connection) → IsTold S.Store self.old.connection self.old.is_own
            → IsTold S.Store self.new.connection self.new.is_own ⊎ IsShutByFault S.Store self.old.connection self.new.connection }
        ensures disk { (state S.Store self.old.connection).faults ≤ (state S.Store self.new.connection).faults }
        ensures done { HasCleanDisk (state S.Store self.new.connection)
            → OnOk result (IsCommitted S.Store batch.now self.old.connection self.new.connection) }
        ensures undone { HasCleanDisk (state S.Store self.new.connection) → IsTrue (state S.Store self.new.connection).is_open
            → OnErr result (((state S.Store self.new.connection).now ≡ (state S.Store self.old.connection).now)
            × ((state S.Store self.new.connection).committed ≡ (state S.Store self.old.connection).committed)) }
    {
        self.read = None;
        match store::commit_items(&mut self.connection, batch.as_slice()) {
            Ok(()) => Ok(()),
            Err(error) => Err(self.refused(error)),
        }
    }

    ghost decides = { λ k. (decided, undecided) };
}
