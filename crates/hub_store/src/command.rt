//! Commands over the program's store.
use crate::file_places::{FileError, FilePlaces};
use crate::places::ProgramPlaces;
use crate::store::Store;
use keeper::keeper::Keeper;
use keeper::mem_keeper::MemKeeper;
use sqlite::Start;
use std::alloc::AllocError;
use std::process::ExitCode;

/// A store of rows that the program can speak of and close.
pub trait ProgramStore: Keeper {
    /// Why it didn't take its place, if it didn't.
    fn refusal(&self) -> Option<FileError>;

    /// Leaves what was kept so that it stands alone.
    fn close(self);
}

impl ProgramStore for MemKeeper {
    fn refusal(&self) -> Option<FileError> {
        None
    }

    fn close(self) {
        drop(self);
    }
}

impl<K: Keeper, P: ProgramPlaces> ProgramStore for Store<K, P> {
    fn refusal(&self) -> Option<FileError> {
        self.places().refusal()
    }

    // the log goes into the file
    fn close(self) {
        if let Some(kept) = self.into_placed() {
            P::close(kept);
        }
    }
}

/// A command over a store, of whose type it knows no more.
pub trait StoreCommand {
    /// Runs the command over this store, to its end.
    fn run<K: ProgramStore>(&self, rt: HostRuntime, store: K) -> ExitCode;
}

/// Runs a command over a keeper that takes the store at a place once it is chosen.
fn run_over<K: Keeper, P: ProgramPlaces, C: StoreCommand>(
    rt: HostRuntime,
    own: K,
    places: P,
    command: &C,
) -> ExitCode {
    command.run(rt, Store::new(own, places))
}

/// Runs a command over a store in memory that takes a file of SQLite where a place is chosen. `S` names what is supposed of the first
/// contents of that file.
pub fn run_over_file<S: Start, C: StoreCommand>(
    rt: HostRuntime,
    start: S,
    command: &C,
) -> Result<ExitCode, AllocError> {
    let alloc = rt.alloc();
    let own = MemKeeper::new(alloc, Vec::new(alloc), Vec::new(alloc))?;
    Ok(run_over(rt, own, FilePlaces::new(rt, start), command))
}
