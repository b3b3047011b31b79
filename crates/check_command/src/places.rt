//! Rows in copies of a hub's file, taken as a store.
ghost use Rattle.std.specs.Prelude.{◌≡◌, IsTrue, IfOk};

use file_copies::copies::{Copies, read_copies};
use file_copies::copy_error::CopyError;
use file_copies::keeping::{CopyKeeper, keeper_over};
use hub_kit::text::Text;
use hub_store::places::Places;
use keeper::keeper::KeeperError;
use std::fs;
use std::path::Path;

/// Opens copies of files of SQLite, each with its log. What is committed to a copy is lost with it.
#[derive(Drop)]
pub(crate) struct CopyPlaces {
    rt: HostRuntime,
    refusal: Option<CopyError>,
}

impl CopyPlaces {
    pub(crate) fn new(rt: HostRuntime) -> CopyPlaces {
        CopyPlaces { rt, refusal: None }
    }

    /// Why the last opening was refused, if it was.
    pub(crate) fn refusal(&self) -> Option<CopyError> {
        self.refusal
    }
}

/// Whether the folder of a path is there, so that a hub could make a file in it.
fn has_folder(rt: &HostRuntime, path: &str) -> bool {
    match Path::new(path).parent() {
        Some(folder) if folder.as_str().is_empty() => true,
        Some(folder) => match fs::metadata(rt, folder) {
            Ok(found) => found.is_dir(),
            Err(_) => false,
        },
        None => false,
    }
}

/// The copies of the file at a path. Where there is none but a hub would make it they are empty.
fn copies_at(rt: &HostRuntime, path: &str) -> Result<Copies, CopyError> {
    match read_copies(rt, path) {
        Err(CopyError::Missing) if has_folder(rt, path) => Ok(Copies::empty(rt.alloc())),
        found => found,
    }
}

/// The keeper over copies of the file at a path.
fn keeper_at(rt: &HostRuntime, path: &str) -> Result<CopyKeeper, CopyError>
    ensures { IfOk result (λ kept. (kept.faults ≡ 0) × IsTrue kept.is_own) }
{
    let copies = match copies_at(rt, path) {
        Ok(copies) => copies,
        Err(error) => return Err(error),
    };
    let kept = keeper_over(rt.alloc(), &copies);
    drop(copies);
    kept
}

impl Places for CopyPlaces {
    type Kept = CopyKeeper;

    ghost Opens = { λ place kept. (kept.faults ≡ 0) × IsTrue kept.is_own };

    fn open(&mut self, place: &Text) -> Result<CopyKeeper, KeeperError> {
        match keeper_at(&self.rt, place.as_str()) {
            Ok(kept) => Ok(kept),
            Err(CopyError::Memory) => Err(KeeperError::Memory),
            Err(error) => {
                self.refusal = Some(error);
                Err(KeeperError::Failed)
            }
        }
    }
}
