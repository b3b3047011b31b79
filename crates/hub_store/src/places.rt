//! Where stores are opened by their places.
ghost use Rattle.std.specs.Prelude.{ℕ, List, IfOk};

use crate::file_places::FileError;
use hub_kit::text::Text;
use keeper::keeper::{Keeper, KeeperError};

/// Opens the stores at places, each as a keeper.
pub trait Places: Drop {
    type Kept: Keeper;

    /// What the keeper of the store at a place may be.
    ghost Opens: { List ℕ → Self.Kept → Type 0 };

    /// The keeper of the store at a place.
    fn open(&mut self, place: &Text) -> Result<Self::Kept, KeeperError>
        ensures { IfOk result (Opens place.now) };
}

/// Places of which the program can say why one was refused, and whose stores it can close.
pub trait ProgramPlaces: Places {
    /// Why the last opening was refused, if it was.
    fn refusal(&self) -> Option<FileError>;

    /// Leaves what was kept at a place so that it stands alone.
    fn close(kept: Self::Kept);
}
