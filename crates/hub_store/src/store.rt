//! A keeper with rows of its own, that takes the store at a place instead.
ghost use Rattle.std.specs.Prelude.{◌≡◌, ◌≤◌, ◌+◌, None};
ghost use Rattle.hub_devices.specs.FailingCalls.{one_more};
ghost use Rattle.hub_store.specs.Placed as spec;

use crate::places::Places;
use hub_kit::text::Text;
use keeper::keeper::{Batch, Keeper, KeeperError, Row};

/// Keeps rows in its own keeper until a place is chosen, and in the store at that place from then on. A place is chosen at most
/// once: each further choice is a fault, and so is one that the places refuse.
#[derive(Drop)]
pub struct Store<K: Keeper, P: Places> {
    own: K,
    places: P,
    placed: Option<P::Kept>,
    /// How many choices were faults.
    refused: u64,
}

impl<K: Keeper, P: Places> Store<K, P> {
    /// A store that has its own keeper.
    pub fn new(own: K, places: P) -> Store<K, P>
        ensures { (result.own ≡ own) × (result.placed ≡ None) × (result.refused ≡ 0) }
    {
        Store {
            own,
            places,
            placed: None,
            refused: 0,
        }
    }

    /// What opens the stores, which may say why it refused one.
    pub fn places(&self) -> &P
        ensures { result.now ≡ self.now.places }
    {
        &self.places
    }

    /// The keeper at the place, where one was chosen, so that it can be closed.
    pub fn into_placed(self) -> Option<P::Kept>
        ensures { result ≡ self.placed }
    {
        self.placed
    }

    /// Counts a fault. The count stands still at the greatest `u64`.
    fn count_refusal(&mut self)
        ensures counted { self.new.refused ≡ one_more self.old.refused }
        ensures kept { self.old.refused ≤ self.new.refused }
        ensures same { (self.new.own ≡ self.old.own) × (self.new.placed ≡ self.old.placed) }
    {
        self.refused = self.refused.saturating_add(1);
    }
}

impl<K: Keeper, P: Places> Keeper for Store<K, P> {
    ghost Tells = { λ s. spec.tells K.Tells P.Kept.Tells s.own s.placed };

    ghost is_told = { λ s. spec.is_told K.is_told P.Kept.is_told s.own s.placed };

    ghost rows = { λ s. spec.rows_in K.rows P.Kept.rows s.own s.placed };

    ghost faults = { λ s. K.faults s.own + spec.placed_faults P.Kept.faults s.placed + s.refused };

    ghost Chooses = { spec.Chosen P.Opens (λ s. s.placed) };

    fn choose(&mut self, place: Option<&Text>) -> Result<(), KeeperError> {
        let Some(place) = place else {
            return Ok(());
        };
        if self.placed.is_some() {
            self.count_refusal();
            return Err(KeeperError::Failed);
        }
        match self.places.open(place) {
            Ok(kept) => {
                self.placed = Some(kept);
                Ok(())
            }
            Err(KeeperError::Failed) => {
                self.count_refusal();
                Err(KeeperError::Failed)
            }
            Err(KeeperError::Memory) => Err(KeeperError::Memory),
        }
    }

    fn load(&mut self) -> Result<Vec<Row>, KeeperError> {
        match &mut self.placed {
            Some(kept) => kept.load(),
            None => self.own.load(),
        }
    }

    fn commit(&mut self, batch: &Batch) -> Result<(), KeeperError> {
        match &mut self.placed {
            Some(kept) => kept.commit(batch),
            None => self.own.commit(batch),
        }
    }

    ghost decides = { λ s. spec.decided K.Tells P.Kept.Tells K.is_told P.Kept.is_told K.decides P.Kept.decides s.own s.placed };
}
