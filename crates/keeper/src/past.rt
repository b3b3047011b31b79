//! A history that clauses read and that takes no room.
ghost use Rattle.std.specs.Prelude.{◌≡◌, ◌++◌, ◌∷◌, []};
ghost use Rattle.keeper.specs.Pasts.{entries_of};

use std::mem;
use std::snapshot::Snapshot;

/// Entries, the last of them outermost. Such a value is made only for a `Snapshot` of it, which has no bytes, and dropped at once.
#[derive(Drop)]
enum Entries<E> {
    Start,
    Then {
        before: Snapshot<Entries<E>>,
        last: E,
    },
}

/// All entries so far, for clauses alone. It has no bytes, so whoever runs the program pays nothing for it.
/// `new` and `add` alone make and change it, and their clauses say which entries it has then.
#[derive(Drop)]
pub struct Past<E> {
    seen: Snapshot<Entries<E>>,
}

impl<E: Drop> Past<E> {
    #[tactic(auto, unfolding(crate::specs::Pasts::list_of, crate::specs::Pasts::entries_of))]
    pub fn new() -> Past<E>
        ensures { entries_of result ≡ [] }
    {
        Past {
            seen: Snapshot::of(&Entries::Start),
        }
    }

    /// Adds an entry behind all others, and drops it.
    #[tactic(auto, unfolding(crate::specs::Pasts::list_of, crate::specs::Pasts::entries_of))]
    pub fn add(&mut self, entry: E)
        ensures { entries_of self.new ≡ entries_of self.old ++ entry ∷ [] }
    {
        let before = mem::replace(&mut self.seen, Snapshot::of(&Entries::Start));
        self.seen = Snapshot::of(&Entries::Then {
            before,
            last: entry,
        });
    }
}
