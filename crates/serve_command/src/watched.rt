//! The store of the hub, which says what of the configuration its rows overrule. It does so once, when they are first read: the hub is
//! opened over them then.
ghost use Rattle.std.specs.Prelude.{◌≡◌};

use crate::telling::tell_overruled;
use hub_kit::list::List;
use hub_kit::text::Text;
use hub_opening::config::ConfigUser;
use hub_rows::records::Group;
use hub_serving::explain::config_name;
use hub_serving::plan::Plan;
use hub_store::command::ProgramStore;
use hub_store::file_places::FileError;
use keeper::keeper::{Batch, Keeper, KeeperError, Row};
use std::alloc::{AllocError, Global};

/// What a file of configuration says of users and groups.
pub(crate) struct Said {
    pub(crate) file: Text,
    pub(crate) users: List<ConfigUser>,
    pub(crate) groups: List<Group>,
}

impl Drop for Said {
    fn drop(self) {
        let Said {
            file: _,
            users: _,
            groups: _,
        } = self;
    }
}

impl Said {
    /// What the plan of these words has of its file.
    pub(crate) fn of(alloc: Global, words: &[Text], plan: &Plan) -> Result<Said, AllocError> {
        let users = Vec::from_slice(alloc, plan.hub.users.as_slice())?;
        let mut groups = Vec::new(alloc);
        for group in plan.hub.groups.as_slice() {
            groups.push(group.copy(alloc)?)?;
        }
        Ok(Said {
            file: config_name(alloc, words)?,
            users: List::from_vec(users),
            groups: List::from_vec(groups),
        })
    }
}

/// A store, and what its rows are held against.
pub(crate) struct Watched<K: ProgramStore> {
    rt: HostRuntime,
    store: K,
    said: Said,
    is_told: bool,
}

impl<K: ProgramStore> Drop for Watched<K> {
    fn drop(self) {
        let Watched {
            rt: _,
            store: _,
            said: _,
            is_told: _,
        } = self;
    }
}

impl<K: ProgramStore> Watched<K> {
    pub(crate) fn new(rt: HostRuntime, store: K, said: Said) -> Watched<K> {
        Watched {
            rt,
            store,
            said,
            is_told: false,
        }
    }
}

impl<K: ProgramStore> Keeper for Watched<K> {
    ghost Tells = { λ w. K.Tells w.store };

    ghost is_told = { λ w. K.is_told w.store };

    ghost rows = { λ w. K.rows w.store };

    ghost faults = { λ w. K.faults w.store };

    ghost Chooses = { λ w place w'. K.Chooses w.store place w'.store };

    fn choose(&mut self, place: Option<&Text>) -> Result<(), KeeperError> {
        self.store.choose(place)
    }

    fn load(&mut self) -> Result<Vec<Row>, KeeperError> {
        let loaded = self.store.load();
        if let Ok(rows) = &loaded {
            if !self.is_told {
                tell_overruled(&self.rt, &self.said, rows.as_slice());
                self.is_told = true;
            }
        }
        loaded
    }

    fn commit(&mut self, batch: &Batch) -> Result<(), KeeperError> {
        self.store.commit(batch)
    }

    ghost decides = { λ w. K.decides w.store };
}

impl<K: ProgramStore> ProgramStore for Watched<K> {
    fn refusal(&self) -> Option<FileError> {
        self.store.refusal()
    }

    fn close(self) {
        let Watched {
            rt: _,
            store,
            said: _,
            is_told: _,
        } = self;
        store.close();
    }
}
