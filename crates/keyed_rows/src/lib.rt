//! Rows under keys: what every table of the hub does with its ordered tree, written once for each kind of key and row.
//! Contracts see a tree as a finite map (`map_of`); `keyed::put` carries the crate: `IsAnswerIn` says which answer comes, and on
//! an error the rows are as they were. The grants of `scope_filters` and the twelve tables of `hub_tables` stand on it.
#![tactic(auto)]

ghost use Rattle.std.specs.Prelude.{◌≡◌, false, OnOk, OnErr};
ghost use Rattle.std.specs.Option.{option_copied};
ghost use Rattle.std.specs.FinMap as map;
ghost use Rattle.std.specs.BTreeMap.{IsOrdered};
ghost use Rattle.keyed_rows.specs.Rows.{map_of};

pub mod keyed;
pub mod sorted;

use hub_kit::key::Key;
use std::alloc::AllocError;
use std::collections::BTreeMap;

/// Why a put was refused. `Full` has the kind and the limit of the room that was handed in.
#[derive(Clone, Copy, Debug, PartialEq, Eq)]
pub enum PutError {
    Full { kind: u8, limit: u32 },
    Memory,
}

/// The room for a kind of rows.
#[derive(Clone, Copy)]
pub struct Room {
    /// The number of the kind, which a refusal names.
    pub kind: u8,
    /// How many rows of the kind may stand at most.
    pub limit: u32,
    /// How many rows of the kind the same change removes afterwards; they take no room.
    pub leaving: u32,
}

/// Sets the row at a key, whatever the number of rows. A row at a kept key is replaced and takes no memory.
pub fn insert_row<K: Key, R: Drop>(
    rows: &mut BTreeMap<K, R>,
    key: K,
    row: R,
) -> Result<(), AllocError>
    ensures ok { OnOk result (map_of K.Ord.cmp rows.new ≡ map.insert (map_of K.Ord.cmp rows.old) key row) }
    ensures err { OnErr result (map_of K.Ord.cmp rows.new ≡ map_of K.Ord.cmp rows.old) }
    ensures memory { OnErr result (map.contains_key (map_of K.Ord.cmp rows.old) key ≡ false) }
    ensures ordered { IsOrdered K.Ord.cmp rows.new }
{
    match rows.insert(key, row) {
        Ok(_) => Ok(()),
        Err(_) => Err(AllocError),
    }
}

/// Takes the row at a key out and hands it over. Takes no memory.
pub fn take_row<K: Key, R: Drop>(rows: &mut BTreeMap<K, R>, key: &K) -> Option<R>
    ensures row { result ≡ map.get (map_of K.Ord.cmp rows.old) key.now }
    ensures removed { map_of K.Ord.cmp rows.new ≡ map.remove (map_of K.Ord.cmp rows.old) key.now }
    ensures ordered { IsOrdered K.Ord.cmp rows.new }
{
    rows.remove(key)
}

/// Takes the row at a key out, and tells whether it was there. Takes no memory.
pub fn remove_row<K: Key, R: Drop>(rows: &mut BTreeMap<K, R>, key: &K) -> bool
    ensures there { result ≡ map.contains_key (map_of K.Ord.cmp rows.old) key.now }
    ensures removed { map_of K.Ord.cmp rows.new ≡ map.remove (map_of K.Ord.cmp rows.old) key.now }
    ensures ordered { IsOrdered K.Ord.cmp rows.new }
{
    rows.remove(key).is_some()
}

/// The number of rows.
pub fn count<K: Key, R>(rows: &BTreeMap<K, R>) -> usize
    ensures { result ≡ map.len (map_of K.Ord.cmp rows.now) }
{
    rows.len()
}

/// The row at a key.
pub fn row_at<'a, K: Key, R>(rows: &'a BTreeMap<K, R>, key: &K) -> Option<&'a R>
    ensures { option_copied result ≡ map.get (map_of K.Ord.cmp rows.now) key.now }
{
    rows.get(key)
}
