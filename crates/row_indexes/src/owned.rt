//! An index: the keys of rows under their owners.
ghost use Rattle.std.specs.Prelude.{◌≡◌, ◌++◌, OnOk, OnErr, IfOk};
ghost use Rattle.std.specs.FinMap as map;
ghost use Rattle.std.specs.List.{flat_map};
ghost use Rattle.keyed_rows.specs.Rows.{map_of};
ghost use Rattle.row_indexes.specs.Owned.{owned_cmp, owned_exact, owned_together, key_list, keys_under, IsNoted, IsForgotten};

use crate::grouped::{Grouped, keys_of};
use hub_kit::key::Key;
use std::alloc::{AllocError, Global};
use std::collections::BTreeMap;

/// A key under its owner. Without a key it stands before all of the owner's.
#[derive(Clone, Copy, PartialEq, Eq, PartialOrd, Ord)]
pub struct OwnedKey<O, K> {
    pub owner: O,
    pub key: Option<K>,
}

impl<O: Key + Copy, K: Key + Copy> Key for OwnedKey<O, K> {
    ghost exact = { owned_exact O.Key.exact K.Key.exact };
}

impl<O: Key + Copy, K: Key + Copy> Grouped<O> for OwnedKey<O, K> {
    ghost owner_of = { λ k. k.owner };

    ghost together = { owned_together O.Ord.cmp K.Ord.cmp };

    fn owner(&self) -> &O {
        &self.owner
    }
}

/// Puts a key under an owner.
pub fn note<O: Key + Copy, K: Key + Copy>(
    index: &mut BTreeMap<OwnedKey<O, K>, ()>,
    owner: &O,
    key: &K,
) -> Result<(), AllocError>
    ensures ok { OnOk result (IsNoted O.Ord.cmp K.Ord.cmp owner.now key.now (map_of (owned_cmp O.Ord.cmp K.Ord.cmp) index.old)
        (map_of (owned_cmp O.Ord.cmp K.Ord.cmp) index.new)) }
    ensures err { OnErr result (map_of (owned_cmp O.Ord.cmp K.Ord.cmp) index.new ≡ map_of (owned_cmp O.Ord.cmp K.Ord.cmp) index.old) }
{
    let entry = OwnedKey {
        owner: *owner,
        key: Some(*key),
    };
    keyed_rows::insert_row(index, entry, ())
}

/// Takes a key from under an owner. Takes no memory.
pub fn forget<O: Key + Copy, K: Key + Copy>(
    index: &mut BTreeMap<OwnedKey<O, K>, ()>,
    owner: &O,
    key: &K,
)
    ensures { IsForgotten O.Ord.cmp K.Ord.cmp owner.now key.now (map_of (owned_cmp O.Ord.cmp K.Ord.cmp) index.old)
        (map_of (owned_cmp O.Ord.cmp K.Ord.cmp) index.new) }
{
    let entry = OwnedKey {
        owner: *owner,
        key: Some(*key),
    };
    keyed_rows::remove_row(index, &entry);
}

/// The keys under an owner, in order.
pub fn owned_keys<O: Key + Copy, K: Key + Copy>(
    alloc: Global,
    index: &BTreeMap<OwnedKey<O, K>, ()>,
    owner: &O,
) -> Result<Vec<K>, AllocError>
    ensures { IfOk result (λ keys. keys.items ≡ keys_under O.Ord.cmp owner.now
        (map.keys (map_of (owned_cmp O.Ord.cmp K.Ord.cmp) index.now))) }
{
    let first = OwnedKey {
        owner: *owner,
        key: None,
    };
    let entries = keys_of(alloc, index, owner, first)?;
    keys_in(alloc, &entries)
}

fn keys_in<O, K: Copy>(alloc: Global, entries: &[OwnedKey<O, K>]) -> Result<Vec<K>, AllocError>
    ensures { IfOk result (λ keys. keys.items ≡ flat_map (λ entry. key_list entry.key) entries.now) }
{
    let mut keys = Vec::new(alloc);
    for entry in entries {
        push_key(&mut keys, &entry.key)?;
    }
    Ok(keys)
}

fn push_key<K: Copy>(keys: &mut Vec<K>, key: &Option<K>) -> Result<(), AllocError>
    ensures { OnOk result (keys.new.items ≡ keys.old.items ++ key_list key.now) }
{
    if let Some(key) = key {
        keys.push(*key)?;
    }
    Ok(())
}
