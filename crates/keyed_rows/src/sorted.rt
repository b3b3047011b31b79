//! Keys in order, without repeats.
ghost use Rattle.std.specs.Prelude.{◌≡◌, ◌++◌, [], length, Some, None, IfOk, if◌then◌else◌};
ghost use Rattle.keyed_rows.specs.Sorted.{IsInOrder, in_order, is_among, with_keys, without_keys};
ghost use Rattle.keyed_rows.specs.Sorted as spec;

use hub_kit::key::Key;
use std::alloc::{AllocError, Global};
use std::marker::Model;

/// A list of keys in their order, each once, which contracts see as that list.
pub struct Sorted<K: Key> {
    items: Vec<K>,
}

impl<K: Key + Drop> Drop for Sorted<K> {
    fn drop(self) {
        let Sorted { items: _ } = self;
    }
}

impl<K: Key> Model for Sorted<K> {
    ghost use Rattle.std.specs.Prelude.{List};
    ghost use Rattle.std.specs.List.Sorted.{IsStrictlySortedBy};

    ghost Value = { List K };

    ghost view = { λ s. s.items.items };

    ghost invariant = { λ s. IsStrictlySortedBy K.Ord.cmp s.items.items };
}

impl<K: Key + Copy> Sorted<K> {
    /// No keys, which takes no memory.
    pub fn new(alloc: Global) -> Sorted<K>
        ensures { result ≡ [] }
    {
        Sorted {
            items: Vec::new(alloc),
        }
    }

    /// The keys of a vector, in order and without repeats. Takes no memory.
    pub fn from_vec(keys: Vec<K>) -> Sorted<K>
        ensures { result ≡ in_order K.Ord.cmp keys.items }
    {
        let mut items = keys;
        items.sort_unstable();
        items.dedup();
        Sorted { items }
    }

    /// The keys of a vector where they are in order and without repeats already. Takes no memory.
    pub fn of_ordered(keys: Vec<K>) -> Option<Sorted<K>>
        ensures { result ≡ (if spec.is_in_order K.Ord.cmp keys.items then Some keys.items else None) }
    {
        if is_in_order(keys.as_slice()) {
            return Some(Sorted { items: keys });
        }
        None
    }

    pub fn as_slice(&self) -> &[K]
        ensures keys { result.now ≡ self.now }
        ensures ordered { IsInOrder K.Ord.cmp self.now }
    {
        self.items.as_slice()
    }

    pub fn len(&self) -> usize
        ensures { result ≡ length self.now }
    {
        self.items.len()
    }

    /// Whether a key is among these, by a binary search.
    pub fn contains(&self, key: &K) -> bool
        ensures { result ≡ is_among K.Ord.cmp key.now self.now }
    {
        is_found(self.items.as_slice(), key)
    }

    /// These keys and more.
    pub fn with(&self, alloc: Global, more: &[K]) -> Result<Sorted<K>, AllocError>
        ensures { IfOk result (λ keys. keys ≡ with_keys K.Ord.cmp more.now self.now) }
    {
        let mut items = Vec::from_slice(alloc, self.items.as_slice())?;
        items.extend_from_slice(more)?;
        Ok(Sorted::from_vec(items))
    }

    /// These keys less some.
    pub fn without(&self, alloc: Global, less: &[K]) -> Result<Sorted<K>, AllocError>
        ensures { IfOk result (λ keys. keys ≡ without_keys K.Ord.cmp less.now self.now) }
    {
        let gone = Sorted::from_vec(Vec::from_slice(alloc, less)?);
        let items = remaining(alloc, self.items.as_slice(), &gone)?;
        Ok(Sorted { items })
    }

    pub fn copy(&self, alloc: Global) -> Result<Sorted<K>, AllocError>
        ensures { IfOk result (λ keys. keys ≡ self.now) }
    {
        let items = Vec::from_slice(alloc, self.items.as_slice())?;
        Ok(Sorted { items })
    }
}

fn is_found<K: Key>(keys: &[K], key: &K) -> bool
    requires { IsInOrder K.Ord.cmp keys.now }
    ensures { result ≡ is_among K.Ord.cmp key.now keys.now }
{
    keys.binary_search(key).is_ok()
}

fn is_in_order<K: Key + Copy>(keys: &[K]) -> bool
    ensures { result ≡ spec.is_in_order K.Ord.cmp keys.now }
{
    let Some(first) = keys.first() else {
        return true;
    };
    rises_from(first, &keys[1..])
}

/// Whether each key is below the next, from one that stands before them.
fn rises_from<K: Key + Copy>(first: &K, keys: &[K]) -> bool
    ensures { result ≡ spec.rises_from K.Ord.cmp first.now keys.now }
{
    let mut last = first;
    for key in keys {
        if !last.cmp(key).is_lt() {
            return false;
        }
        last = key;
    }
    true
}

/// The keys that aren't among those that are gone.
fn remaining<K: Key + Copy>(
    alloc: Global,
    keys: &[K],
    gone: &Sorted<K>,
) -> Result<Vec<K>, AllocError>
    ensures { IfOk result (λ left. left.items ≡ without_keys K.Ord.cmp gone.now keys.now) }
{
    let mut left = Vec::new(alloc);
    for key in keys {
        if !gone.contains(key) {
            left.push(*key)?;
        }
    }
    Ok(left)
}
