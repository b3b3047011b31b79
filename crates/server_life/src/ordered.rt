//! Maps of few entries, in vectors that are kept in the order of the keys and whose room was reserved.
//!
//! A look-up is a binary search, and a change moves the entries behind it and takes no memory.
ghost use Rattle.std.specs.Prelude.{◌≡◌, ◌<◌, T, Some, None, IsSome, cond, not};
ghost use Rattle.std.specs.Vec.{vec_len, vec_capacity};
ghost use Rattle.std.specs.Ordering.{eq_by_cmp};
ghost use Rattle.std.specs.FinMap.Entries.{find, is_sorted, where_key, put as put_entry};
ghost use Rattle.server_life.specs.Ranks.{rank};

use std::cmp::Ordering;

/// The place of the first entry whose key isn't below this one.
fn rank<K: Ord + Copy, V>(entries: &[(K, V)], key: &K) -> usize
    requires { T (is_sorted K.cmp entries.now) }
    ensures { result ≡ rank K.cmp key.now entries.now }
{
    entries.partition_point(|entry| entry.0.cmp(key) == Ordering::Less)
}

/// The value of a key.
pub fn get<K: Ord + Copy, V: Copy>(entries: &[(K, V)], key: &K) -> Option<V>
    requires { T (is_sorted K.cmp entries.now) }
    ensures { result ≡ find K.cmp key.now entries.now }
{
    let at = rank(entries, key);
    if at < entries.len() {
        value_at(&entries[at], key)
    } else {
        None
    }
}

/// The value of an entry that has this key.
fn value_at<K: Ord + Copy, V: Copy>(entry: &(K, V), key: &K) -> Option<V>
    ensures { result ≡ cond (eq_by_cmp K.cmp key.now entry.now.0) (Some entry.now.1) None }
{
    match key.cmp(&entry.0) {
        Ordering::Equal => Some(entry.1),
        _ => None,
    }
}

/// Adds a key that isn't there, where there is room.
pub fn put<K: Ord + Copy, V: Copy>(entries: &mut Vec<(K, V)>, key: &K, value: V)
    requires sorted { T (is_sorted K.cmp entries.old.items) }
    requires new { find K.cmp key.now entries.old.items ≡ None }
    requires room { vec_len entries.old < vec_capacity entries.old }
    ensures items { entries.new.items ≡ put_entry K.cmp key.now value entries.old.items }
    ensures capacity { vec_capacity entries.new ≡ vec_capacity entries.old }
{
    let at = rank(entries.as_slice(), key);
    let _room = entries.insert(at, (*key, value));
}

/// Takes a key out that is there.
pub fn remove<K: Ord + Copy, V: Copy>(entries: &mut Vec<(K, V)>, key: &K)
    requires sorted { T (is_sorted K.cmp entries.old.items) }
    requires known { IsSome (find K.cmp key.now entries.old.items) }
    ensures items { entries.new.items ≡ where_key K.cmp (λ k. not (eq_by_cmp K.cmp key.now k)) entries.old.items }
    ensures capacity { vec_capacity entries.new ≡ vec_capacity entries.old }
{
    let at = rank(entries.as_slice(), key);
    let _entry = entries.remove(at);
}
