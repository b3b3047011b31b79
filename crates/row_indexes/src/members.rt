//! An index of rows under each of their members. A put at a kept key takes no memory, whatever members its row has, so the index is
//! given up where an entry finds no memory, and the rows are scanned from then on.
ghost use Rattle.std.specs.Prelude.{◌≡◌, ◌&&◌, ◌||◌, not, false, List, [], map as map_list, IsTrue, OnOk, OnErr, IfOk};
ghost use Rattle.std.specs.Option.{option_copied};
ghost use Rattle.std.specs.FinMap as map;
ghost use Rattle.std.specs.BTreeMap as tree;
ghost use Rattle.std.specs.BTreeMap.{IsOrdered};
ghost use Rattle.std.specs.List.{filter};
ghost use Rattle.std.specs.Ordering.{eq_by_cmp};
ghost use Rattle.keyed_rows.specs.Rows.{map_of, OwnKeys};
ghost use Rattle.keyed_rows.specs.Puts.{IsAnswerIn};
ghost use Rattle.keyed_rows.specs.Sorted.{is_among};
ghost use Rattle.row_indexes.specs.Owned.{owned_cmp, under};
ghost use Rattle.row_indexes.specs.Members.{answered, brings, members_in, IsFollowed, IsRowFollowed, TellsMembers};

use crate::owned::{OwnedKey, forget, note, owned_keys};
use hub_kit::key::Key;
use keyed_rows::keyed::{self, CopyKey, Keyed};
use keyed_rows::sorted::Sorted;
use keyed_rows::{PutError, Room};
use std::alloc::{AllocError, Global};
use std::collections::BTreeMap;
use std::mem::replace;

/// The keys of rows under each member of the rows, or nothing once it was given up.
pub type MemberIndex<M, K> = Option<BTreeMap<OwnedKey<M, K>, ()>>;

/// A row that has members.
pub trait HasMembers<M: Key>: Drop {
    ghost members_of: { Self → List M };

    fn members(&self) -> &Sorted<M>
        ensures { result.now ≡ members_of self.now };
}

/// Sets the row of the value's key, and hands over the row that stood there. A kept row is replaced in its place, which takes no memory.
pub fn put_row<K: CopyKey, R: Keyed<K>>(
    alloc: Global,
    rows: &mut BTreeMap<K, R>,
    value: R,
    room: Option<Room>,
) -> Result<Option<R>, PutError>
    ensures answer { IsAnswerIn room (map_of K.Ord.cmp rows.old) (R.key_of value) (answered result) }
    ensures ok { OnOk result (map_of K.Ord.cmp rows.new ≡ map.insert (map_of K.Ord.cmp rows.old) (R.key_of value) value) }
    ensures old { IfOk result (λ old. old ≡ map.get (map_of K.Ord.cmp rows.old) (R.key_of value)) }
    ensures err { OnErr result (map_of K.Ord.cmp rows.new ≡ map_of K.Ord.cmp rows.old) }
    ensures ordered { IsOrdered K.Ord.cmp rows.new }
{
    if let Some(row) = rows.get_mut(value.key()) {
        return Ok(Some(replace(row, value)));
    }
    keyed::put(alloc, rows, value, room)?;
    Ok(None)
}

/// The keys of the rows that have a member, in order. By the index it walks over the entries of that member alone; where the index was
/// given up it scans the rows, with a binary search in each.
pub fn keys_with<M: Key + Copy, K: CopyKey + Copy, R: Keyed<K> + HasMembers<M>>(
    alloc: Global,
    rows: &BTreeMap<K, R>,
    index: &MemberIndex<M, K>,
    member: &M,
) -> Result<Vec<K>, AllocError>
    requires own { OwnKeys R.key_of (map_of K.Ord.cmp rows.now) }
    requires told { TellsMembers M.Ord.cmp K.Ord.cmp R.members_of (map_of K.Ord.cmp rows.now) index.now }
    ensures { IfOk result (λ keys. keys.items ≡ map_list R.key_of
        (filter (λ row. is_among M.Ord.cmp member.now (R.members_of row)) (map.values (map_of K.Ord.cmp rows.now)))) }
{
    match index {
        Some(entries) => owned_keys(alloc, entries, member),
        None => scanned_keys(alloc, rows, member),
    }
}

fn scanned_keys<M: Key + Copy, K: CopyKey + Copy, R: Keyed<K> + HasMembers<M>>(
    alloc: Global,
    rows: &BTreeMap<K, R>,
    member: &M,
) -> Result<Vec<K>, AllocError>
    ensures keys { IfOk result (λ keys. keys.items ≡ map_list R.key_of
        (filter (λ row. is_among M.Ord.cmp member.now (R.members_of row)) (tree.values rows.now))) }
    ensures ordered { IsOrdered K.Ord.cmp rows.now }
{
    let mut keys = Vec::new(alloc);
    for row in rows.values() {
        if row.members().contains(member) {
            keys.push(*row.key())?;
        }
    }
    Ok(keys)
}

/// Puts a key under the members of the row that it has now, in place of those of the old row.
pub fn follow_row<M: Key + Copy, K: Key + Copy, R: HasMembers<M>>(
    alloc: Global,
    rows: &BTreeMap<K, R>,
    key: &K,
    old: &Option<R>,
    index: &mut MemberIndex<M, K>,
)
    ensures { IsRowFollowed M.Ord.cmp K.Ord.cmp R.members_of key.now old.now (map_of K.Ord.cmp rows.now) index.old index.new }
{
    let none = Sorted::new(alloc);
    let new = members_or(keyed_rows::row_at(rows, key), &none);
    follow(index, key, members_or(old.as_ref(), &none), new);
}

fn members_or<'a, M: Key + Copy, R: HasMembers<M>>(
    row: Option<&'a R>,
    none: &'a Sorted<M>,
) -> &'a Sorted<M>
    requires { none.now ≡ [] }
    ensures { result.now ≡ members_in R.members_of (option_copied row.entry) }
{
    match row {
        Some(row) => row.members(),
        None => none,
    }
}

/// Puts a key under the new members of its row in place of the old ones. The index is given up only where a member is new, and its entry
/// finds no memory.
fn follow<M: Key + Copy, K: Key + Copy>(
    index: &mut MemberIndex<M, K>,
    key: &K,
    old: &Sorted<M>,
    new: &Sorted<M>,
)
    ensures { IsFollowed M.Ord.cmp K.Ord.cmp key.now old.now new.now index.old index.new }
{
    if let Some(entries) = index {
        forget_others(entries, key, old.as_slice(), new);
        if note_others(entries, key, new.as_slice(), old).is_err() {
            *index = None;
        }
    }
}

/// Takes a key from under the members that aren't among the kept ones. Takes no memory.
fn forget_others<M: Key + Copy, K: Key + Copy>(
    entries: &mut BTreeMap<OwnedKey<M, K>, ()>,
    key: &K,
    members: &[M],
    kept: &Sorted<M>,
)
    ensures { (m : M) (k : K) → map.contains_key (map_of (owned_cmp M.Ord.cmp K.Ord.cmp) entries.new) (under m k)
        ≡ (not ((is_among M.Ord.cmp m members.now && not (is_among M.Ord.cmp m kept.now)) && eq_by_cmp K.Ord.cmp k key.now)
        && map.contains_key (map_of (owned_cmp M.Ord.cmp K.Ord.cmp) entries.old) (under m k)) }
{
    for member in members {
        if !kept.contains(member) {
            forget(entries, member, key);
        }
    }
}

/// Puts a key under the members that aren't among the kept ones.
fn note_others<M: Key + Copy, K: Key + Copy>(
    entries: &mut BTreeMap<OwnedKey<M, K>, ()>,
    key: &K,
    members: &[M],
    kept: &Sorted<M>,
) -> Result<(), AllocError>
    ensures err { OnErr result (IsTrue (brings M.Ord.cmp kept.now members.now)) }
    ensures ok { OnOk result ((m : M) (k : K) → map.contains_key (map_of (owned_cmp M.Ord.cmp K.Ord.cmp) entries.new) (under m k)
        ≡ (((is_among M.Ord.cmp m members.now && not (is_among M.Ord.cmp m kept.now)) && eq_by_cmp K.Ord.cmp k key.now)
        || map.contains_key (map_of (owned_cmp M.Ord.cmp K.Ord.cmp) entries.old) (under m k))) }
{
    for member in members {
        if !kept.contains(member) {
            note(entries, member, key)?;
        }
    }
    Ok(())
}
