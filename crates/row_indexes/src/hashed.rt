//! Rows that stand under an id and are found by a hash, written once for every kind of such rows. An index has their ids under the numbers
//! of their hashes, so that an entry takes sixteen bytes, and no hash is kept twice.
ghost use Rattle.std.specs.Prelude.{◌≡◌, ℕ, List, OnOk, OnErr};
ghost use Rattle.std.specs.Option.{option_copied};
ghost use Rattle.std.specs.FinMap as map;
ghost use Rattle.std.specs.BTreeMap as tree;
ghost use Rattle.std.specs.BTreeMap.{IsOrdered};
ghost use Rattle.std.specs.List as scan;
ghost use Rattle.std.specs.Ordering.{nat_cmp, eq_by_cmp};
ghost use Rattle.hub_kit.specs.KeyOrder.{name_cmp};
ghost use Rattle.keyed_rows.specs.Rows.{map_of};
ghost use Rattle.keyed_rows.specs.Puts.{IsAnswerIn};
ghost use Rattle.row_indexes.specs.Hashes.{row_with, FitsHash, IsIndexed, entry_for, is_alone, only_with, without_id};
ghost use Rattle.row_indexes.specs.Numbers.{number_of};

use crate::numbers::number_of;
use hub_kit::text::Text;
use keyed_rows::keyed::{self, Keyed};
use keyed_rows::{PutError, Room};
use std::alloc::{AllocError, Global};
use std::collections::BTreeMap;

/// What stands under a number that the hashes of several rows have: such a row is looked for among all.
const SEVERAL: u64 = u64::MAX;

/// A row with an id and a hash.
pub trait Hashed: Keyed<u64> {
    ghost hash_of: { Self → List ℕ };

    fn hash(&self) -> &Text
        ensures { result.now ≡ hash_of self.now };
}

/// The row that has the hash. Where several rows have a hash of the same number it goes through all rows.
pub fn row_of_hash<'a, R: Hashed>(
    rows: &'a BTreeMap<u64, R>,
    ids: &BTreeMap<u64, u64>,
    hash: &Text,
) -> Option<&'a R>
    requires ordered { IsOrdered nat_cmp rows.now }
    requires indexed { IsIndexed R.hash_of (map_of nat_cmp rows.now) (map_of nat_cmp ids.now) }
    ensures { option_copied result ≡ row_with R.hash_of hash.now (map_of nat_cmp rows.now) }
{
    let number = number_of(hash.as_bytes());
    let Some(id) = keyed_rows::row_at(ids, &number) else {
        return None;
    };
    if *id == SEVERAL {
        return scanned(rows, hash);
    }
    match keyed_rows::row_at(rows, id) {
        Some(row) => only_with(row, hash),
        None => None,
    }
}

/// The first row that has the hash, by a walk over all.
fn scanned<'a, R: Hashed>(rows: &'a BTreeMap<u64, R>, hash: &Text) -> Option<&'a R>
    ensures row { option_copied result ≡ scan.find (λ row. eq_by_cmp name_cmp (R.hash_of row) hash.now) (tree.values rows.now) }
    ensures ordered { IsOrdered nat_cmp rows.now }
{
    for row in rows.values() {
        if has_hash(row, hash) {
            return Some(row);
        }
    }
    None
}

fn has_hash<R: Hashed>(row: &R, hash: &Text) -> bool
    ensures { result ≡ eq_by_cmp name_cmp (R.hash_of row.now) hash.now }
{
    row.hash().cmp(hash).is_eq()
}

fn only_with<'a, R: Hashed>(row: &'a R, hash: &Text) -> Option<&'a R>
    ensures { option_copied result ≡ only_with (λ row. eq_by_cmp name_cmp (R.hash_of row) hash.now) row.now }
{
    if has_hash(row, hash) {
        return Some(row);
    }
    None
}

/// Puts a row under its id, and its id under the number of its hash. At a kept id that stands already, so no memory is needed.
pub fn put_hashed<R: Hashed>(
    alloc: Global,
    rows: &mut BTreeMap<u64, R>,
    ids: &mut BTreeMap<u64, u64>,
    value: R,
    room: Option<Room>,
) -> Result<(), PutError>
    requires indexed { IsIndexed R.hash_of (map_of nat_cmp rows.old) (map_of nat_cmp ids.old) }
    requires fits { FitsHash R.key_of R.hash_of (map_of nat_cmp rows.old) value }
    ensures answer { IsAnswerIn room (map_of nat_cmp rows.old) (R.key_of value) result }
    ensures ok { OnOk result (map_of nat_cmp rows.new ≡ map.insert (map_of nat_cmp rows.old) (R.key_of value) value) }
    ensures err { OnErr result (map_of nat_cmp rows.new ≡ map_of nat_cmp rows.old) }
    ensures ordered { IsOrdered nat_cmp rows.new }
    ensures indexed { IsIndexed R.hash_of (map_of nat_cmp rows.new) (map_of nat_cmp ids.new) }
{
    let id = *value.key();
    if rows.contains_key(&id) {
        return keyed::put(alloc, rows, value, room);
    }
    let number = number_of(value.hash().as_bytes());
    keyed::put(alloc, rows, value, room)?;
    if note_id(ids, number, id).is_ok() {
        return Ok(());
    }
    keyed_rows::remove_row(rows, &id);
    Err(PutError::Memory)
}

/// Puts an id under a number, or that several rows have the number where an id stands there.
fn note_id(ids: &mut BTreeMap<u64, u64>, number: u64, id: u64) -> Result<(), AllocError>
    ensures ok { OnOk result (map_of nat_cmp ids.new ≡ map.insert (map_of nat_cmp ids.old) number
        (entry_for id (map.get (map_of nat_cmp ids.old) number))) }
    ensures err { OnErr result (map_of nat_cmp ids.new ≡ map_of nat_cmp ids.old) }
{
    let entry = entry_for(id, keyed_rows::row_at(ids, &number));
    keyed_rows::insert_row(ids, number, entry)
}

fn entry_for(id: u64, kept: Option<&u64>) -> u64
    ensures { result ≡ entry_for id (option_copied kept.entry) }
{
    match kept {
        Some(_) => SEVERAL,
        None => id,
    }
}

/// Takes a row out, and its id from under the number of its hash. Takes no memory.
pub fn remove_hashed<R: Hashed>(
    rows: &mut BTreeMap<u64, R>,
    ids: &mut BTreeMap<u64, u64>,
    id: u64,
) -> bool
    requires { IsIndexed R.hash_of (map_of nat_cmp rows.old) (map_of nat_cmp ids.old) }
    ensures there { result ≡ map.contains_key (map_of nat_cmp rows.old) id }
    ensures removed { map_of nat_cmp rows.new ≡ map.remove (map_of nat_cmp rows.old) id }
    ensures ordered { IsOrdered nat_cmp rows.new }
    ensures indexed { IsIndexed R.hash_of (map_of nat_cmp rows.new) (map_of nat_cmp ids.new) }
{
    match keyed_rows::take_row(rows, &id) {
        Some(row) => {
            forget_id(ids, number_of(row.hash().as_bytes()), id);
            true
        }
        None => false,
    }
}

/// Takes an id from under a number. That several rows have the number stays. Takes no memory.
fn forget_id(ids: &mut BTreeMap<u64, u64>, number: u64, id: u64)
    ensures { map_of nat_cmp ids.new ≡ without_id number id (map_of nat_cmp ids.old) }
{
    if is_alone(id, keyed_rows::row_at(ids, &number)) {
        keyed_rows::remove_row(ids, &number);
    }
}

/// Whether an id is what stands there, and not that several rows have the number.
fn is_alone(id: u64, kept: Option<&u64>) -> bool
    ensures { result ≡ is_alone id (option_copied kept.entry) }
{
    match kept {
        Some(kept) => *kept == id && id != SEVERAL,
        None => false,
    }
}
