//! Rows that stand under a key of their own, put in the same way for every kind of rows.
ghost use Rattle.std.specs.Prelude.{◌≡◌, Some, OnOk, OnErr, IfOk, false};
ghost use Rattle.std.specs.FinMap as map;
ghost use Rattle.std.specs.BTreeMap.{IsOrdered};
ghost use Rattle.keyed_rows.specs.Rows.{map_of};
ghost use Rattle.keyed_rows.specs.Puts.{IsAnswerIn, Replaces, room_left};

use crate::{PutError, Room};
use hub_kit::key::Key;
use hub_kit::names::{GroupName, RoleName, ServerKey, ServiceName, UserName};
use hub_kit::target::Target;
use hub_kit::text::Text;
use std::alloc::{AllocError, Global};
use std::collections::BTreeMap;

/// A key of which another can be made.
pub trait CopyKey: Key {
    fn copy_key(&self, alloc: Global) -> Result<Self, AllocError>
        ensures { IfOk result (λ key. key ≡ self.now) };
}

/// A row with a key of its own.
pub trait Keyed<K: CopyKey>: Drop {
    ghost key_of: { Self → K };

    fn key(&self) -> &K
        ensures { result.now ≡ key_of self.now };
}

/// Sets the row of the value's key. At a kept key it needs no memory. Without a room the kind has no limit.
pub fn put<K: CopyKey, R: Keyed<K>>(
    alloc: Global,
    rows: &mut BTreeMap<K, R>,
    value: R,
    room: Option<Room>,
) -> Result<(), PutError>
    ensures answer { IsAnswerIn room (map_of K.Ord.cmp rows.old) (R.key_of value) result }
    ensures ok { OnOk result (map_of K.Ord.cmp rows.new ≡ map.insert (map_of K.Ord.cmp rows.old) (R.key_of value) value) }
    ensures err { OnErr result (map_of K.Ord.cmp rows.new ≡ map_of K.Ord.cmp rows.old) }
    ensures ordered { IsOrdered K.Ord.cmp rows.new }
{
    let Some(room) = room else {
        return match set(alloc, rows, value) {
            Ok(()) => Ok(()),
            Err(_) => Err(PutError::Memory),
        };
    };
    match replace(rows, value) {
        Some(value) => put_new(alloc, rows, value, room),
        None => Ok(()),
    }
}

/// Sets the row of the value's key by one search, whatever the number of rows. Where there is no memory for the key, it still takes the
/// place of a kept row.
pub fn set<K: CopyKey, R: Keyed<K>>(
    alloc: Global,
    rows: &mut BTreeMap<K, R>,
    value: R,
) -> Result<(), AllocError>
    ensures ok { OnOk result (map_of K.Ord.cmp rows.new ≡ map.insert (map_of K.Ord.cmp rows.old) (R.key_of value) value) }
    ensures err { OnErr result (map_of K.Ord.cmp rows.new ≡ map_of K.Ord.cmp rows.old) }
    ensures memory { OnErr result (map.contains_key (map_of K.Ord.cmp rows.old) (R.key_of value) ≡ false) }
    ensures ordered { IsOrdered K.Ord.cmp rows.new }
{
    match value.key().copy_key(alloc) {
        Ok(key) => crate::insert_row(rows, key, value),
        Err(_) => match replace(rows, value) {
            None => Ok(()),
            Some(_) => Err(AllocError),
        },
    }
}

/// Sets the row of a key that isn't kept.
fn put_new<K: CopyKey, R: Keyed<K>>(
    alloc: Global,
    rows: &mut BTreeMap<K, R>,
    value: R,
    room: Room,
) -> Result<(), PutError>
    requires { map.contains_key (map_of K.Ord.cmp rows.old) (R.key_of value) ≡ false }
    ensures answer { IsAnswerIn (Some room) (map_of K.Ord.cmp rows.old) (R.key_of value) result }
    ensures ok { OnOk result (map_of K.Ord.cmp rows.new ≡ map.insert (map_of K.Ord.cmp rows.old) (R.key_of value) value) }
    ensures err { OnErr result (map_of K.Ord.cmp rows.new ≡ map_of K.Ord.cmp rows.old) }
    ensures ordered { IsOrdered K.Ord.cmp rows.new }
{
    check_room(rows, room)?;
    let Ok(key) = value.key().copy_key(alloc) else {
        return Err(PutError::Memory);
    };
    match crate::insert_row(rows, key, value) {
        Ok(()) => Ok(()),
        Err(_) => Err(PutError::Memory),
    }
}

/// Writes the value over the kept row of its key, or hands it back where none is kept. Takes no memory.
fn replace<K: CopyKey, R: Keyed<K>>(rows: &mut BTreeMap<K, R>, value: R) -> Option<R>
    ensures answer { Replaces (map_of K.Ord.cmp rows.old) (R.key_of value) value (map_of K.Ord.cmp rows.new) result }
    ensures ordered { IsOrdered K.Ord.cmp rows.new }
{
    match rows.get_mut(value.key()) {
        Some(row) => {
            *row = value;
            None
        }
        None => Some(value),
    }
}

/// Refuses a row at a new key where the room is full.
fn check_room<K: Key, R>(rows: &BTreeMap<K, R>, room: Room) -> Result<(), PutError>
    ensures left { result ≡ room_left (map.len (map_of K.Ord.cmp rows.now)) (Some room) }
    ensures ordered { IsOrdered K.Ord.cmp rows.now }
{
    room_left(rows.len() as u64, room)
}

fn room_left(rows: u64, room: Room) -> Result<(), PutError>
    ensures { result ≡ room_left rows (Some room) }
{
    if room.limit as u64 <= rows.saturating_sub(room.leaving as u64) {
        return Err(PutError::Full {
            kind: room.kind,
            limit: room.limit,
        });
    }
    Ok(())
}

impl CopyKey for u64 {
    fn copy_key(&self, _alloc: Global) -> Result<u64, AllocError> {
        Ok(*self)
    }
}

impl CopyKey for UserName {
    fn copy_key(&self, _alloc: Global) -> Result<UserName, AllocError> {
        Ok(*self)
    }
}

impl CopyKey for GroupName {
    fn copy_key(&self, _alloc: Global) -> Result<GroupName, AllocError> {
        Ok(*self)
    }
}

impl CopyKey for ServiceName {
    fn copy_key(&self, _alloc: Global) -> Result<ServiceName, AllocError> {
        Ok(*self)
    }
}

impl CopyKey for RoleName {
    fn copy_key(&self, _alloc: Global) -> Result<RoleName, AllocError> {
        Ok(*self)
    }
}

impl CopyKey for ServerKey {
    fn copy_key(&self, _alloc: Global) -> Result<ServerKey, AllocError> {
        Ok(*self)
    }
}

impl CopyKey for Text {
    fn copy_key(&self, alloc: Global) -> Result<Text, AllocError> {
        self.copy(alloc)
    }
}

impl CopyKey for Target {
    fn copy_key(&self, alloc: Global) -> Result<Target, AllocError> {
        self.copy(alloc)
    }
}
