//! Tokens and shares, with the indexes by which those of an owner are found.
ghost use Rattle.std.specs.Prelude.{◌≡◌, ◌++◌, not, ◌&&◌, ◌||◌, OnOk, OnErr, IfOk, true, false};
ghost use Rattle.std.specs.Option.{option_copied};
ghost use Rattle.std.specs.FinMap as map;
ghost use Rattle.std.specs.BTreeMap.{IsOrdered};
ghost use Rattle.std.specs.List.{filter};
ghost use Rattle.std.specs.Ordering.{nat_cmp, eq_by_cmp};
ghost use Rattle.keyed_rows.specs.Rows.{map_of, OwnKeys, is_kept_and};
ghost use Rattle.keyed_rows.specs.Puts.{IsAnswerIn, room_left};
ghost use Rattle.row_indexes.specs.Owned.{owned_cmp, under, key_list, keys_under, IsIndex};
ghost use Rattle.hub_rows.specs.ShareOrder.{share_cmp};
ghost use Rattle.row_indexes.specs.Hashes.{IsIndexed};
ghost use Rattle.hub_tables.specs.Hashes.{FitsToken};
ghost use Rattle.hub_tables.specs.Ends.{is_over};
ghost use Rattle.hub_tables.specs.Lookups.{same_recipient};
ghost use Rattle.hub_tables.specs.Rooms.{for_memory};
ghost use Rattle.hub_tables.specs.Parties.{party_cmp, of_recipient, giver_of, is_numbered, is_token_of, is_over_token_of, is_share_of};
ghost use Rattle.hub_tables.specs.Parties.{of_owner};

use crate::boxed::KeptToken;
use crate::parties::{Party, giver_of, of_owner, of_recipient, owner_number};
use hub_kit::moment::Moment;
use hub_rows::keys::{Recipient, ShareKey};
use hub_rows::records::{Share, Token};
use keyed_rows::{PutError, Room, keyed};
use row_indexes::hashed::{put_hashed, remove_hashed};
use row_indexes::owned::{OwnedKey, forget, note};
use scope_filters::holder::Owner;
use std::alloc::{AllocError, Global};
use std::collections::BTreeMap;

/// The keys of rows under their parties.
pub(crate) type Parties<K> = BTreeMap<OwnedKey<Party, K>, ()>;

/// The ids of tokens under the numbers of their owners.
pub(crate) type Owners = BTreeMap<OwnedKey<u64, u64>, ()>;

/// Puts a token under its id, and the id under its hash and its owner. At a kept id both stand already, so no memory is needed.
pub(crate) fn put_token(
    alloc: Global,
    rows: &mut BTreeMap<u64, KeptToken>,
    ids: &mut BTreeMap<u64, u64>,
    owners: &mut Owners,
    value: Token,
    room: Option<Room>,
) -> Result<(), PutError>
    requires indexed { IsIndexed (λ token. token.hash) (map_of nat_cmp rows.old) (map_of nat_cmp ids.old) }
    requires owned { IsIndex nat_cmp nat_cmp is_numbered (map_of nat_cmp rows.old) (map_of (owned_cmp nat_cmp nat_cmp) owners.old) }
    requires fits { FitsToken (map_of nat_cmp rows.old) value }
    ensures answer { IsAnswerIn room (map_of nat_cmp rows.old) value.id result }
    ensures ok { OnOk result (map_of nat_cmp rows.new ≡ map.insert (map_of nat_cmp rows.old) value.id value) }
    ensures err { OnErr result (map_of nat_cmp rows.new ≡ map_of nat_cmp rows.old) }
    ensures ordered { IsOrdered nat_cmp rows.new }
    ensures indexed { IsIndexed (λ token. token.hash) (map_of nat_cmp rows.new) (map_of nat_cmp ids.new) }
    ensures owned { IsIndex nat_cmp nat_cmp is_numbered (map_of nat_cmp rows.new) (map_of (owned_cmp nat_cmp nat_cmp) owners.new) }
{
    if rows.contains_key(&value.id) {
        replace_token(rows, value);
        return Ok(());
    }
    match KeptToken::new(alloc, value) {
        Ok(kept) => put_new_token(alloc, rows, ids, owners, kept, room),
        Err(_) => Err(for_memory(rows.len() as u64, room)),
    }
}

/// Writes a token over the kept one of its id. Takes no memory.
fn replace_token(rows: &mut BTreeMap<u64, KeptToken>, value: Token)
    requires { map.contains_key (map_of nat_cmp rows.old) value.id ≡ true }
    ensures row { map_of nat_cmp rows.new ≡ map.insert (map_of nat_cmp rows.old) value.id value }
    ensures ordered { IsOrdered nat_cmp rows.new }
{
    if let Some(kept) = rows.get_mut(&value.id) {
        kept.set(value);
    }
}

/// Puts a token under an id that isn't kept.
fn put_new_token(
    alloc: Global,
    rows: &mut BTreeMap<u64, KeptToken>,
    ids: &mut BTreeMap<u64, u64>,
    owners: &mut Owners,
    value: KeptToken,
    room: Option<Room>,
) -> Result<(), PutError>
    requires new { map.contains_key (map_of nat_cmp rows.old) value.id ≡ false }
    requires indexed { IsIndexed (λ token. token.hash) (map_of nat_cmp rows.old) (map_of nat_cmp ids.old) }
    requires owned { IsIndex nat_cmp nat_cmp is_numbered (map_of nat_cmp rows.old) (map_of (owned_cmp nat_cmp nat_cmp) owners.old) }
    requires fits { FitsToken (map_of nat_cmp rows.old) value }
    ensures answer { IsAnswerIn room (map_of nat_cmp rows.old) value.id result }
    ensures ok { OnOk result (map_of nat_cmp rows.new ≡ map.insert (map_of nat_cmp rows.old) value.id value) }
    ensures err { OnErr result (map_of nat_cmp rows.new ≡ map_of nat_cmp rows.old) }
    ensures ordered { IsOrdered nat_cmp rows.new }
    ensures indexed { IsIndexed (λ token. token.hash) (map_of nat_cmp rows.new) (map_of nat_cmp ids.new) }
    ensures owned { IsIndex nat_cmp nat_cmp is_numbered (map_of nat_cmp rows.new) (map_of (owned_cmp nat_cmp nat_cmp) owners.new) }
{
    let id = value.row().id;
    let number = owner_number(&value.row().owner);
    put_hashed(alloc, rows, ids, value, room)?;
    if note(owners, &number, &id).is_ok() {
        return Ok(());
    }
    remove_hashed(rows, ids, id);
    Err(PutError::Memory)
}

/// The error of a row at a new key for which there is no memory: where the room is full, that.
fn for_memory(rows: u64, room: Option<Room>) -> PutError
    ensures { result ≡ for_memory (room_left rows room) }
{
    match room {
        Some(room) => {
            if room.limit as u64 <= rows.saturating_sub(room.leaving as u64) {
                return PutError::Full {
                    kind: room.kind,
                    limit: room.limit,
                };
            }
            PutError::Memory
        }
        None => PutError::Memory,
    }
}

/// Takes a token out, and its id from under its hash and its owner. Takes no memory.
pub(crate) fn remove_token(
    rows: &mut BTreeMap<u64, KeptToken>,
    ids: &mut BTreeMap<u64, u64>,
    owners: &mut Owners,
    id: u64,
) -> bool
    requires indexed { IsIndexed (λ token. token.hash) (map_of nat_cmp rows.old) (map_of nat_cmp ids.old) }
    requires owned { IsIndex nat_cmp nat_cmp is_numbered (map_of nat_cmp rows.old) (map_of (owned_cmp nat_cmp nat_cmp) owners.old) }
    ensures there { result ≡ map.contains_key (map_of nat_cmp rows.old) id }
    ensures removed { map_of nat_cmp rows.new ≡ map.remove (map_of nat_cmp rows.old) id }
    ensures ordered { IsOrdered nat_cmp rows.new }
    ensures indexed { IsIndexed (λ token. token.hash) (map_of nat_cmp rows.new) (map_of nat_cmp ids.new) }
    ensures owned { IsIndex nat_cmp nat_cmp is_numbered (map_of nat_cmp rows.new) (map_of (owned_cmp nat_cmp nat_cmp) owners.new) }
{
    match keyed_rows::row_at(rows, &id) {
        Some(kept) => forget(owners, &owner_number(&kept.row().owner), &id),
        None => {}
    }
    remove_hashed(rows, ids, id)
}

/// Those of the ids whose tokens are an owner's: others may have its number.
pub(crate) fn own_ids(
    alloc: Global,
    rows: &BTreeMap<u64, KeptToken>,
    ids: &[u64],
    owner: &Owner,
) -> Result<Vec<u64>, AllocError>
    ensures { IfOk result (λ own. own.items
        ≡ filter (λ id. is_kept_and (is_token_of (of_owner owner.now)) (map.get (map_of nat_cmp rows.now) id)) ids.now) }
{
    let party = of_owner(owner);
    let mut own = Vec::new(alloc);
    for id in ids {
        if is_token_of(&party, keyed_rows::row_at(rows, id)) {
            own.push(*id)?;
        }
    }
    Ok(own)
}

/// Those of the ids whose tokens are an owner's, and over. Whether a token is over is asked first, since few are.
pub(crate) fn own_ids_over(
    alloc: Global,
    rows: &BTreeMap<u64, KeptToken>,
    ids: &[u64],
    owner: &Owner,
    now: Moment,
) -> Result<Vec<u64>, AllocError>
    ensures { IfOk result (λ over. over.items
        ≡ filter (λ id. is_kept_and (is_over_token_of (of_owner owner.now) now) (map.get (map_of nat_cmp rows.now) id)) ids.now) }
{
    let party = of_owner(owner);
    let mut over = Vec::new(alloc);
    for id in ids {
        if is_over_token_of(&party, keyed_rows::row_at(rows, id), now) {
            over.push(*id)?;
        }
    }
    Ok(over)
}

fn is_over_token_of(party: &Party, kept: Option<&KeptToken>, now: Moment) -> bool
    ensures { result ≡ is_kept_and (is_over_token_of party.now now) (option_copied kept.entry) }
{
    match kept {
        Some(row) => is_over(row.row().expires_at, now) && is_token_of(party, kept),
        None => false,
    }
}

fn is_over(end: Option<Moment>, now: Moment) -> bool
    ensures { result ≡ is_over now end }
{
    match end {
        Some(end) => end <= now,
        None => false,
    }
}

fn is_token_of(party: &Party, kept: Option<&KeptToken>) -> bool
    ensures { result ≡ is_kept_and (is_token_of party.now) (option_copied kept.entry) }
{
    match kept {
        Some(kept) => party.cmp(&of_owner(&kept.row().owner)).is_eq(),
        None => false,
    }
}

/// Puts a share under its key, and the key under the user whose server it is and under the recipient. At a kept key both stand already,
/// so no memory is needed.
pub(crate) fn put_share(
    alloc: Global,
    rows: &mut BTreeMap<ShareKey, Share>,
    parties: &mut Parties<ShareKey>,
    value: Share,
    room: Option<Room>,
) -> Result<(), PutError>
    requires own { OwnKeys (λ share. share.key) (map_of share_cmp rows.old) }
    requires owned { IsIndex party_cmp share_cmp is_share_of (map_of share_cmp rows.old)
        (map_of (owned_cmp party_cmp share_cmp) parties.old) }
    ensures answer { IsAnswerIn room (map_of share_cmp rows.old) value.key result }
    ensures ok { OnOk result (map_of share_cmp rows.new ≡ map.insert (map_of share_cmp rows.old) value.key value) }
    ensures err { OnErr result (map_of share_cmp rows.new ≡ map_of share_cmp rows.old) }
    ensures owned { IsIndex party_cmp share_cmp is_share_of (map_of share_cmp rows.new)
        (map_of (owned_cmp party_cmp share_cmp) parties.new) }
{
    let key = value.key;
    let giver = giver_of(&key);
    if rows.contains_key(&key) {
        return keyed::put(alloc, rows, value, room);
    }
    keyed::put(alloc, rows, value, room)?;
    if note_parties(parties, &key).is_ok() {
        return Ok(());
    }
    forget(parties, &giver, &key);
    keyed_rows::remove_row(rows, &key);
    Err(PutError::Memory)
}

/// Puts the key of a share under the user whose server it is, and under the recipient. Without memory it may stand under the user alone.
fn note_parties(parties: &mut Parties<ShareKey>, key: &ShareKey) -> Result<(), AllocError>
    ensures ok { OnOk result ((party : Party) (k : ShareKey) → map.contains_key (map_of (owned_cmp party_cmp share_cmp) parties.new)
        (under party k)
        ≡ (((eq_by_cmp party_cmp party (giver_of key.now) || eq_by_cmp party_cmp party (of_recipient key.now.to))
        && eq_by_cmp share_cmp k key.now) || map.contains_key (map_of (owned_cmp party_cmp share_cmp) parties.old) (under party k))) }
    ensures err { OnErr result ((party : Party) (k : ShareKey)
        → (not (eq_by_cmp party_cmp party (giver_of key.now) && eq_by_cmp share_cmp k key.now)
        && map.contains_key (map_of (owned_cmp party_cmp share_cmp) parties.new) (under party k))
        ≡ (not (eq_by_cmp party_cmp party (giver_of key.now) && eq_by_cmp share_cmp k key.now)
        && map.contains_key (map_of (owned_cmp party_cmp share_cmp) parties.old) (under party k))) }
{
    note(parties, &giver_of(key), key)?;
    note(parties, &of_recipient(&key.to), key)
}

/// Takes a share out, and its key from under its parties. Takes no memory.
pub(crate) fn remove_share(
    rows: &mut BTreeMap<ShareKey, Share>,
    parties: &mut Parties<ShareKey>,
    key: &ShareKey,
) -> bool
    requires own { OwnKeys (λ share. share.key) (map_of share_cmp rows.old) }
    requires owned { IsIndex party_cmp share_cmp is_share_of (map_of share_cmp rows.old)
        (map_of (owned_cmp party_cmp share_cmp) parties.old) }
    ensures there { result ≡ map.contains_key (map_of share_cmp rows.old) key.now }
    ensures removed { map_of share_cmp rows.new ≡ map.remove (map_of share_cmp rows.old) key.now }
    ensures owned { IsIndex party_cmp share_cmp is_share_of (map_of share_cmp rows.new)
        (map_of (owned_cmp party_cmp share_cmp) parties.new) }
{
    forget(parties, &giver_of(key), key);
    forget(parties, &of_recipient(&key.to), key);
    keyed_rows::remove_row(rows, key)
}

/// The keys of the shares to a recipient, among those that stand under it, in order. Only these are copied: a user may have given many.
pub(crate) fn share_keys_to(
    alloc: Global,
    parties: &Parties<ShareKey>,
    to: &Recipient,
) -> Result<Vec<ShareKey>, AllocError>
    ensures { IfOk result (λ keys. keys.items ≡ filter (λ key. same_recipient key.to to.now)
        (keys_under party_cmp (of_recipient to.now) (map.keys (map_of (owned_cmp party_cmp share_cmp) parties.now)))) }
{
    let party = of_recipient(to);
    let first = OwnedKey {
        owner: party,
        key: None,
    };
    let mut keys = Vec::new(alloc);
    for (entry, _) in parties.range(first..) {
        if entry.owner.cmp(&party).is_ne() {
            break;
        }
        push_key_to(&mut keys, &entry.key, to)?;
    }
    Ok(keys)
}

/// Appends the key of an entry if it is of a share to the recipient.
fn push_key_to(
    keys: &mut Vec<ShareKey>,
    key: &Option<ShareKey>,
    to: &Recipient,
) -> Result<(), AllocError>
    ensures { OnOk result (keys.new.items ≡ keys.old.items ++ filter (λ key. same_recipient key.to to.now) (key_list key.now)) }
{
    if let Some(key) = key {
        if key.to == *to {
            keys.push(*key)?;
        }
    }
    Ok(())
}
