//! The places of the leased servers, in a vector that is kept in the order of the servers' keys and whose room was reserved.
//!
//! The keys stand with the leases, so a change moves places alone: what it takes hardly grows with the number of servers.
ghost use Rattle.std.specs.Prelude.{◌≡◌, ◌≤◌, ◌<◌, ℕ, List, length, map, slice_get, cond, not, Some, None, IsSome};
ghost use Rattle.std.specs.Vec.{vec_len, vec_capacity};
ghost use Rattle.std.specs.Ordering.{eq_by_cmp};
ghost use Rattle.std.specs.FinMap.Entries.{find, where_key, put as put_entry};
ghost use Rattle.std.specs.List.{list_any};
ghost use Rattle.hub_kit.specs.KeyOrder.{key_cmp, name_cmp};
ghost use Rattle.hub_kit.specs.declared.names.ServerKey.{ServerKey};
ghost use Rattle.server_life.specs.LeaseIndex.{AreServersAt, is_below, is_of, user_below, user_of, place_in};
ghost use Rattle.server_life.specs.Ranks.{rank};

use crate::leases::Held;
use hub_kit::names::{ServerKey, UserName};
use std::cmp::Ordering;

/// Whether the server at a place has a key below this one.
fn is_below(leased: &[Option<Held>], place: usize, key: &ServerKey) -> bool
    ensures { result ≡ is_below key.now (slice_get leased.now place) }
{
    match leased.get(place) {
        Some(Some(held)) => held.server.cmp(key) == Ordering::Less,
        _ => false,
    }
}

/// How many of the servers have keys below this one.
fn rank(leased: &[Option<Held>], places: &[usize], key: &ServerKey) -> usize
    ensures bound { result ≤ length places.now }
    ensures rank { (es : List (ServerKey × ℕ)) → AreServersAt leased.now places.now es → result ≡ rank key_cmp key.now es }
{
    places.partition_point(|place| is_below(leased, *place, key))
}

/// This place, if the server with this key is there.
fn place_if(leased: &[Option<Held>], place: usize, key: &ServerKey) -> Option<usize>
    ensures { result ≡ cond (is_of key.now (slice_get leased.now place)) (Some place) None }
{
    match leased.get(place) {
        Some(Some(held)) => match key.cmp(&held.server) {
            Ordering::Equal => Some(place),
            _ => None,
        },
        _ => None,
    }
}

/// The place of a server.
pub fn place_of(leased: &[Option<Held>], places: &[usize], key: &ServerKey) -> Option<usize>
    ensures { (es : List (ServerKey × ℕ)) → AreServersAt leased.now places.now es → result ≡ find key_cmp key.now es }
{
    let at = rank(leased, places, key);
    if at < places.len() {
        place_if(leased, places[at], key)
    } else {
        None
    }
}

/// Adds the place of a server that isn't there yet, where there is room.
pub fn add_server(leased: &[Option<Held>], places: &mut Vec<usize>, key: &ServerKey, place: usize)
    requires room { vec_len places.old < vec_capacity places.old }
    ensures places { (es : List (ServerKey × ℕ)) → AreServersAt leased.now places.old.items es → find key_cmp key.now es ≡ None
        → places.new.items ≡ map place_in (put_entry key_cmp key.now place es) }
    ensures capacity { vec_capacity places.new ≡ vec_capacity places.old }
{
    let at = rank(leased, places.as_slice(), key);
    let _room = places.insert(at, place);
}

/// Takes the place of a server out.
pub fn remove_server(leased: &[Option<Held>], places: &mut Vec<usize>, key: &ServerKey)
    ensures places { (es : List (ServerKey × ℕ)) → AreServersAt leased.now places.old.items es → IsSome (find key_cmp key.now es)
        → places.new.items ≡ map place_in (where_key key_cmp (λ k. not (eq_by_cmp key_cmp key.now k)) es) }
    ensures capacity { vec_capacity places.new ≡ vec_capacity places.old }
{
    let at = rank(leased, places.as_slice(), key);
    if at < places.len() {
        let _place = places.remove(at);
    }
}

/// Whether the user of the server at a place is below this one.
fn is_user_below(leased: &[Option<Held>], place: usize, user: &UserName) -> bool
    ensures { result ≡ user_below user.now (slice_get leased.now place) }
{
    match leased.get(place) {
        Some(Some(held)) => held.server.user.cmp(user) == Ordering::Less,
        _ => false,
    }
}

/// Whether the server at a place is of this user.
fn is_of_user(leased: &[Option<Held>], place: usize, user: &UserName) -> bool
    ensures { result ≡ user_of user.now (slice_get leased.now place) }
{
    match leased.get(place) {
        Some(Some(held)) => held.server.user.cmp(user) == Ordering::Equal,
        _ => false,
    }
}

/// Whether a server of this user is there. The servers of a user stand together, and a search by halves finds where.
pub fn has_user(leased: &[Option<Held>], places: &[usize], user: &UserName) -> bool
    ensures { (es : List (ServerKey × ℕ)) → AreServersAt leased.now places.now es
        → result ≡ list_any (λ e. eq_by_cmp name_cmp e.0.user user.now) es }
{
    let at = places.partition_point(|place| is_user_below(leased, *place, user));
    at < places.len() && is_of_user(leased, places[at], user)
}
