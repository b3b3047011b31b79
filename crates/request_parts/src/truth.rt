//! The truth value at a key of a body, read off the body's tokens. No tree is made of an object in which no number stands, and nothing but
//! truth values at the key. Any other body is read as a tree.
ghost use Rattle.std.specs.Prelude.{◌≡◌, ◌<◌, length, true, Some, option_and_then, IfOk, IfSome};
ghost use Rattle.json.specs.Json.{value, items, members};
ghost use Rattle.serde_json.specs.Data.{Data, Items, Members, no_members};
ghost use Rattle.serde_json.specs.Find.{get_member, as_bool};
ghost use Rattle.serde_json.specs.Read.{of_json, of_items, of_members, converted};
ghost use Rattle.request_parts.specs.Bodies as spec;

use crate::body::{body_object, truth_at};
use json::{Reader, Scratch, Token};
use std::alloc::{AllocError, Global};

/// How deep lists and objects may nest in a member of a body, so that the body isn't refused as a tree.
const MEMBER_DEPTH: usize = 126;

/// What `truth_at` says of the object of a body, or nothing where the body has none.
pub fn truth_in(alloc: Global, bytes: &[u8], key: &str) -> Result<Option<bool>, AllocError>
    ensures { IfOk result (λ found. found ≡ spec.truth_in key.now bytes.now) }
{
    if let Some(found) = seen_truth(alloc, bytes, key) {
        return Ok(found);
    }
    match body_object(alloc, bytes)? {
        Some(object) => Ok(truth_at(&object, key)),
        None => Ok(None),
    }
}

/// The same, or nothing where it isn't seen at once.
fn seen_truth(alloc: Global, bytes: &[u8], key: &str) -> Option<Option<bool>>
    ensures { IfSome result (λ found. found ≡ spec.truth_in key.now bytes.now) }
{
    match str::from_utf8(bytes) {
        Ok(text) => {
            let mut scratch = Scratch::new(alloc);
            truth_in_text(text, key, &mut scratch)
        }
        Err(_) => None,
    }
}

/// The same of a body that is a text.
fn truth_in_text(text: &str, key: &str, scratch: &mut Scratch) -> Option<Option<bool>>
    ensures { IfSome result (λ found. found ≡ spec.truth_in_text key.now text.now) }
{
    let Ok(mut reader) = Reader::new(text, scratch) else {
        return None;
    };
    let Some(Token::BeginObject) = reader.next() else {
        return None;
    };
    let found = truth_of_members(&mut reader, key)?;
    match reader.next() {
        Some(_) => None,
        None => Some(found),
    }
}

/// The truth value at a key among the members of an object, up to its closing brace.
fn truth_of_members(reader: &mut Reader<'_>, key: &str) -> Option<Option<bool>>
    ensures { IfSome result (λ found. (ms : Members)
        × (converted (λ read. of_members read no_members) (members (value 126) (length reader.old) reader.old) ≡ Some (ms, reader.new))
        × (found ≡ option_and_then as_bool (get_member key.now ms))) }
{
    let mut found = None;
    'members: loop {
        let Ok(next) = reader.next_key() else {
            return None;
        };
        let Some(name) = next else {
            return Some(found);
        };
        if name == key {
            let Some(Token::Bool(truth)) = reader.next() else {
                return None;
            };
            found = Some(truth);
        } else if !pass_value(reader, MEMBER_DEPTH) {
            return None;
        }
    }
}

/// Passes a value in which no number stands, and tells whether such a one stood there.
#[cycle(pass)]
#[inline(always)]
fn pass_value(reader: &mut Reader<'_>, depth: usize) -> bool
    ensures passed { result ≡ true → (d : Data) × (converted of_json (value depth reader.old) ≡ Some (d, reader.new)) }
    ensures shorter { result ≡ true → length reader.new < length reader.old }
{
    match reader.next() {
        Some(Token::String(_text)) => true,
        Some(Token::Bool(_truth)) => true,
        Some(Token::Null) => true,
        Some(Token::BeginArray) => depth > 0 && pass_items(reader, depth - 1),
        Some(Token::BeginObject) => depth > 0 && pass_members(reader, depth - 1),
        _ => false,
    }
}

/// Passes such items up to the closing bracket of their list, and tells whether they stood there.
#[cycle(pass)]
#[inline(never)]
fn pass_items(reader: &mut Reader<'_>, depth: usize) -> bool
    ensures passed { result ≡ true → (ds : Items)
        × (converted of_items (items (value depth) (length reader.old) reader.old) ≡ Some (ds, reader.new)) }
    ensures shorter { result ≡ true → length reader.new < length reader.old }
{
    'items: while !reader.take_end_array() {
        if !pass_value(reader, depth) {
            return false;
        }
    }
    true
}

/// Passes members with such values up to the closing brace of their object, and tells whether they stood there.
#[cycle(pass)]
#[inline(never)]
fn pass_members(reader: &mut Reader<'_>, depth: usize) -> bool
    ensures passed { result ≡ true → (ms : Members)
        × (converted (λ read. of_members read no_members) (members (value depth) (length reader.old) reader.old) ≡ Some (ms, reader.new)) }
    ensures shorter { result ≡ true → length reader.new < length reader.old }
{
    'members: loop {
        let Ok(next) = reader.next_key() else {
            return false;
        };
        let Some(_name) = next else {
            return true;
        };
        if !pass_value(reader, depth) {
            return false;
        }
    }
}
