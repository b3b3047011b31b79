//! What a body says: it is one JSON object (RFC 8259), of whose equal keys the last counts.
ghost use Rattle.std.specs.Prelude.{◌≡◌, [], option_map, Some, None, if◌then◌else◌, IfOk};
ghost use Rattle.serde_json.specs.View.{view, items_view};
ghost use Rattle.request_parts.specs.Bodies as spec;

use crate::from_text::FromText;
use hub_kit::list::List;
use serde_json::{Map, Value};
use std::alloc::{AllocError, Global};

/// The object of a body, or nothing where it is none. The empty body says what `{}` says.
#[tactic(auto, unfolding(crate::specs::Bodies::body_object))]
pub fn body_object(alloc: Global, bytes: &[u8]) -> Result<Option<Value>, AllocError>
    ensures { IfOk result (λ body. option_map view body ≡ spec.body_object bytes.now) }
{
    if bytes.is_empty() {
        return Ok(Some(Value::Object(Map::new(alloc))));
    }
    object_of(alloc, bytes)
}

/// The object that bytes are.
fn object_of(alloc: Global, bytes: &[u8]) -> Result<Option<Value>, AllocError>
    ensures { IfOk result (λ body. option_map view body ≡ spec.object_of bytes.now) }
{
    match str::from_utf8(bytes) {
        Ok(text) => object_in(alloc, text),
        Err(_) => Ok(None),
    }
}

/// The object that a text is.
fn object_in(alloc: Global, text: &str) -> Result<Option<Value>, AllocError>
    ensures { IfOk result (λ body. option_map view body ≡ spec.object_in text.now) }
{
    match Value::from_str(alloc, text) {
        Ok(value) if value.is_object() => Ok(Some(value)),
        Ok(_) => Ok(None),
        Err(error) if error.is_memory() => Err(AllocError),
        Err(_) => Ok(None),
    }
}

/// The truth value at a key, or nothing where the key is absent or anything else stands there.
#[tactic(auto, unfolding(crate::specs::Bodies::truth_at))]
pub fn truth_at(body: &Value, key: &str) -> Option<bool>
    ensures { result ≡ spec.truth_at key.now (view body.now) }
{
    match body.get(key) {
        Some(value) => value.as_bool(),
        None => None,
    }
}

/// The truth value at a key, or a default where the key is absent; nothing where anything else stands there.
#[tactic(auto, unfolding(crate::specs::Bodies::truth_or))]
pub fn truth_or(body: &Value, key: &str, default: bool) -> Option<bool>
    ensures { result ≡ spec.truth_or default key.now (view body.now) }
{
    match body.get(key) {
        Some(value) => value.as_bool(),
        None => Some(default),
    }
}

/// The number of a `u64` at a key, which may be absent or null, or nothing where anything else stands there.
#[tactic(auto, unfolding(crate::specs::Bodies::number_at))]
pub fn number_at(body: &Value, key: &str) -> Option<Option<u64>>
    ensures { result ≡ spec.number_at key.now (view body.now) }
{
    match body.get(key) {
        None => Some(None),
        Some(value) => number_of(value),
    }
}

/// The number of a `u64` at a key, or a default where the key is absent; nothing where anything else stands there.
#[tactic(auto, unfolding(crate::specs::Bodies::number_or))]
pub fn number_or(body: &Value, key: &str, default: u64) -> Option<u64>
    ensures { result ≡ spec.number_or default key.now (view body.now) }
{
    match body.get(key) {
        Some(value) => value.as_u64(),
        None => Some(default),
    }
}

fn number_of(value: &Value) -> Option<Option<u64>>
    ensures { result ≡ spec.number_of (view value.now) }
{
    if value.is_null() {
        return Some(None);
    }
    value.as_u64().map(Some)
}

/// The list at a key, each of whose items is a text of the form that is read. An absent list is empty, and there is nothing
/// where anything else stands at the key.
#[tactic(auto, unfolding(crate::specs::Bodies::list_at))]
pub fn list_at<N: FromText>(
    alloc: Global,
    body: &Value,
    key: &str,
) -> Result<Option<List<N>>, AllocError>
    ensures { IfOk result (λ list. list ≡ spec.list_at N.reads key.now (view body.now)) }
{
    match body.get(key) {
        None => Ok(Some(List::new(alloc))),
        Some(value) => match value.as_array() {
            Some(items) => each_read(alloc, items.as_slice()),
            None => Ok(None),
        },
    }
}

/// What the items are, or nothing where one of them is no text of the form that is read.
fn each_read<N: FromText>(alloc: Global, items: &[Value]) -> Result<Option<List<N>>, AllocError>
    ensures { IfOk result (λ list. list ≡ spec.each_read N.reads (items_view items.now)) }
{
    let mut list = List::new(alloc);
    match read_into(alloc, &mut list, items) {
        Ok(true) => Ok(Some(list)),
        Ok(false) => {
            drop(list);
            Ok(None)
        }
        Err(error) => {
            drop(list);
            Err(error)
        }
    }
}

/// Reads the items into an empty list, and tells whether all of them are texts of the form that is read.
#[tactic(auto, using(crate::proofs::Fronts::one_more, crate::proofs::Fronts::whole))]
fn read_into<N: FromText>(
    alloc: Global,
    list: &mut List<N>,
    items: &[Value],
) -> Result<bool, AllocError>
    requires { list.old ≡ [] }
    ensures { IfOk result (λ all. (if all then Some list.new else None) ≡ spec.each_read N.reads (items_view items.now)) }
{
    for item in items {
        match item_read(alloc, item)? {
            Some(value) => list.push(value)?,
            None => return Ok(false),
        }
    }
    Ok(true)
}

/// The text of a form at a key, which may be absent, or nothing where anything else stands there.
#[tactic(auto, unfolding(crate::specs::Bodies::optional_at))]
pub fn optional_at<N: FromText>(
    alloc: Global,
    body: &Value,
    key: &str,
) -> Result<Option<Option<N>>, AllocError>
    ensures { IfOk result (λ value. value ≡ spec.optional_at N.reads key.now (view body.now)) }
{
    match body.get(key) {
        None => Ok(Some(None)),
        Some(value) => Ok(item_read(alloc, value)?.map(Some)),
    }
}

/// What one item is.
fn item_read<N: FromText>(alloc: Global, item: &Value) -> Result<Option<N>, AllocError>
    ensures { IfOk result (λ value. value ≡ spec.item_read N.reads (view item.now)) }
{
    match item.as_str() {
        Some(text) => N::from_text(alloc, text),
        None => Ok(None),
    }
}
