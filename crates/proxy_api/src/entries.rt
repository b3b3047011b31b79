//! What the body of an addition says.
ghost use Rattle.std.specs.Prelude.{◌≡◌, ◌≢◌, Ok, Err, Some, None, option_map, string_bytes, IfOk, IfErr};
ghost use Rattle.std.specs.Option.{option_copied};
ghost use Rattle.serde_json.specs.View.{view, members_view};
ghost use Rattle.proxy_api.specs.Entries as spec;

use crate::calls::ApiRefusal;
use crate::floats::members_have_float;
use hub_kit::target::Target;
use hub_kit::targets::{TargetError, read_target};
use hub_kit::text::Text;
use request_parts::body::body_object;
use route_table::extra::Extra;
use route_table::route::RouteEntry;
use serde_json::{Map, Value};
use std::alloc::{AllocError, Global};
use std::default::Emptied;

/// How many bytes the body of an addition may have.
const BODY_LIMIT: usize = 4096;

/// Whether the key is one of the three that the proxy writes itself.
fn is_own(key: &str) -> bool
    ensures { result ≡ spec.is_own key.now }
{
    key == "last_activity" || key == "serial" || key == "target"
}

/// The members of an object but those.
fn others(members: &Map<String, Value>) -> Result<Map<String, Value>, AllocError>
    ensures { IfOk result (λ m. members_view m.entries ≡ spec.others (members_view members.now.entries)) }
{
    let mut copies = Map::emptied(members)?;
    for (key, member) in members.iter() {
        if !is_own(key.as_str()) {
            let name = key.clone()?;
            drop(copies.insert(name, member.clone()?)?);
        }
    }
    Ok(copies)
}

/// The text of an object's other members, unless a number in them is read as a float.
fn extra_text(alloc: Global, members: &Map<String, Value>) -> Result<Option<Extra>, AllocError>
    ensures { IfOk result (λ text. text ≡ spec.extra_text (members_view members.now.entries)) }
{
    let others = others(members)?;
    if members_have_float(&others) {
        drop(others);
        return Ok(None);
    }
    let value = Value::Object(others);
    let text = value.to_string(alloc);
    drop(value);
    // what is kept of many routes takes no more room than it needs, where a text that was written has room to grow
    let written = Text::from_string(text?);
    Ok(Some(Extra::of(alloc, &written)?))
}

/// The text of an object's other members, unless a number in them is read as a float, or the value is no object.
fn extra_at(alloc: Global, body: &Value) -> Result<Option<Extra>, AllocError>
    ensures { IfOk result (λ text. text ≡ spec.extra_at (view body.now)) }
{
    match body.as_object() {
        Some(members) => extra_text(alloc, members),
        None => Ok(None),
    }
}

/// The text at `target`.
fn target_at(body: &Value) -> Option<&str>
    ensures { option_copied result ≡ spec.target_at (view body.now) }
{
    match body.get("target") {
        Some(value) => value.as_str(),
        None => None,
    }
}

/// The number at `serial`, which may be absent.
fn serial_at(body: &Value) -> Option<Option<u64>>
    ensures { result ≡ spec.serial_at (view body.now) }
{
    match body.get("serial") {
        None => Some(None),
        Some(value) => match value.as_u64() {
            Some(n) => Some(Some(n)),
            None => None,
        },
    }
}

fn entry_to(
    alloc: Global,
    target: &str,
    serial: Option<u64>,
    extra: Extra,
) -> Result<RouteEntry, ApiRefusal>
    ensures ok { IfOk result (λ entry. spec.entry_to target.now serial extra ≡ Ok entry) }
    ensures err { IfErr result (λ e. e ≢ ApiRefusal.Memory → spec.entry_to target.now serial extra ≡ Err e) }
{
    match read_target(alloc, target.as_bytes()) {
        Ok(target) => entry_kept(alloc, &target, serial, extra),
        Err(TargetError::BadTarget) => Err(ApiRefusal::BadTarget),
        Err(TargetError::Memory) => Err(ApiRefusal::Memory),
    }
}

/// The entry of its parts. Its target takes no more room than it needs.
fn entry_kept(
    alloc: Global,
    target: &Target,
    serial: Option<u64>,
    extra: Extra,
) -> Result<RouteEntry, ApiRefusal>
    ensures ok { IfOk result (λ entry. entry ≡ record { target = target.now; serial = serial; extra = extra }) }
    ensures err { IfErr result (λ e. e ≡ ApiRefusal.Memory) }
{
    match target.copy(alloc) {
        Ok(target) => Ok(RouteEntry {
            target,
            serial,
            extra,
        }),
        Err(_) => Err(ApiRefusal::Memory),
    }
}

/// The entry of an object: its target, its serial and its other members.
fn entry_in(alloc: Global, body: &Value) -> Result<RouteEntry, ApiRefusal>
    ensures ok { IfOk result (λ entry. spec.entry_in (view body.now) ≡ Ok entry) }
    ensures err { IfErr result (λ e. e ≢ ApiRefusal.Memory → spec.entry_in (view body.now) ≡ Err e) }
{
    let Some(target) = target_at(body) else {
        return Err(ApiRefusal::BadBody);
    };
    let Some(serial) = serial_at(body) else {
        return Err(ApiRefusal::BadBody);
    };
    match extra_at(alloc, body) {
        Ok(Some(extra)) => entry_to(alloc, target, serial, extra),
        Ok(None) => Err(ApiRefusal::BadBody),
        Err(_) => Err(ApiRefusal::Memory),
    }
}

/// The entry that a body says, of an object with a `target`, perhaps a `serial`, and other members, which are kept as text; or
/// the first refusal: more than 4,096 bytes, no such object, or no target. `Memory` alone may come at any time.
pub fn read_entry(alloc: Global, body: &[u8]) -> Result<RouteEntry, ApiRefusal>
    ensures ok { IfOk result (λ entry. spec.entry_said body.now ≡ Ok entry) }
    ensures err { IfErr result (λ e. e ≢ ApiRefusal.Memory → spec.entry_said body.now ≡ Err e) }
{
    if body.len() > BODY_LIMIT {
        return Err(ApiRefusal::TooLarge);
    }
    match body_object(alloc, body) {
        Ok(Some(value)) => entry_in(alloc, &value),
        Ok(None) => Err(ApiRefusal::BadBody),
        Err(_) => Err(ApiRefusal::Memory),
    }
}
