//! What a body tells of servers: an object that has for each of them its name, and when it was last active, if that is told.
ghost use Rattle.std.specs.Prelude.{◌≡◌, [], Some, None, if◌then◌else◌, IfOk};
ghost use Rattle.serde_json.specs.View.{view, members_view};
ghost use Rattle.request_parts.specs.Activity as spec;

use crate::body::optional_at;
use crate::from_text::FromText;
use hub_kit::list::List;
use hub_kit::moment::Moment;
use hub_kit::names::ServerName;
use serde_json::{Map, Value};
use std::alloc::{AllocError, Global};

/// The servers of the object at a key, in the order of their names. An absent object has none, and there is nothing where
/// anything else stands at the key, or a member isn't of its form.
#[tactic(auto, unfolding(crate::specs::Activity::activity_at))]
pub fn activity_at(
    alloc: Global,
    body: &Value,
    key: &str,
) -> Result<Option<List<(ServerName, Option<Moment>)>>, AllocError>
    ensures { IfOk result (λ told. told ≡ spec.activity_at key.now (view body.now)) }
{
    match body.get(key) {
        None => Ok(Some(List::new(alloc))),
        Some(value) => match value.as_object() {
            Some(members) => each_told(alloc, members),
            None => Ok(None),
        },
    }
}

/// The servers of the members, or nothing where one of them isn't of its form.
fn each_told(
    alloc: Global,
    members: &Map<String, Value>,
) -> Result<Option<List<(ServerName, Option<Moment>)>>, AllocError>
    ensures { IfOk result (λ told. told ≡ spec.each_told (members_view members.now.entries)) }
{
    let mut list = List::new(alloc);
    match read_into(alloc, &mut list, members) {
        Ok(true) => Ok(Some(list)),
        Ok(false) => {
            drop(list);
            Ok(None)
        }
        Err(error) => {
            drop(list);
            Err(error)
        }
    }
}

/// Reads the members into an empty list, and tells whether all of them are of their form.
#[tactic(auto, using(crate::proofs::Fronts::one_more, crate::proofs::Fronts::whole))]
fn read_into(
    alloc: Global,
    list: &mut List<(ServerName, Option<Moment>)>,
    members: &Map<String, Value>,
) -> Result<bool, AllocError>
    requires { list.old ≡ [] }
    ensures { IfOk result (λ all. (if all then Some list.new else None) ≡ spec.each_told (members_view members.now.entries)) }
{
    for (name, value) in members.iter() {
        match server_told(alloc, name.as_str(), value)? {
            Some(told) => list.push(told)?,
            None => return Ok(false),
        }
    }
    Ok(true)
}

/// What one member tells.
#[tactic(auto, unfolding(crate::specs::Activity::server_told))]
fn server_told(
    alloc: Global,
    name: &str,
    value: &Value,
) -> Result<Option<(ServerName, Option<Moment>)>, AllocError>
    ensures { IfOk result (λ told. told ≡ spec.server_told name.now (view value.now)) }
{
    match ServerName::from_text(alloc, name)? {
        Some(server) if value.is_object() => {
            match optional_at(alloc, value, "last_activity")? {
                Some(at) => Ok(Some((server, at))),
                None => Ok(None),
            }
        }
        _ => Ok(None),
    }
}
