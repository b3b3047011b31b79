//! The listing of a table's routes.
ghost use Rattle.std.specs.Prelude.{◌≡◌, [], IfOk, OnOk, IfErr};
ghost use Rattle.serde_json.specs.View.{view, members_view};
ghost use Rattle.proxy_api.specs.Listings as spec;

use hub_kit::moments::moment_text;
use hub_kit::text::Text;
use request_parts::body::body_object;
use route_table::extra::Extra;
use route_table::route::Route;
use serde_json::{Map, Value, put};
use std::alloc::{AllocError, Global};

/// The members of an object, or none where the value is no object.
fn object_members(alloc: Global, value: Value) -> Map<String, Value>
    ensures { members_view result.entries ≡ spec.members_of (view value) }
{
    match value {
        Value::Object(members) => members,
        _ => Map::new(alloc),
    }
}

fn members_in(alloc: Global, value: Option<Value>) -> Map<String, Value>
    ensures { members_view result.entries ≡ spec.members_in (spec.view_of value) }
{
    match value {
        Some(value) => object_members(alloc, value),
        None => Map::new(alloc),
    }
}

/// The members that were kept of an addition.
fn extra_members(alloc: Global, extra: &Extra) -> Result<Map<String, Value>, AllocError>
    ensures { IfOk result (λ members. members_view members.entries ≡ spec.extra_members extra.now) }
{
    Ok(members_in(alloc, body_object(alloc, extra.as_bytes())?))
}

fn put_text(
    members: &mut Map<String, Value>,
    alloc: Global,
    key: &str,
    text: &Text,
) -> Result<(), AllocError>
    ensures { OnOk result (members_view members.new.entries ≡ spec.put_text key.now text.now (members_view members.old.entries)) }
{
    let text = text.copy(alloc)?;
    put(members, alloc, key, Value::String(text.into_string()))
}

fn put_serial(
    members: &mut Map<String, Value>,
    alloc: Global,
    serial: Option<u64>,
) -> Result<(), AllocError>
    ensures { OnOk result (members_view members.new.entries ≡ spec.put_serial serial (members_view members.old.entries)) }
{
    match serial {
        Some(n) => put(members, alloc, "serial", Value::from(n)),
        None => Ok(()),
    }
}

/// What is listed of a route.
fn route_members(alloc: Global, route: &Route) -> Result<Map<String, Value>, AllocError>
    ensures { IfOk result (λ members. members_view members.entries ≡ spec.route_members route.now) }
{
    let mut members = extra_members(alloc, &route.entry.extra)?;
    let at = moment_text(alloc, route.last_activity)?;
    put_text(&mut members, alloc, "last_activity", &at)?;
    put_serial(&mut members, alloc, route.entry.serial)?;
    put_text(&mut members, alloc, "target", route.entry.target.as_text())?;
    Ok(members)
}

/// The routes under their paths.
fn listed_members(alloc: Global, routes: &[Route]) -> Result<Map<String, Value>, AllocError>
    ensures { IfOk result (λ members. members_view members.entries ≡ spec.listed_members routes.now) }
{
    let mut listed = Map::new(alloc);
    'routes: for route in routes {
        let members = route_members(alloc, route)?;
        put(
            &mut listed,
            alloc,
            route.path.as_str(),
            Value::Object(members),
        )?;
    }
    Ok(listed)
}

/// The text of a listing: an object from path to route, each an object of the members that were kept, `last_activity`, `serial`
/// where there is one, and `target`.
pub fn listing_text(alloc: Global, routes: &[Route]) -> Result<Text, AllocError>
    ensures { IfOk result (λ text. spec.IsListing routes.now text) }
{
    let listing = Value::Object(listed_members(alloc, routes)?);
    let text = listing.to_string(alloc);
    drop(listing);
    Ok(Text::from_string(text?))
}
