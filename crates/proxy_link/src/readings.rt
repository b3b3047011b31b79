//! The routes that a reply lists.
ghost use Rattle.std.specs.Prelude.{◌≡◌, [], Some, None, if◌then◌else◌, option_map, IfOk};
ghost use Rattle.std.specs.Option.{option_copied};
ghost use Rattle.serde_json.specs.View.{view, members_view};
ghost use Rattle.proxy_link.specs.Readings.{pushed, IsListedBy};
ghost use Rattle.proxy_link.specs.Readings as spec;

use hub_devices::calls::ListedRoute;
use hub_kit::list::List;
use hub_kit::text::Text;
use hub_link::replies::read_reply;
use request_parts::body::{body_object, number_at};
use serde_json::{Map, Value};
use std::alloc::{AllocError, Global};

/// The text at `target`.
fn target_at(route: &Value) -> Option<&str>
    ensures { option_copied result ≡ spec.target_at (view route.now) }
{
    match route.get("target") {
        Some(value) => value.as_str(),
        None => None,
    }
}

/// The route that stands under a path, unless it is of another form.
fn route_in(alloc: Global, path: &str, route: &Value) -> Result<Option<ListedRoute>, AllocError>
    ensures { IfOk result (λ found. found ≡ spec.route_in path.now (view route.now)) }
{
    let Some(target) = target_at(route) else {
        return Ok(None);
    };
    let Some(serial) = number_at(route, "serial") else {
        return Ok(None);
    };
    let path = Text::from_str(alloc, path)?;
    let target = Text::from_str(alloc, target)?;
    Ok(Some(ListedRoute {
        path,
        target,
        serial,
    }))
}

/// Adds a route, if there is one, and tells whether there is.
fn push_route(
    routes: &mut List<ListedRoute>,
    route: Option<ListedRoute>,
) -> Result<bool, AllocError>
    ensures { IfOk result (λ good. (if good then Some routes.new else None) ≡ pushed routes.old route) }
{
    match route {
        Some(route) => {
            routes.push(route)?;
            Ok(true)
        }
        None => Ok(false),
    }
}

/// Adds the routes of the members, and tells whether all of them are of their form.
#[tactic(auto, using(crate::proofs::Fronts::pushed_if, crate::proofs::Fronts::whole))]
fn read_into(
    alloc: Global,
    routes: &mut List<ListedRoute>,
    members: &Map<String, Value>,
) -> Result<bool, AllocError>
    requires { routes.old ≡ [] }
    ensures { IfOk result (λ all. (if all then Some routes.new else None) ≡ spec.each_route (members_view members.now.entries)) }
{
    for (path, value) in members.iter() {
        let route = route_in(alloc, path.as_str(), value)?;
        if !push_route(routes, route)? {
            return Ok(false);
        }
    }
    Ok(true)
}

/// The routes of the members, or nothing where one of them isn't of its form.
fn routes_of(
    alloc: Global,
    members: &Map<String, Value>,
) -> Result<Option<List<ListedRoute>>, AllocError>
    ensures { IfOk result (λ routes. routes ≡ spec.each_route (members_view members.now.entries)) }
{
    let mut routes = List::new(alloc);
    match read_into(alloc, &mut routes, members) {
        Ok(true) => Ok(Some(routes)),
        Ok(false) => {
            drop(routes);
            Ok(None)
        }
        Err(error) => {
            drop(routes);
            Err(error)
        }
    }
}

/// The routes that an object lists.
fn routes_at(alloc: Global, listing: &Value) -> Result<Option<List<ListedRoute>>, AllocError>
    ensures { IfOk result (λ routes. routes ≡ spec.routes_at (view listing.now)) }
{
    match listing.as_object() {
        Some(members) => routes_of(alloc, members),
        None => Ok(None),
    }
}

/// The routes that a body lists.
fn routes_in(alloc: Global, body: &[u8]) -> Result<Option<List<ListedRoute>>, AllocError>
    ensures { IfOk result (λ routes. routes ≡ spec.routes_in body.now) }
{
    if body.is_empty() {
        return Ok(None);
    }
    match body_object(alloc, body)? {
        Some(listing) => {
            let routes = routes_at(alloc, &listing);
            drop(listing);
            routes
        }
        None => Ok(None),
    }
}

/// The routes that a reply of this status lists by its body.
fn listed_in(
    alloc: Global,
    status: u16,
    body: &[u8],
) -> Result<Option<List<ListedRoute>>, AllocError>
    ensures { IfOk result (λ routes. routes ≡ spec.listed_in (Some (status, body.now))) }
{
    if status != 200 {
        return Ok(None);
    }
    routes_in(alloc, body)
}

/// The routes that a reply lists, in the order of its object: each under its path, with a target, and with a serial or none. Nothing where
/// the bytes are no reply of status 200 whose body is such an object.
pub fn read_routes(alloc: Global, bytes: &[u8]) -> Result<Option<List<ListedRoute>>, AllocError>
    ensures { IfOk result (IsListedBy bytes.now) }
{
    match read_reply(bytes) {
        Some((status, body)) => listed_in(alloc, status, body),
        None => Ok(None),
    }
}
