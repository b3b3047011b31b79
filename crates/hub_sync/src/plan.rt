//! Which calls a book's state lacks for the routes of a list.
ghost use Rattle.std.specs.Prelude.{◌≡◌, ◌<◌, ◌^◌, ◌++◌, All, IfOk, OnOk, Some, option_to_list};
ghost use Rattle.std.specs.List.{filter_map};
ghost use Rattle.std.specs.Option.{option_copied};
ghost use Rattle.hub_sync.specs.Plans as spec;
ghost use Rattle.hub_sync.specs.Plans.{IsPlan, target_of};

use crate::calls::RouteCall;
use hub_core::book::Book;
use hub_core::live::LiveServer;
use hub_devices::calls::ListedRoute;
use hub_kit::target::Target;
use hub_kit::text::Text;
use hub_machine::change::Change;
use keeper::keeper::Keeper;
use keeper::trail::Trail;
use server_work::route::route_path;
use std::alloc::{AllocError, Global};

/// Whether a route of this path is listed.
fn is_listed(listed: &[ListedRoute], path: &Text) -> bool
    ensures { result ≡ spec.is_listed listed.now path.now }
{
    listed.iter().any(|route| route.path == *path)
}

/// Whether the generation is live for the server of this path.
fn is_live_at<K: Keeper, T: Trail<Entry = Change>>(
    alloc: Global,
    book: &Book<K, T>,
    path: &Text,
    generation: u64,
) -> Result<bool, AllocError>
    ensures { IfOk result (λ live. live ≡ spec.is_live_at book.now.hub.lives path.now generation) }
{
    let Some(server) = book.server_of(generation) else {
        return Ok(false);
    };
    Ok(route_path(alloc, server)? == *path)
}

/// The addition of the hub's own route, where it has a target and no such route is listed.
fn hub_addition(
    alloc: Global,
    listed: &[ListedRoute],
    hub: Option<&Target>,
) -> Result<Option<RouteCall>, AllocError>
    ensures { IfOk result (λ call. option_to_list call ≡ spec.hub_additions listed.now (option_copied hub.entry)) }
{
    let Some(target) = hub else {
        return Ok(None);
    };
    let path = Text::from_str(alloc, "/")?;
    if is_listed(listed, &path) {
        return Ok(None);
    }
    Ok(Some(RouteCall::Add(path, target.copy(alloc)?, None)))
}

/// The addition of a ready server's route, where none of its path is listed.
fn addition_of(
    alloc: Global,
    listed: &[ListedRoute],
    live: &LiveServer,
) -> Result<Option<RouteCall>, AllocError>
    requires { live.now.generation < 2 ^ 63 }
    ensures { IfOk result (λ call. call ≡ spec.addition_of listed.now live.now) }
{
    let path = route_path(alloc, &live.server)?;
    if is_listed(listed, &path) {
        return Ok(None);
    }
    let target = live.target.copy(alloc)?;
    Ok(Some(RouteCall::Add(path, target, Some(2 * live.generation))))
}

/// The deletion of the route of a path with this serial, where it is that of an addition whose generation isn't live any more.
fn deletion_by<K: Keeper, T: Trail<Entry = Change>>(
    alloc: Global,
    book: &Book<K, T>,
    path: &Text,
    serial: u64,
) -> Result<Option<RouteCall>, AllocError>
    ensures { IfOk result (λ call. call ≡ spec.deletion_by book.now.hub.lives path.now (Some serial)) }
{
    if serial % 2 != 0 || is_live_at(alloc, book, path, serial / 2)? {
        return Ok(None);
    }
    Ok(Some(RouteCall::Delete(path.copy(alloc)?, serial + 1)))
}

/// The deletion of a listed route, where it has a serial and goes.
fn deletion_of<K: Keeper, T: Trail<Entry = Change>>(
    alloc: Global,
    book: &Book<K, T>,
    route: &ListedRoute,
) -> Result<Option<RouteCall>, AllocError>
    ensures { IfOk result (λ call. call ≡ spec.deletion_of book.now.hub.lives route.now) }
{
    match route.serial {
        Some(serial) => deletion_by(alloc, book, &route.path, serial),
        None => Ok(None),
    }
}

/// One call more, if there is one.
fn push_call(calls: &mut Vec<RouteCall>, call: Option<RouteCall>) -> Result<(), AllocError>
    ensures { OnOk result (calls.new.items ≡ calls.old.items ++ option_to_list call) }
{
    if let Some(call) = call {
        calls.push(call)?;
    }
    Ok(())
}

/// Appends the additions of the servers whose routes aren't listed.
fn push_additions(
    alloc: Global,
    calls: &mut Vec<RouteCall>,
    listed: &[ListedRoute],
    servers: &[LiveServer],
) -> Result<(), AllocError>
    requires { All (λ s. s.generation < 2 ^ 63) servers.now }
    ensures { OnOk result (calls.new.items ≡ calls.old.items ++ filter_map (spec.addition_of listed.now) servers.now) }
{
    for live in servers {
        push_call(calls, addition_of(alloc, listed, live)?)?;
    }
    Ok(())
}

/// Appends the deletions of the listed routes whose generations aren't live.
fn push_deletions<K: Keeper, T: Trail<Entry = Change>>(
    alloc: Global,
    calls: &mut Vec<RouteCall>,
    book: &Book<K, T>,
    listed: &[ListedRoute],
) -> Result<(), AllocError>
    ensures { OnOk result (calls.new.items ≡ calls.old.items ++ filter_map (spec.deletion_of book.now.hub.lives) listed.now) }
{
    for route in listed {
        push_call(calls, deletion_of(alloc, book, route)?)?;
    }
    Ok(())
}

/// The calls that bring the listed routes into step with the book's servers.
fn plan<K: Keeper, T: Trail<Entry = Change>>(
    alloc: Global,
    book: &Book<K, T>,
    hub: Option<&Target>,
    listed: &[ListedRoute],
) -> Result<Vec<RouteCall>, AllocError>
    ensures { IfOk result (λ calls. IsPlan book.now.hub.lives (option_copied hub.entry) listed.now calls.items) }
{
    let mut calls = Vec::new(alloc);
    push_call(&mut calls, hub_addition(alloc, listed, hub)?)?;
    let servers = book.ready(alloc)?;
    push_additions(alloc, &mut calls, listed, servers.as_slice())?;
    push_deletions(alloc, &mut calls, book, listed)?;
    Ok(calls)
}

/// The same for a hub whose own route leads to the book's target, or to the given one.
pub(crate) fn plan_for<K: Keeper, T: Trail<Entry = Change>>(
    alloc: Global,
    book: &Book<K, T>,
    own: bool,
    given: Option<&Target>,
    listed: &[ListedRoute],
) -> Result<Vec<RouteCall>, AllocError>
    ensures { IfOk result (λ calls. IsPlan book.now.hub.lives (target_of own (option_copied given.entry) book.now.hub) listed.now
        calls.items) }
{
    if own {
        plan(alloc, book, book.hub_url(), listed)
    } else {
        plan(alloc, book, given, listed)
    }
}
