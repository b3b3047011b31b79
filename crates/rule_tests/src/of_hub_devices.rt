//! That calls of devices in memory succeed where there is memory, and that they are told, with those that failed.
use crate::check::{check, text};
use hub_devices::calls::{ListedRoute, Routing, Spawning, Told};
use hub_devices::mem_routes::MemRouteLink;
use hub_devices::mem_spawner::MemSpawner;
use hub_devices::route_link::RouteLink;
use hub_devices::spawner::Spawner;
use hub_kit::names::read_key;
use hub_kit::target::Target;
use hub_kit::targets::read_target;
use std::alloc::Global;
use std::process::Abort;

fn target(rt: &impl Abort, alloc: Global) -> Target {
    read_target(alloc, b"http://h:9001").expect(rt, "it is a target")
}

fn numbers(rt: &impl Abort, alloc: Global, numbers: &[u64]) -> Vec<u64> {
    Vec::from_slice(alloc, numbers).expect(rt, "there is memory")
}

fn routes(rt: &impl Abort, alloc: Global, paths: &[&str]) -> Vec<ListedRoute> {
    let mut list = Vec::new(alloc);
    for path in paths {
        let route = ListedRoute {
            path: text(rt, alloc, path),
            target: text(rt, alloc, "http://h:80"),
            serial: None,
        };
        list.push(route).expect(rt, "there is memory");
    }
    list
}

/// Whether the link lists the routes of `/a` and `/b`, in order.
fn lists_two(link: &mut MemRouteLink) -> bool {
    match link.list() {
        Ok(routes) => match routes.as_slice() {
            [first, second] => (first.path.as_str() == "/a") & (second.path.as_str() == "/b"),
            _ => false,
        },
        Err(_) => false,
    }
}

/// Whether those of `/a` and `/b` are left once that of `/c` is deleted.
fn are_left(rt: &impl Abort, alloc: Global) -> bool {
    let list = routes(rt, alloc, &["/b", "/c", "/a"]);
    let mut link = MemRouteLink::beginning(alloc, list, Vec::new(alloc));
    let path = text(rt, alloc, "/c");
    let holds = link.delete(&path, 3).is_ok() & lists_two(&mut link);
    drop(path);
    drop(link);
    holds
}

#[test]
fn routes_in_order(rt: HostRuntime) {
    check(&rt, are_left(&rt, rt.alloc()), "two routes are left");
}

/// A link of which a route was asked, and whether that is added. The calls of these numbers fail.
fn added(rt: &impl Abort, alloc: Global, failing: &[u64]) -> (MemRouteLink, bool) {
    let target = target(rt, alloc);
    let mut link = MemRouteLink::new(alloc, numbers(rt, alloc, failing));
    let path = text(rt, alloc, "");
    let is_added = link.add(&path, &target, Some(2)).is_ok();
    drop(path);
    drop(target);
    (link, is_added)
}

#[test]
fn a_route_is_added(rt: HostRuntime) {
    let (link, is_added) = added(&rt, rt.alloc(), &[]);
    drop(link);
    check(&rt, is_added, "it is added");
}

/// Whether the calls of a link are a route that wasn't added, and a list of none.
fn are_of_a_failed_add(calls: &[(Routing, Told)]) -> bool {
    match calls {
        [
            (Routing::Add(_, _, Some(2)), Told::Failed),
            (Routing::List, Told::Listed(routes)),
        ] => { routes.is_empty() }
        _ => false,
    }
}

#[test]
fn a_failed_route_is_told(rt: HostRuntime) {
    let (mut link, is_added) = added(&rt, rt.alloc(), &[0]);
    let is_listed = link.list().is_ok();
    let is_told = are_of_a_failed_add(link.calls().expect(&rt, "they are told"));
    drop(link);
    check(&rt, !is_added & is_listed & is_told, "it is told");
}

/// A spawner that is asked for a server's start and then whether that runs, and whether it was started and runs. The calls of these
/// numbers fail.
fn started(rt: &impl Abort, alloc: Global, failing: &[u64]) -> (MemSpawner, bool, bool) {
    let key = read_key(b"ann/").expect(rt, "it is a key");
    let target = target(rt, alloc);
    let secret = text(rt, alloc, "");
    let mut spawner = MemSpawner::new(alloc, numbers(rt, alloc, failing));
    let is_started = spawner.start(1, &key, &target, &secret).is_ok();
    let runs = matches!(spawner.poll(1, &target), Ok(true));
    drop(secret);
    drop(target);
    (spawner, is_started, runs)
}

/// Whether the server's stop succeeds, and it doesn't run any more.
fn is_stopped(rt: &impl Abort, alloc: Global, spawner: &mut MemSpawner) -> bool {
    let target = target(rt, alloc);
    let stopped = spawner.stop(1, &target).is_ok() & matches!(spawner.poll(1, &target), Ok(false));
    drop(target);
    stopped
}

#[test]
fn a_server_starts_and_stops(rt: HostRuntime) {
    let (mut spawner, is_started, runs) = started(&rt, rt.alloc(), &[]);
    let is_stopped = is_stopped(&rt, rt.alloc(), &mut spawner);
    drop(spawner);
    check(
        &rt,
        is_started & runs & is_stopped,
        "it runs until its stop",
    );
}

/// Whether the calls of a spawner are a start that failed, and a look at what never ran.
fn are_of_a_failed_start(calls: &[(Spawning, Told)]) -> bool {
    match calls {
        [
            (Spawning::Start(1, _, _, _), Told::Failed),
            (Spawning::Poll(1, _), Told::Runs(false)),
        ] => { true }
        _ => false,
    }
}

#[test]
fn a_failed_start_is_told(rt: HostRuntime) {
    let (spawner, is_started, runs) = started(&rt, rt.alloc(), &[0]);
    let is_told = are_of_a_failed_start(spawner.calls().expect(&rt, "they are told"));
    drop(spawner);
    check(&rt, !is_started & !runs & is_told, "it is told");
}
