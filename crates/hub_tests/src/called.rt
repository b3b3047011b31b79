//! The calls on devices in memory, in short.
use hub_devices::calls::{Routing, Spawning, Told};
use hub_devices::mem_routes::MemRouteLink;
use hub_devices::mem_spawner::MemSpawner;

/// A call of the spawner with its generation.
#[derive(Clone, Copy)]
pub enum Spawned {
    Start(u64),
    Stop(u64),
    Poll(u64),
}

/// A call of the route link with its path and its serial.
#[derive(Clone, Copy)]
pub enum Routed {
    Add(&'static str, u64),
    Delete(&'static str, u64),
}

fn is_spawned(call: &Spawning, spawned: Spawned) -> bool {
    match (call, spawned) {
        (Spawning::Start(made, ..), Spawned::Start(generation)) => *made == generation,
        (Spawning::Stop(made, ..), Spawned::Stop(generation)) => *made == generation,
        (Spawning::Poll(made, ..), Spawned::Poll(generation)) => *made == generation,
        _ => false,
    }
}

fn is_routed(call: &Routing, routed: Routed) -> bool {
    match (call, routed) {
        (Routing::Add(made, _, given), Routed::Add(path, serial)) => {
            (made.as_str() == path) & (*given == Some(serial))
        }
        (Routing::Delete(made, given), Routed::Delete(path, serial)) => {
            (made.as_str() == path) & (*given == serial)
        }
        _ => false,
    }
}

/// Whether the spawner was called so.
fn are_spawned(calls: &[(Spawning, Told)], all: &[Spawned]) -> bool {
    if calls.len() != all.len() {
        return false;
    }
    for at in 0..calls.len() {
        if !is_spawned(&calls[at].0, all[at]) {
            return false;
        }
    }
    true
}

/// Whether the route link was called so.
fn are_routed(calls: &[(Routing, Told)], all: &[Routed]) -> bool {
    if calls.len() != all.len() {
        return false;
    }
    for at in 0..calls.len() {
        if !is_routed(&calls[at].0, all[at]) {
            return false;
        }
    }
    true
}

/// Whether the devices were called so.
pub fn are_called(
    spawner: &MemSpawner,
    routes: &MemRouteLink,
    spawned: &[Spawned],
    routed: &[Routed],
) -> bool {
    match (spawner.calls(), routes.calls()) {
        (Some(starts), Some(paths)) => are_spawned(starts, spawned) & are_routed(paths, routed),
        _ => false,
    }
}
