//! Lives of servers as docs/LIFE.md has them, and a pool of one.
use crate::check::check;
use hub_kit::list::List;
use hub_kit::names::{ServerKey, read_key};
use hub_kit::targets::read_target;
use server_life::LifeEvent::{
    AskStop, Begin, Ended, RouteFailed, Routed, SpawnFailed, Spawned, StopFailed, UnrouteFailed,
    Unrouted,
};
use server_life::Todo::{AddRoute, DeleteRoute, Nothing, Start, StopProgram};
use server_life::*;
use std::alloc::Global;
use std::process::Abort;

/// Three starts: one that runs until its stop, which fails once at each step, one that is stopped while it starts, and one whose
/// route fails. Beside each event stands what is then owed. The last start fails.
const STEPS: [(LifeEvent, Todo); 22] = [
    (Begin, Start),
    (Spawned, AddRoute),
    (Routed, Nothing),
    (AskStop, DeleteRoute),
    (UnrouteFailed, Nothing),
    (AskStop, DeleteRoute),
    (Unrouted, StopProgram),
    (StopFailed, Nothing),
    (AskStop, DeleteRoute),
    (Unrouted, StopProgram),
    (Ended, Nothing),
    (Begin, Start),
    (AskStop, Nothing),
    (Spawned, StopProgram),
    (Ended, Nothing),
    (Begin, Start),
    (Spawned, AddRoute),
    (RouteFailed, DeleteRoute),
    (Unrouted, StopProgram),
    (Ended, Nothing),
    (Begin, Start),
    (SpawnFailed, Nothing),
];

/// Whether a server that is stopped at first takes these steps and is then stopped again.
fn is_a_life() -> bool {
    let mut life = Life {
        phase: Phase::Stopped,
        stop_asked: false,
    };
    for (event, owed) in &STEPS {
        match life_step(life, 5, *event) {
            Ok((next, todo)) if todo == *owed => life = next,
            _ => return false,
        }
    }
    life.phase == Phase::Stopped
}

#[test]
fn three_starts(rt: HostRuntime) {
    check(&rt, is_a_life(), "three starts");
}

/// Takes what is next, unless nothing is free, the server has a lease, or no generation is left.
fn start(leases: &mut Leases, key: &ServerKey) -> Result<(u64, usize), Option<NoTarget>> {
    let (generation, at) = match leases.next_free() {
        Ok(next) => next,
        Err(none) => return Err(Some(none)),
    };
    match leases.generation(key) {
        Some(_) => return Err(None),
        None => {}
    }
    if generation == u64::MAX {
        return Err(None);
    }
    leases.take(*key);
    Ok((generation, at))
}

fn leases_of_one(rt: &impl Abort, alloc: Global) -> Leases {
    let target = read_target(alloc, b"http://127.0.0.1:8000").expect(rt, "it is a target");
    let mut pool = Vec::new(alloc);
    pool.push(target).expect(rt, "there is memory");
    let pool = Pool::new(List::from_vec(pool)).expect(rt, "one target is a pool");
    Leases::new(alloc, pool, 1).expect(rt, "there is memory")
}

/// Whether the second server waits until the first is stopped, and then has the next generation and the same target.
fn is_shared(leases: &mut Leases, first: &ServerKey, second: &ServerKey) -> bool {
    let none = NoTarget { live: 1, pool: 1 };
    (start(leases, first) == Ok((1, 0)))
        & (start(leases, second) == Err(Some(none)))
        & leases.free(1)
        & !leases.free(1)
        & (start(leases, second) == Ok((2, 0)))
}

#[test]
fn pool_of_one(rt: HostRuntime) {
    let ann = read_key(b"ann/").expect(&rt, "it is a key");
    let bob = read_key(b"bob/").expect(&rt, "it is a key");
    let mut leases = leases_of_one(&rt, rt.alloc());
    check(&rt, is_shared(&mut leases, &ann, &bob), "a pool of one");
    drop(leases);
}
