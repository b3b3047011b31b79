//! The hub that many connections share, and what its workers have.
use crate::hubs::NOW;
use crate::peers::{HeldSpawner, NoLink};
use crate::scene::Scene;
use hub_devices::mem_clock::FixedClock;
use hub_devices::mem_random::ListRandom;
use hub_kit::moment::Moment;
use hub_run::HubKit;
use std::alloc::Global;
use std::process::Abort;
use std::sync::Wait;

pub type HeldKit<'a, W> = HubKit<HeldSpawner<'a, W>, NoLink, FixedClock, ListRandom>;

/// The user ann with a token, and one target.
pub const FILE: &str = "pool = ['http://127.0.0.1:9001']
users = [{name = 'ann'}]
tokens = [{token = 'secret-token-ann', user = 'ann', scopes = ['inherit']}]";

/// What a worker draws: its own number, and one that counts.
fn draws(rt: &impl Abort, alloc: Global, worker: u8) -> Vec<[u8; 16]> {
    let mut draws = Vec::new(alloc);
    for i in 0..40u8 {
        let draw = [worker, i, 0, 0, 0, 0, 0, 0, 0, 0, 0, 0, 0, 0, 0, 0];
        draws.push(draw).expect(rt, "there is memory");
    }
    draws
}

/// The devices of a worker.
pub fn kit<'a, W: Wait + Abort>(
    rt: &'a W,
    alloc: Global,
    scene: &'a Scene,
    worker: u8,
) -> HeldKit<'a, W> {
    HubKit {
        spawner: HeldSpawner { rt, scene },
        routes: NoLink,
        clock: FixedClock(Moment::up_to(NOW)),
        random: ListRandom::new(draws(rt, alloc, worker), Vec::new(alloc)),
    }
}
