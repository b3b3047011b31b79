//! The hubs of the tests of what fails or is late: ann, an admin, and bob with a token each, and one target.
use crate::check::failing;
use crate::hubs::{MemBook, NOW, book};
use hub_devices::mem_clock::FixedClock;
use hub_devices::mem_random::ListRandom;
use hub_devices::mem_spawner::MemSpawner;
use hub_kit::moment::Moment;
use hub_run::HubKit;
use late_routes::{LatePlan, LateRoutes};
use std::alloc::Global;
use std::process::Abort;

pub type LateKit = HubKit<MemSpawner, LateRoutes, FixedClock, ListRandom>;

const FILE: &str = "pool = ['http://127.0.0.1:9001']
users = [{name = 'ann', admin = true}, {name = 'bob'}]
tokens = [
    {token = 'secret-token-ann', user = 'ann', scopes = ['inherit']},
    {token = 'secret-token-bob', user = 'bob', scopes = ['inherit']},
]";

/// The book of that hub. The keeper's call with this number fails; the opening makes the first two.
pub fn book_failing(rt: &impl Abort, alloc: Global, call: u64) -> MemBook {
    book(rt, alloc, FILE, call)
}

/// A route link to a table for ten paths, whose messages go by these plans.
pub fn late_routes(rt: &impl Abort, alloc: Global, plans: &[LatePlan]) -> LateRoutes {
    let plans = Vec::from_slice(alloc, plans).expect(rt, "there is memory");
    assert!(rt; plans.len() < 1000, "there are few plans");
    LateRoutes::new(alloc, 10, plans)
}

/// What the devices of a hub may draw: each start that is asked for takes one, also one that is refused.
pub const DRAWS: [[u8; 16]; 6] = [
    [0, 0, 0, 0, 0, 0, 0, 0, 0, 0, 0, 0, 0, 0, 0, 1],
    [0, 0, 0, 0, 0, 0, 0, 0, 0, 0, 0, 0, 0, 0, 0, 2],
    [0, 0, 0, 0, 0, 0, 0, 0, 0, 0, 0, 0, 0, 0, 0, 3],
    [0, 0, 0, 0, 0, 0, 0, 0, 0, 0, 0, 0, 0, 0, 1, 1],
    [0, 0, 0, 0, 0, 0, 0, 0, 0, 0, 0, 0, 0, 0, 1, 2],
    [0, 0, 0, 0, 0, 0, 0, 0, 0, 0, 0, 0, 0, 0, 1, 3],
];

/// A spawner whose call with this number fails, and draws, with a clock that stands still.
pub fn late_kit(
    rt: &impl Abort,
    alloc: Global,
    routes: LateRoutes,
    failing_spawn: u64,
    draws: &[[u8; 16]],
) -> LateKit {
    let draws = Vec::from_slice(alloc, draws).expect(rt, "there is memory");
    HubKit {
        spawner: MemSpawner::new(alloc, failing(rt, alloc, failing_spawn)),
        routes,
        clock: FixedClock(Moment::up_to(NOW)),
        random: ListRandom::new(draws, Vec::new(alloc)),
    }
}
