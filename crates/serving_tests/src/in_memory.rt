//! Devices in memory, and a file of configuration.
use crate::check::{bytes, failing, text};
use hub_devices::mem_clock::FixedClock;
use hub_devices::mem_files::MemFiles;
use hub_devices::mem_random::ListRandom;
use hub_devices::mem_routes::MemRouteLink;
use hub_devices::mem_spawner::MemSpawner;
use hub_kit::moment::Moment;
use hub_run::HubKit;
use keeper::mem_keeper::MemKeeper;
use std::alloc::Global;
use std::process::Abort;

/// The number of a call that doesn't come.
pub const NEVER: u64 = u64::MAX;

/// A file `hub.toml` with this text.
pub fn files(rt: &impl Abort, alloc: Global, file: &str) -> MemFiles {
    let file = (
        text(rt, alloc, "hub.toml"),
        bytes(rt, alloc, file.as_bytes()),
    );
    let files = vec![in alloc; file].expect(rt, "there is memory");
    MemFiles::new(alloc, files, Vec::new(alloc))
}

pub type MemKit = HubKit<MemSpawner, MemRouteLink, FixedClock, ListRandom>;

/// A kit of which the route link and the clock alone are asked: it has no draws.
pub fn kit(rt: &impl Abort, alloc: Global, failing_route: u64) -> MemKit {
    HubKit {
        spawner: MemSpawner::new(alloc, Vec::new(alloc)),
        routes: MemRouteLink::new(alloc, failing(rt, alloc, failing_route)),
        clock: FixedClock(Moment::zero()),
        random: ListRandom::new(Vec::new(alloc), Vec::new(alloc)),
    }
}

/// A store without rows.
pub fn store(rt: &impl Abort, alloc: Global) -> MemKeeper {
    MemKeeper::new(alloc, Vec::new(alloc), Vec::new(alloc)).expect(rt, "there is memory")
}
