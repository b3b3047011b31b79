//! The system's devices.
use crate::programs::SessionPrograms;
use hub_devices::mem_routes::MemRouteLink;
use hub_devices::streams::ReaderSource;
use hub_edge::files::SystemFiles;
use hub_edge::output::Output;
use hub_edge::random::SystemRandom;
use hub_main::world::World;
use hub_store::command::ProgramStore;
use std::io::StdinLock;
use std::marker::PhantomData;

/// The devices of a session.
pub(crate) struct System<K: ProgramStore> {
    of: PhantomData<K>,
}

impl<K: ProgramStore> World for System<K> {
    type In = ReaderSource<StdinLock<'static>>;

    type Out = Output;

    type Store = K;

    type Starts = SessionPrograms;

    type Paths = MemRouteLink;

    type Draws = SystemRandom<HostRuntime>;

    type Reads = SystemFiles;
}
