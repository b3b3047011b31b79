//! The system's devices.
use crate::announced::Announced;
use crate::paths::HubRoutes;
use hub_edge::clock::SystemClock;
use hub_edge::output::Output;
use hub_edge::programs::Programs;
use hub_edge::random::SystemRandom;
use hub_serving::world::ServeWorld;
use hub_store::command::ProgramStore;
use service_edge::programs::ServicePrograms;
use std::marker::PhantomData;
use std::sync::Wait;
use std::thread::Threads;

/// The devices of a hub that serves.
pub(crate) struct ServeSystem<K: ProgramStore + Send, H: Threads + Wait + Copy + Send + Sync> {
    of: PhantomData<(K, H)>,
}

impl<K: ProgramStore + Send, H: Threads + Wait + Copy + Send + Sync> ServeWorld
    for ServeSystem<K, H> {
    type Out = Output;

    type Store = K;

    type Starts = Programs<H>;

    type Paths = HubRoutes<H>;

    type Time = SystemClock;

    type Draws = SystemRandom<HostRuntime>;

    type Doors = Announced;

    type Runs = ServicePrograms<H>;
}
