//! The system's devices as the outside of the culler.
use hub_culling::world::{Outside, World};
use hub_edge::clock::SystemClock;
use hub_edge::files::SystemFiles;
use hub_edge::output::Output;
use hub_kit::target::Target;
use link_edge::hub::SocketHub;
use link_edge::limits::REPLY_SECONDS;
use link_edge::pause::SystemPause;
use std::time::Duration;

/// The devices of a culler.
pub(crate) struct System;

impl World for System {
    type Out = Output;

    type Reads = SystemFiles;

    type Time = SystemClock;

    type Asks = SocketHub;

    type Rests = SystemPause;
}

/// The outside, with the hub at this target.
pub(crate) fn outside(rt: HostRuntime, hub: Target) -> Outside<System> {
    Outside {
        output: Output::new(rt),
        files: SystemFiles::new(rt),
        clock: SystemClock::new(rt),
        link: SocketHub::new(rt, hub, Duration::from_secs(REPLY_SECONDS)),
        rest: SystemPause::new(rt),
    }
}
