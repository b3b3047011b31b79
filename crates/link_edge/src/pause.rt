//! The system's clock as a place to wait.
ghost use Rattle.std.specs.Prelude.{None};

use hub_culling::pause::Pause;
use std::thread;
use std::time::Duration;

/// Waits by the system's clock.
#[derive(Clone, Copy)]
pub struct SystemPause {
    rt: HostRuntime,
}

impl SystemPause {
    pub fn new(rt: HostRuntime) -> SystemPause {
        SystemPause { rt }
    }
}

impl Pause for SystemPause {
    ghost waits = { λ _. None };

    fn wait(&mut self, seconds: u64) {
        thread::sleep(&self.rt, Duration::from_secs(seconds));
    }
}
