//! What callers take, one behind the other.
use hub_devices::sink::Sink;
use hub_devices::source::Failed;
use hub_kit::bytes::Bytes;
use std::sync::{Mutex, Wait};
use std::thread;
use tunnel::shuts::Shuts;

/// Waits for a while until so many bytes were written.
pub fn wait_for<W: Wait>(rt: &W, all: &Mutex<Bytes>, least: usize) {
    for _ in 0..10_000_000 {
        if all.lock(rt).as_slice().len() >= least {
            break;
        }
        thread::yield_now();
    }
}

/// What the caller of a connection takes: it goes behind what was written on the connections before, so many bytes at least.
#[derive(Drop)]
pub struct Caller<'a, W: Wait> {
    pub rt: &'a W,
    pub all: &'a Mutex<Bytes>,
    pub least: usize,
    pub is_shut: bool,
    pub faults: u64,
}

impl<'a, W: Wait> Sink for Caller<'a, W> {
    ghost use Rattle.std.specs.Prelude.{None};

    ghost held = { λ _. None };

    ghost faults = { λ s. s.faults };

    ghost closed = { λ s. s.is_shut };

    fn write(&mut self, from: &[u8]) -> Result<usize, Failed> {
        wait_for(self.rt, self.all, self.least);
        if !self.is_shut && self.all.lock(self.rt).push_all(from).is_ok() {
            return Ok(from.len());
        }
        self.faults = self.faults.saturating_add(1);
        Err(Failed)
    }
}

impl<'a, W: Wait> Shuts for Caller<'a, W> {
    fn shut(&mut self) {
        self.is_shut = true;
    }
}
