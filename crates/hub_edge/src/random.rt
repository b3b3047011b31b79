//! The system's random bytes as a device. It counts its errors and tells no draws.
ghost use Rattle.std.specs.Prelude.{◌≡◌, ℕ, None};

use hub_devices::random::Random;
use hub_devices::source::Failed;
use std::random::RandomSource;

/// What fills bytes at random, as a source of draws.
#[derive(Drop)]
pub struct SystemRandom<R: RandomSource + Drop> {
    source: R,
    faults: u64,
}

impl<R: RandomSource + Drop> SystemRandom<R> {
    /// A source that has not failed yet.
    pub fn new(source: R) -> SystemRandom<R>
        ensures { ⟦<SystemRandom<R> as Random>⟧.faults result ≡ 0 }
    {
        SystemRandom { source, faults: 0 }
    }
}

impl<R: RandomSource + Drop> Random for SystemRandom<R> {
    ghost left = { λ r. None };

    ghost faults = { λ r. r.faults };

    fn draw(&mut self) -> Result<[u8; 16], Failed> {
        let mut bytes = [0; 16];
        match self.source.fill_bytes(&mut bytes) {
            Ok(()) => Ok(bytes),
            Err(_) => {
                self.faults = self.faults.saturating_add(1);
                Err(Failed)
            }
        }
    }
}
