//! A sink that can be shut, round any sink.
ghost use Rattle.std.specs.Prelude.{◌≡◌, ℕ, ◌+◌, ◌||◌, false, Bool};

use crate::shuts::Shuts;
use hub_devices::sink::Sink;
use hub_devices::source::Failed;

/// A sink round another one, which it can shut.
#[derive(Drop)]
pub struct Gate<O> {
    sink: O,
    shut: bool,
    faults: u64,
}

impl<O: Sink> Gate<O> {
    pub fn new(sink: O) -> Gate<O>
        ensures held { ⟦<Gate<O> as Sink>⟧.held result ≡ O.held sink }
        ensures closed { ⟦<Gate<O> as Sink>⟧.closed result ≡ O.closed sink }
        ensures faults { ⟦<Gate<O> as Sink>⟧.faults result ≡ O.faults sink }
    {
        Gate {
            sink,
            shut: false,
            faults: 0,
        }
    }

    pub fn inner(&self) -> &O
        ensures { ⟦<Gate<O> as Sink>⟧.held self.now ≡ O.held result.now }
    {
        &self.sink
    }
}

impl<O: Sink> Sink for Gate<O> {
    ghost held = { λ g. O.held g.sink };

    ghost faults = { λ g. O.faults g.sink + g.faults };

    ghost closed = { λ g. O.closed g.sink || g.shut };

    fn write(&mut self, from: &[u8]) -> Result<usize, Failed> {
        if self.shut {
            self.faults = self.faults.saturating_add(1);
            return Err(Failed);
        }
        match self.sink.write(from) {
            Ok(count) => Ok(count),
            Err(failed) => Err(failed),
        }
    }
}

impl<O: Sink> Shuts for Gate<O> {
    fn shut(&mut self) {
        self.shut = true;
    }
}
