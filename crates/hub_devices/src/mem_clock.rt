//! Clocks in memory.
ghost use Rattle.hub_devices.specs.Moments.{moment_at};
ghost use Rattle.std.specs.Prelude.{◌≡◌, ℕ, ◌≤◌, Some, vec_len};

use crate::clock::Clock;
use hub_kit::moment::Moment;

/// Gives one moment for ever.
#[derive(Clone, Copy)]
pub struct FixedClock(pub Moment);

impl Clock for FixedClock {
    ghost to_come = { λ c. Some (λ k. c.0) };

    fn now(&mut self) -> Moment {
        self.0
    }
}

/// Gives its moments in order, then the last one again. With none it gives 0.
pub struct ListClock {
    moments: Vec<Moment>,
    at: usize,
    ghost within: { at ≤ vec_len moments },
}

impl Drop for ListClock {
    fn drop(self) {
        let ListClock { moments: _, at: _ } = self;
    }
}

impl ListClock {
    pub fn new(moments: Vec<Moment>) -> ListClock
        ensures { ⟦<ListClock as Clock>⟧.to_come result ≡ Some (moment_at moments.items 0) }
    {
        ListClock { moments, at: 0 }
    }
}

impl Clock for ListClock {
    ghost to_come = { λ c. Some (moment_at c.moments.items c.at) };

    fn now(&mut self) -> Moment {
        if self.at < self.moments.len() {
            let moment = self.moments[self.at];
            self.at += 1;
            return moment;
        }
        match self.moments.last() {
            Some(moment) => *moment,
            None => Moment::zero(),
        }
    }
}
