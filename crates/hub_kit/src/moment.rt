//! Moments: whole seconds since 1970-01-01T00:00:00Z.
ghost use Rattle.std.specs.Prelude.{◌≡◌, ◌≤◌, ◌+◌};
ghost use Rattle.hub_kit.specs.Moments.{greatest, moment_of, capped};

use std::marker::Model;

/// The greatest number of seconds of a moment.
const GREATEST: u64 = 250_000_000_000;

/// A number of seconds since 1970-01-01T00:00:00Z, at most 250,000,000,000.
#[derive(Clone, Copy, Debug, PartialEq, Eq, PartialOrd, Ord)]
pub struct Moment {
    seconds: u64,
}

impl Model for Moment {
    ghost use Rattle.std.specs.Prelude.{ℕ, ◌≤◌};
    ghost use Rattle.hub_kit.specs.Moments.{greatest};

    ghost Value = { ℕ };

    ghost view = { λ m. m.seconds };

    ghost invariant = { λ m. m.seconds ≤ greatest };

    ghost inverse = { λ n. record { seconds = n } };
}

impl Moment {
    /// 1970-01-01T00:00:00Z.
    pub fn zero() -> Moment
        ensures { result ≡ 0 }
    {
        Moment { seconds: 0 }
    }

    /// The greatest moment, in the year 9892.
    pub fn greatest() -> Moment
        ensures { result ≡ greatest }
    {
        Moment { seconds: GREATEST }
    }

    /// The moment of a number of seconds, or the greatest where they pass it.
    pub fn up_to(seconds: u64) -> Moment
        ensures { result ≡ capped seconds }
    {
        if seconds <= GREATEST {
            Moment { seconds }
        } else {
            Moment::greatest()
        }
    }

    /// The moment so many seconds later, or the greatest where that is past it.
    pub fn later(self, seconds: u64) -> Moment
        ensures { result ≡ capped (self + seconds) }
    {
        if seconds <= GREATEST {
            Moment::up_to(self.seconds + seconds)
        } else {
            Moment::greatest()
        }
    }

    /// The moment of a number of seconds, unless it is past the greatest.
    pub fn from_seconds(seconds: u64) -> Option<Moment>
        ensures { result ≡ moment_of seconds }
    {
        if seconds <= GREATEST {
            Some(Moment { seconds })
        } else {
            None
        }
    }

    /// The seconds since 1970-01-01T00:00:00Z.
    pub fn seconds(&self) -> u64
        ensures value { result ≡ self.now }
        ensures bounded { self.now ≤ greatest }
    {
        self.seconds
    }
}
