//! Whole numbers: moments, ids, generations and the numbers that come next.
ghost use Rattle.std.specs.Prelude.{◌≡◌, ◌<◌, ◌≤◌, ◌^◌, ℕ, Some};
ghost use Rattle.hub_kit.specs.Moments.{greatest};

use hub_kit::moment::Moment;

/// Written as a whole number, from which it is made again.
pub trait Whole: Drop {
    ghost number_of: { Self → ℕ };

    /// What is true of each value of the type.
    ghost valid: { Self → Type 0 };

    fn number(&self) -> u64
        ensures number { result ≡ number_of self.now }
        ensures valid { valid self.now };

    fn of_number(number: u64) -> Option<Self>
        ensures { (x : Self) → valid x → number_of x ≡ number → result ≡ Some x };

    ghost fits: { (x : Self) → valid x → number_of x < 2 ^ 64 };
}

impl Whole for u64 {
    ghost use Rattle.std.specs.Prelude.{ℕ, ◌<◌, ◌^◌};

    ghost number_of = { λ n. n };

    ghost valid = { λ n. n < 2 ^ 64 };

    ghost fits = { λ n h. h };

    fn number(&self) -> u64 {
        *self
    }

    fn of_number(number: u64) -> Option<u64> {
        Some(number)
    }
}

impl Whole for Moment {
    ghost use Rattle.hub_kit.specs.Moments.{greatest};
    ghost use Rattle.record_texts.specs.Fields.{moment_fits};
    ghost use Rattle.std.specs.Prelude.{◌≤◌};

    ghost number_of = { λ moment. moment };

    ghost valid = { λ moment. moment ≤ greatest };

    ghost fits = { moment_fits };

    fn number(&self) -> u64 {
        self.seconds()
    }

    fn of_number(number: u64) -> Option<Moment> {
        Moment::from_seconds(number)
    }
}
