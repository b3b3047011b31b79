//! What time it is.
ghost use Rattle.std.specs.Prelude.{ℕ, Option};
ghost use Rattle.hub_devices.specs.ToCome.{Tells};

use hub_kit::moment::Moment;

/// What time it is. A clock can't fail, and nothing is known of the order of its moments.
pub trait Clock {
    /// The moments that it will give, where it tells them: the k-th from now on.
    ghost to_come: { Self → Option (ℕ → ℕ) };

    /// The next moment.
    fn now(&mut self) -> Moment
        ensures { Tells (to_come self.old) result (to_come self.new) };
}
