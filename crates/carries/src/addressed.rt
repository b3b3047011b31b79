//! Devices that are made for one address.
ghost use Rattle.std.specs.Prelude.{ℕ, List};

/// A device that tells for which address it was made: a listener for its own, and a link for that of whom it asks.
pub trait Addressed {
    /// The text of that address.
    ghost address: { Self → List ℕ };
}
