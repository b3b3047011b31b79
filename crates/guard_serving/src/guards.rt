//! What the devices of a guard's worker tell of a connection that was served. It is for clauses alone.
ghost use Rattle.std.specs.Prelude.{ℕ, List};
ghost use Rattle.guard_login.specs.declared.door.Door.{Door};
ghost use Rattle.hub_kit.specs.declared.names.ServerKey.{ServerKey};
ghost use Rattle.guard_serving.specs.Served.{IsGuarded, IsSignedIn, guarding, sides_of};

use crate::kit::GuardKit;
use carries::Carrier;
use hub_devices::random::Random;
use hub_devices::source::Source;
use hub_link::link::HubLink;
use tunnel::shuts::Shuts;

/// Devices by which guards serve connections.
pub trait Guards<I, O> {
    /// Of a server and its target, the devices and the two sides of a connection: what they are once a guard of that server served it.
    ghost guarded: { ServerKey × List ℕ → Self → I → O → Self → I → O → Type 0 };

    /// The same of a guard with this door, where browsers sign in.
    ghost signed_in: { Door → Self → I → O → Self → I → O → Type 0 };
}

impl<H: HubLink, R: Random, U: Carrier<I, O>, I: Source, O: Shuts> Guards<I, O>
    for GuardKit<H, R, U> {
    ghost guarded = { λ d k i o k' i' o'. IsGuarded H.asked H.does H.faults
        (sides_of U.Reads.left U.Writes.held U.Reads.faults U.Writes.faults U.Writes.closed (O.closed o'))
        (guarding I.left O.held U.told I.faults U.faults O.faults d k i o)
        (guarding I.left O.held U.told I.faults U.faults O.faults d k' i' o') };

    ghost signed_in = { λ d k i o k' i' o'. IsSignedIn H.asked H.does H.faults R.left R.faults
        (sides_of U.Reads.left U.Writes.held U.Reads.faults U.Writes.faults U.Writes.closed (O.closed o'))
        (guarding I.left O.held U.told I.faults U.faults O.faults d k i o)
        (guarding I.left O.held U.told I.faults U.faults O.faults d k' i' o') };
}
