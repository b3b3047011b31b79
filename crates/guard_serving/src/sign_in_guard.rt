//! What serves connections, and lets browsers sign in.
ghost use Rattle.std.specs.Prelude.{◌≡◌};
ghost use Rattle.guard_serving.specs.Served.{IsSignedIn, guarding, sides_of};

use crate::kit::GuardKit;
use carries::Carrier;
use guard_login::door::Door;
use guard_login::entries::enter_one;
use hub_devices::random::Random;
use hub_devices::source::Source;
use hub_link::link::HubLink;
use piece_window::rooms::Rooms;
use std::alloc::Global;
use std::sync::Wait;
use tunnel::shuts::Shuts;
use upstreams::upstream::Upstream;
use worker_hall::{Hired, Serves};

/// Carries one request of each connection through a door, where the hub admits its token or the cookie that it got at its sign-in here.
#[derive(Drop)]
pub struct SignInGuard<'a, H: HubLink, R: Random, U: Upstream> {
    pub door: &'a Door,
    pub kit: GuardKit<H, R, U>,
    /// What each connection goes through.
    pub rooms: Rooms,
}

impl<'a, H: HubLink, R: Random, U: Upstream> SignInGuard<'a, H, R, U> {
    /// With rooms of its own.
    pub(crate) fn new(
        alloc: Global,
        door: &'a Door,
        kit: GuardKit<H, R, U>,
    ) -> SignInGuard<'a, H, R, U>
        ensures stand { result.door.now ≡ door.now }
        ensures kit { result.kit ≡ kit }
    {
        let rooms = Rooms::new(alloc);
        SignInGuard { door, kit, rooms }
    }
}

impl<'a, H: HubLink, R: Random, U: Carrier<I, O>, I: Source, O: Shuts> Serves<I, O>
    for SignInGuard<'a, H, R, U> {
    ghost served = { λ g i o g' i' o'. IsSignedIn H.asked H.does H.faults R.left R.faults
        (sides_of U.Reads.left U.Writes.held U.Reads.faults U.Writes.faults U.Writes.closed (O.closed o'))
        (guarding I.left O.held U.told I.faults U.faults O.faults g.door.now g.kit i o)
        (guarding I.left O.held U.told I.faults U.faults O.faults g'.door.now g'.kit i' o') };

    fn serve<W: Wait>(&mut self, _rt: &W, alloc: Global, input: &mut I, output: &mut O) {
        // a fault ends this connection alone
        let _ = enter_one(
            alloc,
            self.door,
            &mut self.kit.link,
            &mut self.kit.random,
            input,
            &mut self.rooms,
            output,
            &mut self.kit.upstream,
        );
    }
}

impl<'a, H: HubLink, R: Random, U: Upstream> Hired<GuardKit<H, R, U>> for SignInGuard<'a, H, R, U> {
    ghost kit_of = { λ g. g.kit };

    fn into_kit(self) -> GuardKit<H, R, U> {
        let SignInGuard {
            door: _,
            kit,
            rooms,
        } = self;
        drop(rooms);
        kit
    }
}
