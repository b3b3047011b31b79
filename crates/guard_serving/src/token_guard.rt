//! What serves connections by the token of their request alone.
ghost use Rattle.std.specs.Prelude.{◌≡◌};
ghost use Rattle.guard_serving.specs.Served.{IsGuarded, guarding, sides_of};

use crate::kit::GuardKit;
use carries::Carrier;
use guard::carrying::guard_carry_one;
use hub_devices::random::Random;
use hub_devices::source::Source;
use hub_kit::names::ServerKey;
use hub_kit::target::Target;
use hub_link::link::HubLink;
use piece_window::rooms::Rooms;
use std::alloc::Global;
use std::sync::Wait;
use tunnel::shuts::Shuts;
use upstreams::upstream::Upstream;
use worker_hall::{Hired, Serves};

/// Carries one request of each connection to the target, where the hub admits its token to the server of this key.
#[derive(Drop)]
pub struct TokenGuard<'a, H: HubLink, R: Random, U: Upstream> {
    pub key: &'a ServerKey,
    pub target: &'a Target,
    pub kit: GuardKit<H, R, U>,
    /// What each connection goes through.
    pub rooms: Rooms,
}

impl<'a, H: HubLink, R: Random, U: Upstream> TokenGuard<'a, H, R, U> {
    /// With rooms of its own.
    pub(crate) fn new(
        alloc: Global,
        key: &'a ServerKey,
        target: &'a Target,
        kit: GuardKit<H, R, U>,
    ) -> TokenGuard<'a, H, R, U>
        ensures stand { (result.key.now ≡ key.now) × (result.target.now ≡ target.now) }
        ensures kit { result.kit ≡ kit }
    {
        let rooms = Rooms::new(alloc);
        TokenGuard {
            key,
            target,
            kit,
            rooms,
        }
    }
}

impl<'a, H: HubLink, R: Random, U: Carrier<I, O>, I: Source, O: Shuts> Serves<I, O>
    for TokenGuard<'a, H, R, U> {
    ghost served = { λ g i o g' i' o'. IsGuarded H.asked H.does H.faults
        (sides_of U.Reads.left U.Writes.held U.Reads.faults U.Writes.faults U.Writes.closed (O.closed o'))
        (guarding I.left O.held U.told I.faults U.faults O.faults (g.key.now, g.target.now) g.kit i o)
        (guarding I.left O.held U.told I.faults U.faults O.faults (g'.key.now, g'.target.now) g'.kit i' o') };

    fn serve<W: Wait>(&mut self, _rt: &W, alloc: Global, input: &mut I, output: &mut O) {
        // a fault ends this connection alone
        let _ = guard_carry_one(
            alloc,
            self.key,
            self.target,
            &mut self.kit.link,
            input,
            &mut self.rooms,
            output,
            &mut self.kit.upstream,
        );
    }
}

impl<'a, H: HubLink, R: Random, U: Upstream> Hired<GuardKit<H, R, U>> for TokenGuard<'a, H, R, U> {
    ghost kit_of = { λ g. g.kit };

    fn into_kit(self) -> GuardKit<H, R, U> {
        let TokenGuard {
            key: _,
            target: _,
            kit,
            rooms,
        } = self;
        drop(rooms);
        kit
    }
}
