//! What forwards connections.
ghost use Rattle.std.specs.Prelude.{◌≡◌, []};
ghost use Rattle.proxy_serving.specs.Served.{IsForwarded};

use carries::{Carrier, carry_one};
use hub_devices::clock::Clock;
use hub_devices::source::Source;
use piece_window::rooms::Rooms;
use route_table::lookup::Lookup;
use std::alloc::Global;
use std::sync::Wait;
use tunnel::shuts::Shuts;
use upstreams::upstream::Upstream;
use worker_hall::{Hired, Serves};

/// A worker's own devices.
#[derive(Drop)]
pub struct ProxyKit<U: Upstream, C: Clock> {
    pub upstream: U,
    pub clock: C,
}

/// Carries one request of each connection by the routes of the moment.
#[derive(Drop)]
pub struct Forwarder<R: Lookup, U: Upstream, C: Clock> {
    pub routes: R,
    pub kit: ProxyKit<U, C>,
    /// What each connection goes through.
    pub rooms: Rooms,
}

impl<R: Lookup, U: Upstream, C: Clock> Forwarder<R, U, C> {
    /// With rooms of its own.
    pub(crate) fn new(alloc: Global, routes: R, kit: ProxyKit<U, C>) -> Forwarder<R, U, C>
        ensures routes { result.routes ≡ routes }
        ensures kit { result.kit ≡ kit }
    {
        let rooms = Rooms::new(alloc);
        Forwarder { routes, kit, rooms }
    }
}

impl<R: Lookup, U: Carrier<I, O>, C: Clock, I: Source, O: Shuts> Serves<I, O>
    for Forwarder<R, U, C> {
    ghost served = { λ f i o f' i' o'. IsForwarded R.found
        (λ reads writes. record {
          left = U.Reads.left reads;
          held = U.Writes.held writes;
          reads = U.Reads.faults reads;
          writes = U.Writes.faults writes;
          upper_shut = U.Writes.closed writes;
          lower_shut = O.closed o';
        })
        (C.to_come f.kit.clock) (C.to_come f'.kit.clock)
        (record {
          left = I.left i;
          kept = [];
          held = O.held o;
          told = U.told f.kit.upstream;
          reads = I.faults i;
          links = U.faults f.kit.upstream;
          writes = O.faults o;
        })
        (record {
          left = I.left i';
          kept = [];
          held = O.held o';
          told = U.told f'.kit.upstream;
          reads = I.faults i';
          links = U.faults f'.kit.upstream;
          writes = O.faults o';
        })
        f.routes f'.routes };

    fn serve<W: Wait>(&mut self, _rt: &W, alloc: Global, input: &mut I, output: &mut O) {
        let now = self.kit.clock.now();
        // a fault ends this connection alone
        let _ = carry_one(
            alloc,
            &mut self.routes,
            now,
            input,
            &mut self.rooms,
            output,
            &mut self.kit.upstream,
        );
    }
}

impl<R: Lookup + Drop, U: Upstream, C: Clock> Hired<ProxyKit<U, C>> for Forwarder<R, U, C> {
    ghost kit_of = { λ f. f.kit };

    fn into_kit(self) -> ProxyKit<U, C> {
        let Forwarder { routes, kit, rooms } = self;
        drop(routes);
        drop(rooms);
        kit
    }
}
