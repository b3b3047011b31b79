//! What answers the interface of the routes.
ghost use Rattle.std.specs.Prelude.{◌≡◌};
ghost use Rattle.proxy_serving.specs.Served.{IsAnsweredAt};

use hub_devices::clock::Clock;
use hub_devices::sink::Sink;
use hub_devices::source::Source;
use hub_kit::text::Text;
use proxy_api::api::api_one;
use proxy_api::service::RouteService;
use std::alloc::Global;
use std::sync::Wait;
use worker_hall::{Hired, Serves};

/// Answers one request of each connection.
#[derive(Drop)]
pub struct ApiServer<'a, R: RouteService, C: Clock> {
    pub routes: R,
    pub secret: &'a Text,
    pub clock: C,
}

impl<'a, R: RouteService, C: Clock> ApiServer<'a, R, C> {
    pub(crate) fn new(routes: R, secret: &'a Text, clock: C) -> ApiServer<'a, R, C>
        ensures routes { result.routes ≡ routes }
        ensures secret { result.secret.now ≡ secret.now }
        ensures clock { result.clock ≡ clock }
    {
        ApiServer {
            routes,
            secret,
            clock,
        }
    }
}

impl<'a, R: RouteService, C: Clock, I: Source, O: Sink> Serves<I, O> for ApiServer<'a, R, C> {
    ghost served = { λ s i o s' i' o'. IsAnsweredAt R.gave s.secret.now s'.secret.now (C.to_come s.clock) (C.to_come s'.clock)
        (record {
          left = I.left i;
          held = O.held o;
          reads = I.faults i;
          writes = O.faults o;
        })
        (record {
          left = I.left i';
          held = O.held o';
          reads = I.faults i';
          writes = O.faults o';
        })
        s.routes s'.routes };

    fn serve<W: Wait>(&mut self, _rt: &W, alloc: Global, input: &mut I, output: &mut O) {
        let now = self.clock.now();
        // a fault ends this connection alone
        let _ = api_one(alloc, &mut self.routes, self.secret, now, input, output);
    }
}

impl<'a, R: RouteService + Drop, C: Clock> Hired<C> for ApiServer<'a, R, C> {
    ghost kit_of = { λ s. s.clock };

    fn into_kit(self) -> C {
        let ApiServer {
            routes,
            secret: _,
            clock,
        } = self;
        drop(routes);
        clock
    }
}
