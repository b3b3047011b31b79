//! A kit serves connections.
ghost use Rattle.std.specs.Prelude.{◌≡◌};
ghost use Rattle.hub_run.specs.Connections.{sink_told, source_told};
ghost use Rattle.hub_serve.specs.Sessions.{EndsAsConnection};
ghost use Rattle.hub_serve.specs.Shifts.{IsServed};

use crate::tally::{Connection, Seen};
use crate::workers::Serves;
use desk::{Desk, Pass};
use hub_core::book::Book;
use hub_devices::clock::Clock;
use hub_devices::listener::Listener;
use hub_devices::random::Random;
use hub_devices::route_link::RouteLink;
use hub_devices::spawner::Spawner;
use hub_machine::change::Change;
use hub_run::{HubKit, serve_connection};
use keeper::keeper::Keeper;
use keeper::trail::Trail;
use std::alloc::Global;
use std::sync::Wait;

impl<K: Keeper, T: Trail<Entry = Change>, S: Spawner, P: RouteLink, C: Clock, R: Random> Serves<
    Book<K, T>,
> for HubKit<S, P, C, R> {
    ghost ends = { EndsAsConnection C.to_come R.left S.calls P.calls R.faults S.faults P.faults };

    fn serve<L: Listener, W: Wait>(
        &mut self,
        rt: &W,
        alloc: Global,
        desk: &Desk<Book<K, T>>,
        pass: &mut Pass<Book<K, T>>,
        input: L::In,
        output: L::Out,
    ) -> Connection<Pass<Book<K, T>>, HubKit<S, P, C, R>, L::In, L::Out>
        requires sides { L.are_sides input output }
        requires at_desk { pass.old.of ≡ desk.now }
        ensures of { pass.new.of ≡ pass.old.of }
        ensures before { (pass.old ≡ result.before.pass.value) × (self.old ≡ result.before.kit.value) }
        ensures after { (result.after.pass.value ≡ pass.new) × (result.after.kit.value ≡ self.new) }
        ensures served { IsServed L.are_sides (EndsAsConnection C.to_come R.left S.calls P.calls R.faults S.faults P.faults)
            (source_told L.In.Source) (sink_told L.Out.Sink) result }
    {
        let mut input = input;
        let mut output = output;
        let before = Seen::of(pass, self, &input, &output);
        // a connection's fault ends that connection alone
        let ended = serve_connection(rt, alloc, desk, pass, &mut input, &mut output, self);
        let after = Seen::of(pass, self, &input, &output);
        Connection {
            before,
            after,
            ended,
        }
    }
}
