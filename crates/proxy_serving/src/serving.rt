//! A proxy over its two listeners.
ghost use Rattle.std.specs.Prelude.{◌≡◌, ◌⊎◌, ◌≤◌, ◌<◌, length, IsSome, OnOk, OnErr};
ghost use Rattle.hub_devices.specs.Faults.{Rises};
ghost use Rattle.hub_devices.specs.Streams.{Appends};
ghost use Rattle.worker_hall.specs.Given.{GaveMore};
ghost use Rattle.worker_hall.specs.Shifts.{AreServed};
ghost use Rattle.proxy_serving.specs.Ends.{IsFault, IsOver, IsSaid};
ghost use Rattle.proxy_serving.specs.Ends as spec;
ghost use Rattle.proxy_serving.specs.Workers.{KitsServed, ServedByAll, split_from};

use crate::api_server::ApiServer;
use crate::ends::{ProxyEnd, ProxyFault};
use crate::forwarder::{Forwarder, ProxyKit};
use crate::hiring::{hire_forwarders, hire_servers};
use carries::{Addressed, Carrier};
use desk::{Desk, Pass};
use http_wire::error::WriteError;
use http_wire::writes::write_all;
use hub_devices::clock::Clock;
use hub_devices::listener::Listener;
use hub_devices::sink::Sink;
use hub_kit::text::Text;
use hub_words::proxy::ProxyWords;
use proxy_api::service::RouteService;
use route_desk::{RouteBook, Router, open};
use route_table::lookup::Lookup;
use route_table::routes::Routes;
use std::alloc::Global;
use std::sync::Wait;
use std::thread::{Threads, join_mut};
use tunnel::shuts::Shuts;
use worker_hall::{HallFault, Serves, dismiss, serve};

/// How many paths a table of routes has at most.
const PATHS: u32 = 1_048_576;

const READY: &[u8] = b"ready\n";

/// Serves both listeners, that of the browsers and that of the interface for routes, each until it fails: the one by a forwarder for each
/// kit, and the other by a server of the interface for each clock, all over one table of routes, which has none at first. The kits and the
/// clocks come back in their places.
pub fn serve_proxy<
    'a,
    L: Listener<In: Send, Out: Shuts + Send> + Send,
    U: Carrier<L::In, L::Out, Reads: Send, Writes: Send> + Send + Drop,
    C: Clock + Send + Drop,
    O: Sink,
    W: Threads + Wait + Sync,
>(
    rt: &'a W,
    alloc: Global,
    secret: &'a Text,
    browsers: &mut L,
    api: &mut L,
    kits: &mut Vec<ProxyKit<U, C>>,
    clocks: &mut Vec<C>,
    output: &mut O,
) -> ProxyEnd
    requires kits { 0 < length kits.old.items }
    requires clocks { 0 < length clocks.old.items }
    ensures said { IsSaid (O.held output.old) (O.held output.new) result.fault }
    ensures served { ServedByAll L.are_sides ⟦<Forwarder<Router<'a, W>, U, C> as Serves<L::In, L::Out>>⟧.served
        ⟦<ApiServer<'a, Router<'a, W>, C> as Serves<L::In, L::Out>>⟧.served secret.now
        (kits.old.items, clocks.old.items) (kits.new.items, clocks.new.items) result }
    ensures forwarded { GaveMore (L.given browsers.old) result.forwarded (L.given browsers.new) }
    ensures answered { GaveMore (L.given api.old) result.answered (L.given api.new) }
    ensures fault { IsFault (L.faults browsers.old) (L.faults browsers.new) (L.faults api.old) (L.faults api.new)
        result.forwarded result.answered (O.faults output.old) (O.faults output.new) result.fault }
    ensures writes { O.faults output.old ≤ O.faults output.new }
{
    let opened = match open(alloc, Routes::new(alloc, PATHS)) {
        Ok(opened) => opened,
        Err(_) => return ended(0, 0, ProxyFault::Memory),
    };
    let (desk, pass) = opened;
    if say_ready(output).is_err() {
        drop(pass);
        drop(desk);
        return ended(0, 0, ProxyFault::Output);
    }
    serve_over(rt, alloc, &desk, pass, secret, browsers, api, kits, clocks)
}

/// The same by the words of the command, which the clauses alone look at: browsers come by a listener for the address of `--listen`, and
/// who sets routes by one for that of `--api`.
pub fn serve_words<
    'a,
    L: Listener<In: Send, Out: Shuts + Send> + Addressed + Send,
    U: Carrier<L::In, L::Out, Reads: Send, Writes: Send> + Send + Drop,
    C: Clock + Send + Drop,
    O: Sink,
    W: Threads + Wait + Sync,
>(
    rt: &'a W,
    alloc: Global,
    _words: &ProxyWords,
    secret: &'a Text,
    browsers: &mut L,
    api: &mut L,
    kits: &mut Vec<ProxyKit<U, C>>,
    clocks: &mut Vec<C>,
    output: &mut O,
) -> ProxyEnd
    requires listen { L.address browsers.old ≡ _words.now.listen }
    requires interface { L.address api.old ≡ _words.now.api }
    requires kits { 0 < length kits.old.items }
    requires clocks { 0 < length clocks.old.items }
    ensures said { IsSaid (O.held output.old) (O.held output.new) result.fault }
    ensures served { ServedByAll L.are_sides ⟦<Forwarder<Router<'a, W>, U, C> as Serves<L::In, L::Out>>⟧.served
        ⟦<ApiServer<'a, Router<'a, W>, C> as Serves<L::In, L::Out>>⟧.served secret.now
        (kits.old.items, clocks.old.items) (kits.new.items, clocks.new.items) result }
    ensures forwarded { GaveMore (L.given browsers.old) result.forwarded (L.given browsers.new) }
    ensures answered { GaveMore (L.given api.old) result.answered (L.given api.new) }
    ensures fault { IsFault (L.faults browsers.old) (L.faults browsers.new) (L.faults api.old) (L.faults api.new)
        result.forwarded result.answered (O.faults output.old) (O.faults output.new) result.fault }
    ensures writes { O.faults output.old ≤ O.faults output.new }
{
    serve_proxy(rt, alloc, secret, browsers, api, kits, clocks, output)
}

/// Writes `ready` and a line end.
fn say_ready<O: Sink>(output: &mut O) -> Result<(), WriteError>
    ensures ok { OnOk result (Appends (O.held output.old) spec.ready (O.held output.new)) }
    ensures err { OnErr result (IsSaid (O.held output.old) (O.held output.new) ProxyFault.Output) }
    ensures counted { O.faults output.old ≤ O.faults output.new }
    ensures cause { OnErr result (Rises (O.faults output.old) (O.faults output.new)) }
{
    write_all(output, READY)
}

fn ended(forwarded: u64, answered: u64, fault: ProxyFault) -> ProxyEnd
    ensures { result ≡ record { forwarded = forwarded; answered = answered; fault = fault } }
{
    ProxyEnd {
        forwarded,
        answered,
        fault,
    }
}

/// The same over an open desk, once `ready` was written.
fn serve_over<
    'a,
    L: Listener<In: Send, Out: Shuts + Send> + Send,
    U: Carrier<L::In, L::Out, Reads: Send, Writes: Send> + Send + Drop,
    C: Clock + Send + Drop,
    W: Threads + Wait + Sync,
>(
    rt: &'a W,
    alloc: Global,
    desk: &'a Desk<RouteBook>,
    pass: Pass<RouteBook>,
    secret: &'a Text,
    browsers: &mut L,
    api: &mut L,
    kits: &mut Vec<ProxyKit<U, C>>,
    clocks: &mut Vec<C>,
) -> ProxyEnd
    requires of { pass.of ≡ desk.now }
    requires first { IsSome pass.others }
    requires kits { 0 < length kits.old.items }
    requires clocks { 0 < length clocks.old.items }
    ensures served { ((result.forwarded ≡ 0) × (result.answered ≡ 0)
        × (kits.new.items ≡ kits.old.items) × (clocks.new.items ≡ clocks.old.items))
        ⊎ (KitsServed (AreServed L.are_sides ⟦<Forwarder<Router<'a, W>, U, C> as Serves<L::In, L::Out>>⟧.served)
        (λ f. f.routes.pass ≡ split_from pass) (λ f. f.kit) kits.old.items result.forwarded kits.new.items
        × KitsServed (AreServed L.are_sides ⟦<ApiServer<'a, Router<'a, W>, C> as Serves<L::In, L::Out>>⟧.served)
        (λ s. (s.routes.pass ≡ split_from pass) × (s.secret.now ≡ secret.now))
        (λ s. s.clock) clocks.old.items result.answered clocks.new.items) }
    ensures forwarded { GaveMore (L.given browsers.old) result.forwarded (L.given browsers.new) }
    ensures answered { GaveMore (L.given api.old) result.answered (L.given api.new) }
    ensures over { IsOver (L.faults browsers.old) (L.faults browsers.new) (L.faults api.old) (L.faults api.new)
        result.forwarded result.answered result.fault }
{
    let mut pass = pass;
    let mut forwarders = match hire_forwarders(alloc, rt, desk, &mut pass, kits) {
        Ok(forwarders) => forwarders,
        Err(_) => {
            drop(pass);
            return ended(0, 0, ProxyFault::Memory);
        }
    };
    let end = serve_hired(
        rt,
        alloc,
        desk,
        pass,
        secret,
        browsers,
        &mut forwarders,
        api,
        clocks,
    );
    dismiss(forwarders, kits);
    end
}

/// The same with what forwards the connections.
fn serve_hired<
    'a,
    L: Listener<In: Send, Out: Shuts + Send> + Send,
    U: Carrier<L::In, L::Out, Reads: Send, Writes: Send> + Send + Drop,
    C: Clock + Send + Drop,
    W: Threads + Wait + Sync,
>(
    rt: &'a W,
    alloc: Global,
    desk: &'a Desk<RouteBook>,
    pass: Pass<RouteBook>,
    secret: &'a Text,
    browsers: &mut L,
    forwarders: &mut Vec<Forwarder<Router<'a, W>, U, C>>,
    api: &mut L,
    clocks: &mut Vec<C>,
) -> ProxyEnd
    requires of { pass.of ≡ desk.now }
    requires first { IsSome pass.others }
    requires forwarders { 0 < length forwarders.old.items }
    requires clocks { 0 < length clocks.old.items }
    ensures served { ((result.forwarded ≡ 0) × (result.answered ≡ 0) × (forwarders.new.items ≡ forwarders.old.items)
        × (clocks.new.items ≡ clocks.old.items))
        ⊎ (AreServed L.are_sides ⟦<Forwarder<Router<'a, W>, U, C> as Serves<L::In, L::Out>>⟧.served forwarders.old.items
        result.forwarded forwarders.new.items
        × KitsServed (AreServed L.are_sides ⟦<ApiServer<'a, Router<'a, W>, C> as Serves<L::In, L::Out>>⟧.served)
        (λ s. (s.routes.pass ≡ split_from pass) × (s.secret.now ≡ secret.now))
        (λ s. s.clock) clocks.old.items result.answered clocks.new.items) }
    ensures forwarded { GaveMore (L.given browsers.old) result.forwarded (L.given browsers.new) }
    ensures answered { GaveMore (L.given api.old) result.answered (L.given api.new) }
    ensures over { IsOver (L.faults browsers.old) (L.faults browsers.new) (L.faults api.old) (L.faults api.new)
        result.forwarded result.answered result.fault }
{
    let mut pass = pass;
    let mut servers = match hire_servers(alloc, rt, desk, &mut pass, secret, clocks) {
        Ok(servers) => servers,
        Err(_) => {
            drop(pass);
            return ended(0, 0, ProxyFault::Memory);
        }
    };
    drop(pass);
    let end = serve_routes(rt, alloc, browsers, forwarders, api, &mut servers);
    dismiss(servers, clocks);
    end
}

/// The same with all that serves the connections.
fn serve_routes<
    'a,
    L: Listener<In: Send, Out: Shuts + Send> + Send,
    R: Lookup + RouteService + Send + Drop,
    U: Carrier<L::In, L::Out, Reads: Send, Writes: Send> + Send + Drop,
    C: Clock + Send + Drop,
    W: Threads + Wait + Sync,
>(
    rt: &W,
    alloc: Global,
    browsers: &mut L,
    forwarders: &mut Vec<Forwarder<R, U, C>>,
    api: &mut L,
    servers: &mut Vec<ApiServer<'a, R, C>>,
) -> ProxyEnd
    requires forwarders { 0 < length forwarders.old.items }
    requires servers { 0 < length servers.old.items }
    ensures by_forwarders { AreServed L.are_sides ⟦<Forwarder<R, U, C> as Serves<L::In, L::Out>>⟧.served
        forwarders.old.items result.forwarded forwarders.new.items }
    ensures by_servers { AreServed L.are_sides ⟦<ApiServer<'a, R, C> as Serves<L::In, L::Out>>⟧.served
        servers.old.items result.answered servers.new.items }
    ensures forwarded { GaveMore (L.given browsers.old) result.forwarded (L.given browsers.new) }
    ensures answered { GaveMore (L.given api.old) result.answered (L.given api.new) }
    ensures over { IsOver (L.faults browsers.old) (L.faults browsers.new) (L.faults api.old) (L.faults api.new)
        result.forwarded result.answered result.fault }
{
    serve_both(rt, alloc, browsers, forwarders, api, servers)
}

/// Serves each listener by its servers, both at once.
fn serve_both<
    L: Listener<In: Send, Out: Send> + Send,
    F: Serves<L::In, L::Out> + Send,
    S: Serves<L::In, L::Out> + Send,
    W: Threads + Wait + Sync,
>(
    rt: &W,
    alloc: Global,
    browsers: &mut L,
    forwarders: &mut Vec<F>,
    api: &mut L,
    servers: &mut Vec<S>,
) -> ProxyEnd
    requires forwarders { 0 < length forwarders.old.items }
    requires servers { 0 < length servers.old.items }
    ensures by_forwarders { AreServed L.are_sides F.served forwarders.old.items result.forwarded forwarders.new.items }
    ensures by_servers { AreServed L.are_sides S.served servers.old.items result.answered servers.new.items }
    ensures forwarded { GaveMore (L.given browsers.old) result.forwarded (L.given browsers.new) }
    ensures answered { GaveMore (L.given api.old) result.answered (L.given api.new) }
    ensures over { IsOver (L.faults browsers.old) (L.faults browsers.new) (L.faults api.old) (L.faults api.new)
        result.forwarded result.answered result.fault }
{
    let (forwarded, answered) = join_mut(
        rt,
        &mut ||
            requires { 0 < length forwarders.now.items }
        { serve(rt, alloc, browsers, forwarders, u64::MAX) },
        &mut ||
            requires { 0 < length servers.now.items }
        { serve(rt, alloc, api, servers, u64::MAX) },
    );
    ended(
        forwarded.0.count(),
        answered.0.count(),
        fault_of(forwarded.1, answered.1),
    )
}

/// Why no more connections were served.
fn fault_of(forwarded: Result<(), HallFault>, answered: Result<(), HallFault>) -> ProxyFault
    ensures { result ≡ spec.fault_of forwarded answered }
{
    match forwarded {
        Ok(()) => match answered {
            Ok(()) => ProxyFault::Full,
            Err(HallFault::Listener(_)) => ProxyFault::Listener,
            Err(HallFault::Memory) => ProxyFault::Memory,
        },
        Err(HallFault::Listener(_)) => match answered {
            Ok(()) => ProxyFault::Listener,
            Err(HallFault::Listener(_)) => ProxyFault::Listener,
            Err(HallFault::Memory) => ProxyFault::Memory,
        },
        Err(HallFault::Memory) => ProxyFault::Memory,
    }
}
