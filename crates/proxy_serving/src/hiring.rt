//! The workers' servers, each with a pass of its own.
ghost use Rattle.std.specs.Prelude.{◌≡◌, [], All, length, map, reverse, IfOk, IfErr, IsSome};
ghost use Rattle.std.specs.Vec.{vec_capacity};
ghost use Rattle.proxy_serving.specs.Workers.{split_from};

use crate::api_server::ApiServer;
use crate::forwarder::{Forwarder, ProxyKit};
use desk::{Desk, Pass};
use hub_devices::clock::Clock;
use hub_kit::text::Text;
use route_desk::{RouteBook, Router};
use std::alloc::{AllocError, Global};
use std::sync::Wait;
use upstreams::upstream::Upstream;

/// A forwarder for each kit, which it takes along: the last kit is that of the first forwarder. Where there is no memory none is made.
pub(crate) fn hire_forwarders<'a, U: Upstream + Drop, C: Clock + Drop, W: Wait>(
    alloc: Global,
    wait: &'a W,
    desk: &'a Desk<RouteBook>,
    pass: &mut Pass<RouteBook>,
    kits: &mut Vec<ProxyKit<U, C>>,
) -> Result<Vec<Forwarder<Router<'a, W>, U, C>>, AllocError>
    requires of { pass.old.of ≡ desk.now }
    requires first { IsSome pass.old.others }
    ensures of { pass.new.of ≡ pass.old.of }
    ensures first { IsSome pass.new.others }
    ensures same { split_from pass.new ≡ split_from pass.old }
    ensures begin { IfOk result (λ v. All (λ f. f.routes.pass ≡ split_from pass.old) v.items) }
    ensures hired { IfOk result (λ v. (kits.new.items ≡ []) × (kits.old.items ≡ reverse (map (λ f. f.kit) v.items))) }
    ensures one_each { IfOk result (λ v. length v.items ≡ length kits.old.items) }
    ensures kept { IfErr result (λ _. kits.new.items ≡ kits.old.items) }
    ensures room { vec_capacity kits.new ≡ vec_capacity kits.old }
{
    let mut forwarders = Vec::with_capacity(alloc, kits.len())?;
    while let Some(kit) = kits.pop() {
        let own = desk.split(pass).unwrap();
        let routes = Router {
            wait,
            desk,
            pass: own,
        };
        match forwarders.push(Forwarder::new(alloc, routes, kit)) {
            Ok(()) => {}
            Err(_full) => unreachable!(),
        }
    }
    Ok(forwarders)
}

/// A server of the interface for each clock, which it takes along: the last clock is that of the first server. Where there is no memory
/// none is made.
pub(crate) fn hire_servers<'a, C: Clock + Drop, W: Wait>(
    alloc: Global,
    wait: &'a W,
    desk: &'a Desk<RouteBook>,
    pass: &mut Pass<RouteBook>,
    secret: &'a Text,
    clocks: &mut Vec<C>,
) -> Result<Vec<ApiServer<'a, Router<'a, W>, C>>, AllocError>
    requires of { pass.old.of ≡ desk.now }
    requires first { IsSome pass.old.others }
    ensures of { pass.new.of ≡ pass.old.of }
    ensures begin { IfOk result (λ v. All (λ s.
        (s.routes.pass ≡ split_from pass.old) × (s.secret.now ≡ secret.now)) v.items) }
    ensures hired { IfOk result (λ v. (clocks.new.items ≡ []) × (clocks.old.items ≡ reverse (map (λ s. s.clock) v.items))) }
    ensures one_each { IfOk result (λ v. length v.items ≡ length clocks.old.items) }
    ensures kept { IfErr result (λ _. clocks.new.items ≡ clocks.old.items) }
    ensures room { vec_capacity clocks.new ≡ vec_capacity clocks.old }
{
    let mut servers = Vec::with_capacity(alloc, clocks.len())?;
    while let Some(clock) = clocks.pop() {
        let own = desk.split(pass).unwrap();
        let routes = Router {
            wait,
            desk,
            pass: own,
        };
        match servers.push(ApiServer::new(routes, secret, clock)) {
            Ok(()) => {}
            Err(_full) => unreachable!(),
        }
    }
    Ok(servers)
}
