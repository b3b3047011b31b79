//! A table of 2,000 routes, each of which is found.
use crate::check::{check, target};
use hub_kit::moment::Moment;
use hub_kit::target::Target;
use hub_kit::text::Text;
use route_table::extra::Extra;
use route_table::route::RouteEntry;
use route_table::routes::Routes;
use std::alloc::Global;
use std::process::Abort;

/// The targets of the routes with even numbers and of those with odd ones.
#[derive(Drop)]
struct Targets {
    even: Target,
    odd: Target,
}

impl Targets {
    fn of(&self, number: u32) -> &Target {
        if number % 2 == 0 {
            &self.even
        } else {
            &self.odd
        }
    }
}

fn both_targets(rt: &impl Abort, alloc: Global) -> Targets {
    Targets {
        even: target(rt, alloc, b"http://127.0.0.1:9002"),
        odd: target(rt, alloc, b"http://127.0.0.1:9001"),
    }
}

fn add(rt: &impl Abort, alloc: Global, routes: &mut Routes, number: u32, target: &Target) {
    let path = format!(in alloc; "/user/{number}").expect(rt, "there is memory");
    let entry = RouteEntry {
        target: target.copy(alloc).expect(rt, "there is memory"),
        serial: None,
        extra: Extra::new(),
    };
    let added = routes.add(path.as_bytes(), entry, Moment::zero());
    added.expect(rt, "there is room and memory");
    drop(path);
}

/// Whether the best route for a path behind that of a number has the target.
fn leads_to(rt: &impl Abort, alloc: Global, routes: &Routes, number: u32, target: &Target) -> bool {
    let path = format!(in alloc; "/user/{number}/lab").expect(rt, "there is memory");
    let leads = match routes.find(path.as_bytes()) {
        Ok(route) => route.entry.target.as_text().as_str() == target.as_text().as_str(),
        Err(_) => false,
    };
    drop(path);
    leads
}

#[test]
fn each_of_2_000_is_found(rt: HostRuntime) {
    let alloc = rt.alloc();
    let targets = both_targets(&rt, alloc);
    let mut routes = Routes::new(alloc, 2_000);
    for number in 1_000..3_000 {
        add(&rt, alloc, &mut routes, number, targets.of(number));
    }
    for number in 1_000..3_000 {
        let found = leads_to(&rt, alloc, &routes, number, targets.of(number));
        check(&rt, found, "a route is found");
    }
    check(&rt, routes.find(b"/user/200").is_err(), "no other");
    drop(routes);
    drop(targets);
}
