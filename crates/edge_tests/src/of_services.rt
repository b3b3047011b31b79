//! Rounds over programs and routes in memory.
use crate::check::{check, text};
use hub_devices::calls::{Routing, Told};
use hub_devices::mem_routes::MemRouteLink;
use hub_kit::moment::Moment;
use hub_kit::names::read_service;
use hub_kit::targets::read_target;
use services_run::calls::ServiceCall;
use services_run::mem_running::MemRunning;
use services_run::place::{Managed, State, Tended};
use services_run::services::{Services, ServicesError};
use std::alloc::Global;
use std::process::Abort;

const NOW: u64 = 1_700_000_000;

/// A service of this name, whose target is the same as every other one's.
fn managed(rt: &impl Abort, alloc: Global, name: &[u8]) -> Managed {
    Managed {
        name: read_service(name).expect(rt, "it is a name"),
        target: read_target(alloc, b"http://127.0.0.1:9201").expect(rt, "it is a target"),
        secret: text(rt, alloc, "service-secret"),
    }
}

/// One service, whose name is `web`.
fn web(rt: &impl Abort, alloc: Global) -> Services {
    let list = vec![in alloc; managed(rt, alloc, b"web")].expect(rt, "there is memory");
    Services::new(alloc, list).ok().expect(rt, "one service")
}

/// Programs of which these starts fail.
fn programs(rt: &impl Abort, alloc: Global, failing: &[u64]) -> MemRunning {
    let failing = Vec::from_slice(alloc, failing).expect(rt, "there is memory");
    MemRunning::new(alloc, Vec::new(alloc), failing)
}

/// A call as a letter, its number, and what it told: 1 where it was done or its program runs, 0 where it failed or no program runs.
fn run_call(call: &(ServiceCall, Told)) -> (u8, u64, u8) {
    let told = match call.1 {
        Told::Done | Told::Runs(true) => 1,
        _ => 0,
    };
    match call.0 {
        ServiceCall::Start(g, _, _, _) => (b's', g, told),
        ServiceCall::Stop(g, _) => (b'e', g, told),
        ServiceCall::Poll(g, _) => (b'p', g, told),
    }
}

/// A call on routes as a letter, and its serial or 0.
fn path_call(call: &(Routing, Told)) -> (u8, u64) {
    match call.0 {
        Routing::Add(_, _, None) => (b'a', 0),
        Routing::Add(_, _, Some(serial)) => (b'x', serial),
        Routing::Delete(_, serial) => (b'd', serial),
        Routing::List => (b'l', 0),
    }
}

/// Whether these calls were made on the programs.
fn ran(running: &MemRunning, calls: &[(u8, u64, u8)]) -> bool {
    let Some(told) = running.calls() else {
        return false;
    };
    if told.len() != calls.len() {
        return false;
    }
    for (call, wanted) in told.iter().zip(calls.iter()) {
        if run_call(call) != *wanted {
            return false;
        }
    }
    true
}

/// Whether these calls were made on the routes.
fn routed(paths: &MemRouteLink, calls: &[(u8, u64)]) -> bool {
    let Some(told) = paths.calls() else {
        return false;
    };
    if told.len() != calls.len() {
        return false;
    }
    for (call, wanted) in told.iter().zip(calls.iter()) {
        if path_call(call) != *wanted {
            return false;
        }
    }
    true
}

fn tended(started: u32, lost: u32, failed: u32) -> Tended {
    Tended {
        started,
        lost,
        failed,
    }
}

/// What is done with the services, and what is told of it.
enum Step {
    /// A round: how many are started, lost and failed.
    Tend(u32, u32, u32),
    /// A look at the service of a place: its state, and its tries.
    Look(usize, Option<(State, u32)>),
    /// The end: how many are still there.
    Stop(u32),
}

fn goes_so(
    services: &mut Services,
    running: &mut MemRunning,
    paths: &mut MemRouteLink,
    step: &Step,
) -> bool {
    match step {
        Step::Tend(started, lost, failed) => {
            let told = services.tend(Moment::up_to(NOW), running, paths);
            told == tended(*started, *lost, *failed)
        }
        Step::Look(at, state) => services.state(*at) == *state,
        Step::Stop(left) => services.stop_all(running, paths) == *left,
    }
}

/// The programs and the routes once the service `web` went these steps over the programs. Stops the test unless it goes so.
fn gone(
    rt: &impl Abort,
    alloc: Global,
    failing: &[u64],
    steps: &[Step],
) -> (MemRunning, MemRouteLink) {
    let mut running = programs(rt, alloc, failing);
    let mut services = web(rt, alloc);
    let mut paths = MemRouteLink::new(alloc, Vec::new(alloc));
    for step in steps {
        let holds = goes_so(&mut services, &mut running, &mut paths, step);
        check(rt, holds, "a step");
    }
    drop(services);
    (running, paths)
}

/// Stops the test unless these calls were made, and no others.
fn check_calls(
    rt: &impl Abort,
    running: MemRunning,
    paths: MemRouteLink,
    runs: &[(u8, u64, u8)],
    routes: &[(u8, u64)],
) {
    check(rt, ran(&running, runs), "calls on programs");
    drop(running);
    check(rt, routed(&paths, routes), "calls on routes");
    drop(paths);
}

const LOST: [Step; 8] = [
    Step::Tend(1, 0, 0),
    Step::Look(0, Some((State::Up(NOW), 0))),
    Step::Tend(0, 1, 0),
    Step::Look(0, Some((State::Down, 1))),
    Step::Tend(1, 0, 0),
    Step::Look(0, Some((State::Up(NOW + 1), 1))),
    Step::Look(1, None),
    Step::Stop(0),
];

#[test]
fn lost_and_started_again(rt: HostRuntime) {
    let runs = [
        (b's', NOW, 1),
        (b'p', NOW, 0),
        (b's', NOW + 1, 1),
        (b'e', NOW + 1, 1),
    ];
    let routes = [(b'a', 0), (b'd', NOW), (b'a', 0), (b'd', NOW + 1)];
    let (running, paths) = gone(&rt, rt.alloc(), &[], &LOST);
    check_calls(&rt, running, paths, &runs, &routes);
}

const TRIED: [Step; 8] = [
    Step::Tend(0, 0, 1),
    Step::Tend(0, 0, 1),
    Step::Tend(0, 0, 1),
    Step::Tend(0, 0, 1),
    Step::Tend(0, 0, 1),
    Step::Look(0, Some((State::Down, 5))),
    Step::Tend(0, 0, 0),
    Step::Look(0, Some((State::GivenUp, 5))),
];

#[test]
fn five_tries(rt: HostRuntime) {
    let runs = [
        (b's', NOW, 0),
        (b's', NOW + 1, 0),
        (b's', NOW + 2, 0),
        (b's', NOW + 3, 0),
        (b's', NOW + 4, 0),
    ];
    let (running, paths) = gone(&rt, rt.alloc(), &[0, 1, 2, 3, 4], &TRIED);
    check_calls(&rt, running, paths, &runs, &[]);
}

const LOOSE: [Step; 5] = [
    Step::Tend(1, 0, 0),
    Step::Stop(1),
    Step::Look(0, Some((State::Loose(NOW), 0))),
    Step::Stop(0),
    Step::Look(0, Some((State::Down, 0))),
];

#[test]
fn loose_until_stopped(rt: HostRuntime) {
    let (running, paths) = gone(&rt, rt.alloc(), &[1], &LOOSE);
    drop(running);
    drop(paths);
}

/// Why two services at one target are refused.
fn refusal(rt: &impl Abort, alloc: Global) -> Option<ServicesError> {
    let list = vec![in alloc; managed(rt, alloc, b"one"), managed(rt, alloc, b"two")];
    Services::new(alloc, list.expect(rt, "there is memory")).err()
}

#[test]
fn one_target_twice(rt: HostRuntime) {
    let refusal = refusal(&rt, rt.alloc());
    check(&rt, refusal == Some(ServicesError::Repeated(1)), "twice");
}
