//! A service of a hub that serves: its program is started before the connection, asked after it, and stopped at the end, if its route is
//! deleted then.
use crate::check::check;
use crate::in_memory::NEVER;
use crate::of_commands::{Command, MemOutside, ended};
use hub_devices::calls::{Routing, Told};
use services_run::calls::ServiceCall;
use services_run::place::State;

/// One service that has a program, and one that has none.
const SERVICES: &str =
    "listen = \"127.0.0.1:8000\"\n[[services]]\nname = \"other\"\n[[services]]\nname = \"web\"\n\
    redirect_uri = \"/services/web/cb\"\nsecret = \"service-secret-web\"\ncommand = [\"web\"]\ntarget = \"http://127.0.0.1:9201\"\n";

/// One connection to a hub with services. One poll tells that the program runs.
const WITH_SERVICE: Command = Command {
    words: "serve --config hub.toml --connections 1",
    file: SERVICES,
    failing_accept: NEVER,
    failing_route: NEVER,
    failing_path: NEVER,
    polls: &[true],
    status: 0,
    output: b"served 1\n",
};

/// The same, where the deletion at the end fails.
const ROUTE_STAYS: Command = Command {
    words: "serve --config hub.toml --connections 1",
    file: SERVICES,
    failing_accept: NEVER,
    failing_route: NEVER,
    failing_path: 1,
    polls: &[true],
    status: 0,
    output: b"served 1\n",
};

/// Whether the program was started with its secret, asked and stopped, each once.
fn ran_once(calls: &[(ServiceCall, Told)]) -> bool {
    match calls {
        [
            (ServiceCall::Start(1, name, target, secret), Told::Done),
            (ServiceCall::Poll(1, _), Told::Runs(true)),
            (ServiceCall::Stop(1, _), Told::Done),
        ] => {
            (name.as_str() == "web")
                & (target.as_text().as_str() == "http://127.0.0.1:9201")
                & (secret.as_str() == "service-secret-web")
        }
        _ => false,
    }
}

/// Whether its path was added without a serial, and deleted with its number.
fn routed_once(calls: &[(Routing, Told)]) -> bool {
    match calls {
        [
            (Routing::Add(path, target, None), Told::Done),
            (Routing::Delete(same, 1), Told::Done),
        ] => {
            (path.as_str() == "/services/web")
                & (target.as_text().as_str() == "http://127.0.0.1:9201")
                & (same.as_str() == "/services/web")
        }
        _ => false,
    }
}

/// Whether the program and its path were tended so.
fn is_tended(outside: &MemOutside) -> bool {
    match (
        outside.services.running.calls(),
        outside.services.paths.calls(),
    ) {
        (Some(run), Some(routed)) => ran_once(run) & routed_once(routed),
        _ => false,
    }
}

/// The state in which the command leaves the service that has a program.
fn state_at_the_end(outside: &MemOutside) -> Option<State> {
    let (state, _) = outside.stopped.as_ref()?.state(0)?;
    Some(state)
}

#[test]
fn a_service_is_started_asked_and_stopped(rt: HostRuntime) {
    let (so, outside) = ended(&rt, rt.alloc(), &WITH_SERVICE);
    let is_down = matches!(state_at_the_end(&outside), Some(State::Down));
    let holds = so & is_tended(&outside) & is_down;
    drop(outside);
    check(&rt, holds, "one start, one poll, one stop");
}

/// Whether the program was started and asked, and not stopped.
fn runs_on(calls: &[(ServiceCall, Told)]) -> bool {
    matches!(
        calls,
        [
            (ServiceCall::Start(1, _, _, _), Told::Done),
            (ServiceCall::Poll(1, _), Told::Runs(true)),
        ]
    )
}

/// Whether its path was added, and its deletion asked for once.
fn stays_routed(calls: &[(Routing, Told)]) -> bool {
    matches!(
        calls,
        [
            (Routing::Add(_, _, None), Told::Done),
            (Routing::Delete(_, 1), Told::Failed),
        ]
    )
}

/// Whether the program was left behind its route.
fn is_left(outside: &MemOutside) -> bool {
    match (
        outside.services.running.calls(),
        outside.services.paths.calls(),
    ) {
        (Some(run), Some(routed)) => runs_on(run) & stays_routed(routed),
        _ => false,
    }
}

#[test]
fn a_program_whose_route_stays_is_not_stopped(rt: HostRuntime) {
    let (so, outside) = ended(&rt, rt.alloc(), &ROUTE_STAYS);
    let is_loose = matches!(state_at_the_end(&outside), Some(State::Loose(1)));
    let holds = so & is_left(&outside) & is_loose;
    drop(outside);
    check(&rt, holds, "one start, one poll, no stop");
}
