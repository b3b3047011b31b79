//! The routes of a hub that serves: the hub's own is added once, before its connection.
use crate::check::check;
use crate::in_memory::NEVER;
use crate::of_commands::{Command, MemOutside, ended};
use hub_devices::calls::{Routing, Told};

/// One connection to a hub whose file names its own target.
const BEHIND: Command = Command {
    words: "serve --config hub.toml --connections 1",
    file: "listen = \"127.0.0.1:8000\"\nhub_url = \"http://127.0.0.1:8081\"",
    failing_accept: NEVER,
    failing_route: NEVER,
    failing_path: NEVER,
    polls: &[],
    status: 0,
    output: b"served 1\n",
};

/// The same where the second call of the opening's route link fails.
const BEHIND_A_FAILURE: Command = Command {
    words: "serve --config hub.toml --connections 1",
    file: "listen = \"127.0.0.1:8000\"\nhub_url = \"http://127.0.0.1:8081\"",
    failing_accept: NEVER,
    failing_route: 1,
    failing_path: NEVER,
    polls: &[],
    status: 0,
    output: b"served 1\n",
};

/// Whether the call is a list that gave no route.
fn is_empty_list(call: &(Routing, Told)) -> bool {
    match call {
        (Routing::List, Told::Listed(routes)) => routes.is_empty(),
        _ => false,
    }
}

/// Whether the call is the addition of the hub's own route, and told so.
fn adds_own_route(call: &(Routing, Told), told: &Told) -> bool {
    match (&call.0, &call.1, told) {
        (Routing::Add(path, target, None), Told::Done, Told::Done)
        | (Routing::Add(path, target, None), Told::Failed, Told::Failed) => {
            (path.as_str() == "/") & (target.as_text().as_str() == "http://127.0.0.1:8081")
        }
        _ => false,
    }
}

/// Whether the calls on the route link were the list and one addition, which told this.
fn adds_once(outside: &MemOutside, told: &Told) -> bool {
    match outside.kit.routes.calls() {
        Some([list, addition]) => is_empty_list(list) & adds_own_route(addition, told),
        _ => false,
    }
}

#[test]
fn the_own_route_is_added_once(rt: HostRuntime) {
    let (so, outside) = ended(&rt, rt.alloc(), &BEHIND);
    let holds = so & adds_once(&outside, &Told::Done);
    drop(outside);
    check(&rt, holds, "the list and one addition");
}

#[test]
fn a_failing_link_keeps_nobody_from_being_served(rt: HostRuntime) {
    let (so, outside) = ended(&rt, rt.alloc(), &BEHIND_A_FAILURE);
    let holds = so & adds_once(&outside, &Told::Failed);
    drop(outside);
    check(&rt, holds, "the list and one addition, which failed");
}
