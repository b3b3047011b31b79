//! The command `serve` over devices in memory: its plan, its status and its line.
ghost use Rattle.std.specs.Prelude.{◌<◌, IsSome, length};

use crate::check::{check, failing, words_of};
use crate::in_memory::{MemKit, NEVER, files, kit, store};
use hub_devices::mem_bytes::{MemSink, MemSource};
use hub_devices::mem_clock::FixedClock;
use hub_devices::mem_listener::MemListener;
use hub_devices::mem_random::ListRandom;
use hub_devices::mem_routes::MemRouteLink;
use hub_devices::mem_spawner::MemSpawner;
use hub_kit::bytes::Bytes;
use hub_kit::moment::Moment;
use hub_serving::plan::{Plan, read_plan};
use hub_serving::run::run;
use hub_serving::world::{ServeOutside, ServeWorld};
use keeper::keeper::Keeper;
use keeper::mem_keeper::MemKeeper;
use service_doors::kit::ServiceKit;
use services_run::mem_running::MemRunning;
use std::alloc::Global;
use std::marker::PhantomData;
use std::process::Abort;
use std::sync::Wait;
use std::thread::Threads;

/// Devices in memory, over any store: rattle stops at an impl of this trait that has no parameter.
pub struct InMemory<K: Keeper + Send> {
    of: PhantomData<K>,
}

impl<K: Keeper + Send> ServeWorld for InMemory<K> {
    type Out = MemSink;

    type Store = K;

    type Starts = MemSpawner;

    type Paths = MemRouteLink;

    type Time = FixedClock;

    type Draws = ListRandom;

    type Doors = MemListener<MemSource, MemSink>;

    type Runs = MemRunning;
}

/// What is called, what stands in the file `hub.toml`, what fails, and how it ends. Three callers come.
pub struct Command {
    pub words: &'static str,
    pub file: &'static str,
    /// The call of the listener that fails.
    pub failing_accept: u64,
    /// The call of the opening's route link that fails.
    pub failing_route: u64,
    /// The call on the routes of services that fails.
    pub failing_path: u64,
    /// What the polls of services tell.
    pub polls: &'static [bool],
    pub status: u8,
    pub output: &'static [u8],
}

/// What is outside of the command.
pub type MemOutside = ServeOutside<InMemory<MemKeeper>>;

const LISTEN_ALONE: &str = "listen = \"127.0.0.1:8000\"";

const COMMANDS: [Command; 8] = [
    Command {
        words: "serve --config hub.toml --connections 2",
        file: LISTEN_ALONE,
        failing_accept: NEVER,
        failing_route: NEVER,
        failing_path: NEVER,
        polls: &[],
        status: 0,
        output: b"served 2\n",
    },
    Command {
        words: "serve --config hub.toml --connections 0 --no-trail",
        file: LISTEN_ALONE,
        failing_accept: 0,
        failing_route: NEVER,
        failing_path: NEVER,
        polls: &[],
        status: 0,
        output: b"served 0\n",
    },
    // there are no more callers than three
    Command {
        words: "serve --config hub.toml",
        file: LISTEN_ALONE,
        failing_accept: NEVER,
        failing_route: NEVER,
        failing_path: NEVER,
        polls: &[],
        status: 8,
        output: b"served 3\n",
    },
    Command {
        words: "serve --config hub.toml --connections 3",
        file: LISTEN_ALONE,
        failing_accept: 1,
        failing_route: NEVER,
        failing_path: NEVER,
        polls: &[],
        status: 8,
        output: b"served 1\n",
    },
    Command {
        words: "serve --connections 2",
        file: LISTEN_ALONE,
        failing_accept: NEVER,
        failing_route: NEVER,
        failing_path: NEVER,
        polls: &[],
        status: 2,
        output: b"",
    },
    Command {
        words: "serve --config hub.toml --workers 17",
        file: LISTEN_ALONE,
        failing_accept: NEVER,
        failing_route: NEVER,
        failing_path: NEVER,
        polls: &[],
        status: 2,
        output: b"",
    },
    Command {
        words: "serve --config gone.toml",
        file: LISTEN_ALONE,
        failing_accept: NEVER,
        failing_route: NEVER,
        failing_path: NEVER,
        polls: &[],
        status: 3,
        output: b"",
    },
    Command {
        words: "serve --config hub.toml",
        file: "pool = []",
        failing_accept: NEVER,
        failing_route: NEVER,
        failing_path: NEVER,
        polls: &[],
        status: 3,
        output: b"",
    },
];

/// Three callers, of whom none asks anything.
fn doors(rt: &impl Abort, alloc: Global, failing_accept: u64) -> MemListener<MemSource, MemSink> {
    let mut doors = Vec::new(alloc);
    for _ in 0..3 {
        let source = MemSource::new(Bytes::new(alloc), 1, Vec::new(alloc));
        let sink = MemSink::new(alloc, Vec::new(alloc));
        doors.push((source, sink)).expect(rt, "there is memory");
    }
    MemListener::new(doors, failing(rt, alloc, failing_accept))
}

/// By what services are tended, where polls tell this and this call on their routes fails.
fn service_kit(
    rt: &impl Abort,
    alloc: Global,
    polls: &[bool],
    failing_path: u64,
) -> ServiceKit<MemRunning, MemRouteLink, FixedClock> {
    let polls = Vec::from_slice(alloc, polls).expect(rt, "there is memory");
    ServiceKit {
        running: MemRunning::new(alloc, polls, Vec::new(alloc)),
        paths: MemRouteLink::new(alloc, failing(rt, alloc, failing_path)),
        clock: FixedClock(Moment::zero()),
    }
}

/// The kits of two workers.
fn kits(rt: &impl Abort, alloc: Global) -> Vec<MemKit>
    ensures { 0 < length result.items }
{
    let kits = vec![in alloc; kit(rt, alloc, NEVER), kit(rt, alloc, NEVER)];
    kits.expect(rt, "there is memory")
}

fn outside(rt: &impl Abort, alloc: Global, command: &Command) -> MemOutside
    ensures store { IsSome result.store }
    ensures kits { 0 < length result.kits.items }
{
    ServeOutside {
        output: MemSink::new(alloc, Vec::new(alloc)),
        store: Some(store(rt, alloc)),
        kit: kit(rt, alloc, command.failing_route),
        kits: kits(rt, alloc),
        doors: doors(rt, alloc, command.failing_accept),
        services: service_kit(rt, alloc, command.polls, command.failing_path),
        stopped: None,
        end: None,
    }
}

/// Whether the command ends with its status, and has written its line; and what is outside then.
pub fn ended<R: Threads + Wait + Abort + Sync>(
    rt: &R,
    alloc: Global,
    command: &Command,
) -> (bool, MemOutside) {
    let words = words_of(rt, alloc, command.words);
    let mut files = files(rt, alloc, command.file);
    let mut outside = outside(rt, alloc, command);
    let said = words.as_slice();
    let status = match read_plan(alloc, &mut files, said) {
        Ok(plan) => {
            let status = run(rt, alloc, said, &files, &plan, &mut outside);
            drop(plan);
            status
        }
        Err(why) => why.status(),
    };
    drop(files);
    drop(words);
    let so = (status == command.status) & (outside.output.as_slice() == command.output);
    (so, outside)
}

#[test]
fn commands(rt: HostRuntime) {
    let alloc = rt.alloc();
    for command in &COMMANDS {
        let (so, outside) = ended(&rt, alloc, command);
        drop(outside);
        check(&rt, so, command.words);
    }
}

/// Whether the plan is one of a hub that has nothing but its address.
fn is_bare(plan: &Plan) -> bool {
    let hub = &plan.hub;
    hub.users.as_slice().is_empty()
        & hub.tokens.as_slice().is_empty()
        & plan.command.as_slice().is_empty()
        & hub.hub_url.is_none()
        & !hub.no_trail
        & plan.proxy.is_none()
        & plan.db.is_none()
}

/// Whether the plan has the numbers that stand where no word gives another.
fn has_defaults(plan: &Plan) -> bool {
    (plan.listen.as_str() == "127.0.0.1:8000")
        & (plan.workers == 4)
        & (plan.connections == u64::MAX)
        & (plan.hub.limits.trail_bytes == 1_073_741_824)
}

#[test]
fn a_plan_of_the_address_alone(rt: HostRuntime) {
    let alloc = rt.alloc();
    let words = words_of(&rt, alloc, "serve --config hub.toml");
    let mut files = files(&rt, alloc, LISTEN_ALONE);
    let plan = read_plan(alloc, &mut files, words.as_slice()).ok();
    drop(files);
    drop(words);
    let plan = plan.expect(&rt, "a plan");
    let holds = is_bare(&plan) & has_defaults(&plan);
    drop(plan);
    check(&rt, holds, LISTEN_ALONE);
}
