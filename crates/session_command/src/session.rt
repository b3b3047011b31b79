//! The command `session`: one connection over the standard streams.
use crate::programs::SessionPrograms;
use crate::system::System;
use crate::telling::tell;
use hub_devices::mem_clock::FixedClock;
use hub_devices::mem_routes::MemRouteLink;
use hub_edge::files::SystemFiles;
use hub_edge::output::Output;
use hub_edge::random::SystemRandom;
use hub_edge::standard;
use hub_kit::moment::Moment;
use hub_kit::text::Text;
use hub_main::run::run;
use hub_main::world::Outside;
use hub_run::HubKit;
use hub_store::command::{ProgramStore, StoreCommand};
use std::process::ExitCode;
use std::sync::Wait;

/// The outside as the system has it, but for its store.
fn outside<K: ProgramStore>(rt: HostRuntime) -> Outside<System<K>> {
    let alloc = rt.alloc();
    Outside {
        input: standard::input(&rt),
        output: Output::new(rt),
        store: None,
        kit: HubKit {
            spawner: SessionPrograms::new(alloc),
            routes: MemRouteLink::new(alloc, Vec::new(alloc)),
            // each command sets it
            clock: FixedClock(Moment::zero()),
            random: SystemRandom::new(rt),
        },
        files: SystemFiles::new(rt),
        end: None,
    }
}

/// Runs the command over the outside and this store, and says why it didn't do its work if it didn't.
fn run_over<K: ProgramStore, W: Wait>(
    rt: &HostRuntime,
    wait: &W,
    words: &[Text],
    outside: &mut Outside<System<K>>,
    store: K,
) -> u8 {
    outside.store = Some(store);
    let status = run(wait, rt.alloc(), words, outside);
    tell(rt, words, outside);
    status
}

/// The command over this store.
fn run_session<K: ProgramStore, W: Wait>(
    rt: HostRuntime,
    wait: &W,
    words: &[Text],
    store: K,
) -> ExitCode {
    let mut outside = outside(rt);
    let status = run_over(&rt, wait, words, &mut outside, store);
    if let Some(store) = outside.store.take() {
        store.close();
    }
    drop(outside);
    ExitCode::from(status)
}

/// The command `session` over the system's devices. Words of no command are refused as those of a session are.
#[derive(Drop)]
pub struct Session<'a, W: Wait + Copy> {
    wait: W,
    words: &'a [Text],
}

impl<'a, W: Wait + Copy> Session<'a, W> {
    /// The session of these words.
    pub fn new(wait: W, words: &'a [Text]) -> Session<'a, W> {
        Session { wait, words }
    }
}

impl<'a, W: Wait + Copy> StoreCommand for Session<'a, W> {
    fn run<K: ProgramStore>(&self, rt: HostRuntime, store: K) -> ExitCode {
        run_session(rt, &self.wait, self.words, store)
    }
}
