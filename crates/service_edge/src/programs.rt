//! The programs of services.
ghost use Rattle.std.specs.Prelude.{◌≡◌, None};

use hub_devices::source::Failed;
use hub_devices::spawner::Spawner;
use hub_edge::programs::{AllStarted, Programs};
use hub_kit::list::List;
use hub_kit::names::{ServerKey, ServiceName, read_server, read_user};
use hub_kit::target::Target;
use hub_kit::text::Text;
use services_run::running::Running;
use std::alloc::{AllocError, Global};
use std::sync::{Arc, Mutex, Wait};
use std::thread::Threads;

/// The words that start the program of a service.
#[derive(Drop)]
struct Command<H: Threads + Wait + Copy> {
    name: ServiceName,
    programs: Programs<H>,
}

/// Starts the program of each service by its own command, over one list of programs, in which each has a number of its own.
#[derive(Drop)]
pub struct ServicePrograms<H: Threads + Wait + Copy> {
    rt: HostRuntime,
    handle: H,
    started: AllStarted,
    commands: Vec<Command<H>>,
    /// The programs of all commands, by the list.
    all: Programs<H>,
    /// The numbers of those that couldn't be stopped when it was tried, as far as there was memory to note them.
    unstopped: Vec<u64>,
    faults: u64,
}

/// A list of programs, which shares the programs that were started.
fn programs_of<H: Threads + Wait + Copy>(
    rt: HostRuntime,
    handle: H,
    started: &AllStarted,
    words: &[Text],
) -> Result<Programs<H>, AllocError> {
    let mut copies = Vec::new(rt.alloc());
    for word in words {
        copies.push(word.copy(rt.alloc())?)?;
    }
    let command = Arc::new(rt.alloc(), List::from_vec(copies))?;
    Ok(Programs::new(rt, handle, Arc::try_clone(started)?, command))
}

/// Under which user a service's program stands: one of its name. In the words of a command `{user}` is that name, and `{port}` the port
/// of the service's target.
fn key_of(name: &ServiceName) -> Option<ServerKey> {
    let user = read_user(name.as_bytes()).ok()?;
    let server = read_server(b"").ok()?;
    Some(ServerKey { user, server })
}

impl<H: Threads + Wait + Copy> ServicePrograms<H> {
    /// No service has a command yet.
    pub fn new(rt: HostRuntime, handle: H) -> Result<ServicePrograms<H>, AllocError> {
        let started: AllStarted = Arc::new(rt.alloc(), Mutex::new(Vec::new(rt.alloc())))?;
        let all = programs_of(rt, handle, &started, &[])?;
        Ok(ServicePrograms {
            rt,
            handle,
            started,
            commands: Vec::new(rt.alloc()),
            all,
            unstopped: Vec::new(rt.alloc()),
            faults: 0,
        })
    }

    /// A service's program is started by these words.
    pub fn command(&mut self, name: &ServiceName, words: &[Text]) -> Result<(), AllocError> {
        let programs = programs_of(self.rt, self.handle, &self.started, words)?;
        self.commands.push(Command {
            name: *name,
            programs,
        })?;
        Ok(())
    }

    /// Whether the program of a number couldn't be stopped.
    pub fn is_unstopped(&self, g: u64) -> bool {
        self.unstopped.as_slice().contains(&g)
    }

    /// Notes that the program of a number couldn't be stopped.
    fn note_unstopped(&mut self, g: u64)
        ensures { self.new.faults ≡ self.old.faults }
    {
        if !self.is_unstopped(g) {
            let _ = self.unstopped.push(g);
        }
    }

    /// Starts the program of a service, if it has one.
    fn begin(
        &mut self,
        g: u64,
        name: &ServiceName,
        target: &Target,
        secret: &Text,
    ) -> Result<(), Failed>
        ensures { self.new.faults ≡ self.old.faults }
    {
        let Some(key) = key_of(name) else {
            return Err(Failed);
        };
        for command in self.commands.iter_mut() {
            if command.name == *name {
                return command.programs.start(g, &key, target, secret);
            }
        }
        Err(Failed)
    }

    /// Whether a program runs. One that ended by itself is waited for, and what it started ends with it.
    fn ask(&mut self, g: u64, target: &Target) -> Result<bool, Failed>
        ensures { self.new.faults ≡ self.old.faults }
    {
        let runs = self.all.poll(g, target)?;
        if !runs {
            let _ = self.all.stop(g, target);
        }
        Ok(runs)
    }
}

impl<H: Threads + Wait + Copy> Running for ServicePrograms<H> {
    ghost calls = { λ _. None };

    ghost faults = { λ s. s.faults };

    fn start(
        &mut self,
        g: u64,
        name: &ServiceName,
        target: &Target,
        secret: &Text,
    ) -> Result<(), Failed> {
        match self.begin(g, name, target, secret) {
            Ok(()) => Ok(()),
            Err(_) => {
                self.faults = self.faults.saturating_add(1);
                Err(Failed)
            }
        }
    }

    fn stop(&mut self, g: u64, target: &Target) -> Result<(), Failed> {
        match self.all.stop(g, target) {
            Ok(()) => Ok(()),
            Err(_) => {
                self.note_unstopped(g);
                self.faults = self.faults.saturating_add(1);
                Err(Failed)
            }
        }
    }

    fn poll(&mut self, g: u64, target: &Target) -> Result<bool, Failed> {
        match self.ask(g, target) {
            Ok(runs) => Ok(runs),
            Err(_) => {
                self.faults = self.faults.saturating_add(1);
                Err(Failed)
            }
        }
    }
}
