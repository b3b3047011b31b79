//! The programs of single-user servers.
ghost use Rattle.std.specs.Prelude.{None};

use crate::marked::{Marked, end_child, end_found};
use crate::output::moment_now;
use crate::processes::has_ended;
use crate::starting::{StartFault, await_ready, drain, start_program, tell_secret};
use crate::targets::{is_held, is_served};
use hub_devices::source::Failed;
use hub_devices::spawner::Spawner;
use hub_kit::list::List;
use hub_kit::names::ServerKey;
use hub_kit::target::Target;
use hub_kit::text::Text;
use std::alloc::Global;
use std::io::{self, ErrorKind};
use std::os::unix::net::UnixStream;
use std::process::Child;
use std::sync::{Arc, Mutex, Wait};
use std::thread::{Builder, Threads};

/// The least stack that a thread may have.
const SMALL_STACK: usize = 131072;

/// A program that was started, and its generation.
pub struct Started {
    generation: u64,
    child: Child,
}

impl Drop for Started {
    fn drop(self) {
        let Started {
            generation: _,
            child: _,
        } = self;
    }
}

/// The programs that were started, which all workers share.
pub type AllStarted = Arc<Mutex<Vec<Started>>, Global>;

/// Starts a program for each generation of a server. Each worker has its own of these, over one list of programs.
#[derive(Drop)]
pub struct Programs<H: Threads + Wait + Copy> {
    rt: HostRuntime,
    handle: H,
    started: AllStarted,
    /// The program and its words. Without any, each start fails.
    command: Arc<List<Text>, Global>,
    faults: u64,
}

/// The place of a generation's program.
fn place_of(all: &[Started], generation: u64) -> Option<usize> {
    for at in 0..all.len() {
        if all[at].generation == generation {
            return Some(at);
        }
    }
    None
}

impl<H: Threads + Wait + Copy> Programs<H> {
    /// The programs of a command. In each of its words `{port}`, `{user}` and `{server}` stand for those of the server.
    pub fn new(
        rt: HostRuntime,
        handle: H,
        started: AllStarted,
        command: Arc<List<Text>, Global>,
    ) -> Programs<H> {
        Programs {
            rt,
            handle,
            started,
            command,
            faults: 0,
        }
    }

    /// Tells a new program its secret, waits for its line and has its output drained.
    fn greet(
        &self,
        child: &mut Child,
        output: UnixStream,
        secret: &Text,
    ) -> Result<(), StartFault> {
        tell_secret(self.rt.alloc(), child, secret)?;
        await_ready(&self.rt, &output)?;
        Builder::new()
            .stack_size(SMALL_STACK)
            .spawn(&self.handle, move || drain(output))?;
        Ok(())
    }

    /// Puts a program on the list. One for which there is no memory is ended.
    fn keep(&self, generation: u64, child: Child, target: &Target) -> Result<(), StartFault> {
        match self.put(Started { generation, child }) {
            Ok(()) => Ok(()),
            Err(refused) => self.refuse(refused, target),
        }
    }

    /// Puts a program on the list, or gives it back.
    fn put(&self, program: Started) -> Result<(), Started> {
        let mut started = self.started.lock(&self.handle);
        match started.push(program) {
            Ok(()) => Ok(()),
            Err(refused) => Err(refused.value),
        }
    }

    /// Ends a program for which there is no memory.
    fn refuse(&self, mut program: Started, target: &Target) -> Result<(), StartFault> {
        let generation = program.generation;
        end_child(&self.rt, &mut program.child, generation, target)?;
        Err(StartFault::System(ErrorKind::OutOfMemory))
    }

    /// Ends what was left running at a target.
    fn clear(&self, target: &Target) -> Result<(), StartFault> {
        match self.end_left(target) {
            Ok(()) => Ok(()),
            Err(error) => Err(StartFault::Left(error.kind())),
        }
    }

    /// Why a program didn't come to be ready that has been ended: where somebody listens at its target all the same, that is why.
    fn cause(&self, fault: StartFault, target: &Target) -> StartFault {
        match fault {
            StartFault::Ended | StartFault::OtherLine | StartFault::Late => {
                match is_served(&self.rt, target) {
                    Ok(true) => StartFault::Taken,
                    _ => fault,
                }
            }
            _ => fault,
        }
    }

    /// Starts a program, once nothing is left that an earlier one started at its target.
    fn run(
        &self,
        generation: u64,
        key: &ServerKey,
        target: &Target,
        secret: &Text,
    ) -> Result<(), StartFault> {
        self.clear(target)?;
        let (mut child, output) = start_program(
            &self.rt,
            self.command.as_slice(),
            generation,
            key,
            target,
        )?;
        if let Err(fault) = self.greet(&mut child, output, secret) {
            end_child(&self.rt, &mut child, generation, target)?;
            return Err(self.cause(fault, target));
        }
        self.keep(generation, child, target)
    }

    /// Says on standard error why a program wasn't started.
    fn say(&self, key: &ServerKey, target: &Target, fault: StartFault) {
        let program = match self.command.as_slice() {
            [program, ..] => program.as_str(),
            [] => "",
        };
        let (user, server) = (key.user.as_str(), key.server.as_str());
        let target = target.as_text().as_str();
        let moment = moment_now(&self.rt);
        let at = moment.as_str();
        let _ = eprintln!(self.rt;
            "{at} hub: the program {program} of the server {user}/{server} at {target} is not started: {fault}"
        );
    }

    /// Takes a generation's program from the list.
    fn take(&self, generation: u64) -> Option<Started> {
        let mut started = self.started.lock(&self.handle);
        let all = &mut *started;
        let at = place_of(all.as_slice(), generation)?;
        if at < all.len() {
            Some(all.swap_remove(at))
        } else {
            None
        }
    }

    /// The number of a generation's program, where it is on the list.
    fn number_of(&self, generation: u64) -> Option<u32> {
        let started = self.started.lock(&self.handle);
        let at = place_of(started.as_slice(), generation)?;
        Some(started.get(at)?.child.id())
    }

    /// Ends the program of a generation.
    fn quit(&self, generation: u64, target: &Target) -> io::Result<()> {
        match self.take(generation) {
            Some(mut started) => end_child(&self.rt, &mut started.child, generation, target),
            None => self.quit_adopted(generation, target),
        }
    }

    /// Ends the program of a generation that another run of the hub started. It is no child of this process, and found by its mark; where
    /// it isn't found, nobody may listen at the target.
    fn quit_adopted(&self, generation: u64, target: &Target) -> io::Result<()> {
        let marked = Marked {
            generation: Some(generation),
            target,
            child: None,
        };
        end_found(&self.rt, marked)?;
        if is_held(&self.rt, target)? {
            return Err(io::Error::from(ErrorKind::ResourceBusy));
        }
        Ok(())
    }

    /// Ends what was started for a target and left running, whichever generation it was, by this hub or one that runs no more: another
    /// hub that runs may have programs at the same target.
    pub fn end_left(&self, target: &Target) -> io::Result<()> {
        let marked = Marked {
            generation: None,
            target,
            child: None,
        };
        end_found(&self.rt, marked)
    }

    /// Whether a generation runs. One that another run of the hub started does where it serves.
    fn ask(&self, generation: u64, target: &Target) -> io::Result<bool> {
        match self.number_of(generation) {
            Some(number) => Ok(!has_ended(&self.rt, number)?),
            None => is_served(&self.rt, target),
        }
    }
}

impl<H: Threads + Wait + Copy> Spawner for Programs<H> {
    ghost calls = { λ _. None };

    ghost may_run = { λ _. None };

    ghost faults = { λ s. s.faults };

    fn start(
        &mut self,
        g: u64,
        key: &ServerKey,
        target: &Target,
        secret: &Text,
    ) -> Result<(), Failed> {
        match self.run(g, key, target, secret) {
            Ok(()) => Ok(()),
            Err(fault) => {
                self.say(key, target, fault);
                self.faults = self.faults.saturating_add(1);
                Err(Failed)
            }
        }
    }

    fn stop(&mut self, g: u64, target: &Target) -> Result<(), Failed> {
        match self.quit(g, target) {
            Ok(()) => Ok(()),
            Err(_) => {
                self.faults = self.faults.saturating_add(1);
                Err(Failed)
            }
        }
    }

    fn poll(&mut self, g: u64, target: &Target) -> Result<bool, Failed> {
        match self.ask(g, target) {
            Ok(runs) => Ok(runs),
            Err(_) => {
                self.faults = self.faults.saturating_add(1);
                Err(Failed)
            }
        }
    }
}
