//! The command `guard` over the system's devices: its words, its listener, and its workers' links to the hub and to the guarded server.
//! What it does is the contract of `guard_serving::run_told`: its listener is that of its words, and it asks their hub. It adds the status
//! of what can't begin, and what is said to people on standard error, of which no contract speaks.
//! The program `hub` stands above.
#![tactic(auto)]

mod telling;
mod told_hub;

ghost use Rattle.std.specs.Prelude.{◌≡◌, ◌≢◌, ◌⊎◌, ◌<◌, All, length, None, IfOk, OnOk};
ghost use Rattle.std.specs.Process.{exit_status};
ghost use Rattle.hub_words.specs.Guard.{guard_read};

use crate::telling::{said, secret_name, tell};
use crate::told_hub::ToldHub;
use carries::Addressed;
use guard_serving::{GuardKit, run_told};
use hub_edge::files::SystemFiles;
use hub_edge::output::Output;
use hub_edge::random::SystemRandom;
use hub_kit::target::Target;
use hub_kit::text::Text;
use hub_words::guard::{GuardWords, read_guard};
use hub_words::word_error::WordError;
use std::alloc::AllocError;
use std::process::ExitCode;
use std::sync::Wait;
use std::thread::Threads;
use upstream_edge::{SocketUpstream, TunnelListener};

/// How many connections are served at once: those of one user's server.
const WORKERS: usize = 64;

const USAGE: &str =
    "these are not the words of the command: hub guard --listen A --for U/S --hub T --target T [--secret-file F] [--secure-cookies]";

type Kit<'a, W> = GuardKit<ToldHub, SystemRandom<HostRuntime>, SocketUpstream<'a, W>>;

fn new_kit<'a, W: Threads>(
    rt: HostRuntime,
    threads: &'a W,
    hub: &Target,
) -> Result<Kit<'a, W>, AllocError>
    ensures { IfOk result (λ kit. ⟦<ToldHub as Addressed>⟧.address kit.link ≡ hub.now) }
{
    Ok(GuardKit {
        link: ToldHub::new(rt, hub)?,
        random: SystemRandom::new(rt),
        upstream: SocketUpstream::new(rt, threads),
    })
}

/// Puts the devices of one more worker behind these.
fn push_kit<'a, W: Threads>(
    rt: HostRuntime,
    threads: &'a W,
    hub: &Target,
    kits: &mut Vec<Kit<'a, W>>,
) -> Result<(), AllocError>
    ensures some { OnOk result (0 < length kits.new.items) }
    ensures hub { OnOk result (All (λ kit. ⟦<ToldHub as Addressed>⟧.address kit.link ≡ hub.now) kits.old.items
        → All (λ kit. ⟦<ToldHub as Addressed>⟧.address kit.link ≡ hub.now) kits.new.items) }
{
    kits.push(new_kit(rt, threads, hub)?)?;
    Ok(())
}

/// The devices of each worker.
fn new_kits<'a, W: Threads>(
    rt: HostRuntime,
    threads: &'a W,
    hub: &Target,
) -> Result<Vec<Kit<'a, W>>, AllocError>
    ensures some { IfOk result (λ kits. 0 < length kits.items) }
    ensures hub { IfOk result (λ kits. All (λ kit. ⟦<ToldHub as Addressed>⟧.address kit.link ≡ hub.now) kits.items) }
{
    let mut kits = Vec::new(rt.alloc());
    'kits: for _ in 1..WORKERS {
        push_kit(rt, threads, hub, &mut kits)?;
    }
    push_kit(rt, threads, hub, &mut kits)?;
    Ok(kits)
}

/// Serves what the words say at their address.
fn guard_told<W: Threads + Wait + Sync>(rt: HostRuntime, wait: &W, words: GuardWords) -> ExitCode
    ensures { exit_status result ≢ 2 }
{
    let Ok(mut doors) = TunnelListener::bind(rt, &words.listen) else {
        return said(&rt, 8, "the address of --listen can't be had");
    };
    let Ok(mut kits) = new_kits(rt, wait, &words.hub) else {
        return said(&rt, 7, "there is no memory");
    };
    let Ok(name) = secret_name(rt.alloc(), &words) else {
        return said(&rt, 7, "there is no memory");
    };
    let mut files = SystemFiles::new(rt);
    let mut output = Output::new(rt);
    let end = run_told(
        wait,
        rt.alloc(),
        words,
        &mut files,
        &mut doors,
        &mut kits,
        &mut output,
    );
    drop(kits);
    tell(&rt, &name, &files, end.fault);
    ExitCode::from(end.fault.status())
}

/// Runs the command `guard` with these words over the system's devices. Where they are refused the status is 2, or 7 for want of memory,
/// and 2 is the status of nothing else.
pub fn guard<W: Threads + Wait + Sync>(rt: HostRuntime, wait: &W, words: &[Text]) -> ExitCode
    ensures refused { guard_read words.now ≡ None → (exit_status result ≡ 2) ⊎ (exit_status result ≡ 7) }
    ensures read { exit_status result ≡ 2 → guard_read words.now ≡ None }
{
    match read_guard(rt.alloc(), words) {
        Ok(told) => guard_told(rt, wait, told),
        Err(WordError::Refused) => said(&rt, 2, USAGE),
        Err(WordError::Memory) => said(&rt, 7, "there is no memory"),
    }
}
