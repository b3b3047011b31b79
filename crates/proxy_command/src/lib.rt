//! The command `proxy` over the system's devices: its words, the file with its secret, its two listeners, and its workers' targets.
//! What it does is the contract of `proxy_serving::serve_words`: each listener is that of its address. It adds the statuses of what can't
//! begin, and what is said to people on standard error, of which no contract speaks.
//! The program `hub` stands above.
#![tactic(auto)]

ghost use Rattle.std.specs.Prelude.{◌≡◌, ◌≢◌, ◌⊎◌, ◌<◌, length, None, IfOk};
ghost use Rattle.std.specs.Process.{exit_status};
ghost use Rattle.hub_words.specs.Proxy.{proxy_read};

use hub_edge::clock::SystemClock;
use hub_edge::files::SystemFiles;
use hub_edge::output::{Output, say};
use hub_kit::text::Text;
use hub_words::proxy::{ProxyWords, read_proxy};
use hub_words::word_error::WordError;
use proxy_serving::{ProxyFault, ProxyKit, serve_words};
use secret_files::{SecretError, read_secret_file};
use std::alloc::AllocError;
use std::process::ExitCode;
use std::sync::Wait;
use std::thread::Threads;
use upstream_edge::{SocketUpstream, TunnelListener};

/// How many connections are forwarded at once.
const WORKERS: usize = 1024;

/// How many calls of the interface are answered at once.
const API_WORKERS: usize = 16;

const USAGE: &str =
    "these are not the words of the command: hub proxy --listen A --api A --secret-file F";

type Kit<'a, W> = ProxyKit<SocketUpstream<'a, W>, SystemClock>;

fn new_kit<W: Threads>(rt: HostRuntime, threads: &W) -> Kit<'_, W> {
    ProxyKit {
        upstream: SocketUpstream::new(rt, threads),
        clock: SystemClock::new(rt),
    }
}

/// The devices of each worker.
fn new_kits<W: Threads>(rt: HostRuntime, threads: &W) -> Result<Vec<Kit<'_, W>>, AllocError>
    ensures { IfOk result (λ kits. 0 < length kits.items) }
{
    let mut kits = Vec::new(rt.alloc());
    for _ in 1..WORKERS {
        kits.push(new_kit(rt, threads))?;
    }
    kits.push(new_kit(rt, threads))?;
    Ok(kits)
}

/// A clock for each worker of the interface.
fn new_clocks(rt: HostRuntime) -> Result<Vec<SystemClock>, AllocError>
    ensures { IfOk result (λ clocks. 0 < length clocks.items) }
{
    let mut clocks = Vec::new(rt.alloc());
    for _ in 1..API_WORKERS {
        clocks.push(SystemClock::new(rt))?;
    }
    clocks.push(SystemClock::new(rt))?;
    Ok(clocks)
}

/// Says why there is this status.
fn said(rt: &HostRuntime, status: u8, why: &str) -> ExitCode
    ensures { exit_status result ≡ status }
{
    let _ = say(rt, status, why);
    ExitCode::from(status)
}

/// Serves at the addresses of the words.
fn serve_at<W: Threads + Wait + Sync>(
    rt: HostRuntime,
    wait: &W,
    words: &ProxyWords,
    secret: &Text,
) -> ExitCode
    ensures { exit_status result ≢ 2 }
{
    let Ok(mut browsers) = TunnelListener::bind(rt, &words.listen) else {
        return said(&rt, 8, "the address of --listen can't be had");
    };
    let Ok(mut api) = TunnelListener::bind(rt, &words.api) else {
        return said(&rt, 8, "the address of --api can't be had");
    };
    let Ok(mut clocks) = new_clocks(rt) else {
        return said(&rt, 7, "there is no memory");
    };
    let Ok(mut kits) = new_kits(rt, wait) else {
        return said(&rt, 7, "there is no memory");
    };
    let mut output = Output::new(rt);
    let end = serve_words(
        wait,
        rt.alloc(),
        words,
        secret,
        &mut browsers,
        &mut api,
        &mut kits,
        &mut clocks,
        &mut output,
    );
    drop(kits);
    drop(clocks);
    let why = match end.fault {
        ProxyFault::Memory => "there is no memory",
        ProxyFault::Output => "ready couldn't be written",
        ProxyFault::Listener => "a listener failed",
        ProxyFault::Full => "no more connections can be counted",
    };
    said(&rt, end.fault.status(), why)
}

/// Runs the command `proxy` with these words over the system's devices. Where they are refused the status is 2, or 7 for want of memory,
/// and 2 is the status of nothing else.
pub fn proxy<W: Threads + Wait + Sync>(rt: HostRuntime, wait: &W, words: &[Text]) -> ExitCode
    ensures refused { proxy_read words.now ≡ None → (exit_status result ≡ 2) ⊎ (exit_status result ≡ 7) }
    ensures read { exit_status result ≡ 2 → proxy_read words.now ≡ None }
{
    let words = match read_proxy(rt.alloc(), words) {
        Ok(words) => words,
        Err(WordError::Refused) => return said(&rt, 2, USAGE),
        Err(WordError::Memory) => return said(&rt, 7, "there is no memory"),
    };
    let mut files = SystemFiles::new(rt);
    match read_secret_file(rt.alloc(), &mut files, &words.secret_file) {
        Ok(secret) => serve_at(rt, wait, &words, &secret),
        Err(SecretError::NoFile) => said(&rt, 3, "the file with the secret wasn't read"),
        Err(SecretError::NoSecret) => said(&rt, 3, "the file's text is no secret"),
        Err(SecretError::Memory) => said(&rt, 7, "there is no memory"),
    }
}
