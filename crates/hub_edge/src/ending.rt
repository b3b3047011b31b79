//! What ends a hub that serves: the end of standard input, where somebody holds it, or a signal that asks for it.
use crate::listener::Closer;
use crate::pending::signals_at;
use std::fs;
use std::io::{self, ErrorKind, IsTerminal, Read};
use std::os::unix::fs::FileTypeExt;
use std::sync::Wait;
use std::thread::{self, Builder, Threads};
use std::time::Duration;

/// The least stack that a thread may have.
const SMALL_STACK: usize = 131072;

/// How many milliseconds pass between two looks for a signal.
const LOOK_MILLIS: u64 = 100;

/// The signals that are blocked, and those that came and wait.
const BLOCKED: &str = "\nSigBlk:\t";

const PENDING: &str = "\nShdPnd:\t";

/// Whether somebody holds standard input, so that its end is meant: it is a terminal, a pipe, a FIFO or a socket. /dev/null and a file have
/// an end that nobody meant.
fn input_is_held(rt: &HostRuntime) -> bool {
    if rt.stdin().is_terminal() {
        return true;
    }
    match fs::metadata(rt, "/proc/self/fd/0") {
        Ok(found) => found.file_type().is_fifo() || found.file_type().is_socket(),
        Err(_) => false,
    }
}

/// Reads standard input until it ends, or fails.
fn await_end(rt: HostRuntime) {
    let mut input = rt.reader();
    let mut buf = [0u8; 4096];
    for _ in 0..u64::MAX {
        match input.read(&mut buf) {
            Err(error) if error.kind() == ErrorKind::Interrupted => {}
            Ok(0) | Err(_) => return,
            Ok(_) => {}
        }
    }
}

/// Has the listener closed once standard input has ended, where somebody holds it. Nothing else may read it.
pub fn close_at_end_of_input<H: Threads + Wait>(
    rt: HostRuntime,
    handle: &H,
    closer: Closer,
) -> io::Result<()> {
    if !input_is_held(&rt) {
        return Ok(());
    }
    Builder::new()
        .stack_size(SMALL_STACK)
        .spawn(handle, move || {
            await_end(rt);
            closer.close();
        })?;
    Ok(())
}

/// Whether a set of signals of this process has SIGTERM or SIGINT.
fn has_end(rt: &HostRuntime, key: &str) -> bool {
    match fs::read(rt, "/proc/self/status") {
        Ok(text) => {
            let signals = signals_at(text.as_slice(), key.as_bytes());
            signals.has_term() || signals.has_int()
        }
        Err(_) => false,
    }
}

/// Waits until one of them came.
fn await_signal(rt: HostRuntime) {
    for _ in 0..u64::MAX {
        if has_end(&rt, PENDING) {
            return;
        }
        thread::sleep(&rt, Duration::from_millis(LOOK_MILLIS));
    }
}

/// Has the listener closed once SIGTERM or SIGINT came, where who started the program blocked one of them (`env --block-signal=TERM,INT`).
/// A signal that isn't blocked ends the program at once.
pub fn close_at_signal<H: Threads + Wait>(
    rt: HostRuntime,
    handle: &H,
    closer: Closer,
) -> io::Result<()> {
    if !has_end(&rt, BLOCKED) {
        return Ok(());
    }
    Builder::new()
        .stack_size(SMALL_STACK)
        .spawn(handle, move || {
            await_signal(rt);
            closer.close();
        })?;
    Ok(())
}
