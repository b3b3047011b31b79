//! Groups of processes: std knows none, so the shell sends the signals.
use crate::commands::{add_all, silence};
use std::alloc::{AllocError, Global};
use std::io::{self, ErrorKind};
use std::process::Command;

/// Sends a signal to each process of the group with this number.
pub(crate) fn signal(rt: &HostRuntime, name: &str, group: u32) -> io::Result<()> {
    let mut command = Command::new(rt.alloc(), "/bin/sh")?;
    let sent = send(rt, &mut command, name, group);
    drop(command);
    sent
}

/// Has a shell send a signal to a group.
fn send(rt: &HostRuntime, shell: &mut Command, name: &str, group: u32) -> io::Result<()> {
    add_words(rt.alloc(), shell, name, group)?;
    silence(shell);
    if shell.status(rt)?.success() {
        Ok(())
    } else {
        Err(io::Error::from(ErrorKind::Other))
    }
}

/// Adds the words of a shell that sends a signal to a group.
fn add_words(alloc: Global, shell: &mut Command, name: &str, group: u32) -> Result<(), AllocError> {
    let group = format!(in alloc; "-{group}")?;
    let send = "kill -s \"$1\" -- \"$2\"";
    add_all(shell, &["-c", send, "kill", name, group.as_str()])
}
