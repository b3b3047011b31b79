//! Programs to be started, of which no more is told than whether there was memory.
use std::alloc::AllocError;
use std::os::fd::OwnedFd;
use std::os::unix::net::UnixStream;
use std::process::{Command, Stdio};

/// Adds a word to a command.
pub(crate) fn add(command: &mut Command, word: &str) -> Result<(), AllocError> {
    command.arg(word)?;
    Ok(())
}

/// Adds words to a command.
pub(crate) fn add_all(command: &mut Command, words: &[&str]) -> Result<(), AllocError> {
    for word in words {
        add(command, *word)?;
    }
    Ok(())
}

/// Gives the program a variable.
pub(crate) fn set(command: &mut Command, name: &str, value: &str) -> Result<(), AllocError> {
    command.env(name, value)?;
    Ok(())
}

/// Takes a variable out of what the program gets.
pub(crate) fn unset(command: &mut Command, name: &str) -> Result<(), AllocError> {
    command.env_remove(name)?;
    Ok(())
}

/// Gives the program no input, and throws away what it writes.
pub(crate) fn silence(command: &mut Command) {
    command.stdin(Stdio::null());
    command.stdout(Stdio::null());
    command.stderr(Stdio::null());
}

/// Gives the program an input that is written here, and a stream for what it writes.
pub(crate) fn connect(command: &mut Command, output: UnixStream) {
    command.stdin(Stdio::piped());
    command.stdout(OwnedFd::from(output));
}
