//! How a program of a server is started.
use crate::commands::{add, connect, set};
use crate::limits::READY_SECONDS;
use crate::marked::{HUB, MARK, mark_of, own_hub};
use crate::targets::address_of;
use crate::variables::hide_secrets;
use crate::waiting::time_left;
use hub_kit::names::ServerKey;
use hub_kit::target::Target;
use hub_kit::text::Text;
use std::alloc::{AllocError, Global};
use std::fmt::{self, Display, Formatter};
use std::io::{self, ErrorKind, Read, Write};
use std::os::unix::net::UnixStream;
use std::process::{Child, ChildStdin, Command};
use std::time::{Duration, Instant};

/// What a program writes as its first line once it listens.
const READY: &[u8] = b"ready\n";

/// Why a program isn't started.
#[derive(Clone, Copy, Debug, PartialEq, Eq)]
pub enum StartFault {
    NoCommand,
    /// The name of a variable of the hub's environment says that it is secret, and is no UTF-8.
    SecretName,
    /// What an earlier hub left running at its target can't be ended, and the system's error.
    Left(ErrorKind),
    /// Another program listens at its target.
    Taken,
    /// The system's error.
    System(ErrorKind),
    /// The program ended before it was ready.
    Ended,
    /// Its first line is another one.
    OtherLine,
    Late,
}

impl From<io::Error> for StartFault {
    fn from(error: io::Error) -> StartFault {
        StartFault::System(error.kind())
    }
}

impl From<AllocError> for StartFault {
    fn from(_: AllocError) -> StartFault {
        StartFault::System(ErrorKind::OutOfMemory)
    }
}

impl Display for StartFault {
    fn fmt<W: fmt::Write>(&self, f: &mut Formatter<W>) -> fmt::Result {
        match self {
            StartFault::NoCommand => f.write_str("no command is configured"),
            StartFault::SecretName => f.write_str(
                "a variable of the hub's environment has a name that says that it is secret and is no UTF-8",
            ),
            StartFault::Left(kind) => write!(
                f,
                "what an earlier hub left running at its target can't be ended: {kind:?}"
            ),
            StartFault::Taken => f.write_str("its target is taken by another program"),
            StartFault::System(kind) => write!(f, "{kind:?}"),
            StartFault::Ended => f.write_str("it ended before it said that it is ready"),
            StartFault::OtherLine => f.write_str("its first line is not `ready`"),
            StartFault::Late => write!(
                f,
                "it did not say that it is ready within {READY_SECONDS} seconds"
            ),
        }
    }
}

/// A word of the command, for a server at a port.
fn word_for(alloc: Global, word: &str, key: &ServerKey, port: &str) -> Result<String, AllocError> {
    let word = word.replace(alloc, "{port}", port)?;
    let word = word.replace(alloc, "{user}", key.user.as_str())?;
    word.replace(alloc, "{server}", key.server.as_str())
}

/// The command for a server at a target, in a group of its own.
fn command_for(
    rt: &HostRuntime,
    words: &[Text],
    generation: u64,
    key: &ServerKey,
    target: &Target,
) -> Result<Command, StartFault> {
    if words.is_empty() {
        return Err(StartFault::NoCommand);
    }
    let mut command = Command::new(rt.alloc(), "setsid")?;
    prepare(rt, &mut command, words, generation, key, target)?;
    Ok(command)
}

/// Gives a program its words and its environment.
fn prepare(
    rt: &HostRuntime,
    command: &mut Command,
    words: &[Text],
    generation: u64,
    key: &ServerKey,
    target: &Target,
) -> Result<(), StartFault> {
    add_words(rt.alloc(), command, words, key, port_of(target))?;
    hide_secrets(rt, rt.alloc(), command)?;
    add_mark(rt.alloc(), command, generation, target)?;
    add_hub(rt, command)?;
    Ok(())
}

/// The port of a target.
fn port_of(target: &Target) -> &str {
    match address_of(target).rsplit_once(':') {
        Some((_, port)) => port,
        None => "",
    }
}

/// Adds the words of a command, for a server at a port.
fn add_words(
    alloc: Global,
    command: &mut Command,
    words: &[Text],
    key: &ServerKey,
    port: &str,
) -> Result<(), AllocError> {
    for word in words {
        let word = word_for(alloc, word.as_str(), key, port)?;
        add(command, word.as_str())?;
    }
    Ok(())
}

/// Says in the environment of the program for what it is started.
fn add_mark(
    alloc: Global,
    command: &mut Command,
    generation: u64,
    target: &Target,
) -> Result<(), AllocError> {
    let mark = mark_of(alloc, generation, target)?;
    set(command, MARK, mark.as_str())
}

/// Says in the environment of the program by which hub it is started.
fn add_hub(rt: &HostRuntime, command: &mut Command) -> io::Result<()> {
    let hub = own_hub(rt)?;
    set(command, HUB, hub.as_str())?;
    Ok(())
}

/// Starts a program, its output one of a pair of sockets, so that a read can have a limit. The command is dropped here: it holds
/// the other socket open.
pub(crate) fn start_program(
    rt: &HostRuntime,
    words: &[Text],
    generation: u64,
    key: &ServerKey,
    target: &Target,
) -> Result<(Child, UnixStream), StartFault> {
    let mut command = command_for(rt, words, generation, key, target)?;
    let started = start(rt, &mut command);
    drop(command);
    Ok(started?)
}

/// Starts a program with a pair of sockets.
fn start(rt: &HostRuntime, command: &mut Command) -> io::Result<(Child, UnixStream)> {
    let (near, far) = UnixStream::pair(rt)?;
    connect(command, far);
    Ok((command.spawn(rt)?, near))
}

/// Writes the secret and a line's end, and closes the program's input.
pub(crate) fn tell_secret(
    alloc: Global,
    child: &mut Child,
    secret: &Text,
) -> Result<(), StartFault> {
    let line = line_of(alloc, secret)?;
    match child.stdin.take() {
        Some(input) => tell(input, line.as_bytes()),
        None => Err(StartFault::Ended),
    }
}

/// A text and a line's end.
fn line_of(alloc: Global, text: &Text) -> Result<String, AllocError> {
    let text = text.as_str();
    format!(in alloc; "{text}\n")
}

/// Writes to a program and closes its input.
fn tell(mut input: ChildStdin, line: &[u8]) -> Result<(), StartFault> {
    match input.write_all(line) {
        Ok(()) => Ok(()),
        Err(error) if error.kind() == ErrorKind::BrokenPipe => Err(StartFault::Ended),
        Err(error) => Err(StartFault::from(error)),
    }
}

/// Waits for the line `ready`. Nothing behind it is read.
pub(crate) fn await_ready(rt: &HostRuntime, output: &UnixStream) -> Result<(), StartFault> {
    let begun = Instant::now(rt)?;
    for want in READY {
        await_byte(rt, output, begun, *want)?;
    }
    output.set_read_timeout(None)?;
    Ok(())
}

/// Waits for the next byte, which has to be this one.
fn await_byte(
    rt: &HostRuntime,
    output: &UnixStream,
    begun: Instant,
    want: u8,
) -> Result<(), StartFault> {
    match next_byte(rt, output, begun)? {
        Some(byte) if byte == want => Ok(()),
        Some(_) => Err(StartFault::OtherLine),
        None => Err(StartFault::Ended),
    }
}

/// The next byte that a program writes which began at an instant, or `None` at the end.
fn next_byte(
    rt: &HostRuntime,
    output: &UnixStream,
    begun: Instant,
) -> Result<Option<u8>, StartFault> {
    for _ in 0..u64::MAX {
        let Some(left) = time_left(rt, begun, Duration::from_secs(READY_SECONDS))? else {
            break;
        };
        output.set_read_timeout(Some(left))?;
        match read_byte(output) {
            Ok(byte) => return Ok(byte),
            Err(error) if error.kind() == ErrorKind::WouldBlock => break,
            Err(error) if error.kind() == ErrorKind::Interrupted => {}
            Err(error) => return Err(StartFault::from(error)),
        }
    }
    Err(StartFault::Late)
}

/// Reads a byte, or `None` at the end.
fn read_byte(mut input: &UnixStream) -> io::Result<Option<u8>> {
    let mut byte = [0u8; 1];
    match input.read(&mut byte)? {
        0 => Ok(None),
        _ => Ok(Some(byte[0])),
    }
}

/// Reads what a program writes until its output is closed, so that it never waits.
pub(crate) fn drain(output: UnixStream) {
    for _ in 0..u64::MAX {
        if !goes_on(&output) {
            return;
        }
    }
}

/// Reads what a program has written, and says whether more may come.
fn goes_on(mut input: &UnixStream) -> bool {
    let mut buf = [0u8; 4096];
    match input.read(&mut buf) {
        Ok(count) => count != 0,
        Err(error) => error.kind() == ErrorKind::Interrupted,
    }
}
