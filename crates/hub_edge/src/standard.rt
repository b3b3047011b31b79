//! The words of the command line, standard input and standard output.
ghost use Rattle.std.specs.Prelude.{◌≡◌, ℕ};

use hub_devices::sink::Sink;
use hub_devices::source::Source;
use hub_devices::streams::{ReaderSource, WriterSink};
use hub_kit::text::Text;
use std::env;
use std::fs::OpenOptions;
use std::io::{self, ErrorKind, Input, Printer, StdinLock};
use std::os::fd::{AsRawFd, IntoRawFd};

/// Why the words of the command line can't be had.
#[derive(Clone, Copy, Debug, PartialEq, Eq)]
pub enum NoWords {
    /// A word is no UTF-8.
    NoText,
    Memory,
}

/// The words behind the program's name.
pub fn words(rt: &HostRuntime) -> Result<Vec<Text>, NoWords> {
    let args = match env::args(rt) {
        Ok(args) => args,
        Err(error) if error.kind() == ErrorKind::OutOfMemory => return Err(NoWords::Memory),
        Err(_) => return Err(NoWords::NoText),
    };
    let mut words = Vec::new(rt.alloc());
    for arg in args.skip(1) {
        if words.push(Text::from_string(arg)).is_err() {
            return Err(NoWords::Memory);
        }
    }
    Ok(words)
}

/// Standard input.
pub fn input(rt: &HostRuntime) -> ReaderSource<StdinLock<'static>>
    ensures { ⟦<ReaderSource<StdinLock<'static>> as Source>⟧.faults result ≡ 0 }
{
    ReaderSource::new(rt.reader())
}

/// Standard output.
pub fn output(rt: &HostRuntime) -> WriterSink<Printer<'_, HostRuntime>>
    ensures { ⟦<WriterSink<Printer<'static, HostRuntime>> as Sink>⟧.faults result ≡ 0 }
{
    WriterSink::new(io::writer(rt))
}

/// Opens /dev/null at each of the numbers 0, 1 and 2 that nothing has. Else a file or a connection would get the number, and what is meant
/// for a standard stream would be written into it. So it is called before anything is opened.
pub fn keep_standard(rt: &HostRuntime) -> io::Result<()> {
    for _ in 0..4 {
        let file = OpenOptions::new()
            .read(true)
            .write(true)
            .open(rt, "/dev/null")?;
        if file.as_raw_fd() > 2 {
            break;
        }
        // it stays open
        let _ = file.into_raw_fd();
    }
    Ok(())
}
