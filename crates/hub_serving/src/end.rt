//! How the command `serve` ended.
ghost use Rattle.std.specs.Prelude.{◌≡◌};
ghost use Rattle.hub_serving.specs.Ends as spec;

use hub_main::cause::Cause;
use std::fmt;

/// Why nobody was served.
#[derive(Drop)]
pub enum NotServed {
    Because(Cause),
    /// The configuration doesn't say where to listen.
    NoAddress,
}

/// Whether the line was written that tells how many connections were served.
#[derive(Clone, Copy, Debug, PartialEq, Eq)]
pub enum Line {
    Written,
    /// The output failed.
    Failed,
    NoMemory,
}

/// How the serving of connections ended.
#[derive(Clone, Copy, Debug, PartialEq, Eq)]
pub struct Ended {
    /// How many connections were served.
    pub count: u64,
    /// Whether the listener failed, so that they are fewer than were asked.
    pub failed: bool,
    pub line: Line,
}

pub type End = Result<Ended, NotServed>;

impl fmt::Display for NotServed {
    fn fmt<W: fmt::Write>(&self, f: &mut fmt::Formatter<W>) -> fmt::Result {
        match self {
            NotServed::Because(cause) => write!(f, "{cause}"),
            NotServed::NoAddress => write!(f, "the configuration doesn't say where to listen"),
        }
    }
}

/// The exit status where all was served and the line was or wasn't written.
pub fn line_status(line: Line) -> u8
    ensures { result ≡ spec.line_status line }
{
    match line {
        Line::Written => 0,
        Line::Failed => 6,
        Line::NoMemory => 7,
    }
}

/// The exit status: 0 where all were served and the line says so, 8 where the listener failed, and otherwise that of the cause.
pub fn status_of(end: &End) -> u8
    ensures { result ≡ spec.status_of end.now }
{
    match end {
        Ok(ended) => {
            if ended.failed {
                8
            } else {
                line_status(ended.line)
            }
        }
        Err(why) => why.status(),
    }
}

/// The same of a listener that may have been closed from within: then it hasn't failed, and all that it had accepted was served.
pub fn forgiven_status(end: &End, closed: bool) -> u8
    ensures { result ≡ spec.forgiven_status closed end.now }
{
    match end {
        Ok(ended) => {
            if ended.failed && closed {
                line_status(ended.line)
            } else {
                status_of(end)
            }
        }
        Err(why) => why.status(),
    }
}

impl NotServed {
    /// The exit status.
    pub fn status(&self) -> u8
        ensures { result ≡ spec.unserved_status self.now }
    {
        match self {
            NotServed::Because(cause) => cause.status(),
            NotServed::NoAddress => 3,
        }
    }
}
