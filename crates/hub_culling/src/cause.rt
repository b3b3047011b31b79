//! Why the command ended before its last round.
ghost use Rattle.std.specs.Prelude.{◌≡◌};
ghost use Rattle.hub_culling.specs.Ends as spec;

use idle_culler::pages::CullFault;
use std::fmt;

/// Why the command ended before its last round.
#[derive(Clone, Copy, Debug, PartialEq, Eq)]
pub enum Cause {
    /// The words aren't those of the command.
    Words,
    /// The file of the token can't be read.
    NoFile,
    /// What it has is no token.
    NoToken,
    /// A line can't be written.
    Output,
    Memory,
    /// The hub can't be asked.
    Link,
    /// The reply to the request for a page isn't one: its status, or 0 where the bytes are no reply.
    BadReply(u16),
}

/// How the command ended: after its last round, or before it for a cause.
pub type End = Result<(), Cause>;

impl Cause {
    /// The cause that a round broke off.
    pub(crate) fn of_fault(fault: CullFault) -> Cause
        ensures { result ≡ spec.cause_of fault }
    {
        match fault {
            CullFault::LinkFault => Cause::Link,
            CullFault::BadReply(status) => Cause::BadReply(status),
            CullFault::Memory => Cause::Memory,
        }
    }

    /// The exit status.
    pub fn status(self) -> u8
        ensures { result ≡ spec.cause_status self }
    {
        match self {
            Cause::Words => 2,
            Cause::NoFile | Cause::NoToken => 3,
            Cause::Output => 6,
            Cause::Memory => 7,
            Cause::Link => 9,
            Cause::BadReply(_) => 11,
        }
    }
}

/// The exit status: 0 after the last round, and else that of the cause.
pub fn status_of(end: End) -> u8
    ensures { result ≡ spec.status_of end }
{
    match end {
        Ok(()) => 0,
        Err(cause) => cause.status(),
    }
}

impl fmt::Display for Cause {
    fn fmt<W: fmt::Write>(&self, f: &mut fmt::Formatter<W>) -> fmt::Result {
        match self {
            Cause::Words => write!(f, "these are not the words of the command"),
            Cause::NoFile => write!(f, "the file of the token can't be read"),
            Cause::NoToken => write!(f, "the file of the token has none"),
            Cause::Output => write!(f, "the output fails"),
            Cause::Memory => write!(f, "there is no memory"),
            Cause::Link => write!(f, "the hub can't be asked"),
            Cause::BadReply(0) => write!(f, "what the hub sent is no reply"),
            Cause::BadReply(status) => write!(f, "the hub's reply is no page of users: {status}"),
        }
    }
}
