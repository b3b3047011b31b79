//! Why a command did nothing.
ghost use Rattle.std.specs.Prelude.{◌≡◌};
ghost use Rattle.hub_main.specs.Ends as spec;

use crate::known_names::AnyName;
use hub_kit::bytes::Bytes;
use hub_opening::open_error::OpenError;
use std::fmt;

/// Why a command did nothing.
#[derive(Drop)]
pub enum Cause {
    /// The words are those of no command.
    Words,
    /// The file of configuration can't be read.
    NoFile,
    /// These bytes, which were read of it, are no configuration.
    NoConfig(Bytes),
    /// A list of the configuration has this name, which is neither kept nor configured.
    UnknownName(AnyName),
    /// The store refused the place that was chosen for it.
    NoStore,
    NotOpened(OpenError),
    Memory,
}

/// The exit status where no book was opened.
fn open_status(error: &OpenError) -> u8
    ensures { result ≡ spec.open_status error.now }
{
    match error {
        OpenError::LostTarget(_) | OpenError::Full { .. } => 3,
        OpenError::KeeperFault | OpenError::BadRow { .. } => 4,
        OpenError::Memory => 7,
    }
}

impl Cause {
    /// The exit status.
    pub fn status(&self) -> u8
        ensures { result ≡ spec.cause_status self.now }
    {
        match self {
            Cause::Words => 2,
            Cause::NoFile | Cause::NoConfig(_) | Cause::UnknownName(_) => 3,
            Cause::NoStore => 4,
            Cause::NotOpened(error) => open_status(error),
            Cause::Memory => 7,
        }
    }
}

impl fmt::Display for Cause {
    fn fmt<W: fmt::Write>(&self, f: &mut fmt::Formatter<W>) -> fmt::Result {
        match self {
            Cause::Words => write!(f, "these are the words of no command"),
            Cause::NoFile => write!(f, "the configuration can't be read"),
            Cause::NoConfig(_) => write!(f, "the configuration is refused"),
            Cause::UnknownName(name) => write!(
                f,
                "the configuration names {name}, which is neither kept nor configured"
            ),
            Cause::NoStore => write!(f, "the store can't be taken"),
            Cause::NotOpened(error) => write!(f, "{error}"),
            Cause::Memory => write!(f, "there is no memory"),
        }
    }
}
