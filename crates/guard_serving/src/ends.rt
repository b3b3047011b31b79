//! How a guard ends.
ghost use Rattle.std.specs.Prelude.{◌≡◌};
ghost use Rattle.guard_serving.specs.Ends as spec;

use secret_files::SecretError;
use std::fmt;
use worker_hall::HallFault;

/// Why a guard ended. Once it serves it goes on until its listener fails.
#[derive(Clone, Copy, Debug, PartialEq, Eq)]
pub enum GuardFault {
    /// The words aren't those of the command.
    Words,
    /// The file of the secret wasn't read.
    NoFile,
    /// Its text is no secret.
    NoSecret,
    /// `ready` wasn't written.
    Output,
    Memory,
    /// The listener failed.
    Listener,
    /// The listener gave as many connections as a number can count.
    Full,
}

impl GuardFault {
    /// Why there is no secret to serve by.
    pub(crate) fn of_secret(error: SecretError) -> GuardFault
        ensures { result ≡ spec.fault_of_secret error }
    {
        match error {
            SecretError::NoFile => GuardFault::NoFile,
            SecretError::NoSecret => GuardFault::NoSecret,
            SecretError::Memory => GuardFault::Memory,
        }
    }

    /// Why no more connections were served.
    pub(crate) fn of_hall(served: Result<(), HallFault>) -> GuardFault
        ensures { result ≡ spec.fault_of_hall served }
    {
        match served {
            Ok(()) => GuardFault::Full,
            Err(HallFault::Listener(_)) => GuardFault::Listener,
            Err(HallFault::Memory) => GuardFault::Memory,
        }
    }

    /// The exit status.
    pub fn status(self) -> u8
        ensures { result ≡ spec.status_of self }
    {
        match self {
            GuardFault::Full => 0,
            GuardFault::Words => 2,
            GuardFault::NoFile | GuardFault::NoSecret => 3,
            GuardFault::Output => 6,
            GuardFault::Memory => 7,
            GuardFault::Listener => 8,
        }
    }
}

impl fmt::Display for GuardFault {
    fn fmt<W: fmt::Write>(&self, f: &mut fmt::Formatter<W>) -> fmt::Result {
        let why = match self {
            GuardFault::Words => "these are not the words of the command",
            GuardFault::NoFile => "the file with the secret can't be read",
            GuardFault::NoSecret => "the file's text is no secret",
            GuardFault::Output => "ready can't be written",
            GuardFault::Memory => "there is no memory",
            GuardFault::Listener => "the listener failed",
            GuardFault::Full => "no more connections can be counted",
        };
        f.write_str(why)
    }
}

/// How many connections were served, and why no more were.
#[derive(Clone, Copy, Debug, PartialEq, Eq)]
pub struct GuardEnd {
    pub served: u64,
    pub fault: GuardFault,
}

/// The end before any connection.
pub(crate) fn unserved(fault: GuardFault) -> GuardEnd
    ensures { result ≡ spec.unserved fault }
{
    GuardEnd { served: 0, fault }
}
