//! How a proxy ends.
ghost use Rattle.std.specs.Prelude.{◌≡◌};
ghost use Rattle.proxy_serving.specs.Ends as spec;

/// Why a proxy ended. It goes on until each of its listeners has failed.
#[derive(Clone, Copy, Debug, PartialEq, Eq)]
pub enum ProxyFault {
    Memory,
    /// `ready` wasn't written.
    Output,
    /// A listener failed.
    Listener,
    /// Each listener gave as many connections as a number can count.
    Full,
}

impl ProxyFault {
    /// The exit status.
    pub fn status(self) -> u8
        ensures { result ≡ spec.status_of self }
    {
        match self {
            ProxyFault::Full => 0,
            ProxyFault::Output => 6,
            ProxyFault::Memory => 7,
            ProxyFault::Listener => 8,
        }
    }
}

/// How many connections were forwarded and how many answered, and why no more were.
#[derive(Clone, Copy, Debug, PartialEq, Eq)]
pub struct ProxyEnd {
    pub forwarded: u64,
    pub answered: u64,
    pub fault: ProxyFault,
}
