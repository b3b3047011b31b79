//! A service and its state.
use hub_kit::names::ServiceName;
use hub_kit::target::Target;
use hub_kit::text::Text;

/// A service that the hub starts itself.
pub struct Managed {
    pub name: ServiceName,
    /// Where its program listens.
    pub target: Target,
    /// What its program proves itself by.
    pub secret: Text,
}

impl Drop for Managed {
    fn drop(self) {
        let Managed {
            name: _,
            target: _,
            secret: _,
        } = self;
    }
}

/// What is known of a service. A program has a number, which the numbers of later programs are above.
#[derive(Clone, Copy, Debug, PartialEq, Eq)]
pub enum State {
    /// No program of it runs.
    Down,
    /// Its program was started and its path added.
    Up(u64),
    /// Its program may run, and its path may be there.
    Loose(u64),
    /// It failed five times, and isn't started any more.
    GivenUp,
}

/// A service with its path, its state, and how often it failed since it was last found running.
pub struct Place {
    pub managed: Managed,
    pub path: Text,
    pub state: State,
    pub tries: u32,
}

impl Drop for Place {
    fn drop(self) {
        let Place {
            managed: _,
            path: _,
            state: _,
            tries: _,
        } = self;
    }
}

/// What a visit counts as.
#[derive(Clone, Copy, Debug, PartialEq, Eq)]
pub enum Outcome {
    Quiet,
    Started,
    Lost,
    Failing,
}

/// What a visit made of a service, and the last number that a program got.
#[derive(Clone, Copy, Debug, PartialEq, Eq)]
pub struct Turn {
    pub state: State,
    pub tries: u32,
    pub last: u64,
    pub outcome: Outcome,
}

/// What one round did.
#[derive(Clone, Copy, Debug, PartialEq, Eq)]
pub struct Tended {
    /// How many services were started and routed.
    pub started: u32,
    /// How many had ended by themselves.
    pub lost: u32,
    /// How many weren't started, or not routed.
    pub failed: u32,
}
