//! The devices of services.

/// What runs their programs, what routes their paths, and the clock of their rounds.
#[derive(Drop)]
pub struct ServiceKit<R, P, C> {
    pub running: R,
    pub paths: P,
    pub clock: C,
}
