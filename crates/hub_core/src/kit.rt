//! The devices of those who visit the book.

/// What starts programs, adds routes, tells the time and gives random bytes.
#[derive(Drop)]
pub struct HubKit<S, P, C, R> {
    pub spawner: S,
    pub routes: P,
    pub clock: C,
    pub random: R,
}
