//! The devices of a guard's worker.
use hub_devices::random::Random;
use hub_link::link::HubLink;
use upstreams::upstream::Upstream;

/// A worker's own devices.
#[derive(Drop)]
pub struct GuardKit<H: HubLink, R: Random, U: Upstream> {
    /// The hub that is asked.
    pub link: H,
    pub random: R,
    pub upstream: U,
}
