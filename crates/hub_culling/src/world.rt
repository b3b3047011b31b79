//! The outside of the command.
use crate::pause::Pause;
use hub_devices::clock::Clock;
use hub_devices::files::Files;
use hub_devices::sink::Sink;
use hub_link::link::HubLink;

/// The types of the devices outside.
pub trait World {
    type Out: Sink + Drop;

    type Reads: Files + Drop;

    type Time: Clock + Drop;

    type Asks: HubLink + Drop;

    type Rests: Pause + Drop;
}

/// What the program hands to the command.
#[derive(Drop)]
pub struct Outside<W: World> {
    /// Where the lines go.
    pub output: W::Out,
    pub files: W::Reads,
    pub clock: W::Time,
    /// The hub that is asked.
    pub link: W::Asks,
    /// Where it waits between two rounds.
    pub rest: W::Rests,
}
