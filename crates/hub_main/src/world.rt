//! The outside of a command.
use crate::end::End;
use hub_devices::files::Files;
use hub_devices::mem_clock::FixedClock;
use hub_devices::random::Random;
use hub_devices::route_link::RouteLink;
use hub_devices::sink::Sink;
use hub_devices::source::Source;
use hub_devices::spawner::Spawner;
use hub_run::HubKit;
use keeper::keeper::Keeper;

/// The types of the devices outside. Members are added as commands come.
pub trait World {
    type In: Source + Drop;

    type Out: Sink + Drop;

    type Store: Keeper;

    type Starts: Spawner + Drop;

    type Paths: RouteLink + Drop;

    type Draws: Random + Drop;

    type Reads: Files + Drop;
}

/// What the program hands to a command. Members are added as commands come.
#[derive(Drop)]
pub struct Outside<W: World> {
    pub input: W::In,
    pub output: W::Out,
    /// What keeps the rows. There is one before each command and after it.
    pub store: Option<W::Store>,
    /// The devices of a connection. A session sets its clock.
    pub kit: HubKit<W::Starts, W::Paths, FixedClock, W::Draws>,
    pub files: W::Reads,
    /// How the last command ended, for what is said to people.
    pub end: Option<End>,
}
