//! The outside of the command `serve`.
use crate::end::End;
use hub_devices::clock::Clock;
use hub_devices::listener::Listener;
use hub_devices::random::Random;
use hub_devices::route_link::RouteLink;
use hub_devices::sink::Sink;
use hub_devices::spawner::Spawner;
use hub_run::HubKit;
use keeper::keeper::Keeper;
use service_doors::kit::ServiceKit;
use services_run::running::Running;
use services_run::services::Services;

/// The types of the devices outside. What the workers use crosses threads.
pub trait ServeWorld {
    type Out: Sink + Drop;

    type Store: Keeper + Send;

    type Starts: Spawner + Send + Drop;

    type Paths: RouteLink + Send + Drop;

    type Time: Clock + Send + Drop;

    type Draws: Random + Send + Drop;

    type Doors: Listener<In: Send, Out: Send> + Send + Drop;

    type Runs: Running + Send + Drop;
}

/// What the program hands to the command, once its plan is read: there is no file in it.
#[derive(Drop)]
pub struct ServeOutside<W: ServeWorld> {
    pub output: W::Out,
    /// What keeps the rows. There is one before the command and after it.
    pub store: Option<W::Store>,
    /// The devices by which the hub is opened and takes its running servers back.
    pub kit: HubKit<W::Starts, W::Paths, W::Time, W::Draws>,
    /// The devices of the workers, of which there are as many.
    pub kits: Vec<HubKit<W::Starts, W::Paths, W::Time, W::Draws>>,
    pub doors: W::Doors,
    /// The devices by which services are started, routed and stopped.
    pub services: ServiceKit<W::Runs, W::Paths, W::Time>,
    /// The services once they were stopped, for what is said to people of those that couldn't be. There are none before.
    pub stopped: Option<Services>,
    /// How the command ended, for what is said to people.
    pub end: Option<End>,
}
