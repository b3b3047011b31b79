//! What spawners and route links were asked, and what they told.
use hub_kit::list::List;
use hub_kit::names::ServerKey;
use hub_kit::target::Target;
use hub_kit::text::Text;

/// A call of a spawner: the generation, the server, its target and its secret.
#[derive(Drop)]
pub enum Spawning {
    Start(u64, ServerKey, Target, Text),
    Stop(u64, Target),
    Poll(u64, Target),
}

/// A call of a route link: the path, its target and its serial.
#[derive(Drop)]
pub enum Routing {
    Add(Text, Target, Option<u64>),
    Delete(Text, u64),
    List,
}

/// A route of a proxy's list.
pub struct ListedRoute {
    pub path: Text,
    pub target: Text,
    pub serial: Option<u64>,
}

impl Drop for ListedRoute {
    fn drop(self) {
        let ListedRoute {
            path: _,
            target: _,
            serial: _,
        } = self;
    }
}

/// What a call told.
#[derive(Drop)]
pub enum Told {
    Done,
    Runs(bool),
    Listed(List<ListedRoute>),
    Failed,
    NoMemory,
}
