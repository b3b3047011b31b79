//! What a life asks of the devices.
use hub_kit::names::ServerKey;
use hub_kit::target::Target;
use hub_kit::text::Text;

/// The generation of a server with all that its calls need. A start needs the secret too.
#[derive(Drop)]
pub struct Work {
    pub generation: u64,
    pub server: ServerKey,
    pub path: Text,
    pub target: Target,
    pub secret: Option<Text>,
}

#[derive(Clone, Copy, PartialEq, Eq)]
pub enum Device {
    Spawner,
    Proxy,
}

/// Whether the end of a life was kept. Other outcomes don't ask it.
#[derive(Clone, Copy, PartialEq, Eq)]
pub enum Kept {
    NotAsked,
    Kept,
    KeeperFault,
    Memory,
}
