//! All that a file of configuration says.

use hub_kit::list::List;
use hub_kit::names::ServiceName;
use hub_kit::target::Target;
use hub_kit::text::Text;
use hub_opening::config::HubConfig;

/// A service whose program the hub starts, and to which requests under `/services/NAME` go.
pub struct ConfigManaged {
    pub name: ServiceName,
    /// The words of its program, at least one.
    pub command: List<Text>,
    /// Where the program listens.
    pub target: Target,
    /// The secret that the program gets, which is the one of the service.
    pub secret: Text,
}

impl Drop for ConfigManaged {
    fn drop(self) {
        let ConfigManaged {
            name: _,
            command: _,
            target: _,
            secret: _,
        } = self;
    }
}

/// All that a file sets up.
#[derive(Drop)]
pub struct FileConfig {
    /// What a hub begins with.
    pub hub: HubConfig,
    /// The services that have a program: no two of one name or at one target, and none at a target of the pool.
    pub managed: List<ConfigManaged>,
    /// Where the hub listens, `HOST:PORT`, in the text that was given.
    pub listen: Option<Text>,
    /// The words of the program that is started for a server. Without any, each start fails.
    pub command: List<Text>,
    /// The target of the proxy's interface, and its secret.
    pub proxy: Option<(Target, Text)>,
}
