//! What a book begins with.
ghost use Rattle.std.specs.Prelude.{◌≡◌};
ghost use Rattle.hub_opening.specs.Opening as spec;

use hub_kit::list::List;
use hub_kit::names::{ServiceName, UserName};
use hub_kit::target::Target;
use hub_kit::text::Text;
use hub_rows::limits::Limits;
use hub_rows::records::{Group, Role};
use scope_filters::holder::Owner;
use scope_filters::scope::RawScope;
use scope_names::custom::CustomRow;
use server_life::Pool;

/// A user that is there from the opening on.
#[derive(Clone, Copy)]
pub struct ConfigUser {
    pub name: UserName,
    pub admin: bool,
}

/// A service that is there from the opening on. Its configuration gives both a redirect URI and a secret, and then it is a client
/// of OAuth, `service:NAME`, or neither. With only one of them it is no client.
pub struct ConfigService {
    pub name: ServiceName,
    pub redirect_uri: Option<Text>,
    /// The text of the client's secret, of which only the hash is kept.
    pub secret: Option<Text>,
}

impl Drop for ConfigService {
    fn drop(self) {
        let ConfigService {
            name: _,
            redirect_uri: _,
            secret: _,
        } = self;
    }
}

/// A token that is there from the opening on, if its owner is. It has no end.
pub struct ConfigToken {
    pub text: Text,
    pub owner: Owner,
    /// At most 64.
    pub scopes: List<RawScope>,
}

impl Drop for ConfigToken {
    fn drop(self) {
        let ConfigToken {
            text: _,
            owner: _,
            scopes: _,
        } = self;
    }
}

/// What a hub is set up with.
pub struct HubConfig {
    /// The targets that servers may hold.
    pub pool: Pool,
    /// The target of the hub itself.
    pub hub_url: Option<Target>,
    pub limits: Limits,
    /// Whether the entries of the history cost nothing, so that its length alone is limited.
    pub no_trail: bool,
    pub users: List<ConfigUser>,
    /// The first of a name counts, and no group that is there is replaced. A user that isn't there is left out of it.
    pub groups: List<Group>,
    /// A service that is there stays. The client of one replaces that of its name, so that the last counts.
    pub services: List<ConfigService>,
    /// Each replaces the one of its name, so that the last counts. A user, a group or a service that isn't there is left out of it.
    /// None is named `user` or `admin`: these every hub has, and to set one up is a mistake that the reader of the configuration refuses.
    pub roles: List<Role>,
    pub tokens: List<ConfigToken>,
    /// The declared custom scopes. They make a table of scopes, as the reader of the configuration found.
    pub custom_scopes: List<CustomRow>,
}

impl Drop for HubConfig {
    fn drop(self) {
        let HubConfig {
            pool: _,
            hub_url: _,
            limits: _,
            no_trail: _,
            users: _,
            groups: _,
            services: _,
            roles: _,
            tokens: _,
            custom_scopes: _,
        } = self;
    }
}

/// The limits of a hub that lowers none: numbers of rows, and the bytes of the trail.
pub fn greatest_limits() -> Limits
    ensures { result ≡ spec.greatest_limits }
{
    Limits {
        users: 100_000,
        groups: 10_000,
        services: 1_000,
        roles: 1_000,
        servers: 100,
        tokens: 1_000_000,
        shares: 100_000,
        codes: 100_000,
        trail_bytes: 1_073_741_824,
    }
}
