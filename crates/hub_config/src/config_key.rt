//! The keys of a file of configuration.
ghost use Rattle.std.specs.Prelude.{◌≡◌};
ghost use Rattle.hub_config.specs.Keys as spec;

/// A key that a file of configuration may have, in it or in one of its tables.
#[derive(Clone, Copy, Debug)]
pub enum ConfigKey {
    Admin,
    Codes,
    Command,
    CustomScopes,
    Groups,
    HubUrl,
    Limits,
    Listen,
    Name,
    Pool,
    ProxyApi,
    ProxySecret,
    RedirectUri,
    Roles,
    Scopes,
    Secret,
    Servers,
    Service,
    Services,
    Shares,
    Subscopes,
    Target,
    Token,
    Tokens,
    TrailBytes,
    User,
    Users,
}

impl ConfigKey {
    pub fn text(self) -> &'static str
        ensures { result.now ≡ spec.text_of self }
    {
        match self {
            ConfigKey::Admin => "admin",
            ConfigKey::Codes => "codes",
            ConfigKey::Command => "command",
            ConfigKey::CustomScopes => "custom_scopes",
            ConfigKey::Groups => "groups",
            ConfigKey::HubUrl => "hub_url",
            ConfigKey::Limits => "limits",
            ConfigKey::Listen => "listen",
            ConfigKey::Name => "name",
            ConfigKey::Pool => "pool",
            ConfigKey::ProxyApi => "proxy_api",
            ConfigKey::ProxySecret => "proxy_secret",
            ConfigKey::RedirectUri => "redirect_uri",
            ConfigKey::Roles => "roles",
            ConfigKey::Scopes => "scopes",
            ConfigKey::Secret => "secret",
            ConfigKey::Servers => "servers",
            ConfigKey::Service => "service",
            ConfigKey::Services => "services",
            ConfigKey::Shares => "shares",
            ConfigKey::Subscopes => "subscopes",
            ConfigKey::Target => "target",
            ConfigKey::Token => "token",
            ConfigKey::Tokens => "tokens",
            ConfigKey::TrailBytes => "trail_bytes",
            ConfigKey::User => "user",
            ConfigKey::Users => "users",
        }
    }
}
