//! The places and the limits of a configuration.
ghost use Rattle.std.specs.Prelude.{◌≡◌, ℕ};
ghost use Rattle.toml.specs.View.{view};
ghost use Rattle.hub_config.specs.Faults.{Read};
ghost use Rattle.hub_config.specs.Settings.{Gives, pair};
ghost use Rattle.hub_config.specs.Settings as settings;
ghost use Rattle.hub_config.specs.Places as spec;

use crate::config_key::ConfigKey;
use crate::fault::Rule;
use crate::forms::Secret;
use crate::setting::{
    ConfigError, Setting, both, has_only, limit, listed, optional, refused, refused_at, stands_with,
};
use addresses::address::Address;
use hub_kit::list::List;
use hub_kit::target::Target;
use hub_kit::text::Text;
use hub_opening::config::greatest_limits;
use hub_rows::limits::Limits;
use server_life::Pool;
use std::alloc::Global;
use toml::Value;

/// The pool of these targets, if they are at most 1,000 and distinct.
fn pool_from(targets: List<Target>) -> Option<Pool>
    ensures { result ≡ spec.pool_from targets }
{
    Pool::new(targets)
}

/// `pool`: a list of at most 1,000 targets, all distinct. It is empty where the key lacks.
pub(crate) fn pool(alloc: Global, value: &Value) -> Result<Pool, ConfigError>
    ensures { Gives result (spec.pool (view value.now)) }
{
    match listed::<Target>(alloc, value, ConfigKey::Pool) {
        Ok(targets) => match pool_from(targets) {
            Some(pool) => Ok(pool),
            None => Err(refused_at(ConfigKey::Pool, Rule::Pool)),
        },
        Err(error) => Err(error),
    }
}

/// The target and the secret of the proxy's interface, if both are there.
fn proxy_from(
    api: Option<Target>,
    secret: Option<Secret>,
) -> Result<Option<(Target, Text)>, ConfigError>
    ensures { Gives result (spec.proxy_from (api, secret)) }
{
    match (api, secret) {
        (None, None) => Ok(None),
        (Some(api), Some(secret)) => Ok(Some((api, secret.into_text()))),
        (None, Some(_)) => Err(stands_with(ConfigKey::ProxyApi, ConfigKey::ProxySecret)),
        (Some(_), None) => Err(stands_with(ConfigKey::ProxySecret, ConfigKey::ProxyApi)),
    }
}

/// `proxy_api`, a target, and `proxy_secret`, 8 to 255 visible ASCII bytes: both or neither.
pub(crate) fn proxy(alloc: Global, value: &Value) -> Result<Option<(Target, Text)>, ConfigError>
    ensures { Gives result (spec.proxy (view value.now)) }
{
    let both = both(
        optional::<Target>(alloc, value, ConfigKey::ProxyApi),
        optional::<Secret>(alloc, value, ConfigKey::ProxySecret),
    );
    match both {
        Ok((api, secret)) => proxy_from(api, secret),
        Err(error) => Err(error),
    }
}

/// `limits`: a table of limits. Each that isn't given, and each where the key lacks, is the greatest.
pub(crate) fn limits(alloc: Global, value: &Value) -> Result<Limits, ConfigError>
    ensures { Gives result (spec.limits (view value.now)) }
{
    match optional::<Limits>(alloc, value, ConfigKey::Limits) {
        Ok(given) => Ok(given.unwrap_or(greatest_limits())),
        Err(error) => Err(error),
    }
}

/// `listen`: an address `HOST:PORT`.
pub(crate) fn listen(alloc: Global, value: &Value) -> Result<Option<Text>, ConfigError>
    ensures { Gives result (spec.listen (view value.now)) }
{
    match optional::<Address>(alloc, value, ConfigKey::Listen) {
        Ok(Some(address)) => Ok(Some(address.into_text())),
        Ok(None) => Ok(None),
        Err(error) => Err(error),
    }
}

/// Three limits.
fn three(
    first: Result<u32, ConfigError>,
    second: Result<u32, ConfigError>,
    third: Result<u32, ConfigError>,
) -> Result<(u32, (u32, u32)), ConfigError>
    ensures { (a b c : Read ℕ) → Gives first a → Gives second b → Gives third c → Gives result (pair a (pair b c)) }
{
    both(first, both(second, third))
}

impl Setting for Limits {
    ghost reads = { spec.limits_of };

    fn read(_: Global, value: &Value) -> Result<Limits, ConfigError> {
        if !has_limit_keys(value) {
            return Err(refused(Rule::Keys));
        }
        let people = three(
            limit(value, ConfigKey::Users, 100_000),
            limit(value, ConfigKey::Groups, 10_000),
            limit(value, ConfigKey::Services, 1_000),
        );
        let rights = three(
            limit(value, ConfigKey::Roles, 1_000),
            limit(value, ConfigKey::Servers, 100),
            limit(value, ConfigKey::Tokens, 1_000_000),
        );
        let rest = three(
            limit(value, ConfigKey::Shares, 100_000),
            limit(value, ConfigKey::Codes, 100_000),
            limit(value, ConfigKey::TrailBytes, 1_073_741_824),
        );
        match both(people, both(rights, rest)) {
            Ok(
                (
                    (users, (groups, services)),
                    ((roles, (servers, tokens)), (shares, (codes, trail_bytes))),
                ),
            ) => Ok(Limits {
                users,
                groups,
                services,
                roles,
                servers,
                tokens,
                shares,
                codes,
                trail_bytes: trail_bytes as u64,
            }),
            Err(error) => Err(error),
        }
    }
}

fn has_limit_keys(value: &Value) -> bool
    ensures { result ≡ settings.has_only spec.limit_keys (view value.now) }
{
    has_only(
        value,
        &[
            "users",
            "groups",
            "services",
            "roles",
            "servers",
            "tokens",
            "shares",
            "codes",
            "trail_bytes",
        ],
    )
}
