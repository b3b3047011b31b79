//! The configuration as a whole.
ghost use Rattle.std.specs.Prelude.{◌≡◌};
ghost use Rattle.toml.specs.View.{view};
ghost use Rattle.hub_config.specs.Settings.{Gives};
ghost use Rattle.hub_config.specs.Settings as settings;
ghost use Rattle.hub_config.specs.Config as spec;

use crate::config::FileConfig;
use crate::config_key::ConfigKey;
use crate::custom::{table_of, undeclared};
use crate::fault::Rule;
use crate::managed::{are_apart, managed};
use crate::places::{limits, listen, pool, proxy};
use crate::setting::{ConfigError, Setting, both, has_only, listed, optional, refused, refused_at};
use hub_kit::target::Target;
use hub_kit::text::Text;
use hub_opening::config::{ConfigService, ConfigToken, ConfigUser, HubConfig};
use hub_rows::records::{Group, Role};
use scope_names::custom::CustomRow;
use std::alloc::Global;
use toml::Value;

impl Setting for HubConfig {
    ghost reads = { spec.hub };

    fn read(alloc: Global, value: &Value) -> Result<HubConfig, ConfigError> {
        let places = both(
            pool(alloc, value),
            both(
                optional::<Target>(alloc, value, ConfigKey::HubUrl),
                limits(alloc, value),
            ),
        );
        let people = both(
            listed::<ConfigUser>(alloc, value, ConfigKey::Users),
            both(
                listed::<Group>(alloc, value, ConfigKey::Groups),
                listed::<ConfigService>(alloc, value, ConfigKey::Services),
            ),
        );
        let rights = both(
            listed::<Role>(alloc, value, ConfigKey::Roles),
            both(
                listed::<ConfigToken>(alloc, value, ConfigKey::Tokens),
                listed::<CustomRow>(alloc, value, ConfigKey::CustomScopes),
            ),
        );
        match both(places, both(people, rights)) {
            Ok(
                (
                    (pool, (hub_url, limits)),
                    ((users, (groups, services)), (roles, (tokens, custom_scopes))),
                ),
            ) => Ok(HubConfig {
                pool,
                hub_url,
                limits,
                no_trail: false,
                users,
                groups,
                services,
                roles,
                tokens,
                custom_scopes,
            }),
            Err(error) => Err(error),
        }
    }
}

// ---- the whole

fn has_known_keys(value: &Value) -> bool
    ensures { result ≡ settings.has_only spec.known_keys (view value.now) }
{
    has_only(
        value,
        &[
            "listen",
            "pool",
            "command",
            "proxy_api",
            "proxy_secret",
            "hub_url",
            "limits",
            "users",
            "groups",
            "services",
            "roles",
            "tokens",
            "custom_scopes",
        ],
    )
}

impl Setting for FileConfig {
    ghost reads = { spec.config_of };

    fn read(alloc: Global, value: &Value) -> Result<FileConfig, ConfigError> {
        if !has_known_keys(value) {
            return Err(refused(Rule::Keys));
        }
        let edge = both(
            listen(alloc, value),
            both(
                listed::<Text>(alloc, value, ConfigKey::Command),
                proxy(alloc, value),
            ),
        );
        let beside = both(edge, managed(alloc, value));
        match both(beside, HubConfig::read(alloc, value)) {
            Ok((((listen, (command, proxy)), managed), hub)) => Ok(FileConfig {
                hub,
                managed,
                listen,
                command,
                proxy,
            }),
            Err(error) => Err(error),
        }
    }
}

/// What one TOML table of at most 1,048,576 bytes sets up, whatever its custom scopes.
fn read_table(alloc: Global, bytes: &[u8]) -> Result<FileConfig, ConfigError>
    ensures { Gives result (spec.config_in bytes.now) }
{
    if bytes.len() > 1_048_576 {
        return Err(refused(Rule::Size));
    }
    let Ok(text) = std::str::from_utf8(bytes) else {
        return Err(refused(Rule::Utf8));
    };
    match toml::table_from_str(alloc, text) {
        Ok(table) => {
            let value = Value::Table(table);
            let read = FileConfig::read(alloc, &value);
            drop(value);
            read
        }
        Err(error) => {
            if error.is_memory() {
                Err(ConfigError::Memory)
            } else {
                Err(refused(Rule::Toml))
            }
        }
    }
}

// ---- rules between its parts

/// Refuses a configuration whose custom scopes make no table, which uses others, or whose services with a program aren't apart.
fn check(alloc: Global, config: &FileConfig) -> Result<(), ConfigError>
    ensures { spec.IsChecked config.now result }
{
    if !are_apart(config.hub.pool.as_slice(), config.managed.as_slice()) {
        return Err(refused_at(ConfigKey::Services, Rule::Apart));
    }
    match table_of(alloc, config.hub.custom_scopes.as_slice()) {
        Ok(Some(table)) => match undeclared(&table, &config.hub) {
            Some(fault) => Err(ConfigError::Refused(fault)),
            None => Ok(()),
        },
        Ok(None) => Err(refused_at(ConfigKey::CustomScopes, Rule::CustomTable)),
        Err(error) => Err(error),
    }
}

/// Reads a configuration: one TOML table of at most 1,048,576 bytes. `Refused` comes exactly where the bytes are none, with the first rule
/// that they break.
pub fn read_config(alloc: Global, bytes: &[u8]) -> Result<FileConfig, ConfigError>
    ensures { spec.IsRead bytes.now result }
{
    match read_table(alloc, bytes) {
        Ok(config) => match check(alloc, &config) {
            Ok(()) => Ok(config),
            Err(error) => Err(error),
        },
        Err(error) => Err(error),
    }
}
