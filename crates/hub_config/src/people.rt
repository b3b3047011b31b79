//! The rows of a configuration, table by table.
ghost use Rattle.std.specs.Prelude.{◌≡◌, ℕ, Option, IfOk, IfErr};
ghost use Rattle.toml.specs.View.{view};
ghost use Rattle.hub_config.specs.Settings.{Gives, pair};
ghost use Rattle.hub_config.specs.People as spec;

use crate::config_key::ConfigKey;
use crate::fault::Rule;
use crate::forms::{RedirectUri, Secret};
use crate::setting::{
    ConfigError, Setting, both, has_only, listed, needed, optional, refused, refused_at,
    stands_with,
};
use hub_kit::key::Key;
use hub_kit::list::List;
use hub_kit::names::{GroupName, RoleName, ServiceName, UserName};
use hub_opening::config::{ConfigService, ConfigToken, ConfigUser};
use hub_rows::records::{Group, Role};
use keyed_rows::sorted::Sorted;
use scope_filters::holder::Owner;
use scope_filters::scope::RawScope;
use scope_names::custom::{CustomName, CustomRow};
use std::alloc::Global;
use toml::Value;

/// A list of at most 64 scopes.
fn scopes(alloc: Global, value: &Value) -> Result<List<RawScope>, ConfigError>
    ensures { Gives result (spec.scopes (view value.now)) }
{
    match listed::<RawScope>(alloc, value, ConfigKey::Scopes) {
        Ok(scopes) => {
            if scopes.len() <= 64 {
                Ok(scopes)
            } else {
                Err(refused_at(ConfigKey::Scopes, Rule::ManyScopes))
            }
        }
        Err(error) => Err(error),
    }
}

/// A list of names, put in order and without repeats.
fn sorted<K: Key + Copy + Setting>(
    alloc: Global,
    value: &Value,
    key: ConfigKey,
) -> Result<Sorted<K>, ConfigError>
    ensures { Gives result (spec.sorted K.Ord.cmp K.reads key (view value.now)) }
{
    match listed::<K>(alloc, value, key) {
        Ok(keys) => Ok(Sorted::from_vec(keys.into_vec())),
        Err(error) => Err(error),
    }
}

impl Setting for ConfigUser {
    ghost reads = { spec.user_of };

    fn read(alloc: Global, value: &Value) -> Result<ConfigUser, ConfigError> {
        if !has_only(value, &["name", "admin"]) {
            return Err(refused(Rule::Keys));
        }
        let fields = both(
            needed::<UserName>(alloc, value, ConfigKey::Name),
            optional::<bool>(alloc, value, ConfigKey::Admin),
        );
        match fields {
            Ok((name, admin)) => Ok(ConfigUser {
                name,
                admin: admin.unwrap_or(false),
            }),
            Err(error) => Err(error),
        }
    }
}

impl Setting for Group {
    ghost reads = { spec.group_of };

    fn read(alloc: Global, value: &Value) -> Result<Group, ConfigError> {
        if !has_only(value, &["name", "users"]) {
            return Err(refused(Rule::Keys));
        }
        let fields = both(
            needed::<GroupName>(alloc, value, ConfigKey::Name),
            sorted::<UserName>(alloc, value, ConfigKey::Users),
        );
        match fields {
            Ok((name, users)) => Ok(Group { name, users }),
            Err(error) => Err(error),
        }
    }
}

/// A service of a name, whose redirect URI and secret stand together.
fn service_from(
    name: ServiceName,
    redirect_uri: Option<RedirectUri>,
    secret: Option<Secret>,
) -> Result<ConfigService, ConfigError>
    ensures { Gives result (spec.service_from (name, (redirect_uri, secret))) }
{
    match (redirect_uri, secret) {
        (None, None) => Ok(ConfigService {
            name,
            redirect_uri: None,
            secret: None,
        }),
        (Some(uri), Some(secret)) => Ok(ConfigService {
            name,
            redirect_uri: Some(uri.into_text()),
            secret: Some(secret.into_text()),
        }),
        (None, Some(_)) => Err(stands_with(ConfigKey::RedirectUri, ConfigKey::Secret)),
        (Some(_), None) => Err(stands_with(ConfigKey::Secret, ConfigKey::RedirectUri)),
    }
}

impl Setting for ConfigService {
    ghost reads = { spec.service_of };

    fn read(alloc: Global, value: &Value) -> Result<ConfigService, ConfigError> {
        if !has_only(
            value,
            &["name", "redirect_uri", "secret", "command", "target"],
        ) {
            return Err(refused(Rule::Keys));
        }
        let fields = both(
            needed::<ServiceName>(alloc, value, ConfigKey::Name),
            both(
                optional::<RedirectUri>(alloc, value, ConfigKey::RedirectUri),
                optional::<Secret>(alloc, value, ConfigKey::Secret),
            ),
        );
        match fields {
            Ok((name, (uri, secret))) => service_from(name, uri, secret),
            Err(error) => Err(error),
        }
    }
}

impl Setting for Role {
    ghost reads = { spec.role_of };

    fn read(alloc: Global, value: &Value) -> Result<Role, ConfigError> {
        if !has_only(value, &["name", "scopes", "users", "groups", "services"]) {
            return Err(refused(Rule::Keys));
        }
        let held = both(
            needed::<RoleName>(alloc, value, ConfigKey::Name),
            scopes(alloc, value),
        );
        let holders = both(
            sorted::<UserName>(alloc, value, ConfigKey::Users),
            both(
                sorted::<GroupName>(alloc, value, ConfigKey::Groups),
                sorted::<ServiceName>(alloc, value, ConfigKey::Services),
            ),
        );
        match both(held, holders) {
            Ok(((name, scopes), (users, (groups, services)))) => Ok(Role {
                name,
                groups,
                scopes,
                services,
                users,
            }),
            Err(error) => Err(error),
        }
    }
}

fn owner_from(user: Option<UserName>, service: Option<ServiceName>) -> Result<Owner, ConfigError>
    ensures { Gives result (spec.owner_from (user, service)) }
{
    match (user, service) {
        (Some(user), None) => Ok(Owner::User(user)),
        (None, Some(service)) => Ok(Owner::Service(service)),
        (_, _) => Err(refused(Rule::OneOwner)),
    }
}

/// The user or the service that a token belongs to.
fn owner(alloc: Global, value: &Value) -> Result<Owner, ConfigError>
    ensures { Gives result (spec.owner (view value.now)) }
{
    let owners = both(
        optional::<UserName>(alloc, value, ConfigKey::User),
        optional::<ServiceName>(alloc, value, ConfigKey::Service),
    );
    match owners {
        Ok((user, service)) => owner_from(user, service),
        Err(error) => Err(error),
    }
}

/// These scopes, or `inherit` where there are none.
fn or_inherit(alloc: Global, scopes: List<RawScope>) -> Result<List<RawScope>, ConfigError>
    ensures ok { IfOk result (λ read. read ≡ spec.or_inherit scopes) }
    ensures err { IfErr result (λ e. e ≡ ConfigError.Memory) }
{
    if !scopes.is_empty() {
        return Ok(scopes);
    }
    match Vec::from_slice(alloc, &[RawScope::Inherit]) {
        Ok(inherited) => Ok(List::from_vec(inherited)),
        Err(_) => Err(ConfigError::Memory),
    }
}

impl Setting for ConfigToken {
    ghost reads = { spec.token_of };

    fn read(alloc: Global, value: &Value) -> Result<ConfigToken, ConfigError> {
        if !has_only(value, &["token", "user", "service", "scopes"]) {
            return Err(refused(Rule::Keys));
        }
        let fields = both(
            needed::<Secret>(alloc, value, ConfigKey::Token),
            both(owner(alloc, value), scopes(alloc, value)),
        );
        match fields {
            Ok((secret, (owner, scopes))) => token_from(alloc, secret, owner, scopes),
            Err(error) => Err(error),
        }
    }
}

fn token_from(
    alloc: Global,
    secret: Secret,
    owner: Owner,
    scopes: List<RawScope>,
) -> Result<ConfigToken, ConfigError>
    ensures ok { IfOk result (λ token. token ≡ spec.token_from (secret, (owner, scopes))) }
    ensures err { IfErr result (λ e. e ≡ ConfigError.Memory) }
{
    match or_inherit(alloc, scopes) {
        Ok(scopes) => Ok(ConfigToken {
            text: secret.into_text(),
            owner,
            scopes,
        }),
        Err(error) => Err(error),
    }
}

impl Setting for CustomRow {
    ghost reads = { spec.custom_of };

    fn read(alloc: Global, value: &Value) -> Result<CustomRow, ConfigError> {
        if !has_only(value, &["name", "subscopes"]) {
            return Err(refused(Rule::Keys));
        }
        let fields = both(
            needed::<CustomName>(alloc, value, ConfigKey::Name),
            listed::<CustomName>(alloc, value, ConfigKey::Subscopes),
        );
        match fields {
            Ok((name, subscopes)) => Ok(CustomRow { name, subscopes }),
            Err(error) => Err(error),
        }
    }
}
