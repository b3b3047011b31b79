//! Services whose program the hub starts.
ghost use Rattle.std.specs.Prelude.{◌≡◌, [], not, bytes_eq};
ghost use Rattle.std.specs.List.{list_any, list_all};
ghost use Rattle.toml.specs.View.{view, items_view};
ghost use Rattle.hub_config.specs.Settings.{Gives, pair};
ghost use Rattle.hub_config.specs.Managed as spec;

use crate::config::ConfigManaged;
use crate::config_key::ConfigKey;
use crate::fault::Rule;
use crate::forms::Secret;
use crate::setting::{
    ConfigError, add, both, in_entry, listed, needed, optional, refused_at, stands_with, under,
};
use hub_kit::list::List;
use hub_kit::names::ServiceName;
use hub_kit::target::Target;
use hub_kit::text::Text;
use std::alloc::Global;
use toml::Value;

/// The program of a service, whose words and target stand together, and then with a secret.
fn managed_from(
    name: ServiceName,
    command: List<Text>,
    target: Option<Target>,
    secret: Option<Secret>,
) -> Result<Option<ConfigManaged>, ConfigError>
    ensures { Gives result (spec.managed_from (name, (command, (target, secret)))) }
{
    match (command.is_empty(), target, secret) {
        (true, None, _) => Ok(None),
        (false, Some(target), Some(secret)) => Ok(Some(ConfigManaged {
            name,
            command,
            target,
            secret: secret.into_text(),
        })),
        (true, Some(_), _) => Err(stands_with(ConfigKey::Command, ConfigKey::Target)),
        (false, None, _) => Err(stands_with(ConfigKey::Target, ConfigKey::Command)),
        (false, Some(_), None) => Err(stands_with(ConfigKey::Secret, ConfigKey::Command)),
    }
}

/// The program of a service, if it has one.
fn managed_of(alloc: Global, value: &Value) -> Result<Option<ConfigManaged>, ConfigError>
    ensures { Gives result (spec.managed_of (view value.now)) }
{
    let fields = both(
        needed::<ServiceName>(alloc, value, ConfigKey::Name),
        both(
            listed::<Text>(alloc, value, ConfigKey::Command),
            both(
                optional::<Target>(alloc, value, ConfigKey::Target),
                optional::<Secret>(alloc, value, ConfigKey::Secret),
            ),
        ),
    );
    match fields {
        Ok((name, (command, (target, secret)))) => managed_from(name, command, target, secret),
        Err(error) => Err(error),
    }
}

fn managed_in(alloc: Global, items: &[Value]) -> Result<List<ConfigManaged>, ConfigError>
    ensures { Gives result (spec.managed_in [] 0 (items_view items.now)) }
{
    let mut found = Vec::new(alloc);
    for (n, item) in items.iter().enumerate() {
        match in_entry(n, managed_of(alloc, item)) {
            Ok(Some(managed)) => add(&mut found, managed)?,
            Ok(None) => {}
            Err(error) => return Err(error),
        }
    }
    Ok(List::from_vec(found))
}

/// Those of `services` that have a program: `command`, a list of at least one text, and `target`, both or neither, and then `secret`.
pub(crate) fn managed(alloc: Global, value: &Value) -> Result<List<ConfigManaged>, ConfigError>
    ensures { Gives result (spec.managed (view value.now)) }
{
    let key = ConfigKey::Services;
    match value.get(key.text()) {
        Some(found) => match found.as_array() {
            Some(items) => under(key, managed_in(alloc, items.as_slice())),
            None => Err(refused_at(key, Rule::List)),
        },
        None => Ok(List::new(alloc)),
    }
}

// ---- apart

/// Whether two have one name, or one target.
fn clash(one: &ConfigManaged, other: &ConfigManaged) -> bool
    ensures { result ≡ spec.clash one.now other.now }
{
    one.name == other.name || one.target == other.target
}

fn clashes(one: &ConfigManaged, others: &[ConfigManaged]) -> bool
    ensures { result ≡ list_any (spec.clash one.now) others.now }
{
    others.iter().any(|other| clash(one, other))
}

fn are_distinct(services: &[ConfigManaged]) -> bool
    ensures { result ≡ spec.are_distinct services.now }
{
    for (i, service) in services.iter().enumerate() {
        if clashes(service, &services[i + 1..]) {
            return false;
        }
    }
    true
}

fn is_among(target: &Target, targets: &[Target]) -> bool
    ensures { result ≡ list_any (bytes_eq target.now) targets.now }
{
    targets.iter().any(|other| *target == *other)
}

fn leave_free(pool: &[Target], services: &[ConfigManaged]) -> bool
    ensures { result ≡ list_all (λ s. not (list_any (bytes_eq s.target) pool.now)) services.now }
{
    services
        .iter()
        .all(|service| !is_among(&service.target, pool))
}

/// Whether no two have one name or one target, and none has a target of the pool.
pub(crate) fn are_apart(pool: &[Target], services: &[ConfigManaged]) -> bool
    ensures { result ≡ spec.are_apart pool.now services.now }
{
    are_distinct(services) && leave_free(pool, services)
}
