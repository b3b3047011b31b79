//! Values of a configuration, whatever they are.
ghost use Rattle.std.specs.Prelude.{◌≡◌, ℕ, [], ◌++◌, ◌∷◌, map, Result, Err, OnOk};
ghost use Rattle.toml.specs.Data.{Data};
ghost use Rattle.toml.specs.View.{view, items_view, table_view};
ghost use Rattle.hub_config.specs.Faults.{Read};
ghost use Rattle.hub_config.specs.Faults as faults;
ghost use Rattle.hub_config.specs.Settings.{Gives, pair, is_among, list_from};
ghost use Rattle.hub_config.specs.Settings as spec;

use crate::config_key::ConfigKey;
use crate::fault::{Fault, Rule};
use hub_kit::list::List;
use std::alloc::Global;
use std::fmt;
use toml::{Table, Value};

/// Why a configuration isn't read.
#[derive(Clone, Copy, Debug)]
pub enum ConfigError {
    /// The bytes are no configuration, for this fault.
    Refused(Fault),
    Memory,
}

impl fmt::Display for ConfigError {
    fn fmt<W: fmt::Write>(&self, f: &mut fmt::Formatter<W>) -> fmt::Result {
        let why = match self {
            ConfigError::Refused(_) => "this is no configuration",
            ConfigError::Memory => "there is no memory",
        };
        f.write_str(why)
    }
}

/// Read from a value of a configuration.
pub(crate) trait Setting: Drop {
    ghost reads: { Data → Read Self };

    fn read(alloc: Global, value: &Value) -> Result<Self, ConfigError>
        ensures { Gives result (reads (view value.now)) };
}

/// What two readers gave. The readers of a table are put together by twos, so that one early return is left: each drops what was read
/// before it, and the proof follows each drop.
pub(crate) fn both<A: Drop, B: Drop>(
    first: Result<A, ConfigError>,
    second: Result<B, ConfigError>,
) -> Result<(A, B), ConfigError>
    ensures { (a : Read A) (b : Read B) → Gives first a → Gives second b → Gives result (pair a b) }
{
    match first {
        Ok(first) => match second {
            Ok(second) => Ok((first, second)),
            Err(error) => Err(error),
        },
        Err(error) => Err(error),
    }
}

/// The error of a value that breaks the rule.
pub(crate) fn refused(rule: Rule) -> ConfigError
    ensures { result ≡ ConfigError.Refused (faults.broken rule) }
{
    ConfigError::Refused(Fault::of(rule))
}

/// The error of a key whose value breaks the rule, or which lacks.
pub(crate) fn refused_at(key: ConfigKey, rule: Rule) -> ConfigError
    ensures { result ≡ ConfigError.Refused (faults.broken_at key rule) }
{
    ConfigError::Refused(Fault::of(rule).under(key))
}

/// The error of a key that lacks, though the other one is there.
pub(crate) fn stands_with(key: ConfigKey, other: ConfigKey) -> ConfigError
    ensures { result ≡ ConfigError.Refused (faults.broken_at key (Rule.StandsWith other)) }
{
    refused_at(key, Rule::StandsWith(other))
}

/// What was read of the value of this key.
pub(crate) fn under<X: Drop>(key: ConfigKey, read: Result<X, ConfigError>) -> Result<X, ConfigError>
    ensures { (found : Read X) → Gives read found → Gives result (faults.at_key key found) }
{
    match read {
        Ok(read) => Ok(read),
        Err(ConfigError::Refused(fault)) => Err(ConfigError::Refused(fault.under(key))),
        Err(ConfigError::Memory) => Err(ConfigError::Memory),
    }
}

/// What was read of this entry of a list.
pub(crate) fn in_entry<X: Drop>(n: usize, read: Result<X, ConfigError>) -> Result<X, ConfigError>
    ensures { (found : Read X) → Gives read found → Gives result (faults.at_entry n found) }
{
    match read {
        Ok(read) => Ok(read),
        Err(ConfigError::Refused(fault)) => Err(ConfigError::Refused(fault.in_entry(n))),
        Err(ConfigError::Memory) => Err(ConfigError::Memory),
    }
}

/// The value of a key that has to be there.
pub(crate) fn needed<S: Setting>(
    alloc: Global,
    value: &Value,
    key: ConfigKey,
) -> Result<S, ConfigError>
    ensures { Gives result (spec.needed S.reads key (view value.now)) }
{
    match value.get(key.text()) {
        Some(found) => under(key, S::read(alloc, found)),
        None => Err(refused_at(key, Rule::Lacks)),
    }
}

/// The value of a key that may lack.
pub(crate) fn optional<S: Setting>(
    alloc: Global,
    value: &Value,
    key: ConfigKey,
) -> Result<Option<S>, ConfigError>
    ensures { Gives result (spec.optional S.reads key (view value.now)) }
{
    match value.get(key.text()) {
        Some(found) => match under(key, S::read(alloc, found)) {
            Ok(read) => Ok(Some(read)),
            Err(error) => Err(error),
        },
        None => Ok(None),
    }
}

pub(crate) fn add<T: Drop>(items: &mut Vec<T>, item: T) -> Result<(), ConfigError>
    ensures ok { OnOk result (items.new.items ≡ items.old.items ++ item ∷ []) }
    ensures memory { (fault : Fault) → result ≡ Err (ConfigError.Refused fault) → ⊥ }
{
    match items.push(item) {
        Ok(()) => Ok(()),
        Err(_) => Err(ConfigError::Memory),
    }
}

fn list_in<S: Setting>(alloc: Global, items: &[Value]) -> Result<List<S>, ConfigError>
    ensures { Gives result (list_from S.reads [] (items_view items.now)) }
{
    let mut read = Vec::new(alloc);
    for item in items {
        match in_entry(read.len(), S::read(alloc, item)) {
            Ok(found) => add(&mut read, found)?,
            Err(error) => return Err(error),
        }
    }
    Ok(List::from_vec(read))
}

/// The items of a list, of which there are none where the key lacks.
pub(crate) fn listed<S: Setting>(
    alloc: Global,
    value: &Value,
    key: ConfigKey,
) -> Result<List<S>, ConfigError>
    ensures { Gives result (spec.listed S.reads key (view value.now)) }
{
    match value.get(key.text()) {
        Some(found) => match found.as_array() {
            Some(items) => under(key, list_in(alloc, items.as_slice())),
            None => Err(refused_at(key, Rule::List)),
        },
        None => Ok(List::new(alloc)),
    }
}

/// Whether a key is one of those that are known.
fn is_known(key: &str, known: &[&str]) -> bool
    ensures { result ≡ is_among (map (λ s. s.now) known.now) key.now }
{
    for name in known {
        if *name == key {
            return true;
        }
    }
    false
}

/// Whether a value is a table with known keys alone.
pub(crate) fn has_only(value: &Value, known: &[&str]) -> bool
    ensures { result ≡ spec.has_only (map (λ s. s.now) known.now) (view value.now) }
{
    match value.as_table() {
        Some(table) => has_known_keys(table, known),
        None => false,
    }
}

fn has_known_keys(table: &Table, known: &[&str]) -> bool
    ensures { result ≡ spec.known_alone (map (λ s. s.now) known.now) (table_view table.now) }
{
    for (key, _) in table.iter() {
        if !is_known(key.as_str(), known) {
            return false;
        }
    }
    true
}

/// The number, if it is not below 0 and not past the greatest.
fn up_to(greatest: u32, n: i64) -> Option<u32>
    ensures { result ≡ spec.up_to greatest n }
{
    if n < 0 || n > greatest as i64 {
        None
    } else {
        Some(n as u32)
    }
}

/// A whole number from 0 to a greatest one, which is also the number where the key lacks.
pub(crate) fn limit(value: &Value, key: ConfigKey, greatest: u32) -> Result<u32, ConfigError>
    ensures { Gives result (spec.limit greatest key (view value.now)) }
{
    match value.get(key.text()) {
        Some(found) => match found.as_integer() {
            Some(n) => match up_to(greatest, n) {
                Some(n) => Ok(n),
                None => Err(refused_at(key, Rule::Number(greatest))),
            },
            None => Err(refused_at(key, Rule::Number(greatest))),
        },
        None => Ok(greatest),
    }
}
