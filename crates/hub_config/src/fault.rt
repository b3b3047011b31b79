//! What is wrong with a file of configuration: which rule it breaks, and where.
ghost use Rattle.std.specs.Prelude.{◌≡◌};
ghost use Rattle.hub_config.specs.Faults as spec;

use crate::config_key::ConfigKey;

/// A rule that a file, or a value in it, breaks.
#[derive(Clone, Copy, Debug)]
pub enum Rule {
    /// At most 1,048,576 bytes.
    Size,
    Utf8,
    Toml,
    /// A table whose keys are all known.
    Keys,
    /// A key that has to be there.
    Lacks,
    /// A key that stands with another one, which is there.
    StandsWith(ConfigKey),
    /// A token has a user or a service, and not both.
    OneOwner,
    List,
    Flag,
    /// A whole number up to this one.
    Number(u32),
    Text,
    Name,
    /// The name of a role, but `user` and `admin`.
    RoleName,
    CustomName,
    Scope,
    Target,
    Secret,
    RedirectUri,
    Address,
    /// At most 1,000 targets, all distinct.
    Pool,
    /// At most 64 scopes.
    ManyScopes,
    /// No two services with a program have one name or one target, and none has a target of the pool.
    Apart,
    /// The custom scopes make a table.
    CustomTable,
    /// A custom scope that is used is declared.
    Undeclared,
}

/// A rule that is broken, and the place: a key of the file, an entry of its list, a key in it, and an item of that one's list. Entries and
/// items are counted from 0.
#[derive(Clone, Copy, Debug)]
pub struct Fault {
    pub rule: Rule,
    /// The entry of a list whose key isn't said yet.
    pub at: Option<usize>,
    pub key: Option<ConfigKey>,
    pub entry: Option<usize>,
    pub inner: Option<ConfigKey>,
    pub item: Option<usize>,
}

impl Fault {
    /// The fault of a value that breaks the rule.
    pub(crate) fn of(rule: Rule) -> Fault
        ensures { result ≡ spec.broken rule }
    {
        Fault {
            rule,
            at: None,
            key: None,
            entry: None,
            inner: None,
            item: None,
        }
    }

    /// The same fault, in this entry of a list.
    pub(crate) fn in_entry(self, n: usize) -> Fault
        ensures { result ≡ spec.in_entry n self }
    {
        Fault {
            at: Some(n),
            ..self
        }
    }

    /// The same fault, under this key.
    pub(crate) fn under(self, key: ConfigKey) -> Fault
        ensures { result ≡ spec.under key self }
    {
        Fault {
            rule: self.rule,
            at: None,
            key: Some(key),
            entry: self.at,
            inner: self.key,
            item: self.entry,
        }
    }
}
