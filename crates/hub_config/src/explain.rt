//! What is said to people of a text that is no configuration: the line, the key, the entry of its list, the value, and the rule that it
//! breaks. The fault is the one that `read_config` answers. Its words and its line are made here, and no contract speaks of them.
use crate::config_key::ConfigKey;
use crate::fault::{Fault, Rule};
use crate::reading::read_config;
use crate::setting::ConfigError;
use std::alloc::{AllocError, Global};
use toml::{Table, Value};

/// What may stand where the rule is broken.
fn wanted(rule: Rule) -> &'static str {
    match rule {
        Rule::Size => "the file has more than 1,048,576 bytes",
        Rule::Utf8 => "not UTF-8",
        Rule::Toml => "no TOML",
        Rule::Keys => "expected a table",
        Rule::Lacks | Rule::StandsWith(_) => "it is missing",
        Rule::OneOwner => "it has to be of one user or of one service, and not of both",
        Rule::List => "expected a list",
        Rule::Flag => "expected true or false",
        Rule::Number(_) => "expected a whole number",
        Rule::Text => "expected a text",
        Rule::Name => "expected a name: 1 to 64 of a-z 0-9 . _ - @, the first a letter or a digit",
        Rule::RoleName =>
            "expected a name of a role: 1 to 64 of a-z 0-9 . _ - @, and neither user nor admin",
        Rule::CustomName => "expected a name as custom:grades:read",
        Rule::Scope => "there is no such scope",
        Rule::Target => "expected a target http://HOST:PORT",
        Rule::Secret => "expected 8 to 255 visible ASCII characters",
        Rule::RedirectUri => "expected 1 to 1,024 visible ASCII characters without ? and #",
        Rule::Address => "expected an address HOST:PORT",
        Rule::Pool => "expected at most 1,000 targets, all distinct",
        Rule::ManyScopes => "expected at most 64 scopes",
        Rule::Apart =>
            "two with a command have one name or one target, or one has a target of the pool",
        Rule::CustomTable =>
            "a name stands twice, an entry covers itself or a name that isn't in the list, or there are too many",
        Rule::Undeclared => "no entry of custom_scopes has this name",
    }
}

/// The keys of the table at this place.
fn known_keys(fault: &Fault) -> &'static str {
    match fault.key {
        None =>
            "listen, pool, command, proxy_api, proxy_secret, hub_url, limits, users, groups, services, roles, tokens, custom_scopes",
        Some(ConfigKey::Users) => "name, admin",
        Some(ConfigKey::Groups) => "name, users",
        Some(ConfigKey::Services) => "name, redirect_uri, secret, command, target",
        Some(ConfigKey::Roles) => "name, scopes, users, groups, services",
        Some(ConfigKey::Tokens) => "token, user, service, scopes",
        Some(ConfigKey::CustomScopes) => "name, subscopes",
        _ => "users, groups, services, roles, servers, tokens, shares, codes, trail_bytes",
    }
}

/// The first key of a table that isn't among those that are known.
fn unknown_key<'a>(table: &'a Table, known: &str) -> Option<&'a str> {
    for (key, _) in table.iter() {
        let key = key.as_str();
        if !known.split(", ").any(|name| name == key) {
            return Some(key);
        }
    }
    None
}

// ---- the place

/// The entry of a list, or the value itself.
fn in_entry(value: &Value, entry: Option<usize>) -> Option<&Value> {
    match entry {
        Some(n) => value.as_array()?.as_slice().get(n),
        None => Some(value),
    }
}

/// What stands under the key, or the value itself.
fn under(value: &Value, key: Option<ConfigKey>) -> Option<&Value> {
    match key {
        Some(key) => value.get(key.text()),
        None => Some(value),
    }
}

/// The value that breaks the rule, where there is one.
fn value_at<'a>(file: &'a Value, fault: &Fault) -> Option<&'a Value> {
    let of_key = under(file, fault.key)?;
    let entry = in_entry(of_key, fault.entry)?;
    let of_inner = under(entry, fault.inner)?;
    in_entry(of_inner, fault.item)
}

/// A key and the entry of its list, counted from 1.
fn push_step(
    alloc: Global,
    place: &mut String,
    key: Option<ConfigKey>,
    entry: Option<usize>,
) -> Result<(), AllocError> {
    let Some(key) = key else {
        return Ok(());
    };
    place.push_str(key.text())?;
    if let Some(n) = entry {
        let n = n.saturating_add(1);
        let step = format!(in alloc; ", entry {n}")?;
        place.push_str(step.as_str())?;
    }
    place.push_str(": ")
}

/// The keys and the entries that lead to a fault.
fn place_of(alloc: Global, fault: &Fault) -> Result<String, AllocError> {
    let mut place = String::new(alloc);
    push_step(alloc, &mut place, fault.key, fault.entry)?;
    push_step(alloc, &mut place, fault.inner, fault.item)?;
    Ok(place)
}

// ---- the value

/// Whether what stands there is a secret, which isn't shown.
fn is_secret(fault: &Fault) -> bool {
    let key = match fault.inner {
        Some(key) => Some(key),
        None => fault.key,
    };
    matches!(
        key,
        Some(ConfigKey::Token | ConfigKey::Secret | ConfigKey::ProxySecret)
    )
}

/// A text between quotes, of at most 80 characters, on one line.
fn quoted(alloc: Global, text: &str) -> Result<String, AllocError> {
    let mut shown = String::from_str(alloc, "\"")?;
    for (n, c) in text.chars().enumerate() {
        if n == 80 {
            shown.push_str("..")?;
            break;
        }
        shown.push(if c.is_control() { '?' } else { c })?;
    }
    shown.push('"')?;
    Ok(shown)
}

/// A value as people know it.
fn shown(alloc: Global, value: &Value) -> Result<String, AllocError> {
    if let Some(text) = value.as_str() {
        return quoted(alloc, text);
    }
    if let Some(n) = value.as_integer() {
        return format!(in alloc; "{n}");
    }
    let kind = match value.as_bool() {
        Some(true) => "true",
        Some(false) => "false",
        None if value.as_array().is_some() => "a list",
        None if value.as_table().is_some() => "a table",
        None => "a number with a point, or a date",
    };
    String::from_str(alloc, kind)
}

/// A secret by its length alone.
fn veiled(alloc: Global, value: &Value) -> Result<String, AllocError> {
    match value.as_str() {
        Some(text) => {
            let length = text.len();
            format!(in alloc; "a text of {length} bytes")
        }
        None => String::from_str(alloc, "something else than a text"),
    }
}

// ---- the words

/// The rule that a value breaks, and the value.
fn words_of_value(alloc: Global, fault: &Fault, value: &Value) -> Result<String, AllocError> {
    let found = if is_secret(fault) {
        veiled(alloc, value)?
    } else {
        shown(alloc, value)?
    };
    let found = found.as_str();
    let wanted = wanted(fault.rule);
    match fault.rule {
        Rule::Scope => format!(in alloc; "no scope is called {found}"),
        Rule::Undeclared => format!(in alloc; "no entry of custom_scopes is called {found}"),
        Rule::Number(greatest) => format!(in alloc; "{wanted} from 0 to {greatest}, not {found}"),
        Rule::Pool | Rule::ManyScopes | Rule::Apart | Rule::CustomTable | Rule::OneOwner =>
            String::from_str(alloc, wanted),
        _ => format!(in alloc; "{wanted}, not {found}"),
    }
}

/// The rule that is broken, in words.
fn words_of(alloc: Global, fault: &Fault, value: Option<&Value>) -> Result<String, AllocError> {
    if let Rule::StandsWith(other) = fault.rule {
        let other = other.text();
        return format!(in alloc; "it is missing, and stands with {other}");
    }
    let Some(value) = value else {
        return String::from_str(alloc, wanted(fault.rule));
    };
    let Some(table) = value.as_table() else {
        return words_of_value(alloc, fault, value);
    };
    let known = known_keys(fault);
    match (fault.rule, unknown_key(table, known)) {
        (Rule::Keys, Some(key)) => {
            let key = quoted(alloc, key)?;
            let key = key.as_str();
            if fault.key.is_none() {
                return format!(in alloc; "there is no key {key}");
            }
            format!(in alloc; "there is no key {key}: the keys are {known}")
        }
        _ => words_of_value(alloc, fault, value),
    }
}

// ---- the line

/// The line, from 1, at which the key stands, or the entry of its list that has a header of its own.
fn line_of(text: &str, key: &str, entry: usize) -> usize {
    let mut number = 0usize;
    let mut seen = 0usize;
    for line in text.split('\n') {
        number = number.saturating_add(1);
        let line = line.trim();
        let header = line
            .strip_prefix("[[")
            .and_then(|rest| rest.strip_suffix("]]"));
        if header == Some(key) {
            if seen == entry {
                return number;
            }
            seen = seen.saturating_add(1);
        } else if line
            .strip_prefix('[')
            .and_then(|rest| rest.strip_suffix(']'))
            == Some(key)
        {
            return number;
        } else if let Some((before, _)) = line.split_once('=') {
            if before.trim() == key {
                return number;
            }
        }
    }
    number
}

/// The line of a key in the table whose header stands at this line, or that line itself.
fn inner_line(text: &str, header: usize, key: &str) -> usize {
    let mut number = header;
    for line in text.split('\n').skip(header) {
        number = number.saturating_add(1);
        let line = line.trim();
        if line.starts_with('[') {
            return header;
        }
        if let Some((before, _)) = line.split_once('=') {
            if before.trim() == key {
                return number;
            }
        }
    }
    header
}

/// The line of a fault.
fn line_at(text: &str, fault: &Fault, key: &str) -> usize {
    let line = line_of(text, key, fault.entry.unwrap_or(0));
    let is_header = text
        .split('\n')
        .nth(line.saturating_sub(1))
        .is_some_and(|found| found.trim().starts_with('['));
    match fault.inner {
        Some(inner) if is_header => inner_line(text, line, inner.text()),
        _ => line,
    }
}

// ---- the whole

/// The fault of a table, with its place.
fn explain_fault(
    alloc: Global,
    text: &str,
    file: &Value,
    fault: &Fault,
) -> Result<String, AllocError> {
    let value = value_at(file, fault);
    let words = words_of(alloc, fault, value)?;
    let words = words.as_str();
    let Some(key) = fault.key else {
        let unknown = match file.as_table() {
            Some(table) => unknown_key(table, known_keys(fault)).unwrap_or(""),
            None => "",
        };
        let line = line_of(text, unknown, 0);
        return format!(in alloc; "line {line}: {words}");
    };
    // what lacks has no line of its own, so that its partner's stands for it
    let shown_key = match (fault.rule, fault.inner) {
        (Rule::StandsWith(other), None) => other.text(),
        _ => key.text(),
    };
    let line = line_at(text, fault, shown_key);
    let place = place_of(alloc, fault)?;
    let place = place.as_str();
    format!(in alloc; "line {line}: {place}{words}")
}

/// The fault of a text.
fn explain_text(alloc: Global, text: &str, fault: &Fault) -> Result<String, AllocError> {
    match toml::table_from_str(alloc, text) {
        Ok(table) => {
            let file = Value::Table(table);
            let said = explain_fault(alloc, text, &file, fault);
            drop(file);
            said
        }
        Err(error) => {
            if error.is_memory() {
                return Err(AllocError);
            }
            format!(in alloc; "{error}")
        }
    }
}

/// Why the bytes are no configuration, in a line or, where they are no TOML, three.
pub fn explain(alloc: Global, bytes: &[u8]) -> Result<String, AllocError> {
    let fault = match read_config(alloc, bytes) {
        Ok(config) => {
            drop(config);
            return String::from_str(alloc, "nothing is wrong with it");
        }
        Err(ConfigError::Refused(fault)) => fault,
        Err(ConfigError::Memory) => return Err(AllocError),
    };
    match (fault.rule, std::str::from_utf8(bytes)) {
        (Rule::Size, _) | (_, Err(_)) => String::from_str(alloc, wanted(fault.rule)),
        (_, Ok(text)) => explain_text(alloc, text, &fault),
    }
}
