//! What is said to people of a command that didn't do its work. No contract speaks of it, and it changes no status.
use crate::cause::Cause;
use crate::end::End;
use crate::known_names::AnyName;
use crate::refused_words::explain_words;
use http_wire::error::SessionFault;
use hub_kit::text::Text;
use hub_opening::config::{ConfigToken, HubConfig};
use hub_rows::records::{Group, Role};
use hub_run::Served;
use hub_words::session::read_session;
use scope_filters::holder::Owner;
use std::alloc::{AllocError, Global};

/// The name of the file of configuration in the words of a command.
fn config_name(alloc: Global, words: &[Text]) -> Result<Text, AllocError> {
    if let Ok(session) = read_session(alloc, words) {
        if let Some(name) = &session.config {
            return name.copy(alloc);
        }
    }
    Ok(Text::new(alloc))
}

// ---- where a name stands

/// Whether the members of a group have the name.
fn is_in_group(group: &Group, name: &AnyName) -> bool {
    match name {
        AnyName::User(user) => group.users.as_slice().iter().any(|member| *member == *user),
        AnyName::Group(_) | AnyName::Service(_) => false,
    }
}

/// Whether those who have a role have the name.
fn is_in_role(role: &Role, name: &AnyName) -> bool {
    match name {
        AnyName::User(user) => role.users.as_slice().iter().any(|holder| *holder == *user),
        AnyName::Group(group) => role
            .groups
            .as_slice()
            .iter()
            .any(|holder| *holder == *group),
        AnyName::Service(service) => role
            .services
            .as_slice()
            .iter()
            .any(|holder| *holder == *service),
    }
}

/// Whether a token is that of the name.
fn is_of_token(token: &ConfigToken, name: &AnyName) -> bool {
    match (&token.owner, name) {
        (Owner::User(owner), AnyName::User(user)) => *owner == *user,
        (Owner::Service(owner), AnyName::Service(service)) => *owner == *service,
        _ => false,
    }
}

/// The first list of a configuration that has the name, with the number of its entry, counted from 1.
pub fn place_of_name(alloc: Global, hub: &HubConfig, name: &AnyName) -> Result<String, AllocError> {
    let list = match name {
        AnyName::User(_) => "users",
        AnyName::Group(_) => "groups",
        AnyName::Service(_) => "services",
    };
    let groups = hub
        .groups
        .as_slice()
        .iter()
        .position(|group| is_in_group(group, name));
    let roles = hub
        .roles
        .as_slice()
        .iter()
        .position(|role| is_in_role(role, name));
    let tokens = hub
        .tokens
        .as_slice()
        .iter()
        .position(|token| is_of_token(token, name));
    let (table, at) = match (groups, roles, tokens) {
        (Some(at), _, _) => ("groups", at),
        (None, Some(at), _) => ("roles", at),
        (None, None, Some(at)) => ("tokens", at),
        (None, None, None) => return String::from_str(alloc, list),
    };
    let n = at.saturating_add(1);
    if table == "tokens" {
        return format!(in alloc; "{table}, entry {n}");
    }
    format!(in alloc; "{table}, entry {n}: {list}")
}

/// Why there was no session.
fn explain_cause(alloc: Global, words: &[Text], cause: &Cause) -> Result<String, AllocError> {
    match cause {
        Cause::Words => explain_words(alloc, words),
        Cause::NoFile => {
            let name = config_name(alloc, words)?;
            let name = name.as_str();
            format!(in alloc; "{cause}: {name}")
        }
        Cause::NoConfig(bytes) => {
            let name = config_name(alloc, words)?;
            let name = name.as_str();
            let why = hub_config::explain::explain(alloc, bytes.as_slice())?;
            format!(in alloc; "{cause}: {name}: {why}")
        }
        _ => format!(in alloc; "{cause}"),
    }
}

/// Why a command with these words didn't do its work, in a line; nothing where it did.
pub fn explain(alloc: Global, words: &[Text], end: &End) -> Result<Option<String>, AllocError> {
    let said = match end {
        Ok(Ok(Served::Ended(_))) | Ok(Ok(Served::Closed(_))) => return Ok(None),
        Ok(Ok(Served::Cut(_))) => String::from_str(alloc, "the input ended inside a request")?,
        Ok(Err(SessionFault::ReadFault(_))) => String::from_str(alloc, "reading the input failed")?,
        Ok(Err(SessionFault::WriteFault(_))) => String::from_str(
            alloc,
            "writing the output failed",
        )?,
        Err(cause) => explain_cause(alloc, words, cause)?,
    };
    Ok(Some(said))
}
