//! Scopes as they are written.
ghost use Rattle.std.specs.Prelude.{◌≡◌, ℕ, ◌+◌, ◌-◌, ◌<◌, ◌^◌, length, List, ◌++◌, Ok, IsTrue, IfOk, OnOk};
ghost use Rattle.std.specs.Option.{option_copied};
ghost use Rattle.hub_kit.specs.ServerKeys.{IsPlaceBelow};
ghost use Rattle.scope_filters.specs.Scopes.{before, after, kind_read, holder_read, value_read, filter_read, meta_read, scope_read};
ghost use Rattle.scope_filters.specs.Scopes as spec;
ghost use Rattle.scope_filters.specs.ScopeNames.{IsFilterName};

use hub_kit::names::{self, GroupName, NameError, ServerKey, ServiceName, UserName};
use hub_kit::text::Text;
use scope_names::action::{Action, action_text, read_action};
use std::alloc::{AllocError, Global};

/// The filter of a scope as written. The last three stand for the holder's own user, server and service.
#[derive(Clone, Copy, PartialEq, Eq)]
pub enum RawFilter {
    Unfiltered,
    User(UserName),
    Group(GroupName),
    Server(ServerKey),
    Service(ServiceName),
    HolderUser,
    HolderServer,
    HolderService,
}

/// A scope as written: an action with a filter, or one of the metascopes `self` and `inherit`.
#[derive(Clone, Copy, PartialEq, Eq)]
pub enum RawScope {
    Plain { action: Action, filter: RawFilter },
    SelfScope,
    Inherit,
}

/// Why a text is no scope. `BadValue` has the place of the first bad byte in the whole text.
#[derive(Clone, Copy, Debug, PartialEq, Eq)]
pub enum ScopeError {
    UnknownName,
    UnknownKind,
    BadValue(usize),
    FilterOnMeta,
    Memory,
}

/// What a filter names.
#[derive(Clone, Copy)]
enum Kind {
    User,
    Group,
    Server,
    Service,
}

/// Reads a scope, `NAME`, `NAME!KIND` or `NAME!KIND=VALUE`, as JupyterHub writes them. The text is cut at the first `!`, and
/// the rest at its first `=`. The errors in their order: `UnknownName` where the name is no action, `self` or `inherit`;
/// `FilterOnMeta` where `self` or `inherit` has a `!`; `UnknownKind` where the kind isn't user, group, server or service;
/// `BadValue` with the place of the value's first bad byte, or of its first byte where it is empty or too long. Takes no memory.
pub fn read_scope(text: &str) -> Result<RawScope, ScopeError>
    ensures { result ≡ scope_read text.now }
{
    let (name, filter) = cut(text, '!');
    if name == "self" {
        return read_meta(RawScope::SelfScope, filter);
    }
    if name == "inherit" {
        return read_meta(RawScope::Inherit, filter);
    }
    let Some(action) = read_action(name) else {
        return Err(ScopeError::UnknownName);
    };
    match filter {
        None => Ok(RawScope::Plain {
            action,
            filter: RawFilter::Unfiltered,
        }),
        Some(filter) => {
            let filter = read_filter(name.len() + 1, filter)?;
            Ok(RawScope::Plain { action, filter })
        }
    }
}

/// What stands before the first mark of a text, and what stands after it, where the text has one.
pub fn cut(text: &str, mark: char) -> (&str, Option<&str>)
    requires { mark < 128 }
    ensures first { result.0.now ≡ before mark text.now }
    ensures rest { option_copied result.1 ≡ after mark text.now }
{
    match text.split_once(mark) {
        Some((first, rest)) => (first, Some(rest)),
        None => (text, None),
    }
}

fn read_meta(scope: RawScope, filter: Option<&str>) -> Result<RawScope, ScopeError>
    ensures { result ≡ meta_read scope (option_copied filter.entry) }
{
    match filter {
        None => Ok(scope),
        Some(_) => Err(ScopeError::FilterOnMeta),
    }
}

/// Reads a filter, which begins at a place of the whole text.
fn read_filter(at: usize, text: &str) -> Result<RawFilter, ScopeError>
    requires { at + length text.now < 2 ^ 64 }
    ensures { result ≡ filter_read at text.now }
{
    let (kind, value) = cut(text, '=');
    let end = at + kind.len();
    match read_kind(kind) {
        None => Err(ScopeError::UnknownKind),
        Some(kind) => match value {
            None => read_holder(end, kind),
            Some(value) => read_value(end + 1, kind, value.as_bytes()),
        },
    }
}

fn read_kind(text: &str) -> Option<Kind>
    ensures { result ≡ kind_read text.now }
{
    if text == "user" {
        Some(Kind::User)
    } else if text == "group" {
        Some(Kind::Group)
    } else if text == "server" {
        Some(Kind::Server)
    } else if text == "service" {
        Some(Kind::Service)
    } else {
        None
    }
}

/// The filter of a kind without a value, which ends at a place.
fn read_holder(end: usize, kind: Kind) -> Result<RawFilter, ScopeError>
    ensures { result ≡ holder_read end kind }
{
    match kind {
        Kind::User => Ok(RawFilter::HolderUser),
        Kind::Group => Err(ScopeError::BadValue(end)),
        Kind::Server => Ok(RawFilter::HolderServer),
        Kind::Service => Ok(RawFilter::HolderService),
    }
}

/// The filter of a kind with a value, which begins at a place.
fn read_value(at: usize, kind: Kind, value: &[u8]) -> Result<RawFilter, ScopeError>
    requires { at + length value.now < 2 ^ 64 }
    ensures { result ≡ value_read at kind value.now }
{
    match kind {
        Kind::User => match names::read_user(value) {
            Ok(user) => Ok(RawFilter::User(user)),
            Err(error) => Err(value_error(at, error)),
        },
        Kind::Group => match names::read_group(value) {
            Ok(group) => Ok(RawFilter::Group(group)),
            Err(error) => Err(value_error(at, error)),
        },
        Kind::Server => match names::read_key(value) {
            Ok(key) => Ok(RawFilter::Server(key)),
            Err(error) => Err(value_error(at, error)),
        },
        Kind::Service => match names::read_service(value) {
            Ok(service) => Ok(RawFilter::Service(service)),
            Err(error) => Err(value_error(at, error)),
        },
    }
}

/// Why a value that begins at a place is none, with its place in the whole text.
fn value_error(at: usize, error: NameError) -> ScopeError
    requires { IsPlaceBelow (2 ^ 64 - at) error }
    ensures { result ≡ spec.value_error at error }
{
    match error {
        NameError::BadByte(place) => ScopeError::BadValue(at + place),
        NameError::Empty | NameError::TooLong => ScopeError::BadValue(at),
        NameError::Memory => ScopeError::Memory,
    }
}

/// The text of a scope, which reads as that scope, and is the only one that does.
pub fn scope_text(alloc: Global, scope: &RawScope) -> Result<Text, AllocError>
    ensures text { IfOk result (λ text. text ≡ spec.scope_text scope.now) }
    ensures reads { IfOk result (λ text. scope_read text ≡ Ok scope.now) }
    ensures only { IfOk result (λ text. (other : List ℕ) → scope_read other ≡ Ok scope.now → other ≡ text) }
{
    match scope {
        RawScope::Plain { action, filter } => {
            let mut text = Text::from_str(alloc, action_text(action))?;
            push_filter(&mut text, filter)?;
            Ok(text)
        }
        RawScope::SelfScope => Text::from_str(alloc, "self"),
        RawScope::Inherit => Text::from_str(alloc, "inherit"),
    }
}

/// Appends the text of a filter, whose names are of the grammar.
fn push_filter(text: &mut Text, filter: &RawFilter) -> Result<(), AllocError>
    ensures text { OnOk result (text.new ≡ text.old ++ spec.filter_text filter.now) }
    ensures names { IsFilterName filter.now }
{
    match filter {
        RawFilter::Unfiltered => Ok(()),
        RawFilter::User(user) => push_value(text, "!user=", user.as_str()),
        RawFilter::Group(group) => push_value(text, "!group=", group.as_str()),
        RawFilter::Server(key) => push_key(text, key),
        RawFilter::Service(service) => push_value(text, "!service=", service.as_str()),
        RawFilter::HolderUser => text.push_str("!user"),
        RawFilter::HolderServer => text.push_str("!server"),
        RawFilter::HolderService => text.push_str("!service"),
    }
}

fn push_value(text: &mut Text, kind: &str, value: &str) -> Result<(), AllocError>
    ensures { OnOk result (text.new ≡ text.old ++ (kind.now ++ value.now)) }
{
    text.push_str(kind)?;
    text.push_str(value)
}

fn push_key(text: &mut Text, key: &ServerKey) -> Result<(), AllocError>
    ensures text { OnOk result (text.new ≡ text.old ++ spec.filter_text (RawFilter.Server key.now)) }
    ensures names { IsFilterName (RawFilter.Server key.now) }
{
    let user = key.user.as_str();
    let server = key.server.as_str();
    push_value(text, "!server=", user)?;
    push_value(text, "/", server)
}
