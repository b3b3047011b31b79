//! Which scopes a share may carry, and why a call on shares is refused.
ghost use Rattle.std.specs.Prelude.{◌≡◌, IfOk};
ghost use Rattle.shares.specs.Allowed.{is_of_server, is_server_action, may_share, or_access, refused_place, if_refused_scope, Checks};

use hub_kit::moment::Moment;
use hub_kit::names::ServerKey;
use scope_filters::scope::{RawFilter, RawScope};
use scope_names::action::Action;
use std::alloc::{AllocError, Global};

/// The first rule that refuses a call on shares.
#[derive(Drop)]
pub enum ShareError {
    /// The place of the first scope that a share may not carry.
    ScopeNotAllowed(usize),
    /// Nobody of the recipient's name is kept.
    NoRecipient,
    /// No kept code has the text's hash.
    CodeUnknown,
    /// The code that has the text's hash was good until this moment.
    CodeExpired(Moment),
    /// A code lives for 60 seconds at least.
    LifeTooShort(u32),
    /// There was no memory.
    Memory,
}

impl From<AllocError> for ShareError {
    ghost use Rattle.std.specs.Prelude.{◌≡◌};
    ghost use Rattle.shares.specs.declared.allowed.ShareError.TheVariants.{Memory};

    ghost from_gives = { λ _ e. e ≡ Memory };

    fn from(_: AllocError) -> ShareError {
        ShareError::Memory
    }
}

/// Refuses scopes that a share of the server may not carry.
pub(crate) fn check_scopes(server: &ServerKey, scopes: &[RawScope]) -> Result<(), ShareError>
    ensures { Checks (if_refused_scope server.now scopes.now) result }
{
    match refused_place(server, scopes) {
        Some(place) => Err(ShareError::ScopeNotAllowed(place)),
        None => Ok(()),
    }
}

/// The place of the first scope that a share of the server may not carry.
fn refused_place(server: &ServerKey, scopes: &[RawScope]) -> Option<usize>
    ensures { result ≡ refused_place server.now scopes.now }
{
    scopes.iter().position(|scope| !may_share(server, scope))
}

/// Whether a share of the server may carry the scope.
pub fn may_share(server: &ServerKey, scope: &RawScope) -> bool
    ensures { result ≡ may_share server.now scope.now }
{
    match scope {
        RawScope::Plain { action, filter } => is_server_action(*action)
            && is_of_server(server, filter),
        RawScope::SelfScope | RawScope::Inherit => false,
    }
}

fn is_server_action(action: Action) -> bool
    ensures { result ≡ is_server_action action }
{
    matches!(
        action,
        Action::AccessServers | Action::ReadServers | Action::Servers | Action::DeleteServers
    )
}

fn is_of_server(server: &ServerKey, filter: &RawFilter) -> bool
    ensures { result ≡ is_of_server server.now filter.now }
{
    match filter {
        RawFilter::Server(other) => *other == *server,
        _ => false,
    }
}

/// The scopes, or the access to that server where there are none.
pub(crate) fn or_access(
    alloc: Global,
    server: &ServerKey,
    scopes: &[RawScope],
) -> Result<Vec<RawScope>, AllocError>
    ensures { IfOk result (λ list. list.items ≡ or_access server.now scopes.now) }
{
    if !scopes.is_empty() {
        return Vec::from_slice(alloc, scopes);
    }
    let access = RawScope::Plain {
        action: Action::AccessServers,
        filter: RawFilter::Server(*server),
    };
    Vec::from_slice(alloc, &[access])
}
