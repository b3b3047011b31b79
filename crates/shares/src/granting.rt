//! Shares that are granted and revoked.
ghost use Rattle.std.specs.Prelude.{◌≡◌, ℕ, List, Option, Some, IfOk};
ghost use Rattle.scope_filters.specs.declared.scope.RawScope.{RawScope};
ghost use Rattle.hub_rows.specs.declared.keys.ShareKey.{ShareKey};
ghost use Rattle.hub_rows.specs.declared.records.Share.{Share};
ghost use Rattle.std.specs.Option.{option_copied};
ghost use Rattle.shares.specs.Allowed.{Tells};
ghost use Rattle.shares.specs.Granting.{checked, grant_share, granted, granted_share, is_kept, left, recipient_of, revoke_share, share_of};

use crate::allowed::{ShareError, check_scopes, or_access};
use hub_kit::moment::Moment;
use hub_kit::names::ServerKey;
use hub_rows::keys::{Recipient, ShareKey};
use hub_rows::records::Share;
use hub_rows::shared_scopes::SharedScopes;
use hub_tables::tables::Tables;
use scope_filters::scope::RawScope;
use std::alloc::{AllocError, Global};

/// What the share of a server with someone is once these scopes are granted: a new one, or the kept one with these too, created when it
/// was. No scopes are the access to that server. The refusals in their order: `ScopeNotAllowed`, and `NoRecipient` where nobody is named
/// or somebody who isn't kept.
pub fn grant_share(
    alloc: Global,
    tables: &Tables,
    server: &ServerKey,
    to: Option<Recipient>,
    scopes: &[RawScope],
    now: Moment,
) -> Result<Share, ShareError>
    ensures { Tells (grant_share tables.now server.now to scopes.now now) result }
{
    let to = check_grant(tables, server, to, scopes)?;
    Ok(granted_share(alloc, tables, server, &to, scopes, now)?)
}

/// What the share of a server with someone is without these scopes, if any is left: no scopes are all of them. The refusals are those of
/// `grant_share`.
pub fn revoke_share(
    alloc: Global,
    tables: &Tables,
    server: &ServerKey,
    to: Option<Recipient>,
    scopes: &[RawScope],
) -> Result<Option<Share>, ShareError>
    ensures { Tells (revoke_share tables.now server.now to scopes.now) result }
{
    let to = check_grant(tables, server, to, scopes)?;
    match tables.share(server, &to) {
        None => Ok(None),
        Some(kept) => Ok(remains(alloc, scopes, kept)?),
    }
}

/// The recipient of a grant or a revocation, unless a scope may not be shared.
fn check_grant(
    tables: &Tables,
    server: &ServerKey,
    to: Option<Recipient>,
    scopes: &[RawScope],
) -> Result<Recipient, ShareError>
    ensures { result ≡ checked tables.now server.now to scopes.now }
{
    check_scopes(server, scopes)?;
    recipient_of(tables, to)
}

/// The recipient who is named, and kept.
fn recipient_of(tables: &Tables, to: Option<Recipient>) -> Result<Recipient, ShareError>
    ensures { result ≡ recipient_of tables.now to }
{
    match to {
        Some(to) if is_kept(tables, &to) => Ok(to),
        _ => Err(ShareError::NoRecipient),
    }
}

fn is_kept(tables: &Tables, to: &Recipient) -> bool
    ensures { result ≡ is_kept tables.now to.now }
{
    match to {
        Recipient::User(user) => tables.user(user).is_some(),
        Recipient::Group(group) => tables.group(group).is_some(),
    }
}

/// What the share of a server with someone is once these scopes are granted, whoever it is.
pub(crate) fn granted_share(
    alloc: Global,
    tables: &Tables,
    server: &ServerKey,
    to: &Recipient,
    scopes: &[RawScope],
    now: Moment,
) -> Result<Share, AllocError>
    ensures { IfOk result (λ share. share ≡ granted_share tables.now now server.now to.now scopes.now) }
{
    let more = or_access(alloc, server, scopes)?;
    let key = ShareKey {
        server: *server,
        to: *to,
    };
    granted(alloc, now, key, &more, tables.share(server, to))
}

/// A new share, or the kept one with more scopes.
fn granted(
    alloc: Global,
    now: Moment,
    key: ShareKey,
    more: &[RawScope],
    kept: Option<&Share>,
) -> Result<Share, AllocError>
    ensures { IfOk result (λ share. share ≡ granted now key more.now (option_copied kept.entry)) }
{
    match kept {
        None => Ok(Share {
            key,
            created: now,
            scopes: SharedScopes::new(alloc).with(alloc, more)?,
        }),
        Some(kept) => Ok(Share {
            key: kept.key,
            created: kept.created,
            scopes: kept.scopes.with(alloc, more)?,
        }),
    }
}

/// What is left of a share.
fn remains(alloc: Global, gone: &[RawScope], kept: &Share) -> Result<Option<Share>, AllocError>
    ensures { IfOk result (λ share. share ≡ share_of kept.now (left gone.now kept.now.scopes)) }
{
    let scopes = left(alloc, gone, &kept.scopes)?;
    if scopes.as_slice().is_empty() {
        return Ok(None);
    }
    Ok(Some(Share {
        key: kept.key,
        created: kept.created,
        scopes,
    }))
}

fn left(alloc: Global, gone: &[RawScope], kept: &SharedScopes) -> Result<SharedScopes, AllocError>
    ensures { IfOk result (λ scopes. scopes ≡ left gone.now kept.now) }
{
    if gone.is_empty() {
        return Ok(SharedScopes::new(alloc));
    }
    kept.without(alloc, gone)
}

/// Granting twice is granting once: the share that a grant left is what the same grant leaves of it, at any later moment.
pub fn granting_twice()
    ensures { (key : ShareKey) (scopes : List RawScope) (kept : Option Share) (now later : ℕ)
        → granted later key scopes (Some (granted now key scopes kept)) ≡ granted now key scopes kept }
{}
