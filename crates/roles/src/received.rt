//! The shares that a user received, or that a group of the user received.
ghost use Rattle.std.specs.Prelude.{◌≡◌, ◌++◌, map, OnOk, IfOk};
ghost use Rattle.std.specs.List.{filter, flat_map};
ghost use Rattle.std.specs.FinMap as finite;
ghost use Rattle.hub_tables.specs.Lookups.{same_recipient, shares_with, groups_of};
ghost use Rattle.scope_filters.specs.declared.holder.Owner.TheVariants as Own;
ghost use Rattle.roles.specs.Rights.{shares_received};
ghost use Rattle.roles.specs.Received.{share_scopes};

use hub_kit::names::{GroupName, UserName};
use hub_rows::keys::{Recipient, ShareKey};
use hub_tables::tables::Tables;
use keyed_rows::sorted::Sorted;
use scope_filters::scope::RawScope;
use std::alloc::{AllocError, Global};

/// Appends the scopes of the shares that the user received, in the order of the shares.
pub(crate) fn push_received(
    alloc: Global,
    scopes: &mut Vec<RawScope>,
    t: &Tables,
    user: &UserName,
) -> Result<(), AllocError>
    ensures { OnOk result (scopes.new.items ≡ scopes.old.items ++ flat_map (λ share. share.scopes)
        (shares_received t.now (Own.User user.now))) }
{
    let keys = Sorted::from_vec(keys_received(alloc, t, user)?);
    t.own_keys();
    push_scopes(scopes, t, keys.as_slice())
}

/// The keys of the shares to the user, and of those to each of the user's groups.
fn keys_received(alloc: Global, t: &Tables, user: &UserName) -> Result<Vec<ShareKey>, AllocError>
    ensures { IfOk result (λ keys. keys.items ≡ filter (λ key. same_recipient key.to (Recipient.User user.now))
        (shares_with t.now (Recipient.User user.now))
        ++ flat_map (λ group. shares_with t.now (Recipient.Group group)) (groups_of t.now user.now)) }
{
    let mut keys = keys_to_user(alloc, t, user)?;
    let groups = t.groups_of(alloc, user)?;
    push_to_groups(alloc, &mut keys, t, groups.as_slice())?;
    Ok(keys)
}

/// Appends the keys of the shares to each of the groups.
fn push_to_groups(
    alloc: Global,
    keys: &mut Vec<ShareKey>,
    t: &Tables,
    groups: &[GroupName],
) -> Result<(), AllocError>
    ensures { OnOk result (keys.new.items ≡ keys.old.items ++ flat_map (λ group. shares_with t.now (Recipient.Group group)) groups.now) }
{
    for group in groups {
        let more = t.shares_with(alloc, &Recipient::Group(*group))?;
        keys.extend_from_slice(&more)?;
    }
    Ok(())
}

/// The keys of the shares to the user.
fn keys_to_user(alloc: Global, t: &Tables, user: &UserName) -> Result<Vec<ShareKey>, AllocError>
    ensures { IfOk result (λ keys. keys.items ≡ filter (λ key. same_recipient key.to (Recipient.User user.now))
        (shares_with t.now (Recipient.User user.now))) }
{
    t.shares_to(alloc, &Recipient::User(*user))
}

/// Appends the scopes of the shares of these keys.
fn push_scopes(scopes: &mut Vec<RawScope>, t: &Tables, keys: &[ShareKey]) -> Result<(), AllocError>
    ensures { OnOk result (scopes.new.items ≡ scopes.old.items ++ flat_map (λ key. share_scopes (finite.get t.now.shares key)) keys.now) }
{
    for key in keys {
        push_share(scopes, t, key)?;
    }
    Ok(())
}

fn push_share(scopes: &mut Vec<RawScope>, t: &Tables, key: &ShareKey) -> Result<(), AllocError>
    ensures { OnOk result (scopes.new.items ≡ scopes.old.items ++ share_scopes (finite.get t.now.shares key.now)) }
{
    match t.share(&key.server, &key.to) {
        Some(share) => scopes.extend_from_slice(share.scopes.as_slice()),
        None => Ok(()),
    }
}
