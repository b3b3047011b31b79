//! Which shares and share codes belong together.
ghost use Rattle.std.specs.Prelude.{◌≡◌, ◌∷◌, ◌++◌, [], IfOk, IsTrue, OnOk};
ghost use Rattle.std.specs.List.{filter};
ghost use Rattle.hub_rows.specs.declared.keys.Recipient.TheVariants as To;
ghost use Rattle.hub_rows.specs.declared.records.Share.{Share};
ghost use Rattle.hub_tables.specs.Lookups.{is_share_with, same_recipient};
ghost use Rattle.shares.specs.Lists.{codes_among, codes_of, is_code_of, is_share_of, shares_of};

use hub_kit::names::{ServerKey, UserName};
use hub_rows::keys::{Recipient, ShareKey};
use hub_rows::records::ShareCode;
use hub_tables::tables::Tables;
use std::alloc::{AllocError, Global};

/// Whose shares.
#[derive(Clone, Copy)]
pub enum SharesOf {
    /// Those that a user received.
    Recipient(UserName),
    /// Those of the servers of a user.
    Owner(UserName),
    /// Those of a server.
    Server(ServerKey),
}

/// Whose share codes.
#[derive(Clone, Copy)]
pub enum CodesOf {
    /// Those of the servers of a user.
    Owner(UserName),
    /// Those of a server.
    Server(ServerKey),
}

/// The keys of these shares, in order. It looks at the shares that one user gave or received alone.
pub fn shares_of(
    alloc: Global,
    tables: &Tables,
    whose: &SharesOf,
) -> Result<Vec<ShareKey>, AllocError>
    ensures { IfOk result (λ keys. keys.items ≡ shares_of tables.now whose.now) }
{
    let among = tables.shares_with(alloc, &Recipient::User(user_of(whose)))?;
    shares_among(alloc, whose, among.as_slice())
}

/// A user who gave or received each of these shares.
fn user_of(whose: &SharesOf) -> UserName
    ensures { (share : Share) → IsTrue (is_share_of whose.now share.key) → IsTrue (is_share_with (To.User result) share) }
{
    match whose {
        SharesOf::Recipient(user) | SharesOf::Owner(user) => *user,
        SharesOf::Server(server) => server.user,
    }
}

/// Those of some keys that are of these shares.
fn shares_among(
    alloc: Global,
    whose: &SharesOf,
    keys: &[ShareKey],
) -> Result<Vec<ShareKey>, AllocError>
    ensures { IfOk result (λ among. among.items ≡ filter (is_share_of whose.now) keys.now) }
{
    let mut among = Vec::new(alloc);
    for key in keys {
        if is_share_of(whose, key) {
            among.push(*key)?;
        }
    }
    Ok(among)
}

fn is_share_of(whose: &SharesOf, key: &ShareKey) -> bool
    ensures { result ≡ is_share_of whose.now key.now }
{
    match whose {
        SharesOf::Recipient(user) => is_to_user(&key.to, user),
        SharesOf::Owner(user) => key.server.user == *user,
        SharesOf::Server(server) => key.server == *server,
    }
}

fn is_to_user(to: &Recipient, user: &UserName) -> bool
    ensures { result ≡ same_recipient to.now (To.User user.now) }
{
    match to {
        Recipient::User(name) => name == user,
        Recipient::Group(_) => false,
    }
}

/// The ids of these share codes, in order.
pub fn codes_of(alloc: Global, tables: &Tables, whose: &CodesOf) -> Result<Vec<u64>, AllocError>
    ensures { IfOk result (λ ids. ids.items ≡ codes_of tables.now whose.now) }
{
    let mut ids = Vec::new(alloc);
    for code in tables.codes() {
        push_code(&mut ids, whose, code)?;
    }
    Ok(ids)
}

/// Appends the id of a code, if it is one of these.
fn push_code(ids: &mut Vec<u64>, whose: &CodesOf, code: &ShareCode) -> Result<(), AllocError>
    ensures { OnOk result (ids.new.items ≡ ids.old.items ++ codes_among whose.now (code.now ∷ [])) }
{
    if is_code_of(whose, code) {
        ids.push(code.id)?;
    }
    Ok(())
}

/// Whether the code is one of these.
pub fn is_code_of(whose: &CodesOf, code: &ShareCode) -> bool
    ensures { result ≡ is_code_of whose.now code.now }
{
    match whose {
        CodesOf::Owner(user) => code.server.user == *user,
        CodesOf::Server(server) => code.server == *server,
    }
}
