//! Share codes.
ghost use Rattle.std.specs.Prelude.{◌≡◌, ◌∷◌, ◌++◌, [], codes, nat_lt, IfOk, OnOk};
ghost use Rattle.std.specs.Option.{option_copied, option_or};
ghost use Rattle.hub_tables.specs.Lookups.{next_of};
ghost use Rattle.shares.specs.declared.allowed.ShareError.TheVariants.{LifeTooShort};
ghost use Rattle.shares.specs.Allowed.{if_refused_scope, if_so, Checks, Tells};
ghost use Rattle.shares.specs.Codes.{accept_code, accepted, expired_among, expired_codes, made_code, make_code};

use crate::allowed::{ShareError, check_scopes, or_access};
use crate::granting::granted_share;
use hub_kit::hashes::hash_of;
use hub_kit::list::List;
use hub_kit::moment::Moment;
use hub_kit::names::{ServerKey, UserName};
use hub_kit::text::Text;
use hub_rows::keys::Recipient;
use hub_rows::records::{Share, ShareCode};
use hub_tables::tables::Tables;
use scope_filters::scope::RawScope;
use std::alloc::{AllocError, Global};

/// The shortest life of a code, in seconds.
const SHORTEST: u32 = 60;

/// The code of a text, under this id, for so many seconds. Its scopes are those given, or the access to that server where there are none.
/// The refusals in their order: `ScopeNotAllowed`, `LifeTooShort`.
pub fn make_code(
    alloc: Global,
    server: &ServerKey,
    scopes: &[RawScope],
    life: u32,
    text: &Text,
    id: u64,
    now: Moment,
) -> Result<ShareCode, ShareError>
    ensures { Tells (make_code server.now scopes.now life text.now id now) result }
{
    check_code(server, scopes, life)?;
    Ok(made_code(alloc, server, scopes, life, text, id, now)?)
}

/// Refuses scopes that a share may not carry, and a life that is too short.
fn check_code(server: &ServerKey, scopes: &[RawScope], life: u32) -> Result<(), ShareError>
    ensures { Checks (option_or (if_refused_scope server.now scopes.now) (if_so (nat_lt life 60) (LifeTooShort life))) result }
{
    check_scopes(server, scopes)?;
    if life < SHORTEST {
        Err(ShareError::LifeTooShort(life))
    } else {
        Ok(())
    }
}

fn made_code(
    alloc: Global,
    server: &ServerKey,
    scopes: &[RawScope],
    life: u32,
    text: &Text,
    id: u64,
    now: Moment,
) -> Result<ShareCode, AllocError>
    ensures { IfOk result (λ code. code ≡ made_code server.now scopes.now life text.now id now) }
{
    Ok(ShareCode {
        id,
        created: now,
        expires_at: now.later(life as u64),
        hash: hash_of(alloc, text.as_bytes())?,
        scopes: List::from_vec(or_access(alloc, server, scopes)?),
        server: *server,
    })
}

/// The id of the next code: ids begin with 1, and none is given out twice.
pub fn next_code(alloc: Global, tables: &Tables) -> Result<u64, AllocError>
    ensures { IfOk result (λ id. id ≡ next_of tables.now (codes "code")) }
{
    let name = Text::from_str(alloc, "code")?;
    match tables.next_of(&name) {
        Some(row) => Ok(row.next),
        None => Ok(1),
    }
}

/// The share that the code of a text grants a user; others may accept it too. `CodeUnknown` comes where no kept code has the text's hash,
/// `CodeExpired` where it was good until now or an earlier moment.
pub fn accept_code(
    alloc: Global,
    tables: &Tables,
    user: &UserName,
    text: &Text,
    now: Moment,
) -> Result<Share, ShareError>
    ensures { Tells (accept_code tables.now user.now text.now now) result }
{
    let hash = hash_of(alloc, text.as_bytes())?;
    accepted(alloc, tables, user, now, tables.code_of_hash(&hash))
}

fn accepted(
    alloc: Global,
    tables: &Tables,
    user: &UserName,
    now: Moment,
    code: Option<&ShareCode>,
) -> Result<Share, ShareError>
    ensures { Tells (accepted tables.now user.now now (option_copied code.entry)) result }
{
    let Some(code) = code else {
        return Err(ShareError::CodeUnknown);
    };
    if code.expires_at <= now {
        return Err(ShareError::CodeExpired(code.expires_at));
    }
    let to = Recipient::User(*user);
    Ok(granted_share(
        alloc,
        tables,
        &code.server,
        &to,
        code.scopes.as_slice(),
        now,
    )?)
}

/// The ids of a server's codes that are over, in order.
pub fn expired_codes(
    alloc: Global,
    tables: &Tables,
    server: &ServerKey,
    now: Moment,
) -> Result<Vec<u64>, AllocError>
    ensures { IfOk result (λ ids. ids.items ≡ expired_codes tables.now now server.now) }
{
    let mut ids = Vec::new(alloc);
    for code in tables.codes() {
        push_expired(&mut ids, code, server, now)?;
    }
    Ok(ids)
}

/// Appends the id of a code, if it is of the server and over.
fn push_expired(
    ids: &mut Vec<u64>,
    code: &ShareCode,
    server: &ServerKey,
    now: Moment,
) -> Result<(), AllocError>
    ensures { OnOk result (ids.new.items ≡ ids.old.items ++ expired_among now server.now (code.now ∷ [])) }
{
    if code.server == *server && code.expires_at <= now {
        ids.push(code.id)?;
    }
    Ok(())
}
