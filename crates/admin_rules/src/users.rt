//! The calls that add, change and delete users.
ghost use Rattle.std.specs.Prelude.{◌≡◌, map, IfOk};
ghost use Rattle.admin_rules.specs.Rules.{ArePlain, Checks, Says};
ghost use Rattle.admin_rules.specs.Users.{add_users, delete_user, if_none_new, new_user, set_admin, unkept_users};

use crate::of_users::user_rows;
use crate::refusals::{RuleRefusal, check_room};
use crate::rows::{append, one};
use hub_kit::moment::Moment;
use hub_kit::names::UserName;
use hub_kit::text::Text;
use hub_rows::changes::RowChange;
use hub_rows::records::User;
use hub_rows::rows::Row;
use hub_tables::tables::Tables;
use std::alloc::{AllocError, Global};

/// Adds the users that aren't kept yet, in the order given, as `POST /users` and `POST /users/{name}` do. `Exists` names the
/// first name where all are kept, and `Full` comes where the new users would pass the limit of users. The names are distinct.
pub fn add_users(
    alloc: Global,
    tables: &Tables,
    names: &[UserName],
    admin: bool,
    now: Moment,
) -> Result<Vec<RowChange>, RuleRefusal>
    ensures answer { Says (add_users tables.now names.now admin now) result }
    ensures plain { IfOk result (λ rows. ArePlain rows.items) }
{
    let new = unkept_users(alloc, tables, names)?;
    check_new(alloc, new.as_slice(), names)?;
    check_room(
        1,
        tables.limits().users,
        tables.count_of_users() as u64,
        new.len() as u64,
    )?;
    Ok(new_users(alloc, new.as_slice(), admin, now)?)
}

fn unkept_users(
    alloc: Global,
    tables: &Tables,
    names: &[UserName],
) -> Result<Vec<UserName>, AllocError>
    ensures { IfOk result (λ new. new.items ≡ unkept_users tables.now names.now) }
{
    let mut new = Vec::new(alloc);
    for name in names {
        if tables.user(name).is_none() {
            new.push(*name)?;
        }
    }
    Ok(new)
}

/// Refuses where none of the names is new.
fn check_new(alloc: Global, new: &[UserName], names: &[UserName]) -> Result<(), RuleRefusal>
    ensures { Checks (if_none_new new.now names.now) result }
{
    if new.is_empty()
        && let Some(name) = names.first()
    {
        return Err(RuleRefusal::Exists(Text::from_str(alloc, name.as_str())?));
    }
    Ok(())
}

fn new_users(
    alloc: Global,
    names: &[UserName],
    admin: bool,
    now: Moment,
) -> Result<Vec<RowChange>, AllocError>
    ensures { IfOk result (λ rows. rows.items ≡ map (new_user admin now) names.now) }
{
    let mut users = Vec::new(alloc);
    for name in names {
        append(&mut users, new_user(*name, admin, now))?;
    }
    Ok(users)
}

fn new_user(name: UserName, admin: bool, now: Moment) -> RowChange
    ensures { result ≡ new_user admin now name }
{
    RowChange::Put(Row::User(User {
        name,
        admin,
        created: now,
        last_activity: None,
    }))
}

/// Makes a user an admin, or no longer one, as `PATCH /users/{name}` does. Without such a user nothing changes.
pub fn set_admin(
    alloc: Global,
    tables: &Tables,
    user: &UserName,
    admin: bool,
) -> Result<Vec<RowChange>, RuleRefusal>
    ensures answer { Says (set_admin tables.now user.now admin) result }
    ensures plain { IfOk result (λ rows. ArePlain rows.items) }
{
    match tables.user(user) {
        Some(kept) if kept.admin != admin => {
            let change = RowChange::Put(Row::User(User { admin, ..*kept }));
            one(alloc, change)
        }
        _ => Ok(Vec::new(alloc)),
    }
}

/// Deletes a user with all that is the user's: tokens, servers, shares given and received, share codes, clients and codes of
/// OAuth, and the name from groups and roles. `live` tells whether a server of the user is live, which refuses the call.
/// Without such a user nothing changes.
pub fn delete_user(
    alloc: Global,
    tables: &Tables,
    user: &UserName,
    live: bool,
) -> Result<Vec<RowChange>, RuleRefusal>
    ensures answer { Says (delete_user tables.now user.now live) result }
    ensures plain { IfOk result (λ rows. ArePlain rows.items) }
{
    if live {
        return Err(RuleRefusal::LiveServers);
    }
    if tables.user(user).is_none() {
        return Ok(Vec::new(alloc));
    }
    Ok(user_rows(alloc, tables, user)?)
}
