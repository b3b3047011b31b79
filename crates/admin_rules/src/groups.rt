//! The calls that add, change and delete groups.
ghost use Rattle.std.specs.Prelude.{◌≡◌, Some, IfOk, Ok};
ghost use Rattle.std.specs.Option.{option_copied};
ghost use Rattle.admin_rules.specs.Rules.{ArePlain, Checks, Says, first_unkept};
ghost use Rattle.admin_rules.specs.Groups.{add_group, delete_group, if_unknown_user, join_group, leave_group, with_members};

use crate::of_groups::group_rows;
use crate::refusals::{RuleRefusal, check_absent, check_room};
use crate::rows::one;
use hub_kit::names::{GroupName, UserName};
use hub_rows::changes::RowChange;
use hub_rows::records::Group;
use hub_rows::rows::Row;
use hub_tables::tables::Tables;
use keyed_rows::sorted::Sorted;
use std::alloc::Global;

/// Adds a group with its users, as `POST /groups/{name}` does. The refusals in their order: `Exists`, `UnknownUser`, `Full`.
pub fn add_group(
    alloc: Global,
    tables: &Tables,
    group: &GroupName,
    users: &[UserName],
) -> Result<Vec<RowChange>, RuleRefusal>
    ensures answer { Says (add_group tables.now group.now users.now) result }
    ensures plain { IfOk result (λ rows. ArePlain rows.items) }
{
    check_absent(alloc, tables.group(group).is_some(), group.as_str())?;
    check_users(tables, users)?;
    check_room(
        2,
        tables.limits().groups,
        tables.count_of_groups() as u64,
        1,
    )?;
    let users = Sorted::from_vec(Vec::from_slice(alloc, users)?);
    one(
        alloc,
        RowChange::Put(Row::Group(Group {
            name: *group,
            users,
        })),
    )
}

/// Adds users to a group, as `POST /groups/{name}/users` does. `UnknownUser` names the first that isn't kept, in the order
/// given. Without such a group, and where all are its members, nothing changes.
pub fn join_group(
    alloc: Global,
    tables: &Tables,
    group: &GroupName,
    users: &[UserName],
) -> Result<Vec<RowChange>, RuleRefusal>
    ensures answer { Says (join_group tables.now group.now users.now) result }
    ensures plain { IfOk result (λ rows. ArePlain rows.items) }
{
    check_users(tables, users)?;
    match tables.group(group) {
        Some(kept) => {
            let members = kept.users.with(alloc, users)?;
            with_members(alloc, kept, members)
        }
        None => Ok(Vec::new(alloc)),
    }
}

/// Takes users out of a group, as `DELETE /groups/{name}/users` does. `UnknownUser` names the first that isn't kept, in the
/// order given. Without such a group, and where none is its member, nothing changes.
pub fn leave_group(
    alloc: Global,
    tables: &Tables,
    group: &GroupName,
    users: &[UserName],
) -> Result<Vec<RowChange>, RuleRefusal>
    ensures answer { Says (leave_group tables.now group.now users.now) result }
    ensures plain { IfOk result (λ rows. ArePlain rows.items) }
{
    check_users(tables, users)?;
    match tables.group(group) {
        Some(kept) => {
            let members = kept.users.without(alloc, users)?;
            with_members(alloc, kept, members)
        }
        None => Ok(Vec::new(alloc)),
    }
}

/// Refuses where a user isn't kept.
fn check_users(tables: &Tables, users: &[UserName]) -> Result<(), RuleRefusal>
    ensures { Checks (if_unknown_user tables.now users.now) result }
{
    match unkept_user(tables, users) {
        Some(user) => Err(RuleRefusal::UnknownUser(*user)),
        None => Ok(()),
    }
}

/// The first user that isn't kept.
pub(crate) fn unkept_user<'a>(tables: &Tables, users: &'a [UserName]) -> Option<&'a UserName>
    ensures { option_copied result ≡ first_unkept tables.now.users users.now }
{
    for user in users {
        if tables.user(user).is_none() {
            return Some(user);
        }
    }
    None
}

/// A kept group with other members, unless they are the same.
fn with_members(
    alloc: Global,
    kept: &Group,
    members: Sorted<UserName>,
) -> Result<Vec<RowChange>, RuleRefusal>
    ensures answer { Says (Ok (with_members (λ _. members) (Some kept.now))) result }
    ensures plain { IfOk result (λ rows. ArePlain rows.items) }
{
    if members.as_slice() == kept.users.as_slice() {
        return Ok(Vec::new(alloc));
    }
    let change = RowChange::Put(Row::Group(Group {
        name: kept.name,
        users: members,
    }));
    one(alloc, change)
}

/// Deletes a group with the shares to it, and takes its name from roles. Without such a group nothing changes.
pub fn delete_group(
    alloc: Global,
    tables: &Tables,
    group: &GroupName,
) -> Result<Vec<RowChange>, RuleRefusal>
    ensures answer { Says (delete_group tables.now group.now) result }
    ensures plain { IfOk result (λ rows. ArePlain rows.items) }
{
    if tables.group(group).is_none() {
        return Ok(Vec::new(alloc));
    }
    Ok(group_rows(alloc, tables, group)?)
}
