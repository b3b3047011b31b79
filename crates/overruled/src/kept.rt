//! What of a configuration a kept row overrules.
ghost use Rattle.std.specs.Prelude.{◌≡◌};
ghost use Rattle.overruled.specs.Overruled as spec;

use hub_kit::names::{GroupName, UserName};
use hub_opening::config::ConfigUser;
use hub_rows::records::{Group, User};
use hub_rows::rows::Row;
use keyed_rows::sorted::Sorted;

/// A thing that the configuration says and a kept row says otherwise. The row wins.
#[derive(Clone, Copy)]
pub enum Overruled {
    /// The group is kept with other members.
    Members(GroupName),
    /// The user is kept as an admin.
    Admin(UserName),
}

/// Whether each of these names is among the others.
fn are_among(names: &[UserName], others: &Sorted<UserName>) -> bool
    ensures { result ≡ spec.are_among names.now others.now }
{
    for name in names {
        if !others.contains(name) {
            return false;
        }
    }
    true
}

fn are_same(one: &Sorted<UserName>, other: &Sorted<UserName>) -> bool
    ensures { result ≡ spec.are_same one.now other.now }
{
    one.len() == other.len() && are_among(one.as_slice(), other)
}

/// Whether the first configured group of a kept one's name has other members.
fn other_members(groups: &[Group], kept: &Group) -> bool
    ensures { result ≡ spec.other_members groups.now kept.now }
{
    for group in groups {
        if group.name == kept.name {
            return !are_same(&group.users, &kept.users);
        }
    }
    false
}

fn is_named(users: &[ConfigUser], name: UserName) -> bool
    ensures { result ≡ spec.is_named users.now name }
{
    users.iter().any(|user| user.name == name)
}

fn is_named_admin(users: &[ConfigUser], name: UserName) -> bool
    ensures { result ≡ spec.is_named_admin users.now name }
{
    users.iter().any(|user| user.name == name && user.admin)
}

/// Whether a kept admin is configured, and nowhere as an admin.
fn stays_admin(users: &[ConfigUser], kept: &User) -> bool
    ensures { result ≡ spec.stays_admin users.now kept.now }
{
    kept.admin && is_named(users, kept.name) && !is_named_admin(users, kept.name)
}

fn of_group(groups: &[Group], kept: &Group) -> Option<Overruled>
    ensures { result ≡ spec.of_group groups.now kept.now }
{
    if other_members(groups, kept) {
        Some(Overruled::Members(kept.name))
    } else {
        None
    }
}

fn of_user(users: &[ConfigUser], kept: &User) -> Option<Overruled>
    ensures { result ≡ spec.of_user users.now kept.now }
{
    if stays_admin(users, kept) {
        Some(Overruled::Admin(kept.name))
    } else {
        None
    }
}

/// What of the configured users and groups this kept row overrules, if it does.
pub fn told_of(users: &[ConfigUser], groups: &[Group], kept: &Row) -> Option<Overruled>
    ensures { result ≡ spec.told_of users.now groups.now kept.now }
{
    match kept {
        Row::Group(group) => of_group(groups, group),
        Row::User(user) => of_user(users, user),
        _ => None,
    }
}
