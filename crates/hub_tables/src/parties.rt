//! Under whom tokens and shares are found: one order for users, groups and services.
ghost use Rattle.std.specs.Prelude.{◌≡◌};
ghost use Rattle.hub_tables.specs.Parties.{party_exact, of_owner, of_recipient, giver_of, owner_number};

use hub_kit::key::Key;
use hub_kit::names::{GroupName, ServiceName, UserName};
use hub_rows::keys::{Recipient, ShareKey};
use row_indexes::numbers::number_of;
use scope_filters::holder::Owner;

/// Whose a token is, and between whom a share stands.
#[derive(Clone, Copy, PartialEq, Eq, PartialOrd, Ord)]
pub(crate) enum Party {
    User(UserName),
    Group(GroupName),
    Service(ServiceName),
}

impl Key for Party {
    ghost exact = { party_exact };
}

pub(crate) fn of_owner(owner: &Owner) -> Party
    ensures { result ≡ of_owner owner.now }
{
    match owner {
        Owner::User(user) => Party::User(*user),
        Owner::Service(service) => Party::Service(*service),
    }
}

/// The number under which the tokens of an owner stand. A user and a service of one name have the same.
pub(crate) fn owner_number(owner: &Owner) -> u64
    ensures { result ≡ owner_number owner.now }
{
    match owner {
        Owner::User(user) => number_of(user.as_bytes()),
        Owner::Service(service) => number_of(service.as_bytes()),
    }
}

pub(crate) fn of_recipient(recipient: &Recipient) -> Party
    ensures { result ≡ of_recipient recipient.now }
{
    match recipient {
        Recipient::User(user) => Party::User(*user),
        Recipient::Group(group) => Party::Group(*group),
    }
}

pub(crate) fn giver_of(key: &ShareKey) -> Party
    ensures { result ≡ giver_of key.now }
{
    Party::User(key.server.user)
}
