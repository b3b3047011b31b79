//! By what rows are found besides their keys: tokens and share codes by a hash, groups and roles by their members.
use crate::records::{Group, Role, ShareCode, Token};
use hub_kit::names::{GroupName, ServiceName, UserName};
use hub_kit::text::Text;
use keyed_rows::sorted::Sorted;
use row_indexes::hashed::Hashed;
use row_indexes::members::HasMembers;

impl Hashed for Token {
    ghost hash_of = { λ row. row.hash };

    fn hash(&self) -> &Text {
        &self.hash
    }
}

impl Hashed for ShareCode {
    ghost hash_of = { λ row. row.hash };

    fn hash(&self) -> &Text {
        &self.hash
    }
}

impl HasMembers<UserName> for Group {
    ghost members_of = { λ group. group.users };

    fn members(&self) -> &Sorted<UserName> {
        &self.users
    }
}

impl HasMembers<UserName> for Role {
    ghost members_of = { λ role. role.users };

    fn members(&self) -> &Sorted<UserName> {
        &self.users
    }
}

impl HasMembers<GroupName> for Role {
    ghost members_of = { λ role. role.groups };

    fn members(&self) -> &Sorted<GroupName> {
        &self.groups
    }
}

impl HasMembers<ServiceName> for Role {
    ghost members_of = { λ role. role.services };

    fn members(&self) -> &Sorted<ServiceName> {
        &self.services
    }
}
