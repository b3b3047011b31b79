//! Who is in which group, and who is named by which role.
ghost use Rattle.std.specs.Prelude.{◌≡◌, IfOk};
ghost use Rattle.hub_tables.specs.Lookups.{groups_of, roles_naming_user, roles_naming_group, roles_naming_service};

use crate::tables::Tables;
use hub_kit::names::{GroupName, RoleName, ServiceName, UserName};
use keyed_rows::sorted::Sorted;
use row_indexes::members::keys_with;
use scope_filters::members::Members;
use std::alloc::{AllocError, Global};

impl Members for Tables {
    ghost use Rattle.hub_tables.specs.Memberships.{members_of};

    ghost context = { λ s. members_of s.groups };

    fn is_member(&self, user: &UserName, group: &GroupName) -> bool {
        match self.group(group) {
            Some(row) => row.users.contains(user),
            None => false,
        }
    }

    fn members(&self, group: &GroupName) -> &[UserName] {
        match self.group(group) {
            Some(row) => row.users.as_slice(),
            None => &[],
        }
    }
}

impl Tables {
    /// The names of the groups that a user is in. By the index it walks over these groups alone; where the index was given up it
    /// scans all groups, with a binary search in each.
    pub fn groups_of(&self, alloc: Global, user: &UserName) -> Result<Sorted<GroupName>, AllocError>
        ensures { IfOk result (λ names. names ≡ groups_of self.now user.now) }
    {
        let names = keys_with(alloc, &self.trees.groups, &self.trees.group_users, user)?;
        Ok(Sorted::from_vec(names))
    }

    /// The names of the roles that name a user, in order. By the index it walks over these roles alone; where the index was given up
    /// it scans all roles, with a binary search in each.
    pub fn roles_naming_user(
        &self,
        alloc: Global,
        user: &UserName,
    ) -> Result<Vec<RoleName>, AllocError>
        ensures { IfOk result (λ names. names.items ≡ roles_naming_user self.now user.now) }
    {
        keys_with(
            alloc,
            &self.trees.roles,
            &self.trees.role_indexes.users,
            user,
        )
    }

    /// The names of the roles that name a group, in order. By the index it walks over these roles alone; where the index was given up
    /// it scans all roles, with a binary search in each.
    pub fn roles_naming_group(
        &self,
        alloc: Global,
        group: &GroupName,
    ) -> Result<Vec<RoleName>, AllocError>
        ensures { IfOk result (λ names. names.items ≡ roles_naming_group self.now group.now) }
    {
        keys_with(
            alloc,
            &self.trees.roles,
            &self.trees.role_indexes.groups,
            group,
        )
    }

    /// The names of the roles that name a service, in order. By the index it walks over these roles alone; where the index was given up
    /// it scans all roles, with a binary search in each.
    pub fn roles_naming_service(
        &self,
        alloc: Global,
        service: &ServiceName,
    ) -> Result<Vec<RoleName>, AllocError>
        ensures { IfOk result (λ names. names.items ≡ roles_naming_service self.now service.now) }
    {
        keys_with(
            alloc,
            &self.trees.roles,
            &self.trees.role_indexes.services,
            service,
        )
    }
}
