//! Users, groups, services and roles.
ghost use Rattle.std.specs.Prelude.{◌≡◌, OnOk, OnErr, IfSome};
ghost use Rattle.std.specs.Option.{option_copied};
ghost use Rattle.std.specs.FinMap as map;
ghost use Rattle.std.specs.Map.Iter.{ShowsInOrder, deref};
ghost use Rattle.hub_kit.specs.KeyOrder.{name_cmp};
ghost use Rattle.keyed_rows.specs.Rows.{map_of, OwnKeys};
ghost use Rattle.keyed_rows.specs.Puts.{IsAnswerIn};
ghost use Rattle.hub_tables.specs.Rooms.{room_of};

use crate::memberships;
use crate::tables::{Tables, room_of};
use hub_kit::moment::Moment;
use hub_kit::names::{GroupName, RoleName, ServiceName, UserName};
use hub_rows::records::{Group, Role, Service, User};
use keyed_rows::{PutError, keyed};
use std::collections::BTreeMap;
use std::collections::btree_map::Values;

impl Tables {
    /// The user of a name.
    pub fn user(&self, key: &UserName) -> Option<&User>
        ensures value { option_copied result ≡ map.get self.now.users key.now }
        ensures own { IfSome result (λ row. row.now.name ≡ key.now) }
    {
        keyed_rows::row_at(&self.trees.users, key)
    }

    /// Sets the row of a user.
    pub fn put_user(&mut self, value: User, leaving: Option<u32>) -> Result<(), PutError>
        ensures answer { IsAnswerIn (room_of 1 self.old.limits.users leaving) self.old.users value.name result }
        ensures ok { OnOk result (self.new ≡ record self.old { users = map.insert self.old.users value.name value }) }
        ensures err { OnErr result (self.new ≡ self.old) }
    {
        let room = room_of(1, self.limits.users, leaving);
        // The check proves no call that moves a row of plain fields, unless their types are named beside it.
        let _named: Option<Moment> = value.last_activity;
        keyed::put(self.alloc, &mut self.trees.users, value, room)
    }

    /// The number of the rows of users.
    pub fn count_of_users(&self) -> usize
        ensures { result ≡ map.len self.now.users }
    {
        keyed_rows::count(&self.trees.users)
    }

    /// Takes the row of a user out, and tells whether it was there. Takes no memory.
    pub fn remove_user(&mut self, key: &UserName) -> bool
        ensures there { result ≡ map.contains_key self.old.users key.now }
        ensures after { self.new ≡ record self.old { users = map.remove self.old.users key.now } }
    {
        keyed_rows::remove_row(&mut self.trees.users, key)
    }

    /// The rows of users under their names.
    pub fn users_by_name(&self) -> &BTreeMap<UserName, User>
        ensures { map_of name_cmp result.now ≡ self.now.users }
    {
        &self.trees.users
    }

    /// The rows of users, in the order of names.
    pub fn users(&self) -> Values<'_, UserName, User>
        ensures rows { result ≡ map.values self.now.users }
        ensures own { OwnKeys (λ row. row.name) self.now.users }
        ensures runs { ShowsInOrder (deref {X = User}) }
    {
        self.trees.users.values()
    }

    /// The group of a name.
    pub fn group(&self, key: &GroupName) -> Option<&Group>
        ensures value { option_copied result ≡ map.get self.now.groups key.now }
        ensures own { IfSome result (λ row. row.now.name ≡ key.now) }
    {
        keyed_rows::row_at(&self.trees.groups, key)
    }

    /// Sets the row of a group.
    pub fn put_group(&mut self, value: Group, leaving: Option<u32>) -> Result<(), PutError>
        ensures answer { IsAnswerIn (room_of 2 self.old.limits.groups leaving) self.old.groups value.name result }
        ensures ok { OnOk result (self.new ≡ record self.old { groups = map.insert self.old.groups value.name value }) }
        ensures err { OnErr result (self.new ≡ self.old) }
    {
        let room = room_of(2, self.limits.groups, leaving);
        memberships::put_group(
            self.alloc,
            &mut self.trees.groups,
            &mut self.trees.group_users,
            value,
            room,
        )
    }

    /// The number of the rows of groups.
    pub fn count_of_groups(&self) -> usize
        ensures { result ≡ map.len self.now.groups }
    {
        keyed_rows::count(&self.trees.groups)
    }

    /// Takes the row of a group out, and tells whether it was there. Takes no memory.
    pub fn remove_group(&mut self, key: &GroupName) -> bool
        ensures there { result ≡ map.contains_key self.old.groups key.now }
        ensures after { self.new ≡ record self.old { groups = map.remove self.old.groups key.now } }
    {
        memberships::remove_group(
            self.alloc,
            &mut self.trees.groups,
            &mut self.trees.group_users,
            key,
        )
    }

    /// The rows of groups under their names.
    pub fn groups_by_name(&self) -> &BTreeMap<GroupName, Group>
        ensures { map_of name_cmp result.now ≡ self.now.groups }
    {
        &self.trees.groups
    }

    /// The rows of groups, in the order of names.
    pub fn groups(&self) -> Values<'_, GroupName, Group>
        ensures rows { result ≡ map.values self.now.groups }
        ensures own { OwnKeys (λ row. row.name) self.now.groups }
        ensures runs { ShowsInOrder (deref {X = Group}) }
    {
        self.trees.groups.values()
    }

    /// The service of a name.
    pub fn service(&self, key: &ServiceName) -> Option<&Service>
        ensures value { option_copied result ≡ map.get self.now.services key.now }
        ensures own { IfSome result (λ row. row.now.name ≡ key.now) }
    {
        keyed_rows::row_at(&self.trees.services, key)
    }

    /// Sets the row of a service.
    pub fn put_service(&mut self, value: Service, leaving: Option<u32>) -> Result<(), PutError>
        ensures answer { IsAnswerIn (room_of 3 self.old.limits.services leaving) self.old.services value.name result }
        ensures ok { OnOk result (self.new ≡ record self.old { services = map.insert self.old.services value.name value }) }
        ensures err { OnErr result (self.new ≡ self.old) }
    {
        let room = room_of(3, self.limits.services, leaving);
        keyed::put(self.alloc, &mut self.trees.services, value, room)
    }

    /// The number of the rows of services.
    pub fn count_of_services(&self) -> usize
        ensures { result ≡ map.len self.now.services }
    {
        keyed_rows::count(&self.trees.services)
    }

    /// Takes the row of a service out, and tells whether it was there. Takes no memory.
    pub fn remove_service(&mut self, key: &ServiceName) -> bool
        ensures there { result ≡ map.contains_key self.old.services key.now }
        ensures after { self.new ≡ record self.old { services = map.remove self.old.services key.now } }
    {
        keyed_rows::remove_row(&mut self.trees.services, key)
    }

    /// The rows of services under their names.
    pub fn services_by_name(&self) -> &BTreeMap<ServiceName, Service>
        ensures { map_of name_cmp result.now ≡ self.now.services }
    {
        &self.trees.services
    }

    /// The rows of services, in the order of names.
    pub fn services(&self) -> Values<'_, ServiceName, Service>
        ensures rows { result ≡ map.values self.now.services }
        ensures own { OwnKeys (λ row. row.name) self.now.services }
        ensures runs { ShowsInOrder (deref {X = Service}) }
    {
        self.trees.services.values()
    }

    /// The role of a name.
    pub fn role(&self, key: &RoleName) -> Option<&Role>
        ensures value { option_copied result ≡ map.get self.now.roles key.now }
        ensures own { IfSome result (λ row. row.now.name ≡ key.now) }
    {
        keyed_rows::row_at(&self.trees.roles, key)
    }

    /// Sets the row of a role.
    pub fn put_role(&mut self, value: Role, leaving: Option<u32>) -> Result<(), PutError>
        ensures answer { IsAnswerIn (room_of 4 self.old.limits.roles leaving) self.old.roles value.name result }
        ensures ok { OnOk result (self.new ≡ record self.old { roles = map.insert self.old.roles value.name value }) }
        ensures err { OnErr result (self.new ≡ self.old) }
    {
        let room = room_of(4, self.limits.roles, leaving);
        memberships::put_role(
            self.alloc,
            &mut self.trees.roles,
            &mut self.trees.role_indexes,
            value,
            room,
        )
    }

    /// The number of the rows of roles.
    pub fn count_of_roles(&self) -> usize
        ensures { result ≡ map.len self.now.roles }
    {
        keyed_rows::count(&self.trees.roles)
    }

    /// Takes the row of a role out, and tells whether it was there. Takes no memory.
    pub fn remove_role(&mut self, key: &RoleName) -> bool
        ensures there { result ≡ map.contains_key self.old.roles key.now }
        ensures after { self.new ≡ record self.old { roles = map.remove self.old.roles key.now } }
    {
        memberships::remove_role(
            self.alloc,
            &mut self.trees.roles,
            &mut self.trees.role_indexes,
            key,
        )
    }

    /// The rows of roles under their names.
    pub fn roles_by_name(&self) -> &BTreeMap<RoleName, Role>
        ensures { map_of name_cmp result.now ≡ self.now.roles }
    {
        &self.trees.roles
    }

    /// The rows of roles, in the order of names.
    pub fn roles(&self) -> Values<'_, RoleName, Role>
        ensures rows { result ≡ map.values self.now.roles }
        ensures own { OwnKeys (λ row. row.name) self.now.roles }
        ensures runs { ShowsInOrder (deref {X = Role}) }
    {
        self.trees.roles.values()
    }
}
