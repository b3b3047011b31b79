//! Groups and roles, with the indexes by which those of a member are found.
ghost use Rattle.std.specs.Prelude.{◌≡◌, OnOk, OnErr};
ghost use Rattle.std.specs.FinMap as map;
ghost use Rattle.hub_kit.specs.KeyOrder.{name_cmp};
ghost use Rattle.keyed_rows.specs.Rows.{map_of};
ghost use Rattle.keyed_rows.specs.Puts.{IsAnswerIn};
ghost use Rattle.row_indexes.specs.Members.{IsRowFollowed};
ghost use Rattle.hub_tables.specs.Empty.{AreEmptyIndexes};
ghost use Rattle.hub_tables.specs.MemberIndexes.{TellsGroups, TellsRoles};

use hub_kit::names::{GroupName, RoleName, ServiceName, UserName};
use hub_rows::records::{Group, Role};
use keyed_rows::{PutError, Room};
use row_indexes::members::{MemberIndex, follow_row, put_row};
use std::alloc::Global;
use std::collections::BTreeMap;

/// The names of the roles under each user, group and service that they name.
pub(crate) struct RoleIndexes {
    pub users: MemberIndex<UserName, RoleName>,
    pub groups: MemberIndex<GroupName, RoleName>,
    pub services: MemberIndex<ServiceName, RoleName>,
}

impl Drop for RoleIndexes {
    fn drop(self) {
        let RoleIndexes {
            users: _,
            groups: _,
            services: _,
        } = self;
    }
}

impl RoleIndexes {
    /// Indexes with no entries, which take no memory.
    pub fn new(alloc: Global) -> RoleIndexes
        ensures { AreEmptyIndexes result }
    {
        RoleIndexes {
            users: Some(BTreeMap::new(alloc)),
            groups: Some(BTreeMap::new(alloc)),
            services: Some(BTreeMap::new(alloc)),
        }
    }
}

/// Puts a group under its name, and the name under the group's members. At a kept name no memory is needed: where an entry of the
/// index finds none, the index is given up.
pub(crate) fn put_group(
    alloc: Global,
    rows: &mut BTreeMap<GroupName, Group>,
    users: &mut MemberIndex<UserName, GroupName>,
    value: Group,
    room: Option<Room>,
) -> Result<(), PutError>
    requires told { TellsGroups (map_of name_cmp rows.old) users.old }
    ensures answer { IsAnswerIn room (map_of name_cmp rows.old) value.name result }
    ensures ok { OnOk result (map_of name_cmp rows.new ≡ map.insert (map_of name_cmp rows.old) value.name value) }
    ensures err { OnErr result (map_of name_cmp rows.new ≡ map_of name_cmp rows.old) }
    ensures told { TellsGroups (map_of name_cmp rows.new) users.new }
{
    let name = value.name;
    let old = put_row(alloc, rows, value, room)?;
    follow_row(alloc, rows, &name, &old, users);
    Ok(())
}

/// Takes a group out, and its name from under its members. Takes no memory.
pub(crate) fn remove_group(
    alloc: Global,
    rows: &mut BTreeMap<GroupName, Group>,
    users: &mut MemberIndex<UserName, GroupName>,
    name: &GroupName,
) -> bool
    requires told { TellsGroups (map_of name_cmp rows.old) users.old }
    ensures there { result ≡ map.contains_key (map_of name_cmp rows.old) name.now }
    ensures removed { map_of name_cmp rows.new ≡ map.remove (map_of name_cmp rows.old) name.now }
    ensures told { TellsGroups (map_of name_cmp rows.new) users.new }
{
    let old = keyed_rows::take_row(rows, name);
    follow_row(alloc, rows, name, &old, users);
    old.is_some()
}

/// Puts a role under its name, and the name under those that the role names. At a kept name no memory is needed: where an entry of an
/// index finds none, that index is given up.
pub(crate) fn put_role(
    alloc: Global,
    rows: &mut BTreeMap<RoleName, Role>,
    indexes: &mut RoleIndexes,
    value: Role,
    room: Option<Room>,
) -> Result<(), PutError>
    requires told { TellsRoles (map_of name_cmp rows.old) indexes.old }
    ensures answer { IsAnswerIn room (map_of name_cmp rows.old) value.name result }
    ensures ok { OnOk result (map_of name_cmp rows.new ≡ map.insert (map_of name_cmp rows.old) value.name value) }
    ensures err { OnErr result (map_of name_cmp rows.new ≡ map_of name_cmp rows.old) }
    ensures told { TellsRoles (map_of name_cmp rows.new) indexes.new }
{
    let name = value.name;
    let old = put_row(alloc, rows, value, room)?;
    follow_role(alloc, rows, &name, &old, indexes);
    Ok(())
}

/// Takes a role out, and its name from under those that it names. Takes no memory.
pub(crate) fn remove_role(
    alloc: Global,
    rows: &mut BTreeMap<RoleName, Role>,
    indexes: &mut RoleIndexes,
    name: &RoleName,
) -> bool
    requires told { TellsRoles (map_of name_cmp rows.old) indexes.old }
    ensures there { result ≡ map.contains_key (map_of name_cmp rows.old) name.now }
    ensures removed { map_of name_cmp rows.new ≡ map.remove (map_of name_cmp rows.old) name.now }
    ensures told { TellsRoles (map_of name_cmp rows.new) indexes.new }
{
    let old = keyed_rows::take_row(rows, name);
    follow_role(alloc, rows, name, &old, indexes);
    old.is_some()
}

/// Puts the name of a role under those that the kept row names, in place of those that the old one named.
fn follow_role(
    alloc: Global,
    rows: &BTreeMap<RoleName, Role>,
    name: &RoleName,
    old: &Option<Role>,
    indexes: &mut RoleIndexes,
)
    ensures users { IsRowFollowed name_cmp name_cmp (λ (role : Role). role.users) name.now old.now (map_of name_cmp rows.now)
        indexes.old.users indexes.new.users }
    ensures groups { IsRowFollowed name_cmp name_cmp (λ (role : Role). role.groups) name.now old.now (map_of name_cmp rows.now)
        indexes.old.groups indexes.new.groups }
    ensures services { IsRowFollowed name_cmp name_cmp (λ (role : Role). role.services) name.now old.now (map_of name_cmp rows.now)
        indexes.old.services indexes.new.services }
{
    follow_row(alloc, rows, name, old, &mut indexes.users);
    follow_row(alloc, rows, name, old, &mut indexes.groups);
    follow_row(alloc, rows, name, old, &mut indexes.services);
}
