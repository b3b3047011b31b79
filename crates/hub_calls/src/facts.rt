//! What bodies show of a user: the groups, the roles and the servers.
ghost use Rattle.std.specs.Prelude.{◌≡◌, ◌++◌, OnOk, IfOk};
ghost use Rattle.std.specs.List.{flat_map};
ghost use Rattle.hub_kit.specs.Names.{IsName};
ghost use Rattle.hub_tables.specs.Lookups.{groups_of};
ghost use Rattle.hub_calls.specs.Facts as spec;
ghost use Rattle.hub_calls.specs.Facts.{facts_at};
ghost use Rattle.std.specs.FinMap as map;

use hub_kit::list::List;
use hub_kit::names::{GroupName, RoleName, ServerKey, UserName, read_role};
use hub_machine::machine::Machine;
use hub_rows::records::User;
use hub_tables::tables::Tables;
use hub_view::{ServerFacts, UserFacts};
use keyed_rows::sorted::Sorted;
use roles::naming::names_held;
use scope_filters::holder::Owner;
use std::alloc::{AllocError, Global};

/// The names of the groups that a user is in, in order.
fn groups_of(alloc: Global, tables: &Tables, user: &UserName) -> Result<List<GroupName>, AllocError>
    ensures { IfOk result (λ names. names ≡ groups_of tables.now user.now) }
{
    let names = tables.groups_of(alloc, user)?;
    Ok(List::from_vec(Vec::from_slice(alloc, names.as_slice())?))
}

/// Adds the names of the roles that an owner holds by their rows, in order.
fn push_roles(
    alloc: Global,
    names: &mut Vec<RoleName>,
    tables: &Tables,
    owner: &Owner,
) -> Result<(), AllocError>
    ensures { OnOk result (names.new.items ≡ names.old.items ++ spec.roles_among tables.now owner.now (map.values tables.now.roles)) }
{
    let held = names_held(alloc, tables, owner)?;
    names.extend_from_slice(held.as_slice())
}

/// A name of a role that is known to be one.
fn fixed_role(text: &str) -> RoleName
    requires { IsName text.now }
    ensures { result ≡ text.now }
{
    match read_role(text.as_bytes()) {
        Ok(name) => name,
        Err(_) => unreachable!(),
    }
}

/// Adds the names of the fixed roles of a user.
fn push_fixed(names: &mut Vec<RoleName>, admin: bool) -> Result<(), AllocError>
    ensures { OnOk result (names.new.items ≡ names.old.items ++ spec.fixed_roles admin) }
{
    if admin {
        names.push(fixed_role("admin"))?;
    }
    names.push(fixed_role("user"))?;
    Ok(())
}

/// The names of the roles that a user holds, in order.
fn roles_of_user(alloc: Global, tables: &Tables, user: &User) -> Result<List<RoleName>, AllocError>
    ensures { IfOk result (λ names. names ≡ spec.roles_of_user tables.now user.now) }
{
    let mut names = Vec::new(alloc);
    push_fixed(&mut names, user.admin)?;
    push_roles(alloc, &mut names, tables, &Owner::User(user.name))?;
    let sorted = Sorted::from_vec(names);
    Ok(List::from_vec(Vec::from_slice(alloc, sorted.as_slice())?))
}

/// Adds the server of a key and where it stands, if it is kept.
fn push_server(
    servers: &mut Vec<ServerFacts>,
    hub: &Machine,
    key: &ServerKey,
) -> Result<(), AllocError>
    ensures { OnOk result (servers.new.items ≡ servers.old.items ++ facts_at hub.now.lives (map.get hub.now.tables.servers key.now)) }
{
    if let Some(row) = hub.tables().server(key) {
        servers.push(ServerFacts {
            row: *row,
            life: hub.lives().life_of(&row.key),
        })?;
    }
    Ok(())
}

/// The servers of some keys that are kept, and where they stand.
fn servers_at(
    alloc: Global,
    hub: &Machine,
    keys: &[ServerKey],
) -> Result<Vec<ServerFacts>, AllocError>
    ensures { IfOk result (λ servers. servers.items ≡ flat_map (λ key. facts_at hub.now.lives (map.get hub.now.tables.servers key))
        keys.now) }
{
    let mut servers = Vec::new(alloc);
    for key in keys {
        push_server(&mut servers, hub, key)?;
    }
    Ok(servers)
}

/// The servers of a user, and where they stand. It walks over these alone.
fn servers_of(
    alloc: Global,
    hub: &Machine,
    user: &UserName,
) -> Result<List<ServerFacts>, AllocError>
    ensures { IfOk result (λ servers. servers ≡ spec.servers_of hub.now user.now) }
{
    let tables = hub.tables();
    tables.own_keys();
    let keys = tables.servers_of(alloc, user)?;
    let servers = servers_at(alloc, hub, keys.as_slice())?;
    Ok(List::from_vec(servers))
}

/// What is shown of a user, who may be about to be put.
pub fn facts_of(alloc: Global, hub: &Machine, user: &User) -> Result<UserFacts, AllocError>
    ensures { IfOk result (λ facts. facts ≡ spec.facts_of hub.now user.now) }
{
    Ok(UserFacts {
        user: *user,
        groups: groups_of(alloc, hub.tables(), &user.name)?,
        roles: roles_of_user(alloc, hub.tables(), user)?,
        servers: servers_of(alloc, hub, &user.name)?,
    })
}
