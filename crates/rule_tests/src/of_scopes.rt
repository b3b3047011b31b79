//! Texts of scopes, what a scope covers, and what is held whole.
ghost use Rattle.scope_expand.specs.Passes.{HasNoOwnerOf};

use crate::check::check;
use crate::of_roles::tables;
use hub_kit::list::List;
use hub_kit::names::{read_group, read_user};
use hub_tables::tables::Tables;
use scope_expand::{expand, join};
use scope_filters::filter::Filter;
use scope_filters::grant::Grant;
use scope_filters::holder::{Holder, Owner};
use scope_filters::scope::{ScopeError, read_scope};
use scope_meet::inside::{Inside, contained};
use scope_names::action::Action;
use scope_names::custom::{CustomRow, read_custom};
use scope_names::table::{ScopeTable, TableError};
use std::alloc::Global;
use std::process::Abort;

const REFUSED: [(&str, ScopeError); 5] = [
    ("read:users!user=An", ScopeError::BadValue(16)),
    ("read:users!group", ScopeError::BadValue(16)),
    ("read:users!team=a", ScopeError::UnknownKind),
    ("self!user", ScopeError::FilterOnMeta),
    ("reed:users", ScopeError::UnknownName),
];

#[test]
fn texts_of_scopes(rt: HostRuntime) {
    check(
        &rt,
        read_scope("servers!server=ann/").is_ok(),
        "of a server",
    );
    check(&rt, read_scope("servers!server").is_ok(), "of servers");
    for (text, error) in &REFUSED {
        check(&rt, read_scope(text) == Err(*error), text);
    }
}

#[test]
fn what_servers_cover(rt: HostRuntime) {
    let table = ScopeTable::new(rt.alloc(), &[]).expect(&rt, "there is memory");
    let covered = [
        Action::DeleteServers,
        Action::ReadServers,
        Action::ReadUsersName,
        Action::Servers,
    ];
    let holds = table.covered(Action::Servers) == covered.as_slice();
    drop(table);
    check(&rt, holds, "servers");
}

/// What the scope is for cat.
fn expanded(rt: &impl Abort, alloc: Global, tables: &Tables, scope: &str) -> Grant
    ensures { HasNoOwnerOf result }
{
    let cat = Holder {
        owner: Owner::User(read_user(b"cat").expect(rt, "it is a name")),
        issued_for: None,
    };
    let scope = read_scope(scope).expect(rt, "it is a scope");
    expand(alloc, tables.scope_table(), &[scope], &cat).expect(rt, "there is memory")
}

/// What of the first scope isn't within the second, for cat and with these groups.
fn outside(rt: &impl Abort, alloc: Global, tables: &Tables, first: &str, second: &str) -> Inside {
    let first = expanded(rt, alloc, tables, first);
    let second = expanded(rt, alloc, tables, second);
    let inside = contained(&first, &second, tables);
    drop(first);
    drop(second);
    inside
}

/// ann is the one user of b.
fn is_more_than_its_users(rt: &impl Abort, alloc: Global, tables: &Tables) -> bool {
    let within = outside(
        rt,
        alloc,
        tables,
        "list:users!user=ann",
        "list:users!group=b",
    );
    let b = Filter::Group(read_group(b"b").expect(rt, "it is a name"));
    match outside(
        rt,
        alloc,
        tables,
        "list:users!group=b",
        "list:users!user=ann",
    ) {
        Inside::NotHeld { action, filter } => {
            matches!(within, Inside::Yes) && action == Action::ListUsers && filter == b
        }
        Inside::Yes => false,
    }
}

#[test]
fn a_group_is_more_than_its_users(rt: HostRuntime) {
    let alloc = rt.alloc();
    let tables = tables(&rt, alloc, "list:users!group=b");
    check(&rt, is_more_than_its_users(&rt, alloc, &tables), "a group");
    drop(tables);
}

/// How many actions there are in what two scopes give together.
fn number_joined(rt: &impl Abort, alloc: Global, tables: &Tables) -> usize {
    let mut grant = expanded(rt, alloc, tables, "shutdown");
    let other = expanded(rt, alloc, tables, "proxy");
    join(&mut grant, &other).expect(rt, "there is memory");
    let number = grant.iter().count();
    drop(grant);
    drop(other);
    number
}

#[test]
fn two_scopes_are_joined(rt: HostRuntime) {
    let alloc = rt.alloc();
    let tables = tables(&rt, alloc, "self");
    check(&rt, number_joined(&rt, alloc, &tables) == 2, "two actions");
    drop(tables);
}

fn custom_row(rt: &impl Abort, alloc: Global, name: &str, subscopes: &[&str]) -> CustomRow {
    let mut list = Vec::new(alloc);
    for subscope in subscopes {
        let name = read_custom(subscope).expect(rt, "it is a name");
        list.push(name).expect(rt, "there is memory");
    }
    CustomRow {
        name: read_custom(name).expect(rt, "it is a name"),
        subscopes: List::from_vec(list),
    }
}

/// Why `custom:a`, which covers `custom:b`, and `custom:b`, which covers these, make no table.
fn refusal_of_two(rt: &impl Abort, alloc: Global, subscopes: &[&str]) -> Option<TableError> {
    let mut rows = Vec::new(alloc);
    let first = custom_row(rt, alloc, "custom:a", &["custom:b"]);
    rows.push(first).expect(rt, "there is memory");
    let second = custom_row(rt, alloc, "custom:b", subscopes);
    rows.push(second).expect(rt, "there is memory");
    let refusal = ScopeTable::new(alloc, rows.as_slice()).err();
    drop(rows);
    refusal
}

#[test]
fn custom_scopes_make_a_table(rt: HostRuntime) {
    let alloc = rt.alloc();
    check(&rt, refusal_of_two(&rt, alloc, &[]).is_none(), "no cycle");
    let cycle = refusal_of_two(&rt, alloc, &["custom:a"]);
    check(&rt, matches!(cycle, Some(TableError::Cycle(0))), "a cycle");
}
