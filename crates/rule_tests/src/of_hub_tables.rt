//! What no clause says: that puts succeed with ample memory.
ghost use Rattle.std.specs.Prelude.{◌≡◌};
ghost use Rattle.std.specs.FinMap as map;

use crate::check::check;
use hub_kit::moment::Moment;
use hub_kit::names::read_user;
use hub_rows::limits::Limits;
use hub_rows::records::User;
use hub_tables::PutError;
use hub_tables::tables::Tables;
use scope_names::table::ScopeTable;
use std::alloc::Global;
use std::process::Abort;

pub(crate) const LIMITS: Limits = Limits {
    users: 2,
    groups: 2,
    services: 2,
    roles: 2,
    servers: 2,
    tokens: 2,
    shares: 2,
    codes: 2,
    trail_bytes: 0,
};

/// The names in the order of their puts, and why each is refused where two users are the most.
const PUTS: [(&str, Option<PutError>); 4] = [
    ("ann", None),
    ("bob", None),
    ("cat", Some(PutError::Full { kind: 1, limit: 2 })),
    ("ann", None),
];

fn user(rt: &impl Abort, name: &str) -> User {
    User {
        name: read_user(name.as_bytes()).expect(rt, "it is a name"),
        admin: false,
        created: Moment::zero(),
        last_activity: None,
    }
}

pub(crate) fn no_rows(rt: &impl Abort, alloc: Global, limits: &Limits) -> Tables
    ensures tokens { result.tokens ≡ map.empty }
    ensures codes { result.codes ≡ map.empty }
{
    let scopes = ScopeTable::new(alloc, &[]).expect(rt, "there is memory");
    Tables::new(alloc, *limits, scopes)
}

fn check_puts(rt: &impl Abort, tables: &mut Tables) {
    for (name, refusal) in &PUTS {
        let put = tables.put_user(user(rt, name), Some(0));
        check(rt, put.err() == *refusal, name);
    }
}

#[test]
fn a_third_user_is_too_many(rt: HostRuntime) {
    let mut tables = no_rows(&rt, rt.alloc(), &LIMITS);
    check_puts(&rt, &mut tables);
    drop(tables);
}
