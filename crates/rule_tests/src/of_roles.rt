//! What roles and tokens come to: no clause says that a role gives anything, or that a look is a hit.
ghost use Rattle.roles.specs.Looks.{IsRight};

use crate::check::check;
use crate::of_hub_tables::no_rows;
use hub_kit::list::List;
use hub_kit::moment::Moment;
use hub_kit::names::{UserName, read_group, read_role, read_service, read_user};
use hub_kit::text::Text;
use hub_rows::limits::Limits;
use hub_rows::records::{Group, Role, Token, User};
use hub_tables::tables::Tables;
use hub_view::{UserFacts, body_text, user_body};
use keyed_rows::sorted::Sorted;
use roles::cache::RightsCache;
use roles::grants::caller_grant;
use scope_filters::grant::Grant;
use scope_filters::holder::Owner;
use scope_filters::object::Object;
use scope_filters::scope::{RawScope, read_scope};
use scope_meet::asks::{admits, holds_any};
use scope_names::action::{Action, read_action};
use std::alloc::Global;
use std::process::Abort;

/// A role of cat's and the service bot's, and a token. Then what the token may do: the number of its actions, and one of them, whether
/// it is held at all and whether on ann and on bob; and what is shown of ann.
struct Rights {
    role: &'static str,
    /// Whose token: a user's, or the service's where this is empty.
    user: &'static str,
    token: &'static str,
    actions: usize,
    action: &'static str,
    is_held: bool,
    on_ann: bool,
    on_bob: bool,
    ann: &'static str,
}

const NAMED: &str = "{\"kind\":\"user\",\"name\":\"ann\"}";

const WHOLE: &str =
    "{\"admin\":false,\"created\":\"1970-01-01T00:00:00Z\",\"groups\":[],\"kind\":\"user\",\"last_activity\":null,\"name\":\"ann\",\"servers\":{}}";

const RIGHTS: [Rights; 7] = [
    Rights {
        role: "list:users!group=b",
        user: "cat",
        token: "list:users!group=a",
        actions: 2,
        action: "list:users",
        is_held: true,
        on_ann: true,
        on_bob: false,
        ann: NAMED,
    },
    Rights {
        role: "read:users!group=e",
        user: "cat",
        token: "read:users!group=e",
        actions: 4,
        action: "read:users",
        is_held: true,
        on_ann: false,
        on_bob: false,
        ann: "{}",
    },
    Rights {
        role: "read:users!group=e",
        user: "cat",
        token: "read:users!group=b",
        actions: 0,
        action: "read:users:name",
        is_held: false,
        on_ann: false,
        on_bob: false,
        ann: "{}",
    },
    Rights {
        role: "read:servers!server=ann/x",
        user: "cat",
        token: "read:servers!server=ann/lab",
        actions: 1,
        action: "read:users:name",
        is_held: true,
        on_ann: true,
        on_bob: false,
        ann: NAMED,
    },
    Rights {
        role: "list:users!group=b",
        user: "ann",
        token: "inherit",
        actions: 14,
        action: "read:users",
        is_held: true,
        on_ann: true,
        on_bob: false,
        ann: WHOLE,
    },
    Rights {
        role: "self",
        user: "",
        token: "inherit",
        actions: 0,
        action: "list:users",
        is_held: false,
        on_ann: false,
        on_bob: false,
        ann: "{}",
    },
    Rights {
        role: "list:users!group=b",
        user: "",
        token: "inherit",
        actions: 2,
        action: "list:users",
        is_held: true,
        on_ann: true,
        on_bob: false,
        ann: NAMED,
    },
];

const LIMITS: Limits = Limits {
    users: 9,
    groups: 9,
    services: 9,
    roles: 9,
    servers: 9,
    tokens: 9,
    shares: 9,
    codes: 9,
    trail_bytes: 0,
};

/// ann and bob are in group a, ann alone is in b, and nobody in e. cat and the service bot hold a role with the scope.
pub(crate) fn tables(rt: &impl Abort, alloc: Global, scope: &str) -> Tables {
    let mut tables = no_rows(rt, alloc, &LIMITS);
    put_group(rt, alloc, &mut tables, b"a", &[b"ann", b"bob"]);
    put_group(rt, alloc, &mut tables, b"b", &[b"ann"]);
    put_group(rt, alloc, &mut tables, b"e", &[]);
    let role = role(rt, alloc, scope);
    tables.put_role(role, Some(0)).expect(rt, "there is room");
    tables
}

fn put_group(rt: &impl Abort, alloc: Global, tables: &mut Tables, name: &[u8], users: &[&[u8]]) {
    let mut members: Vec<UserName> = Vec::new(alloc);
    for user in users {
        members
            .push(read_user(user).expect(rt, "it is made"))
            .expect(rt, "it is made");
    }
    let group = Group {
        name: read_group(name).expect(rt, "it is made"),
        users: Sorted::from_vec(members),
    };
    tables.put_group(group, Some(0)).expect(rt, "there is room");
}

/// The scope alone.
fn scopes(rt: &impl Abort, alloc: Global, scope: &str) -> List<RawScope> {
    let scope = read_scope(scope).expect(rt, "it is made");
    List::from_vec(Vec::from_slice(alloc, &[scope]).expect(rt, "it is made"))
}

fn role(rt: &impl Abort, alloc: Global, scope: &str) -> Role {
    let cat = read_user(b"cat").expect(rt, "it is made");
    let bot = read_service(b"bot").expect(rt, "it is made");
    Role {
        name: read_role(b"readers").expect(rt, "it is made"),
        groups: Sorted::new(alloc),
        scopes: scopes(rt, alloc, scope),
        services: Sorted::from_vec(Vec::from_slice(alloc, &[bot]).expect(rt, "it is made")),
        users: Sorted::from_vec(Vec::from_slice(alloc, &[cat]).expect(rt, "it is made")),
    }
}

fn token(rt: &impl Abort, alloc: Global, user: &str, scope: &str) -> Token {
    let owner = if user.is_empty() {
        Owner::Service(read_service(b"bot").expect(rt, "it is made"))
    } else {
        Owner::User(read_user(user.as_bytes()).expect(rt, "it is made"))
    };
    Token {
        id: 1,
        client: None,
        created: Moment::zero(),
        expires_at: None,
        hash: Text::new(alloc),
        issued_for: None,
        note: Text::new(alloc),
        owner,
        scopes: scopes(rt, alloc, scope),
    }
}

/// Whether the text is what is shown of the user, who is in no group that the facts name.
fn is_shown(
    rt: &impl Abort,
    alloc: Global,
    tables: &Tables,
    grant: &Grant,
    name: UserName,
    text: &str,
) -> bool {
    let facts = UserFacts {
        user: User {
            name,
            admin: false,
            created: Moment::zero(),
            last_activity: None,
        },
        groups: List::new(alloc),
        roles: List::new(alloc),
        servers: List::new(alloc),
    };
    let body = user_body(alloc, tables, grant, &facts).expect(rt, "it is made");
    drop(facts);
    let shown = body_text(alloc, &body).expect(rt, "it is made");
    drop(body);
    let holds = shown.as_slice() == text.as_bytes();
    drop(shown);
    holds
}

/// What the token of the row gives.
fn grant(rt: &impl Abort, alloc: Global, tables: &Tables, rights: &Rights) -> Grant {
    let token = token(rt, alloc, rights.user, rights.token);
    let grant = caller_grant(alloc, tables, &token).expect(rt, "it is made");
    drop(token);
    grant
}

fn is_admitted(grant: &Grant, action: &Action, user: UserName, tables: &Tables) -> bool {
    admits(grant, *action, &Object::User(user), tables)
}

/// Whether the grant is what the row says.
fn is_so(rt: &impl Abort, alloc: Global, tables: &Tables, grant: &Grant, rights: &Rights) -> bool {
    let ann = read_user(b"ann").expect(rt, "it is made");
    let bob = read_user(b"bob").expect(rt, "it is made");
    let action = read_action(rights.action).expect(rt, "it is made");
    (is_admitted(grant, &action, ann, tables) == rights.on_ann)
        & (is_admitted(grant, &action, bob, tables) == rights.on_bob)
        & (holds_any(grant, action) == rights.is_held)
        & (grant.iter().count() == rights.actions)
        & is_shown(rt, alloc, tables, grant, ann, rights.ann)
}

fn check_rights(rt: &impl Abort, alloc: Global, rights: &Rights) {
    let tables = tables(rt, alloc, rights.role);
    let grant = grant(rt, alloc, &tables, rights);
    check(rt, is_so(rt, alloc, &tables, &grant, rights), rights.token);
    drop(grant);
    drop(tables);
}

/// A token is allowed what its owner's roles and its own scopes both say. A scope of an empty group is held, and allowed on nobody.
/// `self` means nothing for a service.
#[test]
fn a_token_stays_within_the_roles(rt: HostRuntime) {
    let alloc = rt.alloc();
    for rights in &RIGHTS {
        check_rights(&rt, alloc, rights);
    }
}

/// Looks for the grant of a token so many times.
fn look_often(
    rt: &impl Abort,
    alloc: Global,
    cache: &mut RightsCache,
    tables: &Tables,
    token: &Token,
    times: u32,
)
    requires { IsRight cache.old tables.now token.now 0 }
    ensures { IsRight cache.new tables.now token.now 0 }
{
    for _ in 0..times {
        let look = cache.look(alloc, tables, token, 0);
        look.expect(rt, "there is memory");
    }
}

/// How many of ten looks were hits.
fn hits(rt: &impl Abort, alloc: Global) -> u64 {
    let tables = tables(rt, alloc, "self");
    let token = token(rt, alloc, "ann", "inherit");
    let mut cache = RightsCache::new(alloc, 2).expect(rt, "it is made");
    look_often(rt, alloc, &mut cache, &tables, &token, 10);
    let hits = cache.hits();
    drop(cache);
    drop(token);
    drop(tables);
    hits
}

#[test]
fn ten_looks_have_nine_hits(rt: HostRuntime) {
    check(&rt, hits(&rt, rt.alloc()) == 9, "nine hits");
}
