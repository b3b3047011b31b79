//! What is shown of a user.
ghost use Rattle.std.specs.Prelude.{◌≡◌, ◌++◌, ◌||◌, List, IfOk};
ghost use Rattle.scope_filters.specs.Grants.{grant_admits};
ghost use Rattle.hub_view.specs.Json.{Member};
ghost use Rattle.hub_view.specs.Body.{body_tokens, members};
ghost use Rattle.hub_view.specs.Made.{holds};
ghost use Rattle.hub_view.specs.Fields as spec;

use crate::body::Body;
use crate::facts::{ServerFacts, UserFacts};
use crate::fields::Fields;
use crate::members::{add_member, line};
use crate::parts::{fixed, moment, moment_or_null, names, truth};
use crate::servers::{is_live, server_body};
use crate::word::Word;
use hub_kit::names::UserName;
use hub_kit::text::Text;
use scope_filters::grant::Grant;
use scope_filters::members::Members;
use scope_filters::object::Object;
use scope_meet::asks::admits;
use scope_names::action::Action;
use std::alloc::{AllocError, Global};

/// The user as the rights show it: `kind` and `name` under `read:users:name`, `admin` and `created` under `read:users`, `groups`
/// under `read:users:groups`, `last_activity` under `read:users:activity`, `roles` under `read:roles:users`. `servers` holds the live
/// servers on which `read:servers` is admitted, and stands there where it holds one or where `read:servers` is admitted on the user.
pub fn user_body<M: Members>(
    alloc: Global,
    m: &M,
    rights: &Grant,
    facts: &UserFacts,
) -> Result<Body, AllocError>
    ensures { IfOk result (λ body. body_tokens body ≡ spec.user_body (grant_admits (M.context m.now) rights.now) facts.now) }
{
    let mut fields = Fields::new(alloc, 8);
    add_user(alloc, m, rights, &mut fields, false, facts);
    add_servers(alloc, m, rights, &mut fields, facts);
    fields.into_body()
}

/// Adds the user's own fields. Where the user is `named`, kind and name need no right.
pub fn add_user<M: Members>(
    alloc: Global,
    m: &M,
    rights: &Grant,
    fields: &mut Fields,
    named: bool,
    facts: &UserFacts,
)
    ensures { (before : List Member) → holds fields.old before
        → holds fields.new (before ++ spec.user_members (grant_admits (M.context m.now) rights.now) named facts.now) }
{
    let user = &facts.user;
    let shown = shown_fields(m, rights, named, &user.name);
    fields.add(shown.account, Word::Admin, Ok(truth(user.admin)));
    fields.add(shown.account, Word::Created, Ok(moment(user.created)));
    let groups = names(alloc, facts.groups.as_slice());
    fields.add(shown.groups, Word::Groups, groups);
    fields.add(shown.name, Word::Kind, Ok(fixed(Word::User)));
    let last_activity = moment_or_null(user.last_activity);
    fields.add(shown.activity, Word::LastActivity, Ok(last_activity));
    fields.add(shown.name, Word::Name, line(alloc, user.name.as_str()));
    let roles = names(alloc, facts.roles.as_slice());
    fields.add(shown.roles, Word::Roles, roles);
}

/// Which fields of a user are shown: `kind` and `name`, `admin` and `created`, and the others one by one.
#[derive(Clone, Copy)]
struct UserFields {
    name: bool,
    account: bool,
    groups: bool,
    activity: bool,
    roles: bool,
}

fn shown_fields<M: Members>(m: &M, rights: &Grant, named: bool, user: &UserName) -> UserFields
    ensures name { result.name ≡ (named || grant_admits (M.context m.now) rights.now Action.ReadUsersName (Object.User user.now)) }
    ensures account { result.account ≡ grant_admits (M.context m.now) rights.now Action.ReadUsers (Object.User user.now) }
    ensures groups { result.groups ≡ grant_admits (M.context m.now) rights.now Action.ReadUsersGroups (Object.User user.now) }
    ensures activity { result.activity ≡ grant_admits (M.context m.now) rights.now Action.ReadUsersActivity (Object.User user.now) }
    ensures roles { result.roles ≡ grant_admits (M.context m.now) rights.now Action.ReadRolesUsers (Object.User user.now) }
{
    let object = Object::User(*user);
    UserFields {
        name: named || admits(rights, Action::ReadUsersName, &object, m),
        account: admits(rights, Action::ReadUsers, &object, m),
        groups: admits(rights, Action::ReadUsersGroups, &object, m),
        activity: admits(rights, Action::ReadUsersActivity, &object, m),
        roles: admits(rights, Action::ReadRolesUsers, &object, m),
    }
}

/// Adds the servers.
pub fn add_servers<M: Members>(
    alloc: Global,
    m: &M,
    rights: &Grant,
    fields: &mut Fields,
    facts: &UserFacts,
)
    ensures { (before : List Member) → holds fields.old before
        → holds fields.new (before ++ spec.servers_member (grant_admits (M.context m.now) rights.now) facts.now) }
{
    let object = Object::User(facts.user.name);
    match shown_servers(alloc, m, rights, facts.servers.as_slice()) {
        Ok(servers) => {
            let shown = has_any(&servers) || admits(rights, Action::ReadServers, &object, m);
            fields.add(shown, Word::Servers, Ok(Body::Pairs(servers)));
        }
        Err(_) => fields.fail(),
    }
}

/// The live servers that may be read, under their names.
fn shown_servers<M: Members>(
    alloc: Global,
    m: &M,
    rights: &Grant,
    servers: &[ServerFacts],
) -> Result<Vec<(Text, Body)>, AllocError>
    ensures { IfOk result (λ shown. members shown.items ≡ spec.shown_servers (grant_admits (M.context m.now) rights.now) servers.now) }
{
    let mut shown = Vec::new(alloc);
    for server in servers {
        if is_shown(m, rights, server) {
            let name = server.row.key.server.as_str();
            add_member(alloc, &mut shown, true, name, server_body(alloc, server)?)?;
        }
    }
    Ok(shown)
}

fn is_shown<M: Members>(m: &M, rights: &Grant, server: &ServerFacts) -> bool
    ensures { result ≡ spec.is_shown (grant_admits (M.context m.now) rights.now) server.now }
{
    is_live(server.life.phase)
        && admits(
            rights,
            Action::ReadServers,
            &Object::Server(server.row.key),
            m,
        )
}

fn has_any(shown: &[(Text, Body)]) -> bool
    ensures { result ≡ spec.has_any (members shown.now) }
{
    match shown {
        [] => false,
        _ => true,
    }
}
