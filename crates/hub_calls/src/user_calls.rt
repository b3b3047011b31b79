//! The calls on the hub, the identity and users.
ghost use Rattle.std.specs.Prelude.{◌≡◌, ◌++◌, true, length, codes, OnOk, IfOk};
ghost use Rattle.std.specs.Option.{option_copied};
ghost use Rattle.std.specs.FinMap as map;
ghost use Rattle.hub_view.specs.Json as json;
ghost use Rattle.hub_view.specs.Body.{body_tokens, members};
ghost use Rattle.admin_rules.specs.Rules as rules;
ghost use Rattle.hub_machine.specs.Replies.{good};
ghost use Rattle.hub_machine.specs.Answers.{answer_view};
ghost use Rattle.hub_calls.specs.Calling.{after_rows, by_rules};
ghost use Rattle.hub_calls.specs.Facts.{user_at};
ghost use Rattle.hub_calls.specs.Puts.{PutsUser, user_put, with_put_user, bodies_put};
ghost use Rattle.hub_calls.specs.Rights.{may_of};
ghost use Rattle.hub_calls.specs.UserCalls as spec;

use crate::bodies::{user_at, user_body};
use crate::facts::facts_of;
use crate::lists::list_of;
use crate::ruled::{answered, carried, refused};
use admin_rules::refusals::RuleRefusal;
use admin_rules::users;
use hub_kit::moment::Moment;
use hub_kit::names::{ServerKey, ServiceName, UserName};
use hub_kit::text::Text;
use hub_machine::answer::{Answer, gives};
use hub_machine::machine::Machine;
use hub_rows::changes::RowChange;
use hub_rows::records::{Token, User};
use hub_rows::rows::Row;
use hub_view::{Body, Page, add_member, line, service_identity, user_identity};
use scope_filters::grant::Grant;
use scope_filters::holder::Owner;
use scope_names::action::Action;
use std::alloc::{AllocError, Global};

/// `GET /`: the version of JupyterHub whose API this is.
pub fn get_version(alloc: Global) -> Result<Answer, AllocError>
    ensures { IfOk result (λ answer. answer_view answer ≡ spec.get_version) }
{
    let mut fields = Vec::new(alloc);
    add_version(alloc, &mut fields)?;
    Ok(gives(200, Body::Pairs(fields)))
}

fn add_version(alloc: Global, fields: &mut Vec<(Text, Body)>) -> Result<(), AllocError>
    ensures { OnOk result (members fields.new.items ≡ members fields.old.items ++ json.member true (codes "version")
        (json.line (codes "5.0.0"))) }
{
    add_member(alloc, fields, true, "version", line(alloc, "5.0.0")?)
}

/// The user that the first row puts, if it does.
fn user_put(rows: &[RowChange]) -> Option<&User>
    ensures { option_copied result ≡ user_put rows.now }
{
    match rows {
        [RowChange::Put(Row::User(user)), ..] => Some(user),
        _ => None,
    }
}

/// `GET /info`
pub fn get_info(alloc: Global, hub: &Machine) -> Result<Answer, AllocError>
    ensures { IfOk result (λ answer. answer_view answer ≡ spec.get_info hub.now) }
{
    let mut fields = Vec::new(alloc);
    add_info(alloc, &mut fields, hub)?;
    Ok(gives(200, Body::Pairs(fields)))
}

/// Adds how many targets are leased, how many there are, and the version.
fn add_info(alloc: Global, fields: &mut Vec<(Text, Body)>, hub: &Machine) -> Result<(), AllocError>
    ensures { OnOk result (members fields.new.items ≡ members fields.old.items ++ json.member true (codes "leases")
        (json.whole (map.len hub.now.lives))
        ++ json.member true (codes "pool") (json.whole (length hub.now.pool))
        ++ json.member true (codes "version") (json.line (codes "5.0.0"))) }
{
    let leases = hub.lives().len();
    add_member(alloc, fields, true, "leases", Body::Number(leases))?;
    let pool = hub.pool().as_slice().len() as u64;
    add_member(alloc, fields, true, "pool", Body::Number(pool))?;
    add_version(alloc, fields)
}

fn identity_of_user(
    alloc: Global,
    hub: &Machine,
    rights: &Grant,
    token: &Token,
    server: &Option<ServerKey>,
    user: &UserName,
) -> Result<Body, AllocError>
    ensures { IfOk result (λ body. body_tokens body ≡ spec.identity_of_user (may_of hub.now rights.now) hub.now token.now server.now
        (map.get hub.now.tables.users user.now)) }
{
    match hub.tables().user(user) {
        None => Ok(Body::Null),
        Some(user) => {
            let facts = facts_of(alloc, hub, user)?;
            let scopes = token.scopes.as_slice();
            user_identity(alloc, hub.tables(), rights, &facts, scopes, server)
        }
    }
}

fn identity_of_service(
    alloc: Global,
    hub: &Machine,
    rights: &Grant,
    token: &Token,
    server: &Option<ServerKey>,
    service: &ServiceName,
) -> Result<Body, AllocError>
    ensures { IfOk result (λ body. body_tokens body ≡ spec.identity_of_service (may_of hub.now rights.now) hub.now token.now server.now
        service.now) }
{
    let roles = hub.tables().roles_naming_service(alloc, service)?;
    service_identity(
        alloc,
        hub.tables(),
        rights,
        service,
        roles.as_slice(),
        token.scopes.as_slice(),
        server,
    )
}

/// `GET /user`: the token's owner.
pub fn get_identity(
    alloc: Global,
    hub: &Machine,
    rights: &Grant,
    token: &Token,
    server: &Option<ServerKey>,
) -> Result<Answer, AllocError>
    ensures { IfOk result (λ answer. answer_view answer ≡ spec.get_identity hub.now (may_of hub.now rights.now) token.now server.now) }
{
    let body = match &token.owner {
        Owner::User(user) => identity_of_user(alloc, hub, rights, token, server, user)?,
        Owner::Service(service) => {
            identity_of_service(alloc, hub, rights, token, server, service)?
        }
    };
    Ok(gives(200, body))
}

/// `GET /users`: those that the caller may list.
pub fn get_users(
    alloc: Global,
    hub: &Machine,
    rights: &Grant,
    page: Page,
) -> Result<Answer, AllocError>
    ensures { IfOk result (λ answer. answer_view answer ≡ spec.get_users hub.now (may_of hub.now rights.now) page) }
{
    let tables = hub.tables();
    tables.own_keys();
    let rows = tables.users_by_name();
    list_of(alloc, hub, rights, Action::ListUsers, rows, page, "/users")
}

/// `GET /users/{user}`
pub fn get_user(
    alloc: Global,
    hub: &Machine,
    rights: &Grant,
    user: &UserName,
) -> Result<Answer, AllocError>
    ensures { IfOk result (λ answer. answer_view answer ≡ spec.get_user hub.now (may_of hub.now rights.now) user.now) }
{
    Ok(gives(200, user_at(alloc, hub, rights, user)?))
}

/// The bodies of the users that the rows put.
fn bodies_put(
    alloc: Global,
    hub: &Machine,
    rights: &Grant,
    rows: &[RowChange],
) -> Result<Body, AllocError>
    ensures { IfOk result (λ body. body_tokens body ≡ json.items (bodies_put (may_of hub.now rights.now) hub.now rows.now)) }
{
    let mut bodies = Vec::new(alloc);
    for row in rows {
        if let RowChange::Put(Row::User(user)) = row {
            bodies.push(user_body(alloc, hub, rights, user)?)?;
        }
    }
    Ok(Body::Items(bodies))
}

/// `POST /users`: the names that aren't kept are put, and shown in the order given.
pub fn post_users(
    alloc: Global,
    hub: &Machine,
    rights: &Grant,
    now: Moment,
    names: &[UserName],
    admin: bool,
) -> Result<Answer, AllocError>
    ensures { IfOk result (λ answer. answer_view answer ≡ spec.post_users hub.now (may_of hub.now rights.now) now names.now admin) }
{
    match users::add_users(alloc, hub.tables(), names, admin, now) {
        Ok(rows) => {
            let body = bodies_put(alloc, hub, rights, rows.as_slice());
            answered(rows, 201, body)
        }
        Err(refusal) => refused(alloc, refusal),
    }
}

/// The body of a user that is put, or else of the kept one.
fn put_or_kept(
    alloc: Global,
    hub: &Machine,
    rights: &Grant,
    user: &UserName,
    put: Option<&User>,
) -> Result<Body, AllocError>
    ensures { IfOk result (λ body. body_tokens body ≡ with_put_user (may_of hub.now rights.now) hub.now user.now
        (option_copied put.entry)) }
{
    match put {
        Some(row) => user_body(alloc, hub, rights, row),
        None => user_at(alloc, hub, rights, user),
    }
}

/// The user as the rows leave it, as the rights before them show it. The rows put that user or nothing.
fn user_after(
    alloc: Global,
    hub: &Machine,
    rights: &Grant,
    user: &UserName,
    rows: &[RowChange],
) -> Result<Body, AllocError>
    requires { PutsUser user.now rows.now }
    ensures { IfOk result (λ body. body_tokens body ≡ user_at (may_of hub.now rights.now) (after_rows rows.now hub.now) user.now) }
{
    put_or_kept(alloc, hub, rights, user, user_put(rows))
}

/// The answer of a rule whose rows put that user or nothing: it shows the user as they leave it.
fn answer_of_user(
    alloc: Global,
    hub: &Machine,
    rights: &Grant,
    user: &UserName,
    status: u16,
    rows: Result<Vec<RowChange>, RuleRefusal>,
) -> Result<Answer, AllocError>
    requires { IfOk rows (λ rows. PutsUser user.now rows.items) }
    ensures { IfOk result (λ a. (answer : rules.Answer) → rules.Says answer rows
        → answer_view a ≡ by_rules hub.now answer (λ after. good status (user_at (may_of hub.now rights.now) after user.now))) }
{
    match rows {
        Ok(rows) => {
            let body = user_after(alloc, hub, rights, user, rows.as_slice());
            answered(rows, status, body)
        }
        Err(refusal) => refused(alloc, refusal),
    }
}

/// `POST /users/{user}`
pub fn post_user(
    alloc: Global,
    hub: &Machine,
    rights: &Grant,
    now: Moment,
    user: &UserName,
) -> Result<Answer, AllocError>
    ensures { IfOk result (λ answer. answer_view answer ≡ spec.post_user hub.now (may_of hub.now rights.now) now user.now) }
{
    let rows = users::add_users(alloc, hub.tables(), &[*user], false, now);
    answer_of_user(alloc, hub, rights, user, 201, rows)
}

/// `PATCH /users/{user}`
pub fn patch_user(
    alloc: Global,
    hub: &Machine,
    rights: &Grant,
    user: &UserName,
    admin: bool,
) -> Result<Answer, AllocError>
    ensures { IfOk result (λ answer. answer_view answer ≡ spec.patch_user hub.now (may_of hub.now rights.now) user.now admin) }
{
    let tables = hub.tables();
    tables.own_keys();
    let rows = users::set_admin(alloc, tables, user, admin);
    answer_of_user(alloc, hub, rights, user, 200, rows)
}

/// `DELETE /users/{user}`
pub fn delete_user(alloc: Global, hub: &Machine, user: &UserName) -> Result<Answer, AllocError>
    ensures { IfOk result (λ answer. answer_view answer ≡ spec.delete_user hub.now user.now) }
{
    let live = hub.lives().has_live_server(user);
    carried(alloc, users::delete_user(alloc, hub.tables(), user, live))
}
