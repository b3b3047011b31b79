//! What a page shows of users, read of JSON (RFC 8259).
ghost use Rattle.std.specs.Prelude.{◌≡◌, [], Some, None, if◌then◌else◌, IfOk};
ghost use Rattle.serde_json.specs.View.{view, items_view, members_view};
ghost use Rattle.idle_culler.specs.Readings.{pushed};
ghost use Rattle.idle_culler.specs.Readings as spec;

use crate::views::{ServerView, UserView};
use hub_kit::list::List;
use hub_kit::moment::Moment;
use hub_kit::names::{ServerName, UserName};
use request_parts::body::truth_at;
use request_parts::from_text::FromText;
use serde_json::{Map, Value};
use std::alloc::{AllocError, Global};

/// The value that a text is.
fn in_text<N: FromText>(alloc: Global, value: &Value) -> Result<Option<N>, AllocError>
    ensures { IfOk result (λ found. found ≡ spec.in_text N.reads (view value.now)) }
{
    match value.as_str() {
        Some(text) => N::from_text(alloc, text),
        None => Ok(None),
    }
}

/// The value of the text at a key, which has to be there.
fn needed_at<N: FromText>(alloc: Global, body: &Value, key: &str) -> Result<Option<N>, AllocError>
    ensures { IfOk result (λ found. found ≡ spec.needed_at N.reads key.now (view body.now)) }
{
    match body.get(key) {
        Some(value) => in_text(alloc, value),
        None => Ok(None),
    }
}

/// The moment that a text is, or none for null.
fn moment_or_null(alloc: Global, value: &Value) -> Result<Option<Option<Moment>>, AllocError>
    ensures { IfOk result (λ found. found ≡ spec.moment_or_null (view value.now)) }
{
    if value.is_null() {
        return Ok(Some(None));
    }
    let found: Option<Moment> = in_text(alloc, value)?;
    Ok(found.map(Some))
}

/// The moment at a key that has to be there, or none for null.
fn needed_moment_at(
    alloc: Global,
    body: &Value,
    key: &str,
) -> Result<Option<Option<Moment>>, AllocError>
    ensures { IfOk result (λ found. found ≡ spec.needed_moment_at key.now (view body.now)) }
{
    match body.get(key) {
        Some(value) => moment_or_null(alloc, value),
        None => Ok(None),
    }
}

/// The moment at a key, or none where the key is absent or null stands there.
fn moment_at(alloc: Global, body: &Value, key: &str) -> Result<Option<Option<Moment>>, AllocError>
    ensures { IfOk result (λ found. found ≡ spec.moment_at key.now (view body.now)) }
{
    match body.get(key) {
        Some(value) => moment_or_null(alloc, value),
        None => Ok(Some(None)),
    }
}

/// The moment at a key, or none where the key is absent.
fn moment_if_there(
    alloc: Global,
    body: &Value,
    key: &str,
) -> Result<Option<Option<Moment>>, AllocError>
    ensures { IfOk result (λ found. found ≡ spec.moment_if_there key.now (view body.now)) }
{
    match body.get(key) {
        Some(value) => {
            let found: Option<Moment> = in_text(alloc, value)?;
            Ok(found.map(Some))
        }
        None => Ok(Some(None)),
    }
}

/// The truth value at a key, or none where the key is absent.
fn truth_if_there(body: &Value, key: &str) -> Option<Option<bool>>
    ensures { result ≡ spec.truth_if_there key.now (view body.now) }
{
    match body.get(key) {
        Some(value) => value.as_bool().map(Some),
        None => Some(None),
    }
}

/// Whether a server is on its way to something: null, or a text that says so.
fn pending_in(value: &Value) -> Option<bool>
    ensures { result ≡ spec.pending_in (view value.now) }
{
    if value.is_null() {
        return Some(false);
    }
    let word = value.as_str()?;
    if word == "spawn" || word == "stop" {
        Some(true)
    } else {
        None
    }
}

fn pending_at(body: &Value) -> Option<bool>
    ensures { result ≡ spec.pending_at (view body.now) }
{
    pending_in(body.get("pending")?)
}

/// Whether a body has this name.
fn is_named(body: &Value, name: &str) -> bool
    ensures { result ≡ spec.is_named name.now (view body.now) }
{
    match body.get("name") {
        Some(value) => match value.as_str() {
            Some(text) => text == name,
            None => false,
        },
        None => false,
    }
}

/// A server of its parts, unless one of them is of another form.
fn server_with(
    name: Option<ServerName>,
    ready: Option<bool>,
    pending: Option<bool>,
    started: Option<Option<Moment>>,
    last_activity: Option<Option<Moment>>,
) -> Option<ServerView>
    ensures { result ≡ spec.server_with name ready pending started last_activity }
{
    Some(ServerView {
        name: name?,
        ready: ready?,
        pending: pending?,
        started: started?,
        last_activity: last_activity?,
    })
}

/// Adds a server of its parts, and tells whether all of them are of their form.
fn push_server_with(
    list: &mut List<ServerView>,
    name: Option<ServerName>,
    ready: Option<bool>,
    pending: Option<bool>,
    started: Option<Option<Moment>>,
    last_activity: Option<Option<Moment>>,
) -> Result<bool, AllocError>
    ensures { IfOk result (λ good. (if good then Some list.new else None)
        ≡ pushed list.old (spec.server_with name ready pending started last_activity)) }
{
    match server_with(name, ready, pending, started, last_activity) {
        Some(server) => {
            list.push(server)?;
            Ok(true)
        }
        None => Ok(false),
    }
}

/// Adds the server that stands under a name, and tells whether it is of its form.
fn push_server(
    alloc: Global,
    list: &mut List<ServerView>,
    name: &str,
    body: &Value,
) -> Result<bool, AllocError>
    ensures { IfOk result (λ good. (if good then Some list.new else None) ≡ pushed list.old (spec.server_in name.now (view body.now))) }
{
    if !is_named(body, name) {
        return Ok(false);
    }
    let server = ServerName::from_text(alloc, name)?;
    let started = needed_moment_at(alloc, body, "started")?;
    let last_activity = needed_moment_at(alloc, body, "last_activity")?;
    let ready = truth_at(body, "ready");
    push_server_with(
        list,
        server,
        ready,
        pending_at(body),
        started,
        last_activity,
    )
}

/// Adds the servers of the members, and tells whether all of them are of their form.
#[tactic(auto, using(crate::proofs::Fronts::pushed_if, crate::proofs::Fronts::whole))]
fn read_servers_into(
    alloc: Global,
    list: &mut List<ServerView>,
    members: &Map<String, Value>,
) -> Result<bool, AllocError>
    requires { list.old ≡ [] }
    ensures { IfOk result (λ all. (if all then Some list.new else None) ≡ spec.each_server (members_view members.now.entries)) }
{
    for (name, value) in members.iter() {
        if !push_server(alloc, list, name.as_str(), value)? {
            return Ok(false);
        }
    }
    Ok(true)
}

/// The servers of the members, or nothing where one of them isn't of its form.
fn read_servers(
    alloc: Global,
    members: &Map<String, Value>,
) -> Result<Option<List<ServerView>>, AllocError>
    ensures { IfOk result (λ servers. servers ≡ spec.each_server (members_view members.now.entries)) }
{
    let mut list = List::new(alloc);
    match read_servers_into(alloc, &mut list, members) {
        Ok(true) => Ok(Some(list)),
        Ok(false) => {
            drop(list);
            Ok(None)
        }
        Err(error) => {
            drop(list);
            Err(error)
        }
    }
}

/// The servers that a user is shown with, or none where they aren't shown.
fn servers_at(alloc: Global, body: &Value) -> Result<Option<Option<List<ServerView>>>, AllocError>
    ensures { IfOk result (λ servers. servers ≡ spec.servers_at (view body.now)) }
{
    match body.get("servers") {
        None => Ok(Some(None)),
        Some(value) => match value.as_object() {
            Some(members) => Ok(read_servers(alloc, members)?.map(Some)),
            None => Ok(None),
        },
    }
}

/// A user of its parts, unless one of them is of another form.
fn user_with(
    name: Option<UserName>,
    admin: Option<Option<bool>>,
    created: Option<Option<Moment>>,
    last_activity: Option<Option<Moment>>,
    servers: Option<Option<List<ServerView>>>,
) -> Option<UserView>
    ensures { result ≡ spec.user_with name admin created last_activity servers }
{
    let servers = servers?;
    if let (Some(name), Some(admin), Some(created), Some(last_activity)) = (
        name,
        admin,
        created,
        last_activity,
    ) {
        return Some(UserView {
            name,
            admin,
            created,
            last_activity,
            servers,
        });
    }
    drop(servers);
    None
}

/// Adds a user of its parts, and tells whether all of them are of their form.
fn push_user_with(
    list: &mut List<UserView>,
    name: Option<UserName>,
    admin: Option<Option<bool>>,
    created: Option<Option<Moment>>,
    last_activity: Option<Option<Moment>>,
    servers: Option<Option<List<ServerView>>>,
) -> Result<bool, AllocError>
    ensures { IfOk result (λ good. (if good then Some list.new else None)
        ≡ pushed list.old (spec.user_with name admin created last_activity servers)) }
{
    match user_with(name, admin, created, last_activity, servers) {
        Some(user) => {
            list.push(user)?;
            Ok(true)
        }
        None => Ok(false),
    }
}

/// Adds the user that a body shows, and tells whether it is of its form.
fn push_user(alloc: Global, list: &mut List<UserView>, body: &Value) -> Result<bool, AllocError>
    ensures { IfOk result (λ good. (if good then Some list.new else None) ≡ pushed list.old (spec.user_in (view body.now))) }
{
    let name = needed_at(alloc, body, "name")?;
    let created = moment_if_there(alloc, body, "created")?;
    let last_activity = moment_at(alloc, body, "last_activity")?;
    let admin = truth_if_there(body, "admin");
    let servers = servers_at(alloc, body)?;
    push_user_with(list, name, admin, created, last_activity, servers)
}

/// Adds the users of the items, and tells whether all of them are of their form.
#[tactic(auto, using(crate::proofs::Fronts::pushed_if, crate::proofs::Fronts::whole))]
fn read_users_into(
    alloc: Global,
    list: &mut List<UserView>,
    items: &[Value],
) -> Result<bool, AllocError>
    requires { list.old ≡ [] }
    ensures { IfOk result (λ all. (if all then Some list.new else None) ≡ spec.each_user (items_view items.now)) }
{
    for item in items {
        if !push_user(alloc, list, item)? {
            return Ok(false);
        }
    }
    Ok(true)
}

/// The users of the items, or nothing where one of them isn't of its form.
pub fn read_users(alloc: Global, items: &[Value]) -> Result<Option<List<UserView>>, AllocError>
    ensures { IfOk result (λ users. users ≡ spec.each_user (items_view items.now)) }
{
    let mut list = List::new(alloc);
    match read_users_into(alloc, &mut list, items) {
        Ok(true) => Ok(Some(list)),
        Ok(false) => {
            drop(list);
            Ok(None)
        }
        Err(error) => {
            drop(list);
            Err(error)
        }
    }
}
