//! Which servers and users are culled.
ghost use Rattle.std.specs.Prelude.{◌≡◌, ◌++◌, OnOk, IfOk};
ghost use Rattle.idle_culler.specs.Culled as spec;
ghost use Rattle.idle_culler.specs.Culled.{culled};

use crate::views::{ServerView, UserView};
use hub_kit::list::List;
use hub_kit::moment::Moment;
use hub_kit::names::{ServerKey, UserName};
use std::alloc::{AllocError, Global};

/// What is culled, and when. Times are numbers of seconds.
#[derive(Clone, Copy, Debug, PartialEq, Eq)]
pub struct CullOptions {
    /// How long a server or a user may be idle.
    pub timeout: u64,
    /// How old a server may be, where it isn't 0.
    pub max_age: u64,
    /// Whether idle users are deleted too.
    pub cull_users: bool,
    /// Whether a named server is removed once it is stopped.
    pub remove_named: bool,
}

/// A server to be stopped, or a user to be deleted.
#[derive(Clone, Copy)]
pub enum Cull {
    Server(ServerKey),
    User(UserName),
}

/// Whether so many seconds have passed since a moment, if there is one.
fn has_passed(now: Moment, wait: u64, since: Option<Moment>) -> bool
    ensures { result ≡ spec.has_passed now wait since }
{
    match since {
        Some(since) => {
            since.seconds() <= now.seconds() && wait <= now.seconds() - since.seconds()
        }
        None => false,
    }
}

fn or_else(first: Option<Moment>, other: Option<Moment>) -> Option<Moment>
    ensures { result ≡ spec.or_else first other }
{
    match first {
        Some(moment) => Some(moment),
        None => other,
    }
}

fn is_old(options: &CullOptions, now: Moment, started: Option<Moment>) -> bool
    ensures { result ≡ spec.is_old options.now now started }
{
    options.max_age > 0 && has_passed(now, options.max_age, started)
}

fn is_culled_server(options: &CullOptions, now: Moment, server: &ServerView) -> bool
    ensures { result ≡ spec.is_culled_server options.now now server.now }
{
    if !server.ready || server.pending {
        return false;
    }
    let active = or_else(server.last_activity, server.started);
    has_passed(now, options.timeout, active) || is_old(options, now, server.started)
}

fn is_shown_empty(servers: &Option<List<ServerView>>) -> bool
    ensures { result ≡ spec.is_shown_empty servers.now }
{
    match servers {
        Some(servers) => servers.is_empty(),
        None => false,
    }
}

fn is_culled_user(options: &CullOptions, now: Moment, user: &UserView) -> bool
    ensures { result ≡ spec.is_culled_user options.now now user.now }
{
    if !options.cull_users || user.admin != Some(false) || !is_shown_empty(&user.servers) {
        return false;
    }
    has_passed(
        now,
        options.timeout,
        or_else(user.last_activity, user.created),
    )
}

/// Adds the servers that are culled, in their order.
fn push_servers(
    list: &mut List<Cull>,
    options: &CullOptions,
    now: Moment,
    user: UserName,
    servers: &[ServerView],
) -> Result<(), AllocError>
    ensures { OnOk result (list.new ≡ list.old ++ spec.culled_servers options.now now user servers.now) }
{
    for server in servers {
        if is_culled_server(options, now, server) {
            list.push(Cull::Server(ServerKey {
                user,
                server: server.name,
            }))?;
        }
    }
    Ok(())
}

/// Adds what is culled of one user: the servers, and then the user.
fn push_user(
    list: &mut List<Cull>,
    options: &CullOptions,
    now: Moment,
    user: &UserView,
) -> Result<(), AllocError>
    ensures { OnOk result (list.new ≡ list.old ++ spec.culled_of options.now now user.now) }
{
    if let Some(servers) = &user.servers {
        push_servers(list, options, now, user.name, servers.as_slice())?;
    }
    if is_culled_user(options, now, user) {
        list.push(Cull::User(user.name))?;
    }
    Ok(())
}

/// Adds what is culled of some users to a list.
pub fn push_culled(
    list: &mut List<Cull>,
    users: &[UserView],
    options: &CullOptions,
    now: Moment,
) -> Result<(), AllocError>
    ensures { OnOk result (list.new ≡ list.old ++ culled options.now now users.now) }
{
    for user in users {
        push_user(list, options, now, user)?;
    }
    Ok(())
}

/// What is culled of some users: of each, in the order given, the servers that are idle or too old, and then the user if it is
/// idle, no admin and without servers.
pub fn cull_list(
    alloc: Global,
    users: &[UserView],
    options: &CullOptions,
    now: Moment,
) -> Result<List<Cull>, AllocError>
    ensures { IfOk result (λ list. list ≡ culled options.now now users.now) }
{
    let mut list = List::new(alloc);
    push_culled(&mut list, users, options, now)?;
    Ok(list)
}
