//! The calls that tell the activity of a user and its servers, and that delete a server.
ghost use Rattle.std.specs.Prelude.{◌≡◌, ◌++◌, IfOk, OnOk};
ghost use Rattle.std.specs.FinMap.{get};
ghost use Rattle.admin_rules.specs.Rules.{ArePlain, Checks, Says};
ghost use Rattle.admin_rules.specs.Servers.{delete_server, if_unknown_server, newer, note_activity, server_activity, servers_activity};
ghost use Rattle.admin_rules.specs.Servers.{user_activity};

use crate::of_servers::server_rows;
use crate::refusals::RuleRefusal;
use crate::rows::append;
use hub_kit::moment::Moment;
use hub_kit::names::{ServerKey, ServerName, UserName};
use hub_rows::changes::RowChange;
use hub_rows::records::{ServerRow, User};
use hub_rows::rows::Row;
use hub_tables::tables::Tables;
use std::alloc::{AllocError, Global};

/// Notes when a user and its servers were last active, as `POST /users/{name}/activity` does. A moment past now counts as now,
/// and one takes the place of the kept one where that is null or at least 30 seconds earlier. `UnknownServer` names the first
/// server whose row isn't kept, in the order given. Without such a user its servers alone are noted.
pub fn note_activity(
    alloc: Global,
    tables: &Tables,
    user: &UserName,
    now: Moment,
    told: Option<Moment>,
    servers: &[(ServerName, Option<Moment>)],
) -> Result<Vec<RowChange>, RuleRefusal>
    ensures answer { Says (note_activity tables.now user.now now told servers.now) result }
    ensures plain { IfOk result (λ rows. ArePlain rows.items) }
{
    check_servers(tables, user, servers)?;
    let mut rows = Vec::new(alloc);
    push_user(&mut rows, tables, user, now, told)?;
    push_servers(&mut rows, tables, user, now, servers)?;
    Ok(rows)
}

/// Refuses where the row of a server isn't kept.
fn check_servers(
    tables: &Tables,
    user: &UserName,
    servers: &[(ServerName, Option<Moment>)],
) -> Result<(), RuleRefusal>
    ensures { Checks (if_unknown_server tables.now user.now servers.now) result }
{
    for (server, _) in servers {
        let key = ServerKey {
            user: *user,
            server: *server,
        };
        if tables.server(&key).is_none() {
            return Err(RuleRefusal::UnknownServer(*server));
        }
    }
    Ok(())
}

/// The moment that takes the place of the kept one, if the one that is told does.
fn newer(now: Moment, kept: Option<Moment>, told: Option<Moment>) -> Option<Moment>
    ensures { result ≡ newer now kept told }
{
    let at = told?.min(now);
    match kept {
        Some(kept) if at.seconds() < kept.seconds() + 30 => None,
        _ => Some(at),
    }
}

/// Appends the put of a user who was active, if that changes the row.
fn push_user(
    rows: &mut Vec<RowChange>,
    tables: &Tables,
    user: &UserName,
    now: Moment,
    told: Option<Moment>,
) -> Result<(), AllocError>
    ensures { OnOk result (rows.new.items ≡ rows.old.items ++ user_activity now told (get tables.now.users user.now)) }
{
    if let Some(kept) = tables.user(user) {
        let last_activity = newer(now, kept.last_activity, told);
        if last_activity.is_some() {
            append(
                rows,
                RowChange::Put(Row::User(User {
                    last_activity,
                    ..*kept
                })),
            )?;
        }
    }
    Ok(())
}

/// Appends the puts of the servers that were active, where that changes their rows.
fn push_servers(
    rows: &mut Vec<RowChange>,
    tables: &Tables,
    user: &UserName,
    now: Moment,
    servers: &[(ServerName, Option<Moment>)],
) -> Result<(), AllocError>
    ensures { OnOk result (rows.new.items ≡ rows.old.items ++ servers_activity tables.now now user.now servers.now) }
{
    for (server, told) in servers {
        let key = ServerKey {
            user: *user,
            server: *server,
        };
        push_server(rows, tables, &key, now, *told)?;
    }
    Ok(())
}

/// Appends the put of a server that was active, if that changes the row.
fn push_server(
    rows: &mut Vec<RowChange>,
    tables: &Tables,
    key: &ServerKey,
    now: Moment,
    told: Option<Moment>,
) -> Result<(), AllocError>
    ensures { OnOk result (rows.new.items ≡ rows.old.items ++ server_activity now told (get tables.now.servers key.now)) }
{
    if let Some(kept) = tables.server(key) {
        let last_activity = newer(now, kept.last_activity, told);
        if last_activity.is_some() {
            append(
                rows,
                RowChange::Put(Row::ServerRow(ServerRow {
                    last_activity,
                    ..*kept
                })),
            )?;
        }
    }
    Ok(())
}

/// Deletes a server with the shares and the share codes of it. Without such a row nothing changes.
pub fn delete_server(
    alloc: Global,
    tables: &Tables,
    server: &ServerKey,
) -> Result<Vec<RowChange>, RuleRefusal>
    ensures answer { Says (delete_server tables.now server.now) result }
    ensures plain { IfOk result (λ rows. ArePlain rows.items) }
{
    if tables.server(server).is_none() {
        return Ok(Vec::new(alloc));
    }
    Ok(server_rows(alloc, tables, server)?)
}
