//! What goes with a user.
ghost use Rattle.std.specs.Prelude.{◌≡◌, ◌++◌, [], IfOk, OnOk};
ghost use Rattle.std.specs.FinMap.{values};
ghost use Rattle.hub_rows.specs.declared.changes.RowChange.TheVariants.{Remove};
ghost use Rattle.hub_rows.specs.declared.rows.RowKey.TheVariants as RowKey;
ghost use Rattle.admin_rules.specs.Purges.{changes_of, has_member, without_member, is_held_by_user, without_user, is_code_of_user};
ghost use Rattle.admin_rules.specs.Purges.{is_called, clients_of_user, is_grant_of_user, user_rows};

use crate::purges::{Purge, purge_rows, remove_servers, remove_shares, remove_tokens};
use crate::rows::append;
use hub_kit::names::UserName;
use hub_kit::text::Text;
use hub_rows::changes::RowChange;
use hub_rows::keys::Recipient;
use hub_rows::records::{Group, OAuthClient, OAuthCode, Role, ShareCode};
use hub_rows::rows::{Row, RowKey};
use hub_tables::tables::Tables;
use scope_filters::holder::Owner;
use std::alloc::{AllocError, Global};

/// The rows that change or go with a user.
pub(crate) fn user_rows(
    alloc: Global,
    tables: &Tables,
    user: &UserName,
) -> Result<Vec<RowChange>, AllocError>
    ensures { IfOk result (λ rows. rows.items ≡ user_rows tables.now user.now) }
{
    let mut rows = Vec::new(alloc);
    purge_user(alloc, &mut rows, tables, user).and(Ok(rows))
}

/// Fills the changes, of which there are none yet, with those that go with a user.
fn purge_user(
    alloc: Global,
    changes: &mut Vec<RowChange>,
    tables: &Tables,
    user: &UserName,
) -> Result<(), AllocError>
    requires { changes.old.items ≡ [] }
    ensures { OnOk result (changes.new.items ≡ user_rows tables.now user.now) }
{
    purge_rows(alloc, changes, user, tables.groups())?;
    purge_rows(alloc, changes, user, tables.roles())?;
    append(changes, RowChange::Remove(RowKey::User(*user)))?;
    remove_tokens(alloc, changes, tables, &Owner::User(*user))?;
    remove_servers(alloc, changes, tables, user)?;
    remove_shares(alloc, changes, tables, &Recipient::User(*user))?;
    purge_rows(alloc, changes, user, tables.codes())?;
    remove_clients(alloc, changes, tables, user)?;
    purge_rows(alloc, changes, user, tables.grant_codes())?;
    Ok(())
}

/// Appends the removal of each client of the user's servers.
fn remove_clients(
    alloc: Global,
    changes: &mut Vec<RowChange>,
    tables: &Tables,
    user: &UserName,
) -> Result<(), AllocError>
    ensures { OnOk result (changes.new.items ≡ changes.old.items ++ changes_of (is_called (clients_of_user user.now))
        (λ client. Remove (RowKey.OAuthClient client.id)) (values tables.now.clients)) }
{
    let clients = Clients {
        beginning: clients_of_user(alloc, user)?,
    };
    purge_rows(alloc, changes, &clients, tables.clients())
}

/// How the ids of the clients of a user's servers begin.
fn clients_of_user(alloc: Global, user: &UserName) -> Result<Text, AllocError>
    ensures { IfOk result (λ beginning. beginning ≡ clients_of_user user.now) }
{
    let mut beginning = Text::from_str(alloc, "server:")?;
    beginning.push_str(user.as_str())?;
    beginning.push_str("/")?;
    Ok(beginning)
}

/// The clients whose ids have a beginning.
struct Clients {
    beginning: Text,
}

impl Drop for Clients {
    fn drop(self) {
        let Clients { beginning: _ } = self;
    }
}

impl Purge<Group> for UserName {
    ghost takes = { has_member };

    ghost makes = { without_member };

    fn is_taken(&self, group: &Group) -> bool {
        group.users.contains(self)
    }

    fn change(&self, alloc: Global, group: &Group) -> Result<RowChange, AllocError> {
        Ok(RowChange::Put(Row::Group(Group {
            name: group.name,
            users: group.users.without(alloc, &[*self])?,
        })))
    }
}

impl Purge<Role> for UserName {
    ghost takes = { is_held_by_user };

    ghost makes = { without_user };

    fn is_taken(&self, role: &Role) -> bool {
        role.users.contains(self)
    }

    fn change(&self, alloc: Global, role: &Role) -> Result<RowChange, AllocError> {
        let users = role.users.without(alloc, &[*self])?;
        let mut role = role.copy(alloc)?;
        role.users = users;
        Ok(RowChange::Put(Row::Role(role)))
    }
}

impl Purge<ShareCode> for UserName {
    ghost takes = { is_code_of_user };

    ghost makes = { λ user code. Remove (RowKey.ShareCode code.id) };

    fn is_taken(&self, code: &ShareCode) -> bool {
        code.server.user == *self
    }

    fn change(&self, _alloc: Global, code: &ShareCode) -> Result<RowChange, AllocError> {
        Ok(RowChange::Remove(RowKey::ShareCode(code.id)))
    }
}

impl Purge<OAuthClient> for Clients {
    ghost takes = { λ clients client. is_called clients.beginning client };

    ghost makes = { λ clients client. Remove (RowKey.OAuthClient client.id) };

    fn is_taken(&self, client: &OAuthClient) -> bool {
        client
            .id
            .as_text()
            .as_bytes()
            .starts_with(self.beginning.as_bytes())
    }

    fn change(&self, alloc: Global, client: &OAuthClient) -> Result<RowChange, AllocError> {
        Ok(RowChange::Remove(RowKey::OAuthClient(client.id.as_text().copy(alloc)?)))
    }
}

impl Purge<OAuthCode> for UserName {
    ghost takes = { is_grant_of_user };

    ghost makes = { λ user code. Remove (RowKey.OAuthCode code.hash) };

    fn is_taken(&self, code: &OAuthCode) -> bool {
        code.owner == *self
    }

    fn change(&self, alloc: Global, code: &OAuthCode) -> Result<RowChange, AllocError> {
        Ok(RowChange::Remove(RowKey::OAuthCode(code.hash.copy(alloc)?)))
    }
}
