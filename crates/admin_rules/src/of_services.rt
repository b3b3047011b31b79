//! What goes with a service.
ghost use Rattle.std.specs.Prelude.{◌≡◌, ◌++◌, [], IfOk, OnOk};
ghost use Rattle.std.specs.FinMap.{values};
ghost use Rattle.hub_rows.specs.declared.changes.RowChange.TheVariants.{Remove};
ghost use Rattle.hub_rows.specs.declared.rows.RowKey.TheVariants as RowKey;
ghost use Rattle.admin_rules.specs.Purges.{changes_of, is_held_by_service, without_service, is_client, client_of_service, service_rows};

use crate::purges::{Purge, purge_rows, remove_tokens};
use crate::rows::append;
use hub_kit::names::ServiceName;
use hub_kit::text::Text;
use hub_rows::changes::RowChange;
use hub_rows::records::{OAuthClient, Role};
use hub_rows::rows::{Row, RowKey};
use hub_tables::tables::Tables;
use scope_filters::holder::Owner;
use std::alloc::{AllocError, Global};

/// The rows that change or go with a service.
pub(crate) fn service_rows(
    alloc: Global,
    tables: &Tables,
    service: &ServiceName,
) -> Result<Vec<RowChange>, AllocError>
    ensures { IfOk result (λ rows. rows.items ≡ service_rows tables.now service.now) }
{
    let mut rows = Vec::new(alloc);
    purge_service(alloc, &mut rows, tables, service).and(Ok(rows))
}

/// Fills the changes, of which there are none yet, with those that go with a service.
fn purge_service(
    alloc: Global,
    changes: &mut Vec<RowChange>,
    tables: &Tables,
    service: &ServiceName,
) -> Result<(), AllocError>
    requires { changes.old.items ≡ [] }
    ensures { OnOk result (changes.new.items ≡ service_rows tables.now service.now) }
{
    purge_rows(alloc, changes, service, tables.roles())?;
    append(changes, RowChange::Remove(RowKey::Service(*service)))?;
    remove_tokens(alloc, changes, tables, &Owner::Service(*service))?;
    remove_client(alloc, changes, tables, service)?;
    Ok(())
}

/// Appends the removal of the service's client.
fn remove_client(
    alloc: Global,
    changes: &mut Vec<RowChange>,
    tables: &Tables,
    service: &ServiceName,
) -> Result<(), AllocError>
    ensures { OnOk result (changes.new.items ≡ changes.old.items ++ changes_of (is_client (client_of_service service.now))
        (λ client. Remove (RowKey.OAuthClient client.id)) (values tables.now.clients)) }
{
    let client = Client {
        id: client_of_service(alloc, service)?,
    };
    purge_rows(alloc, changes, &client, tables.clients())
}

/// The id of a service's client.
fn client_of_service(alloc: Global, service: &ServiceName) -> Result<Text, AllocError>
    ensures { IfOk result (λ id. id ≡ client_of_service service.now) }
{
    let mut id = Text::from_str(alloc, "service:")?;
    id.push_str(service.as_str())?;
    Ok(id)
}

/// The client of an id.
struct Client {
    id: Text,
}

impl Drop for Client {
    fn drop(self) {
        let Client { id: _ } = self;
    }
}

impl Purge<Role> for ServiceName {
    ghost takes = { is_held_by_service };

    ghost makes = { without_service };

    fn is_taken(&self, role: &Role) -> bool {
        role.services.contains(self)
    }

    fn change(&self, alloc: Global, role: &Role) -> Result<RowChange, AllocError> {
        let services = role.services.without(alloc, &[*self])?;
        let mut role = role.copy(alloc)?;
        role.services = services;
        Ok(RowChange::Put(Row::Role(role)))
    }
}

impl Purge<OAuthClient> for Client {
    ghost takes = { λ client row. is_client client.id row };

    ghost makes = { λ client row. Remove (RowKey.OAuthClient row.id) };

    fn is_taken(&self, row: &OAuthClient) -> bool {
        *row.id.as_text() == self.id
    }

    fn change(&self, alloc: Global, row: &OAuthClient) -> Result<RowChange, AllocError> {
        Ok(RowChange::Remove(RowKey::OAuthClient(row.id.as_text().copy(alloc)?)))
    }
}
