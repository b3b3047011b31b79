//! One change, done.
ghost use Rattle.std.specs.Prelude.{◌≡◌, true, false, OnOk, OnErr};
ghost use Rattle.std.specs.Option.{is_some};
ghost use Rattle.hub_rows.specs.RowKeys.{is_put, key_of};
ghost use Rattle.hub_tables.specs.Changes.{row_at, row_done, with_row, without_row, has_row, FitsKey, FitsRow};

use hub_rows::changes::RowChange;
use hub_rows::rows::{Row, RowKey};
use hub_tables::tables::Tables;
use keyed_rows::PutError;
use std::alloc::AllocError;

/// Does one change, whatever the limits. A removal, and a put at a kept key, need no memory.
pub fn change(tables: &mut Tables, change: RowChange) -> Result<(), AllocError>
    requires { FitsRow tables.old change }
    ensures ok { OnOk result (tables.new ≡ row_done change tables.old) }
    ensures err { OnErr result (tables.new ≡ tables.old) }
    ensures memory { OnErr result ((is_put change ≡ true) × (has_row tables.old change ≡ false)) }
{
    match change {
        RowChange::Put(row) => match put(tables, row) {
            Ok(()) => Ok(()),
            Err(_) => Err(AllocError),
        },
        RowChange::Remove(key) => {
            remove(tables, &key);
            Ok(())
        }
    }
}

/// Puts a row under its key. No limit holds, so memory alone may be wanting.
fn put(tables: &mut Tables, row: Row) -> Result<(), PutError>
    requires { FitsKey tables.old row }
    ensures ok { OnOk result (tables.new ≡ with_row row tables.old) }
    ensures err { OnErr result (tables.new ≡ tables.old) }
    ensures memory { OnErr result (is_some (row_at tables.old (key_of row)) ≡ false) }
{
    match row {
        Row::User(row) => tables.put_user(row, None),
        Row::Group(row) => tables.put_group(row, None),
        Row::Service(row) => tables.put_service(row, None),
        Row::Role(row) => tables.put_role(row, None),
        Row::Token(row) => tables.put_token(row, None),
        Row::ServerRow(row) => tables.put_server(row),
        Row::Lease(row) => tables.put_lease(row),
        Row::Share(row) => tables.put_share(row, None),
        Row::ShareCode(row) => tables.put_code(row, None),
        Row::OAuthClient(row) => tables.put_client(row, None),
        Row::OAuthCode(row) => tables.put_grant_code(row, None),
        Row::Next(row) => tables.put_next(row),
    }
}

/// Takes the row of a key out, whether or not it is there.
pub(crate) fn remove(tables: &mut Tables, key: &RowKey)
    ensures { tables.new ≡ without_row key.now tables.old }
{
    let _was_there = match key {
        RowKey::User(name) => tables.remove_user(name),
        RowKey::Group(name) => tables.remove_group(name),
        RowKey::Service(name) => tables.remove_service(name),
        RowKey::Role(name) => tables.remove_role(name),
        RowKey::Token(id) => tables.remove_token(*id),
        RowKey::ServerRow(key) => tables.remove_server(key),
        RowKey::Lease(target) => tables.remove_lease(target),
        RowKey::Share(key) => tables.remove_share(&key.server, &key.to),
        RowKey::ShareCode(id) => tables.remove_code(*id),
        RowKey::OAuthClient(id) => tables.remove_client(id),
        RowKey::OAuthCode(hash) => tables.remove_grant_code(hash),
        RowKey::Next(name) => tables.remove_next(name),
    };
}
