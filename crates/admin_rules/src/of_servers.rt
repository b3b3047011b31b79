//! What goes with a server.
ghost use Rattle.std.specs.Prelude.{◌≡◌, [], IfOk, OnOk};
ghost use Rattle.hub_rows.specs.declared.changes.RowChange.TheVariants.{Remove};
ghost use Rattle.hub_rows.specs.declared.rows.RowKey.TheVariants as RowKey;
ghost use Rattle.admin_rules.specs.Purges.{is_code_of_server, is_share_of_server, server_rows};

use crate::purges::{Purge, purge_rows};
use crate::rows::append;
use hub_kit::names::ServerKey;
use hub_rows::changes::RowChange;
use hub_rows::records::{Share, ShareCode};
use hub_rows::rows::RowKey;
use hub_tables::tables::Tables;
use std::alloc::{AllocError, Global};

/// The rows that go with a server.
pub(crate) fn server_rows(
    alloc: Global,
    tables: &Tables,
    server: &ServerKey,
) -> Result<Vec<RowChange>, AllocError>
    ensures { IfOk result (λ rows. rows.items ≡ server_rows tables.now server.now) }
{
    let mut rows = Vec::new(alloc);
    purge_server(alloc, &mut rows, tables, server).and(Ok(rows))
}

/// Fills the changes, of which there are none yet, with those that go with a server.
fn purge_server(
    alloc: Global,
    changes: &mut Vec<RowChange>,
    tables: &Tables,
    server: &ServerKey,
) -> Result<(), AllocError>
    requires { changes.old.items ≡ [] }
    ensures { OnOk result (changes.new.items ≡ server_rows tables.now server.now) }
{
    append(changes, RowChange::Remove(RowKey::ServerRow(*server)))?;
    purge_rows(alloc, changes, server, tables.shares())?;
    purge_rows(alloc, changes, server, tables.codes())?;
    Ok(())
}

impl Purge<Share> for ServerKey {
    ghost takes = { is_share_of_server };

    ghost makes = { λ server share. Remove (RowKey.Share share.key) };

    fn is_taken(&self, share: &Share) -> bool {
        share.key.server == *self
    }

    fn change(&self, _alloc: Global, share: &Share) -> Result<RowChange, AllocError> {
        Ok(RowChange::Remove(RowKey::Share(share.key)))
    }
}

impl Purge<ShareCode> for ServerKey {
    ghost takes = { is_code_of_server };

    ghost makes = { λ server code. Remove (RowKey.ShareCode code.id) };

    fn is_taken(&self, code: &ShareCode) -> bool {
        code.server == *self
    }

    fn change(&self, _alloc: Global, code: &ShareCode) -> Result<RowChange, AllocError> {
        Ok(RowChange::Remove(RowKey::ShareCode(code.id)))
    }
}
