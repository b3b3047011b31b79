//! What goes with a name: one way for rows that are walked through, and one for those that an index finds.
ghost use Rattle.std.specs.Prelude.{◌≡◌, ◌∷◌, [], ◌++◌, Bool, map, OnOk, IfOk};
ghost use Rattle.hub_rows.specs.declared.changes.RowChange.TheVariants.{Remove};
ghost use Rattle.hub_rows.specs.declared.rows.RowKey.TheVariants as RowKey;
ghost use Rattle.hub_rows.specs.declared.changes.RowChange.{RowChange};
ghost use Rattle.hub_tables.specs.Lookups.{tokens_of, servers_of, shares_with};
ghost use Rattle.admin_rules.specs.Purges.{changes_of};

use crate::rows::append;
use hub_kit::names::UserName;
use hub_rows::changes::RowChange;
use hub_rows::keys::Recipient;
use hub_rows::rows::RowKey;
use hub_tables::tables::Tables;
use scope_filters::holder::Owner;
use std::alloc::{AllocError, Global};
use std::collections::btree_map::Values;

/// What the deletion of a name takes of the rows of a kind, and which change it makes of each.
pub(crate) trait Purge<R> {
    ghost takes: { Self → R → Bool };

    ghost makes: { Self → R → RowChange };

    fn is_taken(&self, row: &R) -> bool
        ensures { result ≡ takes self.now row.now };

    fn change(&self, alloc: Global, row: &R) -> Result<RowChange, AllocError>
        ensures { IfOk result (λ change. change ≡ makes self.now row.now) };
}

/// Appends the change of each row that is taken, in the order of the rows.
pub(crate) fn purge_rows<K, R, P: Purge<R>>(
    alloc: Global,
    changes: &mut Vec<RowChange>,
    gone: &P,
    rows: Values<'_, K, R>,
) -> Result<(), AllocError>
    ensures { OnOk result (changes.new.items ≡ changes.old.items ++ changes_of (P.takes gone.now) (P.makes gone.now) rows.entry) }
{
    for row in rows {
        purge_row(alloc, changes, gone, row)?;
    }
    Ok(())
}

/// Appends the change of a row, if it is taken.
fn purge_row<R, P: Purge<R>>(
    alloc: Global,
    changes: &mut Vec<RowChange>,
    gone: &P,
    row: &R,
) -> Result<(), AllocError>
    ensures { OnOk result (changes.new.items ≡ changes.old.items ++ changes_of (P.takes gone.now) (P.makes gone.now) (row.now ∷ [])) }
{
    if gone.is_taken(row) {
        return append(changes, gone.change(alloc, row)?);
    }
    Ok(())
}

/// Appends the removal of each token of an owner.
pub(crate) fn remove_tokens(
    alloc: Global,
    changes: &mut Vec<RowChange>,
    tables: &Tables,
    owner: &Owner,
) -> Result<(), AllocError>
    ensures { OnOk result (changes.new.items ≡ changes.old.items ++ map (λ id. Remove (RowKey.Token id)) (tokens_of tables.now owner.now)) }
{
    let ids = tables.tokens_of(alloc, owner)?;
    for id in ids.as_slice() {
        append(changes, RowChange::Remove(RowKey::Token(*id)))?;
    }
    Ok(())
}

/// Appends the removal of each server of a user.
pub(crate) fn remove_servers(
    alloc: Global,
    changes: &mut Vec<RowChange>,
    tables: &Tables,
    user: &UserName,
) -> Result<(), AllocError>
    ensures { OnOk result (changes.new.items ≡ changes.old.items ++ map (λ key. Remove (RowKey.ServerRow key))
        (servers_of tables.now user.now)) }
{
    let keys = tables.servers_of(alloc, user)?;
    for key in keys.as_slice() {
        append(changes, RowChange::Remove(RowKey::ServerRow(*key)))?;
    }
    Ok(())
}

/// Appends the removal of each share with someone.
pub(crate) fn remove_shares(
    alloc: Global,
    changes: &mut Vec<RowChange>,
    tables: &Tables,
    to: &Recipient,
) -> Result<(), AllocError>
    ensures { OnOk result (changes.new.items ≡ changes.old.items ++ map (λ key. Remove (RowKey.Share key))
        (shares_with tables.now to.now)) }
{
    let keys = tables.shares_with(alloc, to)?;
    for key in keys.as_slice() {
        append(changes, RowChange::Remove(RowKey::Share(*key)))?;
    }
    Ok(())
}
