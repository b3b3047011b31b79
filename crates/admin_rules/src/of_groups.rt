//! What goes with a group.
ghost use Rattle.std.specs.Prelude.{◌≡◌, [], IfOk, OnOk};
ghost use Rattle.admin_rules.specs.Purges.{is_held_by_group, without_group, group_rows};

use crate::purges::{Purge, purge_rows, remove_shares};
use crate::rows::append;
use hub_kit::names::GroupName;
use hub_rows::changes::RowChange;
use hub_rows::keys::Recipient;
use hub_rows::records::Role;
use hub_rows::rows::{Row, RowKey};
use hub_tables::tables::Tables;
use std::alloc::{AllocError, Global};

/// The rows that change or go with a group.
pub(crate) fn group_rows(
    alloc: Global,
    tables: &Tables,
    group: &GroupName,
) -> Result<Vec<RowChange>, AllocError>
    ensures { IfOk result (λ rows. rows.items ≡ group_rows tables.now group.now) }
{
    let mut rows = Vec::new(alloc);
    purge_group(alloc, &mut rows, tables, group).and(Ok(rows))
}

/// Fills the changes, of which there are none yet, with those that go with a group.
fn purge_group(
    alloc: Global,
    changes: &mut Vec<RowChange>,
    tables: &Tables,
    group: &GroupName,
) -> Result<(), AllocError>
    requires { changes.old.items ≡ [] }
    ensures { OnOk result (changes.new.items ≡ group_rows tables.now group.now) }
{
    purge_rows(alloc, changes, group, tables.roles())?;
    append(changes, RowChange::Remove(RowKey::Group(*group)))?;
    remove_shares(alloc, changes, tables, &Recipient::Group(*group))?;
    Ok(())
}

impl Purge<Role> for GroupName {
    ghost takes = { is_held_by_group };

    ghost makes = { without_group };

    fn is_taken(&self, role: &Role) -> bool {
        role.groups.contains(self)
    }

    fn change(&self, alloc: Global, role: &Role) -> Result<RowChange, AllocError> {
        let groups = role.groups.without(alloc, &[*self])?;
        let mut role = role.copy(alloc)?;
        role.groups = groups;
        Ok(RowChange::Put(Row::Role(role)))
    }
}
