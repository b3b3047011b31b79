//! Which changes are changes of rights, and which are changes of what rights come from.
ghost use Rattle.std.specs.Prelude.{◌≡◌, ◌≤◌, ◌^◌, Some};
ghost use Rattle.std.specs.Option.{option_copied};
ghost use Rattle.hub_core.specs.Stamps as spec;

use hub_machine::change::Change;
use hub_rows::changes::RowChange;
use hub_rows::records::User;
use hub_rows::rows::{Row, RowKey};
use hub_tables::tables::Tables;
use roles::held::is_admin;

/// The stamp of the kept rights, and since when they come from the same sources.
#[derive(Clone, Copy)]
pub struct Stamps {
    /// How often rights have changed.
    pub stamp: u64,
    /// The stamp that the last change of a source of rights left.
    pub since: u64,
}

/// Whether the user is kept, and is an admin or none as this says.
fn is_kept_as(admin: bool, user: Option<&User>) -> bool
    ensures { result ≡ spec.is_kept_as admin (option_copied user.entry) }
{
    match user {
        Some(user) => user.admin == admin,
        None => false,
    }
}

/// Whether the row is a group, a service, a role or a share that is put or removed, or a user that is added, removed, or made an admin
/// or none.
fn touches_rights(tables: &Tables, row: &RowChange) -> bool
    ensures { result ≡ spec.touches_rights tables.now row.now }
{
    match row {
        RowChange::Put(Row::User(row)) => !is_kept_as(row.admin, tables.user(&row.name)),
        RowChange::Put(Row::Group(_))
        | RowChange::Put(Row::Service(_))
        | RowChange::Put(Row::Role(_))
        | RowChange::Put(Row::Share(_))
        | RowChange::Remove(RowKey::User(_))
        | RowChange::Remove(RowKey::Group(_))
        | RowChange::Remove(RowKey::Service(_))
        | RowChange::Remove(RowKey::Role(_))
        | RowChange::Remove(RowKey::Share(_)) => true,
        _ => false,
    }
}

/// Whether the row is such a group, service, role or share, or makes somebody an admin, or one no longer: a user who is added or removed
/// and is none changes what nobody else may do.
fn touches_sources(tables: &Tables, row: &RowChange) -> bool
    ensures { result ≡ spec.touches_sources tables.now row.now }
{
    match row {
        RowChange::Put(Row::User(row)) => is_admin(tables, &row.name) != row.admin,
        RowChange::Remove(RowKey::User(name)) => is_admin(tables, name),
        _ => touches_rights(tables, row),
    }
}

/// Whether a row touches rights.
fn changes_rights(tables: &Tables, rows: &[RowChange]) -> bool
    ensures { result ≡ spec.changes_rights tables.now rows.now }
{
    rows.iter().any(|row| touches_rights(tables, row))
}

/// Whether a row touches what rights come from.
fn changes_sources(tables: &Tables, rows: &[RowChange]) -> bool
    ensures { result ≡ spec.changes_sources tables.now rows.now }
{
    rows.iter().any(|row| touches_sources(tables, row))
}

impl Stamps {
    /// The stamps once the change is made.
    pub fn after(self, tables: &Tables, change: &Change) -> Stamps
        requires { self.stamp ≤ 2 ^ 62 }
        ensures stamp { result.stamp ≡ spec.stamp_after tables.now (Some change.now) self.stamp }
        ensures since { result.since ≡ spec.since_after tables.now (Some change.now) self.stamp self.since }
    {
        let rows = change.rows();
        let stamp = if changes_rights(tables, rows) {
            self.stamp + 1
        } else {
            self.stamp
        };
        let since = if changes_sources(tables, rows) {
            self.stamp + 1
        } else {
            self.since
        };
        Stamps { stamp, since }
    }
}
