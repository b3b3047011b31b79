//! Changes of rows.
ghost use Rattle.std.specs.Prelude.{◌≡◌, IfOk};
ghost use Rattle.hub_rows.specs.RowKeys as spec;

use crate::rows::{Row, RowKey};
use std::alloc::{AllocError, Global};

/// One change of the tables: a row that is put, or the key of one that goes.
#[derive(Drop)]
pub enum RowChange {
    Put(Row),
    Remove(RowKey),
}

impl RowChange {
    pub fn is_put(&self) -> bool
        ensures { result ≡ spec.is_put self.now }
    {
        match self {
            RowChange::Put(_) => true,
            RowChange::Remove(_) => false,
        }
    }

    pub fn copy(&self, alloc: Global) -> Result<RowChange, AllocError>
        ensures { IfOk result (λ copy. copy ≡ self.now) }
    {
        match self {
            RowChange::Put(row) => Ok(RowChange::Put(row.copy(alloc)?)),
            RowChange::Remove(key) => Ok(RowChange::Remove(key.copy(alloc)?)),
        }
    }

    /// What is changed: the key of the row that is put, or of the one that goes.
    pub fn key(&self, alloc: Global) -> Result<RowKey, AllocError>
        ensures { IfOk result (λ key. key ≡ spec.key_in self.now) }
    {
        match self {
            RowChange::Put(row) => row.key(alloc),
            RowChange::Remove(key) => key.copy(alloc),
        }
    }
}
