//! What a row stands under.
ghost use Rattle.std.specs.Prelude.{◌≡◌, IfOk};
ghost use Rattle.keeper.specs.RowOrder.{key_exact};

use hub_kit::key::Key;
use hub_kit::text::Text;
use std::alloc::{AllocError, Global};

/// The kind and the key of a row. Ordered by the kind, and then by the bytes of the key.
#[derive(Drop, PartialEq, Eq, PartialOrd, Ord)]
pub(crate) struct RowKey {
    pub(crate) kind: u8,
    pub(crate) key: Text,
}

impl Key for RowKey {
    ghost exact = { key_exact };
}

impl RowKey {
    pub(crate) fn copy_of(alloc: Global, kind: u8, key: &Text) -> Result<RowKey, AllocError>
        ensures { IfOk result (λ at. (at.kind ≡ kind) × (at.key ≡ key.now)) }
    {
        Ok(RowKey {
            kind,
            key: key.copy(alloc)?,
        })
    }

    pub(crate) fn copy(&self, alloc: Global) -> Result<RowKey, AllocError>
        ensures { IfOk result (λ at. at ≡ self.now) }
    {
        RowKey::copy_of(alloc, self.kind, &self.key)
    }
}
