//! Calls on a store, and their answers.
ghost use Rattle.std.specs.Prelude.{◌≡◌, IfOk};

use hub_kit::list::List;
use hub_kit::text::Text;
use hub_store::file_places::FileError;
use keeper::keeper::{Batch, Item, KeeperError, Row};
use std::alloc::{AllocError, Global};

/// A call on a store.
#[derive(Drop)]
pub enum Call {
    /// To take the store at a place, and to read its rows where it was taken.
    Open(Text),
    /// To stay with its own store.
    Stay,
    Load,
    Commit(Batch),
}

/// What a store answered.
#[derive(Drop)]
pub struct Answer {
    /// Whether the call was done; of a load its rows say it.
    pub done: Result<(), KeeperError>,
    /// The rows that were read, where any were to be read.
    pub rows: Option<Result<Vec<Row>, KeeperError>>,
    /// Why it hasn't taken its place, if it hasn't.
    pub refusal: Option<FileError>,
}

fn copy_item(alloc: Global, item: &Item) -> Result<Item, AllocError>
    ensures { IfOk result (λ copied. copied ≡ item.now) }
{
    match item {
        Item::Put(row) => Ok(Item::Put(Row {
            kind: row.kind,
            key: row.key.copy(alloc)?,
            text: row.text.copy(alloc)?,
        })),
        Item::Delete { kind, key } => Ok(Item::Delete {
            kind: *kind,
            key: key.copy(alloc)?,
        }),
    }
}

/// A batch of the same items.
pub(crate) fn copy_batch(alloc: Global, batch: &Batch) -> Result<Batch, AllocError>
    ensures { IfOk result (λ copied. copied ≡ batch.now) }
{
    let mut items = Vec::new(alloc);
    for item in batch.as_slice() {
        items.push(copy_item(alloc, item)?)?;
    }
    Ok(List::from_vec(items))
}
