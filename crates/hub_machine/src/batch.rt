//! The batch of a change, and what it costs.
ghost use Rattle.std.specs.Prelude.{◌≡◌, [], ◌∷◌, ◌++◌, All, map, OnOk, IfOk};
ghost use Rattle.keeper.specs.Costs as costs;
ghost use Rattle.hub_tables.specs.Changes as changes;
ghost use Rattle.record_texts.specs.Items.{item_of as record_item, IsValid};
ghost use Rattle.hub_machine.specs.Batches as spec;

use hub_kit::list::List;
use hub_rows::changes::RowChange;
use keeper::keeper::{Batch, Item};
use record_texts::item::item_of;
use std::alloc::{AllocError, Global};

/// The items of a change, its puts before its removals.
pub fn batch_of(alloc: Global, rows: &[RowChange]) -> Result<Batch, AllocError>
    ensures batch { IfOk result (λ batch. batch ≡ spec.batch_of rows.now) }
    ensures puts { OnOk result (All IsValid (changes.puts_of rows.now)) }
    ensures removals { OnOk result (All IsValid (changes.removals_of rows.now)) }
{
    let mut items = Vec::new(alloc);
    push_puts(alloc, &mut items, rows)?;
    push_removals(alloc, &mut items, rows)?;
    Ok(List::from_vec(items))
}

/// Adds the item of a row.
fn push_item(alloc: Global, items: &mut Vec<Item>, row: &RowChange) -> Result<(), AllocError>
    ensures items { OnOk result (items.new.items ≡ items.old.items ++ record_item row.now ∷ []) }
    ensures valid { OnOk result (IsValid row.now) }
{
    items.push(item_of(alloc, row)?)?;
    Ok(())
}

/// Adds the items of the puts.
fn push_puts(alloc: Global, items: &mut Vec<Item>, rows: &[RowChange]) -> Result<(), AllocError>
    ensures items { OnOk result (items.new.items ≡ items.old.items ++ map record_item (changes.puts_of rows.now)) }
    ensures valid { OnOk result (All IsValid (changes.puts_of rows.now)) }
{
    for row in rows {
        if row.is_put() {
            push_item(alloc, items, row)?;
        }
    }
    Ok(())
}

/// Adds the items of the removals.
fn push_removals(alloc: Global, items: &mut Vec<Item>, rows: &[RowChange]) -> Result<(), AllocError>
    ensures items { OnOk result (items.new.items ≡ items.old.items ++ map record_item (changes.removals_of rows.now)) }
    ensures valid { OnOk result (All IsValid (changes.removals_of rows.now)) }
{
    for row in rows {
        if !row.is_put() {
            push_item(alloc, items, row)?;
        }
    }
    Ok(())
}

/// The bytes of the key and the text of an item.
fn item_cost(item: &Item) -> u128
    ensures { result ≡ costs.item_cost item.now }
{
    match item {
        Item::Put(row) => row.key.len() as u128 + row.text.len() as u128,
        Item::Delete { key, .. } => key.len() as u128,
    }
}

/// The bytes of the keys and texts of a batch. More than a `u64` tells are more than memory holds.
pub fn items_cost(items: &[Item]) -> Result<u64, AllocError>
    ensures { IfOk result (λ cost. cost ≡ costs.batch_cost items.now) }
{
    let mut cost: u64 = 0;
    for item in items {
        let Ok(more) = u64::try_from(item_cost(item)) else {
            return Err(AllocError);
        };
        let Some(sum) = cost.checked_add(more) else {
            return Err(AllocError);
        };
        cost = sum;
    }
    Ok(cost)
}
