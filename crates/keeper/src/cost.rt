//! What a batch costs.
ghost use Rattle.std.specs.Prelude.{◌≡◌, ◌-◌, ◌^◌, min};
ghost use Rattle.keeper.specs.Costs as spec;

use crate::keeper::Item;

/// The bytes of the item's key and text, or the greatest `u64` where they pass it. The kind isn't counted.
pub fn item_cost(item: &Item) -> u64
    ensures { result ≡ min (spec.item_cost item.now) (2 ^ 64 - 1) }
{
    match item {
        Item::Put(row) => (row.key.len() as u64).saturating_add(row.text.len() as u64),
        Item::Delete { key, .. } => key.len() as u64,
    }
}
