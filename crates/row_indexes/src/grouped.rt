//! Keys that stand together by their owners.
ghost use Rattle.std.specs.Prelude.{◌≡◌, false, IfOk};
ghost use Rattle.std.specs.declared.cmp.Ordering.TheVariants.{Less};
ghost use Rattle.std.specs.FinMap as map;
ghost use Rattle.std.specs.List.{filter};
ghost use Rattle.std.specs.Ordering.{is_gt, eq_by_cmp};
ghost use Rattle.keyed_rows.specs.Rows.{map_of};

use hub_kit::key::Key;
use std::alloc::{AllocError, Global};
use std::collections::BTreeMap;

/// A key that is ordered by its owner first.
pub trait Grouped<O: Key>: Key + Copy {
    ghost owner_of: { Self → O };

    fn owner(&self) -> &O
        ensures { result.now ≡ owner_of self.now };

    ghost together: { (a b : Self) → Self.Ord.cmp a b ≡ Less → is_gt (O.Ord.cmp (owner_of a) (owner_of b)) ≡ false };
}

/// The keys of an owner, in order. `first` is one of the owner's that no other comes before, kept or not. It walks over these keys alone.
pub fn keys_of<O: Key, K: Grouped<O>, X>(
    alloc: Global,
    rows: &BTreeMap<K, X>,
    owner: &O,
    first: K,
) -> Result<Vec<K>, AllocError>
    requires own { K.owner_of first ≡ owner.now }
    requires first { (key : K) → K.owner_of key ≡ owner.now → is_gt (K.Ord.cmp first key) ≡ false }
    ensures { IfOk result (λ keys. keys.items ≡ filter (λ key. eq_by_cmp O.Ord.cmp (K.owner_of key) owner.now)
        (map.keys (map_of K.Ord.cmp rows.now))) }
{
    let mut keys = Vec::new(alloc);
    for (key, _) in rows.range(first..) {
        if key.owner().cmp(owner).is_ne() {
            break;
        }
        keys.push(*key)?;
    }
    Ok(keys)
}
