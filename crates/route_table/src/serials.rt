//! Serials against the greatest that was seen.
ghost use Rattle.std.specs.Prelude.{◌≡◌, nat_lt, nat_le};
ghost use Rattle.route_table.specs.Table.{stale, seen_after};

use crate::route::RouteRefusal;

/// Whether an addition's serial is refused: a greater one was seen.
pub(crate) fn stale_addition(given: Option<u64>, seen: Option<u64>) -> Option<RouteRefusal>
    ensures { result ≡ stale nat_lt given seen }
{
    match given {
        None => None,
        Some(given) => match seen {
            Some(seen) => if given < seen {
                Some(RouteRefusal::Stale { given, seen })
            } else {
                None
            },
            None => None,
        },
    }
}

/// Whether a deletion's serial is refused: one at least as great was seen.
pub(crate) fn stale_deletion(given: Option<u64>, seen: Option<u64>) -> Option<RouteRefusal>
    ensures { result ≡ stale nat_le given seen }
{
    match given {
        None => None,
        Some(given) => match seen {
            Some(seen) => if given <= seen {
                Some(RouteRefusal::Stale { given, seen })
            } else {
                None
            },
            None => None,
        },
    }
}

/// The greatest serial seen, once this one was given too.
pub(crate) fn seen_after(given: Option<u64>, seen: Option<u64>) -> Option<u64>
    ensures { result ≡ seen_after given seen }
{
    match given {
        None => seen,
        Some(given) => Some(given),
    }
}
