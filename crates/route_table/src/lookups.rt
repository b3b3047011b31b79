//! Look-ups, which keep when a route was last used.
ghost use Rattle.std.specs.Prelude.{◌≡◌, ◌<◌, ℕ, List, Some, None, length, option_map, IfOk};
ghost use Rattle.route_table.specs.declared.route.Route.{Route};
ghost use Rattle.route_table.specs.Path.{decoded_parts, IsKey, slash_escape};
ghost use Rattle.route_table.specs.Table.{listed, touched, touched_route, IsLooked};
ghost use Rattle.route_table.specs.Rows.{rows_of, AreRows, KeysRise, AreKeys};
ghost use Rattle.route_table.specs.Search.{IsListedAt, IsTargetFound};

use crate::row::Row;
use crate::search::{best, row_at};
use hub_kit::moment::Moment;
use hub_kit::target::Target;
use std::alloc::{AllocError, Global};

/// The place of the route with the most segments that is a prefix of the path, and its target.
fn find_target(
    alloc: Global,
    rows: &[Box<Row>],
    path: &[u8],
) -> Result<Option<(usize, Target)>, AllocError>
    requires rise { KeysRise rows.now }
    requires keys { AreKeys rows.now }
    requires key { IsKey path.now }
    requires clear { slash_escape path.now ≡ None }
    ensures { IfOk result (IsTargetFound rows.now (decoded_parts path.now)) }
{
    match best(rows, path) {
        None => Ok(None),
        Some(at) => match &row_at(rows, at).route {
            None => Ok(None),
            Some(route) => {
                let target = route.entry.target.copy(alloc)?;
                Ok(Some((at, target)))
            }
        },
    }
}

fn touch_row(row: &mut Box<Row>, now: Moment)
    ensures { row.new.value ≡ record row.old.value { route = option_map (touched_route now) row.old.value.route } }
{
    let Some(route) = &mut row.route else {
        return;
    };
    route.last_activity = now;
}

/// Sets when the route at a place was last used.
fn touch(rows: &mut Vec<Box<Row>>, at: usize, now: Moment)
    requires rows { AreRows rows.old.items }
    requires at { at < length rows.old.items }
    ensures rows { AreRows rows.new.items }
    ensures changed { (k : List (List ℕ)) (r : Route) → IsListedAt rows.old.items k at → listed (rows_of rows.old.items) k ≡ Some r
        → rows_of rows.new.items ≡ touched (rows_of rows.old.items) k r now }
{
    let row = &mut rows[at];
    touch_row(row, now);
}

/// The target of the route with the most segments that is a prefix of the path, which is used now.
/// Memory is wanted before anything changes.
pub(crate) fn look_in(
    alloc: Global,
    rows: &mut Vec<Box<Row>>,
    path: &[u8],
    now: Moment,
) -> Result<Option<Target>, AllocError>
    requires rows { AreRows rows.old.items }
    requires key { IsKey path.now }
    requires clear { slash_escape path.now ≡ None }
    ensures rows { AreRows rows.new.items }
    ensures looked { IsLooked (rows_of rows.old.items) (decoded_parts path.now) now result (rows_of rows.new.items) }
{
    let found = find_target(alloc, rows.as_slice(), path)?;
    match found {
        Some((at, target)) => {
            touch(rows, at, now);
            Ok(Some(target))
        }
        None => Ok(None),
    }
}
