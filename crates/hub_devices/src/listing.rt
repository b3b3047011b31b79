//! The routes of a list as a proxy lists them: one for each path, in the order of paths.
ghost use Rattle.std.specs.Prelude.{◌≡◌, ℕ, List, map, IfOk};
ghost use Rattle.std.specs.BTreeMap.{get, IsOrdered};
ghost use Rattle.std.specs.Cmp.Lexicographic.{slice_cmp};
ghost use Rattle.std.specs.Ordering.{nat_cmp};
ghost use Rattle.hub_devices.specs.Routes.{Lists, route_from, route_of};

use crate::calls::ListedRoute;
use hub_kit::text::Text;
use std::alloc::{AllocError, Global};
use std::collections::BTreeMap;

/// The routes by their paths.
fn by_path(
    alloc: Global,
    routes: &[ListedRoute],
) -> Result<BTreeMap<Text, (Text, Option<u64>)>, AllocError>
    ensures { IfOk result (λ table. (path : List ℕ) → get (slice_cmp nat_cmp) table path ≡ route_of routes.now path) }
{
    let mut table = BTreeMap::new(alloc);
    let mut at = routes.len();
    while at > 0 {
        at -= 1;
        let route = &routes[at];
        let path = route.path.copy(alloc)?;
        let target = route.target.copy(alloc)?;
        table.insert(path, (target, route.serial))?;
    }
    Ok(table)
}

/// The routes of a table, in its order.
fn in_order(
    alloc: Global,
    table: BTreeMap<Text, (Text, Option<u64>)>,
) -> Result<Vec<ListedRoute>, AllocError>
    ensures routes { IfOk result (λ listed. listed.items ≡ map route_from table.entries) }
    ensures ordered { IsOrdered (slice_cmp nat_cmp) table }
{
    table
        .into_iter()
        .map(|(path, (target, serial))| ListedRoute {
            path,
            target,
            serial,
        })
        .collect(alloc)
}

/// The routes of a list, one for each path, in the order of paths. Of several of one path the first counts.
pub fn listed_routes(alloc: Global, routes: &[ListedRoute]) -> Result<Vec<ListedRoute>, AllocError>
    ensures { IfOk result (λ listed. Lists routes.now listed.items) }
{
    let table = by_path(alloc, routes)?;
    in_order(alloc, table)
}
