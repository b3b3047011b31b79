//! Lists of the routes.
ghost use Rattle.std.specs.Prelude.{◌≡◌, ◌++◌, option_to_list, IfOk, OnOk};
ghost use Rattle.std.specs.List.{filter};
ghost use Rattle.route_table.specs.Table.{routes_in, is_idle_since};
ghost use Rattle.route_table.specs.Rows.{rows_of, KeysRise, idle_in};

use crate::route::Route;
use crate::row::Row;
use hub_kit::list::List;
use hub_kit::moment::Moment;
use std::alloc::{AllocError, Global};

/// Adds a copy of the row's route, if it has one that was last used before the moment.
fn push_idle(
    alloc: Global,
    found: &mut Vec<Route>,
    row: &Box<Row>,
    since: &Option<Moment>,
) -> Result<(), AllocError>
    ensures { OnOk result (found.new.items ≡ found.old.items ++ filter (is_idle_since since.now) (option_to_list row.now.value.route)) }
{
    let Some(route) = &row.route else {
        return Ok(());
    };
    if !route.is_idle_since(since) {
        return Ok(());
    }
    let copy = route.copy(alloc)?;
    found.push(copy)?;
    Ok(())
}

fn idle_routes(
    alloc: Global,
    rows: &[Box<Row>],
    since: &Option<Moment>,
) -> Result<Vec<Route>, AllocError>
    ensures { IfOk result (λ found. found.items ≡ idle_in since.now rows.now) }
{
    let mut found = Vec::new(alloc);
    'copies: for row in rows {
        push_idle(alloc, &mut found, row, since)?;
    }
    Ok(found)
}

/// Copies of the routes that were last used before a moment, or of all, in the order of their segments.
pub(crate) fn list_rows(
    alloc: Global,
    rows: &[Box<Row>],
    since: Option<Moment>,
) -> Result<List<Route>, AllocError>
    requires { KeysRise rows.now }
    ensures { IfOk result (λ routes. routes ≡ filter (is_idle_since since) (routes_in (rows_of rows.now))) }
{
    let found = idle_routes(alloc, rows, &since)?;
    Ok(List::from_vec(found))
}
