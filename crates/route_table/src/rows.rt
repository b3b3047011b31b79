//! Changes of the rows.
ghost use Rattle.std.specs.Prelude.{◌≡◌, Option, IfOk, OnOk, OnErr, Some, None, Err, is_some, true, nat_lt};
ghost use Rattle.std.specs.FinMap.{get, insert, remove};
ghost use Rattle.route_table.specs.Path.{parts, decoded_parts, IsKey, slash_escape};
ghost use Rattle.route_table.specs.Table.{IsAnswer, drop_refusal, without, listed, without_route, put_refusal, with_route, new_route};
ghost use Rattle.route_table.specs.Rows.{rows_of, AreRows};
ghost use Rattle.route_table.specs.declared.route.Route.{Route};
ghost use Rattle.route_table.specs.Search.{IsRowAt, IsGapAt};

use crate::path::{decoded, listed_text};
use crate::route::{Route, RouteEntry, RouteRefusal};
use crate::row::Row;
use crate::search::{row_at, search};
use crate::serials::{seen_after, stale_addition, stale_deletion};
use hub_kit::bytes::Bytes;
use hub_kit::moment::Moment;
use std::alloc::{AllocError, Global};

/// The route of a decoded path.
fn route_of(alloc: Global, key: &Bytes, entry: RouteEntry, now: Moment) -> Result<Route, AllocError>
    requires { IsKey key.now }
    ensures { IfOk result (λ route. route ≡ new_route (parts key.now) entry now) }
{
    let path = listed_text(alloc, key.as_slice())?;
    Ok(Route {
        path,
        entry,
        last_activity: now,
    })
}

/// The greatest serial seen for the path, whose row is there.
fn seen_at(rows: &Vec<Box<Row>>, at: usize, path: &[u8]) -> Option<u64>
    requires rows { AreRows rows.now.items }
    requires at { IsRowAt rows.now.items path.now at }
    ensures { (route : Option Route)
        × (get (rows_of rows.now.items) (decoded_parts path.now) ≡ Some (record { route = route; seen = result })) }
{
    let _ = path;
    row_at(rows.as_slice(), at).seen
}

/// Whether a route is listed under the path, whose row is there.
fn is_listed_at(rows: &Vec<Box<Row>>, at: usize, path: &[u8]) -> bool
    requires rows { AreRows rows.now.items }
    requires at { IsRowAt rows.now.items path.now at }
    ensures { result ≡ is_some (listed (rows_of rows.now.items) (decoded_parts path.now)) }
{
    let _ = path;
    row_at(rows.as_slice(), at).route.is_some()
}

fn write_row(row: &mut Box<Row>, route: Option<Route>, seen: Option<u64>)
    ensures { row.new.value ≡ record row.old.value { route = route; seen = seen } }
{
    row.route = route;
    row.seen = seen;
}

/// Puts a route and a serial into the path's row, which is there.
fn change_row(
    rows: &mut Vec<Box<Row>>,
    at: usize,
    path: &[u8],
    route: Option<Route>,
    seen: Option<u64>,
)
    requires rows { AreRows rows.old.items }
    requires at { IsRowAt rows.old.items path.now at }
    ensures rows { AreRows rows.new.items }
    ensures changed { rows_of rows.new.items ≡ insert (rows_of rows.old.items) (decoded_parts path.now)
        (record { route = route; seen = seen }) }
{
    let _ = path;
    let row = &mut rows[at];
    write_row(row, route, seen);
}

/// Puts a new route into the path's row, which is there.
fn replace_route(
    alloc: Global,
    rows: &mut Vec<Box<Row>>,
    at: usize,
    path: &[u8],
    entry: RouteEntry,
    now: Moment,
    seen: Option<u64>,
) -> Result<(), AllocError>
    requires rows { AreRows rows.old.items }
    requires at { IsRowAt rows.old.items path.now at }
    ensures rows { AreRows rows.new.items }
    ensures ok { OnOk result (rows_of rows.new.items ≡ insert (rows_of rows.old.items) (decoded_parts path.now)
        (record { route = Some (new_route (decoded_parts path.now) entry now); seen = seen })) }
    ensures err { OnErr result (rows.new.items ≡ rows.old.items) }
{
    let row = row_at(rows.as_slice(), at);
    let route = route_of(alloc, &row.key, entry, now)?;
    change_row(rows, at, path, Some(route), seen);
    Ok(())
}

/// Adds a row for the path, which has none.
fn add_row(
    alloc: Global,
    rows: &mut Vec<Box<Row>>,
    at: usize,
    path: &[u8],
    key: Bytes,
    route: Option<Route>,
    seen: Option<u64>,
) -> Result<(), AllocError>
    requires rows { AreRows rows.old.items }
    requires at { IsGapAt rows.old.items path.now at }
    requires key { IsKey key }
    requires parts { parts key ≡ decoded_parts path.now }
    ensures rows { AreRows rows.new.items }
    ensures ok { OnOk result (rows_of rows.new.items ≡ insert (rows_of rows.old.items) (decoded_parts path.now)
        (record { route = route; seen = seen })) }
    ensures err { OnErr result (rows.new.items ≡ rows.old.items) }
{
    let _ = path;
    let row = Box::new(alloc, Row { key, route, seen })?;
    rows.insert(at, row)?;
    Ok(())
}

/// Adds a row with a route for the path, which has none.
fn add_route(
    alloc: Global,
    rows: &mut Vec<Box<Row>>,
    at: usize,
    path: &[u8],
    entry: RouteEntry,
    now: Moment,
) -> Result<(), AllocError>
    requires rows { AreRows rows.old.items }
    requires at { IsGapAt rows.old.items path.now at }
    requires key { IsKey path.now }
    requires clear { slash_escape path.now ≡ None }
    ensures rows { AreRows rows.new.items }
    ensures ok { OnOk result (rows_of rows.new.items ≡ insert (rows_of rows.old.items) (decoded_parts path.now)
        (record { route = Some (new_route (decoded_parts path.now) entry now); seen = entry.serial })) }
    ensures err { OnErr result (rows.new.items ≡ rows.old.items) }
{
    let key = decoded(alloc, path)?;
    let seen = entry.serial;
    let route = route_of(alloc, &key, entry, now)?;
    add_row(alloc, rows, at, path, key, Some(route), seen)?;
    Ok(())
}

/// Adds a row with a serial alone for the path, which has none.
fn add_serial(
    alloc: Global,
    rows: &mut Vec<Box<Row>>,
    at: usize,
    path: &[u8],
    serial: u64,
) -> Result<(), AllocError>
    requires rows { AreRows rows.old.items }
    requires at { IsGapAt rows.old.items path.now at }
    requires key { IsKey path.now }
    requires clear { slash_escape path.now ≡ None }
    ensures rows { AreRows rows.new.items }
    ensures ok { OnOk result (rows_of rows.new.items ≡ insert (rows_of rows.old.items) (decoded_parts path.now)
        (record { route = None; seen = Some serial })) }
    ensures err { OnErr result (rows.new.items ≡ rows.old.items) }
{
    let key = decoded(alloc, path)?;
    add_row(alloc, rows, at, path, key, None, Some(serial))?;
    Ok(())
}

/// Lists a route under the path, unless its serial is stale or the table is full.
pub(crate) fn put_route(
    alloc: Global,
    rows: &mut Vec<Box<Row>>,
    limit: u32,
    path: &[u8],
    entry: RouteEntry,
    now: Moment,
) -> Result<(), RouteRefusal>
    requires rows { AreRows rows.old.items }
    requires key { IsKey path.now }
    requires clear { slash_escape path.now ≡ None }
    ensures rows { AreRows rows.new.items }
    ensures answer { IsAnswer (put_refusal nat_lt limit (rows_of rows.old.items) (decoded_parts path.now) entry.serial) result }
    ensures ok { OnOk result (rows_of rows.new.items ≡ with_route (rows_of rows.old.items) (decoded_parts path.now) entry now) }
    ensures err { OnErr result (rows.new.items ≡ rows.old.items) }
{
    let serial = entry.serial;
    match search(rows.as_slice(), path) {
        Ok(at) => {
            let seen = seen_at(rows, at, path);
            match stale_addition(serial, seen) {
                Some(refusal) => Err(refusal),
                None => match replace_route(
                    alloc,
                    rows,
                    at,
                    path,
                    entry,
                    now,
                    seen_after(serial, seen),
                ) {
                    Ok(()) => Ok(()),
                    Err(_) => Err(RouteRefusal::Memory),
                },
            }
        }
        Err(at) => {
            if rows.len() >= limit as usize {
                return Err(RouteRefusal::Full(limit));
            }
            match add_route(alloc, rows, at, path, entry, now) {
                Ok(()) => Ok(()),
                Err(_) => Err(RouteRefusal::Memory),
            }
        }
    }
}

/// Takes out the row at the place.
fn remove_row(rows: &mut Vec<Box<Row>>, at: usize, path: &[u8])
    requires rows { AreRows rows.old.items }
    requires at { IsRowAt rows.old.items path.now at }
    ensures rows { AreRows rows.new.items }
    ensures changed { rows_of rows.new.items ≡ remove (rows_of rows.old.items) (decoded_parts path.now) }
{
    let _ = path;
    let _gone = rows.remove(at);
}

/// Leaves the path without a route, and with the greatest serial seen, if there is one. It tells whether a route was listed.
fn clear_route(rows: &mut Vec<Box<Row>>, at: usize, path: &[u8], seen: Option<u64>) -> bool
    requires rows { AreRows rows.old.items }
    requires at { IsRowAt rows.old.items path.now at }
    ensures rows { AreRows rows.new.items }
    ensures listed { result ≡ is_some (listed (rows_of rows.old.items) (decoded_parts path.now)) }
    ensures changed { rows_of rows.new.items ≡ without_route (rows_of rows.old.items) (decoded_parts path.now) seen }
{
    let was_listed = is_listed_at(rows, at, path);
    match seen {
        Some(_) => change_row(rows, at, path, None, seen),
        None => remove_row(rows, at, path),
    }
    was_listed
}

/// Takes the path's route out and records the serial, unless it is stale or the table is full. It tells whether a route was listed.
pub(crate) fn drop_route(
    alloc: Global,
    rows: &mut Vec<Box<Row>>,
    limit: u32,
    path: &[u8],
    serial: Option<u64>,
) -> Result<bool, RouteRefusal>
    requires rows { AreRows rows.old.items }
    requires key { IsKey path.now }
    requires clear { slash_escape path.now ≡ None }
    ensures rows { AreRows rows.new.items }
    ensures answer { IsAnswer (drop_refusal limit (rows_of rows.old.items) (decoded_parts path.now) serial) result }
    ensures listed { IfOk result (λ was. was ≡ is_some (listed (rows_of rows.old.items) (decoded_parts path.now))) }
    ensures wanting { result ≡ Err RouteRefusal.Memory → (get (rows_of rows.old.items) (decoded_parts path.now) ≡ None)
        × (is_some serial ≡ true) }
    ensures ok { OnOk result (rows_of rows.new.items ≡ without (rows_of rows.old.items) (decoded_parts path.now) serial) }
    ensures err { OnErr result (rows.new.items ≡ rows.old.items) }
{
    match search(rows.as_slice(), path) {
        Ok(at) => {
            let seen = seen_at(rows, at, path);
            match stale_deletion(serial, seen) {
                Some(refusal) => Err(refusal),
                None => Ok(clear_route(rows, at, path, seen_after(serial, seen))),
            }
        }
        Err(at) => match serial {
            None => Ok(false),
            Some(given) => {
                if rows.len() >= limit as usize {
                    return Err(RouteRefusal::Full(limit));
                }
                match add_serial(alloc, rows, at, path, given) {
                    Ok(()) => Ok(false),
                    Err(_) => Err(RouteRefusal::Memory),
                }
            }
        },
    }
}
