//! Searches among the rows, which stand in the order of their segments.
ghost use Rattle.std.specs.Prelude.{◌≡◌, ℕ, List, ◌<◌, length, None, IfOk, IfErr, MatchOption};
ghost use Rattle.route_table.specs.Path.{decoded_parts, IsKey, slash_escape};
ghost use Rattle.route_table.specs.Table.{listed, HasNoPrefix, Best};
ghost use Rattle.route_table.specs.Rows.{rows_of, KeysRise, AreKeys};
ghost use Rattle.route_table.specs.Search.{IsTheRow, IsRowAt, IsGapAt, IsListedAt, IsBestPlace};

use crate::path::{compare, last_slash};
use crate::route::Route;
use crate::row::Row;
use std::cmp::Ordering;

/// The row at a place.
pub(crate) fn row_at<'a>(rows: &'a [Box<Row>], at: usize) -> &'a Row
    requires { at < length rows.now }
    ensures { IsTheRow rows.now at result.now }
{
    &rows[at]
}

/// Where the path's row is, or where it would go.
pub(crate) fn search(rows: &[Box<Row>], path: &[u8]) -> Result<usize, usize>
    requires rise { KeysRise rows.now }
    requires keys { AreKeys rows.now }
    requires key { IsKey path.now }
    requires clear { slash_escape path.now ≡ None }
    ensures found { IfOk result (IsRowAt rows.now path.now) }
    ensures absent { IfErr result (IsGapAt rows.now path.now) }
{
    let mut low = 0;
    let mut high = rows.len();
    'halves: while low < high {
        let middle = low + (high - low) / 2;
        let row = row_at(rows, middle);
        match compare(row.key.as_slice(), path) {
            Ordering::Equal => return Ok(middle),
            Ordering::Less => low = middle + 1,
            Ordering::Greater => high = middle,
        }
    }
    Err(low)
}

/// The place of the route that is listed under the path itself.
fn listed_at(rows: &[Box<Row>], path: &[u8]) -> Option<usize>
    requires rise { KeysRise rows.now }
    requires keys { AreKeys rows.now }
    requires key { IsKey path.now }
    requires clear { slash_escape path.now ≡ None }
    ensures { MatchOption result (listed (rows_of rows.now) (decoded_parts path.now) ≡ None)
        (IsListedAt rows.now (decoded_parts path.now)) }
{
    match search(rows, path) {
        Ok(at) => if row_at(rows, at).route.is_some() {
            Some(at)
        } else {
            None
        },
        Err(_) => None,
    }
}

/// The place of the route with the most segments that is a prefix of the path.
pub(crate) fn best(rows: &[Box<Row>], path: &[u8]) -> Option<usize>
    requires rise { KeysRise rows.now }
    requires keys { AreKeys rows.now }
    requires key { IsKey path.now }
    requires clear { slash_escape path.now ≡ None }
    ensures { IsBestPlace rows.now (decoded_parts path.now) result }
{
    let mut end = path.len();
    'prefixes: loop {
        let prefix = &path[..end];
        match listed_at(rows, prefix) {
            Some(at) => return Some(at),
            None => {}
        }
        match last_slash(prefix) {
            Some(at) => end = at,
            None => return None,
        }
    }
}

/// The route with the most segments that is a prefix of the path.
pub(crate) fn best_route<'a>(rows: &'a [Box<Row>], path: &[u8]) -> Option<&'a Route>
    requires rise { KeysRise rows.now }
    requires keys { AreKeys rows.now }
    requires key { IsKey path.now }
    requires clear { slash_escape path.now ≡ None }
    ensures { MatchOption result (HasNoPrefix (rows_of rows.now) (decoded_parts path.now))
        (λ r. (k : List (List ℕ)) × Best (rows_of rows.now) (decoded_parts path.now) k r.now) }
{
    match best(rows, path) {
        Some(at) => match &row_at(rows, at).route {
            Some(route) => Some(route),
            None => None,
        },
        None => None,
    }
}
