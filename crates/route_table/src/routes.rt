//! The routes: a vector in the order of the segments.
ghost use Rattle.std.specs.Prelude.{◌≡◌, ℕ, Some, IfOk, IfErr, OnOk, OnErr, Ok, Err};
ghost use Rattle.std.specs.FinMap.{empty};
ghost use Rattle.std.specs.List.{filter};
ghost use Rattle.route_table.specs.Path.{segments, bad_place};
ghost use Rattle.route_table.specs.Table.{IsFound, IsAnswer, IsDeletion, IsAfterDeletion, add_refusal, added, IsLook, IsLookRefusal};
ghost use Rattle.route_table.specs.Table.{routes_in, is_idle_since};

use crate::lists::list_rows;
use crate::lookup::Lookup;
use crate::lookups::look_in;
use crate::path::{bad_place, trimmed};
use crate::route::{Route, RouteEntry, RouteRefusal};
use crate::row::Row;
use crate::rows::{drop_route, put_route};
use crate::search::best_route;
use hub_kit::list::List;
use hub_kit::moment::Moment;
use hub_kit::target::Target;
use std::alloc::{AllocError, Global};
use std::marker::Model;

/// The table of routes.
pub struct Routes {
    rows: Vec<Box<Row>>,
    limit: u32,
    alloc: Global,
}

impl Drop for Routes {
    fn drop(self) {
        let Routes {
            rows: _,
            limit: _,
            alloc: _,
        } = self;
    }
}

impl Model for Routes {
    ghost use Rattle.std.specs.Coded.{codes};
    ghost use Rattle.std.specs.FinMap.{code};
    ghost use Rattle.route_table.specs.Table.{Table};
    ghost use Rattle.route_table.specs.Rows.{rows_of, AreRows};

    ghost Value = { Table };

    ghost coded = { Prim.hlevel (codes, code) };

    ghost view = { λ a. record { rows = rows_of a.rows.items; limit = a.limit } };

    ghost invariant = { λ a. AreRows a.rows.items };
}

impl Routes {
    /// A table without routes, for so many paths.
    pub fn new(alloc: Global, limit: u32) -> Routes
        ensures rows { result.rows ≡ empty }
        ensures limit { result.limit ≡ limit }
    {
        Routes {
            rows: Vec::new(alloc),
            limit,
            alloc,
        }
    }

    /// The listed route with the most segments that is a prefix of the path.
    pub fn find(&self, path: &[u8]) -> Result<&Route, RouteRefusal>
        ensures ok { IfOk result (λ r. IsFound self.now path.now (Ok r.now)) }
        ensures err { IfErr result (λ e. IsFound self.now path.now (Err e)) }
    {
        match bad_place(path) {
            Some(at) => return Err(RouteRefusal::BadPath(at)),
            None => {}
        }
        match best_route(self.rows.as_slice(), trimmed(path)) {
            Some(route) => Ok(route),
            None => Err(RouteRefusal::NotFound),
        }
    }

    /// Lists a route. An addition may be repeated.
    pub fn add(&mut self, path: &[u8], entry: RouteEntry, now: Moment) -> Result<(), RouteRefusal>
        ensures answer { IsAnswer (add_refusal self.old path.now entry.serial) result }
        ensures ok { OnOk result (self.new ≡ added self.old (segments path.now) entry now) }
        ensures err { OnErr result (self.new ≡ self.old) }
    {
        match bad_place(path) {
            Some(at) => return Err(RouteRefusal::BadPath(at)),
            None => {}
        }
        match put_route(
            self.alloc,
            &mut self.rows,
            self.limit,
            trimmed(path),
            entry,
            now,
        ) {
            Ok(()) => Ok(()),
            Err(refusal) => Err(refusal),
        }
    }

    /// Takes a route out. A deletion with a serial records it, whether the path is listed or not.
    pub fn delete(&mut self, path: &[u8], serial: Option<u64>) -> Result<(), RouteRefusal>
        ensures answer { IsDeletion self.old path.now serial result }
        ensures after { IsAfterDeletion self.old path.now serial self.new result }
    {
        match bad_place(path) {
            Some(at) => return Err(RouteRefusal::BadPath(at)),
            None => {}
        }
        match drop_route(
            self.alloc,
            &mut self.rows,
            self.limit,
            trimmed(path),
            serial,
        ) {
            Ok(true) => Ok(()),
            Ok(false) => Err(RouteRefusal::NotFound),
            Err(refusal) => Err(refusal),
        }
    }

    /// The routes that were last used before a moment, or all, in the order of their segments.
    pub fn list(&self, since: Option<Moment>) -> Result<List<Route>, AllocError>
        ensures { IfOk result (λ routes. routes ≡ filter (is_idle_since since) (routes_in self.now.rows)) }
    {
        let routes = list_rows(self.alloc, self.rows.as_slice(), since)?;
        Ok(routes)
    }

    fn look_up(&mut self, alloc: Global, path: &[u8], now: Moment) -> Result<Target, RouteRefusal>
        ensures bad { (at : ℕ) → bad_place path.now ≡ Some at → result ≡ Err (RouteRefusal.BadPath at) }
        ensures few { IfErr result (λ e. IsLookRefusal path.now e) }
        ensures look { IsLook self.old path.now now result self.new }
    {
        match bad_place(path) {
            Some(at) => return Err(RouteRefusal::BadPath(at)),
            None => {}
        }
        match look_in(alloc, &mut self.rows, trimmed(path), now) {
            Ok(Some(target)) => Ok(target),
            Ok(None) => Err(RouteRefusal::NotFound),
            Err(_) => Err(RouteRefusal::Memory),
        }
    }
}

/// Each answer is that of the table.
impl Lookup for Routes {
    ghost found = { IsLook };

    fn look(&mut self, alloc: Global, path: &[u8], now: Moment) -> Result<Target, RouteRefusal> {
        self.look_up(alloc, path, now)
    }
}
