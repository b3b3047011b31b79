//! The tables: all rows of the hub, its limits and its custom scopes.
//! A put of a kind with a limit takes the number of rows of the kind that the same change removes afterwards, and is refused as full where
//! the others have reached the limit. Without that number the limit doesn't hold: for a row that was kept and goes back, or is loaded, and
//! for changes whose rules tested the limits.
ghost use Rattle.std.specs.Prelude.{◌≡◌};
ghost use Rattle.std.specs.FinMap as map;
ghost use Rattle.hub_tables.specs.Own.{AreOwn};
ghost use Rattle.hub_tables.specs.Rooms.{room_of};

mod grants;
mod members;
mod people;
mod servers;
mod tokens;

use crate::trees::Trees;
use hub_rows::limits::Limits;
use keyed_rows::Room;
use scope_names::table::ScopeTable;
use std::alloc::Global;
use std::marker::Model;

/// The rows of each kind, which contracts see as the record of their finite maps.
pub struct Tables {
    trees: Trees,
    limits: Limits,
    scopes: ScopeTable,
    alloc: Global,
}

impl Drop for Tables {
    fn drop(self) {
        let Tables {
            trees: _,
            limits: _,
            scopes: _,
            alloc: _,
        } = self;
    }
}

impl Model for Tables {
    ghost use Rattle.std.specs.Coded.{codes};
    ghost use Rattle.std.specs.FinMap.{code};
    ghost use Rattle.hub_tables.specs.State.{State};
    ghost use Rattle.hub_tables.specs.Kept.{state_of, Kind, IsKept};

    ghost Value = { State };

    ghost coded = { Prim.hlevel (codes, code) };

    ghost view = { λ a. state_of a.trees a.limits a.scopes };

    ghost invariant = { λ a. (kind : Kind) → IsKept a.trees kind };
}

impl Tables {
    /// Tables with no rows, which take no memory.
    pub fn new(alloc: Global, limits: Limits, scopes: ScopeTable) -> Tables
        ensures { result ≡ record {
          users = map.empty;
          groups = map.empty;
          services = map.empty;
          roles = map.empty;
          tokens = map.empty;
          servers = map.empty;
          leases = map.empty;
          shares = map.empty;
          codes = map.empty;
          clients = map.empty;
          grant_codes = map.empty;
          nexts = map.empty;
          limits = limits;
          scopes = scopes;
        } }
    {
        Tables {
            trees: Trees::new(alloc),
            limits,
            scopes,
            alloc,
        }
    }

    /// Each row stands under its own key.
    pub fn own_keys(&self)
        ensures { AreOwn self.now }
    {
        let _read: Limits = self.limits;
    }

    pub fn limits(&self) -> Limits
        ensures { result ≡ self.now.limits }
    {
        self.limits
    }

    /// The custom scopes of the hub.
    pub fn scope_table(&self) -> &ScopeTable
        ensures { result.now ≡ self.now.scopes }
    {
        &self.scopes
    }
}

/// The room for rows of a kind. Without a number of rows that leave it has no limit.
fn room_of(kind: u8, limit: u32, leaving: Option<u32>) -> Option<Room>
    ensures { result ≡ room_of kind limit leaving }
{
    match leaving {
        Some(leaving) => Some(Room {
            kind,
            limit,
            leaving,
        }),
        None => None,
    }
}
