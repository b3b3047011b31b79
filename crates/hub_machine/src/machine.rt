//! The plain machine: its state, and how a change of it is carried out.
ghost use Rattle.std.specs.Prelude.{◌≡◌, ◌<◌, ◌≤◌, ◌^◌};
ghost use Rattle.std.specs.Option.{option_copied};
ghost use Rattle.hub_machine.specs.State.{AreLeased, IsBounded, next_generation};

mod enter;
mod opening;
mod steps;
mod trail;

use hub_kit::target::Target;
use hub_lives::Lives;
use hub_tables::tables::Tables;
use server_life::Pool;
use std::marker::Model;

/// The state of the hub: its rows and live servers, the length and the cost of its history, and what is fixed.
pub struct Machine {
    tables: Tables,
    lives: Lives,
    length: u64,
    cost: u64,
    hub_url: Option<Target>,
    no_trail: bool,
}

impl Drop for Machine {
    fn drop(self) {
        let Machine {
            tables: _,
            lives: _,
            length: _,
            cost: _,
            hub_url: _,
            no_trail: _,
        } = self;
    }
}

impl Model for Machine {
    ghost use Rattle.std.specs.Coded.{codes};
    ghost use Rattle.std.specs.FinMap.{code};
    ghost use Rattle.hub_machine.specs.State.{Hub, IsBounded, KeepsLeases, next_generation, opening_next};
    ghost use Rattle.std.specs.Prelude.{◌≡◌, ◌≤◌, ◌+◌, ◌^◌};

    ghost Value = { Hub };

    ghost coded = { Prim.hlevel (codes, code) };

    ghost view = { λ m. record {
      tables = m.tables;
      lives = m.lives.lives;
      length = m.length;
      cost = m.cost;
      pool = m.lives.pool;
      hub_url = m.hub_url;
      no_trail = m.no_trail;
    } };

    ghost invariant = { λ m. IsBounded
        (record {
          tables = m.tables;
          lives = m.lives.lives;
          length = m.length;
          cost = m.cost;
          pool = m.lives.pool;
          hub_url = m.hub_url;
          no_trail = m.no_trail;
        })
        × (m.lives.next ≡ next_generation m.tables) × KeepsLeases m.tables m.lives.lives
        × (m.lives.next ≤ opening_next m.lives.pool + m.length) };
}

impl Machine {
    /// The rows, with the limits and the custom scopes.
    pub fn tables(&self) -> &Tables
        ensures { result.now ≡ self.now.tables }
    {
        &self.tables
    }

    /// The live servers, with the next generation.
    pub fn lives(&self) -> &Lives
        ensures { result.now ≡ record { pool = self.now.pool; lives = self.now.lives; next = next_generation self.now.tables } }
    {
        &self.lives
    }

    /// That the live servers, the leases that are kept and the next generation are of one piece. It does nothing.
    pub fn are_leased(&self)
        ensures { AreLeased self.now }
    {
        self.lives.are_apart();
    }

    /// That the history is within its bounds. It does nothing.
    fn is_bounded(&self)
        ensures { IsBounded self.now }
    {
        let _length = self.length;
    }

    /// The targets that servers may hold.
    pub fn pool(&self) -> &Pool
        ensures { result.now ≡ self.now.pool }
    {
        self.lives.pool()
    }

    /// The generation of the next start, whose serials 2g and 2g + 1 fit a `u64`.
    pub fn next_generation(&self) -> u64
        ensures value { result ≡ next_generation self.now.tables }
        ensures room { result < 2 ^ 63 }
    {
        self.lives.next_generation()
    }

    /// The length of the history.
    pub fn length(&self) -> u64
        ensures value { result ≡ self.now.length }
        ensures room { result ≤ 2 ^ 62 }
    {
        self.length
    }

    /// The target of the hub itself.
    pub fn hub_url(&self) -> Option<&Target>
        ensures { option_copied result ≡ self.now.hub_url }
    {
        self.hub_url.as_ref()
    }
}
