//! The leases of targets: which generation holds which target, for which server.

ghost use Rattle.std.specs.Prelude.{◌≡◌, ◌≢◌, ℕ, ◌+◌, ◌-◌, ◌<◌, ◌≤◌, ◌^◌, length, slice_get, slice_set, All, IfOk, MatchOption};
ghost use Rattle.std.specs.Prelude.{MatchResult, MatchBool, replicate, Some, None};
ghost use Rattle.hub_kit.specs.declared.names.ServerKey.{ServerKey};
ghost use Rattle.server_life.specs.LeaseTable.{IsOneToOne};
ghost use Rattle.server_life.specs.LeaseIndex.{server_of};
ghost use Rattle.server_life.specs.Leased.{IsFree, IsFirstFree, IsNotLive, IsUnleased, HoldsLease};

use crate::by_server::{add_server, has_user, place_of, remove_server};
use crate::ordered::{get, put, remove};
use crate::pool::Pool;
use hub_kit::names::{ServerKey, UserName};
use std::alloc::{AllocError, Global};
use std::marker::Model;

/// A live generation and its server. Its place is that of its target in the pool.
pub struct Held {
    pub generation: u64,
    pub server: ServerKey,
}

impl Drop for Held {
    fn drop(self) {
        let Held {
            generation: _,
            server: _,
        } = self;
    }
}

/// The pool, the lease of each of its targets, the next generation, and the look-ups: the free places in order, the place of
/// each live generation, and the places of the leased servers in the order of the servers' keys.
pub struct Leases {
    pool: Pool,
    leased: Vec<Option<Held>>,
    next: u64,
    free: Vec<(usize, ())>,
    generations: Vec<(u64, usize)>,
    servers: Vec<usize>,
}

impl Drop for Leases {
    fn drop(self) {
        let Leases {
            pool: _,
            leased: _,
            next: _,
            free: _,
            generations: _,
            servers: _,
        } = self;
    }
}

/// All targets are leased.
#[derive(Clone, Copy, PartialEq, Eq)]
pub struct NoTarget {
    pub live: u32,
    pub pool: u32,
}

impl Model for Leases {
    ghost use Rattle.server_life.specs.LeaseTable.{LeaseTable};

    ghost Value = { LeaseTable };

    ghost use Rattle.std.specs.Prelude.{length, ◌≤◌};
    ghost use Rattle.std.specs.Vec.{vec_capacity};
    ghost use Rattle.server_life.specs.LeaseIndex.{HasLookUps};

    ghost view = { λ a. record { pool = a.pool; leased = a.leased.items; next = a.next } };

    ghost invariant = { λ a. HasLookUps (record { pool = a.pool; leased = a.leased.items; next = a.next }) a.free.items a.generations.items
        a.servers.items
        × (length a.pool ≤ vec_capacity a.free) × (length a.pool ≤ vec_capacity a.generations) × (length a.pool ≤ vec_capacity a.servers) };
}

impl Leases {
    /// A pool of which nothing is leased. It takes all the memory that the leases ever need.
    pub fn new(alloc: Global, pool: Pool, next: u64) -> Result<Leases, AllocError>
        requires above { 1 ≤ next }
        ensures { IfOk result (λ l. l ≡ record { pool = pool; leased = replicate (length pool) None; next = next }) }
    {
        let size = pool.as_slice().len();
        let mut leased = Vec::new(alloc);
        let mut free = Vec::with_capacity(alloc, size)?;
        for place in 0..size {
            leased.push(None)?;
            put(&mut free, &place, ());
        }
        let generations = Vec::with_capacity(alloc, size)?;
        let servers = Vec::with_capacity(alloc, size)?;
        Ok(Leases {
            pool,
            leased,
            next,
            free,
            generations,
            servers,
        })
    }

    /// The targets.
    pub fn pool(&self) -> &Pool
        ensures { result.now ≡ self.now.pool }
    {
        &self.pool
    }

    /// The next generation.
    pub fn next(&self) -> u64
        ensures { result ≡ self.now.next }
    {
        self.next
    }

    /// The next generation, and the place of the free target of least index.
    pub fn next_free(&self) -> Result<(u64, usize), NoTarget>
        ensures answer { MatchResult result
            (λ r. (r.0 ≡ self.now.next) × IsFirstFree self.now.leased r.1)
            (λ e. All (λ o. o ≢ None) self.now.leased × (e ≡ record { live = length self.now.pool; pool = length self.now.pool })) }

        // At every moment live generations, leased targets and servers are in one-to-one relation, and each generation is
        // below the next one.
        ensures one_to_one { IsOneToOne self.now }
    {
        if self.free.is_empty() {
            let n = self.pool.as_slice().len() as u32;
            return Err(NoTarget { live: n, pool: n });
        }
        Ok((self.next, self.free[0].0))
    }

    /// Leases what `next_free` gives.
    pub fn take(&mut self, key: ServerKey)
        requires room { (i : ℕ) × IsFree self.old.leased i }
        requires unleased { IsUnleased self.old.leased key }
        requires next { self.old.next < 2 ^ 64 - 1 }
        ensures { (i : ℕ) × IsFirstFree self.old.leased i
            × (self.new ≡ record {
              pool = self.old.pool;
              leased = slice_set self.old.leased i
                  (Some (record { generation = self.old.next; server = key }));
              next = self.old.next + 1;
            }) }
    {
        let at = self.free[0].0;
        let generation = self.next;
        self.next = generation + 1;
        self.hold(at, generation, key);
    }

    /// Leases the target at a place of the pool.
    pub fn hold(&mut self, at: usize, g: u64, key: ServerKey)
        requires free { IsFree self.old.leased at }
        requires below { g < self.old.next }
        requires not_live { IsNotLive self.old.leased g }
        requires unleased { IsUnleased self.old.leased key }
        ensures { self.new ≡ record {
          pool = self.old.pool;
          leased = slice_set self.old.leased at
              (Some (record { generation = g; server = key }));
          next = self.old.next;
        } }
    {
        remove(&mut self.free, &at);
        put(&mut self.generations, &g, at);
        add_server(self.leased.as_slice(), &mut self.servers, &key, at);
        self.leased[at] = Some(Held {
            generation: g,
            server: key,
        });
    }

    /// The place of a live generation's target, and its server.
    pub fn held(&self, g: u64) -> Option<(usize, &ServerKey)>
        ensures { MatchOption result (IsNotLive self.now.leased g) (λ r. HoldsLease self.now.leased r.0 g r.1.now) }
    {
        let Some(at) = get(self.generations.as_slice(), &g) else {
            return None;
        };
        match &self.leased[at] {
            Some(held) => Some((at, &held.server)),
            None => None,
        }
    }

    /// The generation of a leased server.
    pub fn generation(&self, key: &ServerKey) -> Option<u64>
        ensures { MatchOption result (IsUnleased self.now.leased key.now) (λ g. (i : ℕ) × HoldsLease self.now.leased i g key.now) }
    {
        let at = match place_of(self.leased.as_slice(), self.servers.as_slice(), key) {
            Some(at) => at,
            None => return None,
        };
        match &self.leased[at] {
            Some(held) => Some(held.generation),
            None => None,
        }
    }

    /// Whether a server of a user has a lease.
    pub fn has_lease(&self, user: &UserName) -> bool
        ensures { MatchBool result
            ((i g : ℕ) × (key : ServerKey) × HoldsLease self.now.leased i g key × (key.user ≡ user.now))
            ((i g : ℕ) (key : ServerKey) → HoldsLease self.now.leased i g key → key.user ≢ user.now) }
    {
        has_user(self.leased.as_slice(), self.servers.as_slice(), user)
    }

    /// Takes back the last lease, as if it hadn't been taken. Takes no memory.
    pub fn take_back(&mut self, _at: usize, g: u64)
        requires live { (key : ServerKey) × HoldsLease self.old.leased _at g key }
        requires last { g + 1 ≡ self.old.next }
        requires above { 1 ≤ g }
        ensures { self.new ≡ record { pool = self.old.pool; leased = slice_set self.old.leased _at None; next = g } }
    {
        // it tells that a generation has one lease
        let _next = self.next_free();
        let _ended = self.free(g);
        self.next = g;
    }

    /// Ends the lease of a generation, and says whether there was one.
    pub fn free(&mut self, g: u64) -> bool
        ensures { MatchBool result
            ((i : ℕ) × (key : ServerKey) × HoldsLease self.old.leased i g key
            × (self.new ≡ record { pool = self.old.pool; leased = slice_set self.old.leased i None; next = self.old.next }))
            (IsNotLive self.old.leased g × (self.new ≡ self.old)) }
    {
        let Some(at) = get(self.generations.as_slice(), &g) else {
            return false;
        };
        let Some(key) = server_at(self.leased.as_slice(), at) else {
            return false;
        };
        remove(&mut self.generations, &g);
        remove_server(self.leased.as_slice(), &mut self.servers, &key);
        self.leased[at] = None;
        put(&mut self.free, &at, ());
        true
    }
}

/// The server that holds the target at a place.
fn server_at(leased: &[Option<Held>], place: usize) -> Option<ServerKey>
    ensures { result ≡ server_of (slice_get leased.now place) }
{
    match leased.get(place) {
        Some(Some(held)) => Some(held.server),
        _ => None,
    }
}
