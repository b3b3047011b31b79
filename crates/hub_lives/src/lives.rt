//! The servers that are live.
ghost use Rattle.std.specs.Prelude.{◌≡◌, ◌≢◌, ◌+◌, ◌-◌, ◌<◌, ◌≤◌, ◌^◌, true, false, Contains, slice_get, Some, None, IfOk, OnOk, OnErr};
ghost use Rattle.std.specs.Prelude.{MatchOption};
ghost use Rattle.server_life.specs.declared.life.Phase.TheVariants.{Stopped};
ghost use Rattle.std.specs.Option.{option_copied};
ghost use Rattle.std.specs.FinMap as map;
ghost use Rattle.std.specs.Ordering.{nat_cmp};
ghost use Rattle.keyed_rows.specs.Rows.{map_of};
ghost use Rattle.std.specs.Map.Iter.{ShowsInOrder, deref};
ghost use Rattle.server_life.specs.LifeTable.{generation_of};
ghost use Rattle.server_life.specs.Pools.{IsPool};
ghost use Rattle.hub_lives.specs.LiveServers.{begins};
ghost use Rattle.hub_lives.specs.Lives as spec;

use hub_kit::names::{ServerKey, UserName};
use hub_kit::target::Target;
use server_life::{
    Leases, Life, LifeEvent, LifeRefusal, Phase, Pool, Todo, entries_owed, life_step,
};
use std::alloc::{AllocError, Global};
use std::collections::BTreeMap;
use std::collections::btree_map::Values;
use std::marker::Model;

/// A live server, the target that it holds, and where it stands.
pub struct Leased {
    pub server: ServerKey,
    pub target: Target,
    pub life: Life,
}

impl Drop for Leased {
    fn drop(self) {
        let Leased {
            server: _,
            target: _,
            life: _,
        } = self;
    }
}

/// The live servers under their generations, with the pool and the next generation. The leases have their look-ups, and the entries that
/// are owed are counted as they change.
pub struct Lives {
    leases: Leases,
    rows: BTreeMap<u64, Leased>,
    still_owed: u64,
}

impl Drop for Lives {
    fn drop(self) {
        let Lives {
            leases: _,
            rows: _,
            still_owed: _,
        } = self;
    }
}

impl Model for Lives {
    ghost use Rattle.std.specs.Prelude.{◌≡◌};
    ghost use Rattle.std.specs.Ordering.{nat_cmp};
    ghost use Rattle.std.specs.Coded.{codes};
    ghost use Rattle.std.specs.FinMap.{code};
    ghost use Rattle.keyed_rows.specs.Rows.{map_of};
    ghost use Rattle.hub_lives.specs.LiveServers.{LiveServers, AreHolders};
    ghost use Rattle.hub_lives.specs.Lives.{owed};

    ghost Value = { LiveServers };

    ghost coded = { Prim.hlevel (codes, code) };

    ghost view = { λ l. record { pool = l.leases.pool; lives = map_of nat_cmp l.rows; next = l.leases.next } };

    ghost invariant = { λ l. AreHolders (map_of nat_cmp l.rows) l.leases × (l.still_owed ≡ owed (map_of nat_cmp l.rows)) };
}

impl Lives {
    /// No live server. It takes the memory of the leases.
    pub fn new(alloc: Global, pool: Pool, next: u64) -> Result<Lives, AllocError>
        requires { 1 ≤ next }
        ensures { IfOk result (λ lives. lives ≡ record { pool = pool; lives = map.empty; next = next }) }
    {
        Ok(Lives {
            leases: Leases::new(alloc, pool, next)?,
            rows: BTreeMap::new(alloc),
            still_owed: 0,
        })
    }

    /// What holds of all live servers. It does nothing.
    pub fn are_apart(&self)
        ensures pool { IsPool self.now.pool }
        ensures above { 1 ≤ self.now.next }
        ensures apart { spec.AreApart self.now.pool self.now.lives self.now.next }
    {
        let _read = self.leases.next_free();
        let _pool = self.leases.pool().as_slice();
    }

    /// The targets that servers may hold.
    pub fn pool(&self) -> &Pool
        ensures { result.now ≡ self.now.pool }
    {
        self.leases.pool()
    }

    /// The generation that the next start has.
    pub fn next_generation(&self) -> u64
        ensures { result ≡ self.now.next }
    {
        self.leases.next()
    }

    /// How many servers are live.
    pub fn len(&self) -> u64
        ensures { result ≡ map.len self.now.lives }
    {
        self.rows.len() as u64
    }

    /// The live servers, in the order of their generations.
    pub fn leases(&self) -> Values<'_, u64, Leased>
        ensures rows { result ≡ map.values self.now.lives }
        ensures runs { ShowsInOrder (deref {X = Leased}) }
    {
        self.rows.values()
    }

    /// The live server of a generation.
    pub fn get(&self, generation: u64) -> Option<&Leased>
        ensures { option_copied result ≡ map.get self.now.lives generation }
    {
        keyed_rows::row_at(&self.rows, &generation)
    }

    /// The generation and the lease of a server.
    pub fn lease_of(&self, key: &ServerKey) -> Option<(u64, &Leased)>
        ensures { MatchOption result (spec.lease_of self.now.lives key.now ≡ None)
            (λ r. spec.lease_of self.now.lives key.now ≡ Some (r.0, r.1.now)) }
    {
        // it tells that a server has one lease
        let _read = self.leases.next_free();
        let generation = match self.leases.generation(key) {
            Some(generation) => generation,
            None => return None,
        };
        match self.get(generation) {
            Some(lease) => Some((generation, lease)),
            None => None,
        }
    }

    /// Where a server stands.
    pub fn life_of(&self, key: &ServerKey) -> Life
        ensures { result ≡ spec.life_of self.now.lives key.now }
    {
        match self.lease_of(key) {
            Some((_, lease)) => lease.life,
            None => Life {
                phase: Phase::Stopped,
                stop_asked: false,
            },
        }
    }

    /// Whether a server of a user is live.
    pub fn has_live_server(&self, user: &UserName) -> bool
        ensures { result ≡ spec.has_live_server self.now.lives user.now }
    {
        self.leases.has_lease(user)
    }

    /// The free target of least index.
    pub fn free_target(&self) -> Option<&Target>
        ensures { option_copied result ≡ spec.free_target self.now.pool self.now.lives }
    {
        match self.leases.next_free() {
            Ok((_, place)) => Some(&self.leases.pool().as_slice()[place]),
            Err(_) => None,
        }
    }

    /// What an event makes of the life of a generation, and the call that is then owed. Takes no memory.
    pub fn step_at(&self, generation: u64, event: LifeEvent) -> Result<(Life, Todo), LifeRefusal>
        ensures { result ≡ spec.step_at self.now.lives generation event }
    {
        match self.get(generation) {
            Some(lease) => life_step(lease.life, generation, event),
            None => Err(LifeRefusal::OldGeneration(generation)),
        }
    }

    /// How many entries are still owed.
    pub fn owed(&self) -> u64
        ensures { result ≡ spec.owed self.now.lives }
    {
        self.still_owed
    }

    /// How many are owed by a generation.
    fn owed_by(&self, generation: u64) -> u64
        ensures { result ≡ spec.owed_by (map.get self.now.lives generation) }
    {
        match self.get(generation) {
            Some(lease) => entries_owed(lease.life.phase),
            None => 0,
        }
    }

    /// How many would be owed, were the life of this generation in this phase.
    pub fn owed_with(&self, generation: u64, phase: Phase) -> u128
        ensures live { (l : Leased) → l.life.phase ≡ phase → result ≡ spec.owed (map.insert self.now.lives generation l) }
        ensures over { phase ≡ Stopped → result ≡ spec.owed (map.remove self.now.lives generation) }
    {
        let before = self.owed_by(generation);
        (self.still_owed - before) as u128 + entries_owed(phase) as u128
    }

    /// Leases the free target of least index to a server for the next generation, which is being started. Where memory is wanting, all is
    /// as it was.
    pub fn begin(&mut self, alloc: Global, server: &ServerKey) -> Result<(), AllocError>
        requires free { spec.free_target self.old.pool self.old.lives ≢ None }
        requires rests { spec.lease_of self.old.lives server.now ≡ None }
        requires next { self.old.next < 2 ^ 63 }
        requires room { spec.owed self.old.lives < 2 ^ 63 }
        ensures ok { OnOk result (self.new ≡ begins server.now self.old) }
        ensures err { OnErr result (self.new ≡ self.old) }
    {
        let Ok((generation, place)) = self.leases.next_free() else {
            unreachable!()
        };
        let target = self.leases.pool().as_slice()[place].copy(alloc)?;
        let phase = Phase::Spawning(generation);
        let life = Life {
            phase,
            stop_asked: false,
        };
        let lease = Leased {
            server: *server,
            target,
            life,
        };
        keyed_rows::insert_row(&mut self.rows, generation, lease)?;
        self.leases.take(*server);
        self.still_owed += entries_owed(phase);
        Ok(())
    }

    /// Leases a target of the pool to a server for a generation that was given out before, and whose program may still run. Where memory is
    /// wanting, all is as it was.
    pub fn adopt(
        &mut self,
        alloc: Global,
        server: &ServerKey,
        target: &Target,
        generation: u64,
    ) -> Result<(), AllocError>
        requires pooled { Contains self.old.pool target.now }
        requires free { spec.is_leased self.old.lives target.now ≡ false }
        requires rests { spec.lease_of self.old.lives server.now ≡ None }
        requires fresh { map.get self.old.lives generation ≡ None }
        requires below { generation < self.old.next }
        requires room { spec.owed self.old.lives < 2 ^ 63 }
        ensures ok { OnOk result (self.new ≡ record self.old
            { lives = map.insert self.old.lives generation (spec.adopted_by server.now target.now generation) }) }
        ensures err { OnErr result (self.new ≡ self.old) }
    {
        // it tells that a server has one lease
        let _read = self.leases.next_free();
        let Some(place) = place_of(self.leases.pool().as_slice(), target) else {
            unreachable!()
        };
        let lease = Leased {
            server: *server,
            target: target.copy(alloc)?,
            life: Life {
                phase: Phase::Adopting(generation),
                stop_asked: false,
            },
        };
        keyed_rows::insert_row(&mut self.rows, generation, lease)?;
        self.leases.hold(place, generation, *server);
        self.still_owed += entries_owed(Phase::Adopting(generation));
        Ok(())
    }

    /// Takes the last start back, as if it hadn't been.
    pub fn take_back(&mut self)
        requires last { map.contains_key self.old.lives (self.old.next - 1) ≡ true }
        requires above { 2 ≤ self.old.next }
        ensures { self.new ≡ record {
          pool = self.old.pool;
          lives = map.remove self.old.lives (self.old.next - 1);
          next = self.old.next -
              1;
        } }
    {
        // it tells that a generation has one lease
        let _read = self.leases.next_free();
        let generation = self.leases.next() - 1;
        let Some((place, _)) = self.leases.held(generation) else {
            return;
        };
        let owed = self.owed_by(generation);
        let _there = keyed_rows::remove_row(&mut self.rows, &generation);
        self.leases.take_back(place, generation);
        self.still_owed -= owed;
    }

    /// Sets the life of a live generation, which isn't over. Takes no memory.
    pub fn set_life(&mut self, generation: u64, life: Life)
        requires live { map.contains_key self.old.lives generation ≡ true }
        requires same { generation_of life.phase ≡ Some generation }
        requires room { spec.owed self.old.lives < 2 ^ 63 }
        ensures { (l : Leased) → map.get self.old.lives generation ≡ Some l
            → self.new ≡ record self.old { lives = map.insert self.old.lives generation (record l { life = life }) } }
    {
        let owed = self.owed_by(generation);
        write_life(&mut self.rows, generation, life);
        self.still_owed = self.still_owed - owed + entries_owed(life.phase);
    }

    /// Ends the lease of a generation. Takes no memory.
    pub fn end(&mut self, generation: u64)
        ensures { self.new ≡ record self.old { lives = map.remove self.old.lives generation } }
    {
        // it tells that a generation has one lease
        let _read = self.leases.next_free();
        let owed = self.owed_by(generation);
        let _there = keyed_rows::remove_row(&mut self.rows, &generation);
        let _freed = self.leases.free(generation);
        self.still_owed -= owed;
    }
}

/// Writes the life of a row, if it is kept. Takes no memory.
fn write_life(rows: &mut BTreeMap<u64, Leased>, generation: u64, life: Life)
    ensures { (l : Leased) → map.get (map_of nat_cmp rows.old) generation ≡ Some l
        → map_of nat_cmp rows.new ≡ map.insert (map_of nat_cmp rows.old) generation (record l { life = life }) }
{
    match rows.get_mut(&generation) {
        Some(lease) => lease.life = life,
        None => {}
    }
}

/// The place of a target in the pool, if it is there.
fn place_of(pool: &[Target], target: &Target) -> Option<usize>
    ensures { MatchOption result (Contains pool.now target.now → ⊥) (λ place. slice_get pool.now place ≡ Some target.now) }
{
    for place in 0..pool.len() {
        if pool[place] == *target {
            return Some(place);
        }
    }
    None
}
