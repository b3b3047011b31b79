//! Grants of tokens that were resolved before.
ghost use Rattle.std.specs.Prelude.{◌≡◌, ◌≤◌, Some, None, is_some, nat_eq, ◌↔◌, IfOk, OnOk, OnErr, IsSomeAnd, IsTrue};
ghost use Rattle.std.specs.Option.{option_copied};
ghost use Rattle.std.specs.Borrow.{sem};
ghost use Rattle.scope_filters.specs.Grants.{Rights};
ghost use Rattle.scope_names.specs.declared.action.Action.{Action};
ghost use Rattle.scope_meet.specs.Named.{AdmitsSomething};
ghost use Rattle.roles.specs.Rights.{context, IsAllowed, Holds, IsGrantOf};
ghost use Rattle.roles.specs.Looks.{IsLooked, IsAfter, IsAfterMiss, IsApart, IsRight, IsRightSince, IsBrought};
ghost use Rattle.roles.specs.Looks.{found, after_hit, no_entries, kept_now};
ghost use Rattle.roles.specs.Looks as spec;
ghost use Rattle.std.specs.Map.{lookup};
ghost use Rattle.lru.specs.LruCache.{lru_cache, put_entries};
ghost use Rattle.roles.specs.declared.cache.KeptGrant.{KeptGrant};

use crate::grants::caller_grant;
use hub_rows::records::Token;
use hub_tables::tables::Tables;
use lru::LruCache;
use scope_filters::grant::Grant;
use std::alloc::{AllocError, Global};
use std::marker::Model;
use std::num::NonZeroUsize;

/// A grant, and the stamp of the rights of which it was resolved.
pub struct KeptGrant {
    pub stamp: u64,
    pub grant: Grant,
}

impl Drop for KeptGrant {
    fn drop(self) {
        let KeptGrant { stamp: _, grant: _ } = self;
    }
}

/// The grants of the tokens that were looked for last. A grant for which the list finds no memory is held beside it, so that a look
/// needs memory for the resolving alone.
pub struct RightsCache {
    listed: LruCache<u64, KeptGrant>,
    held: Option<(u64, KeptGrant)>,
    hits: u64,
}

impl Drop for RightsCache {
    fn drop(self) {
        let RightsCache {
            listed: _,
            held: _,
            hits: _,
        } = self;
    }
}

impl Model for RightsCache {
    ghost use Rattle.std.specs.Coded.{codes};
    ghost use Rattle.std.specs.FinMap.{code};
    ghost use Rattle.roles.specs.Looks.{Cache, IsApart};

    ghost Value = { Cache };

    ghost coded = { Prim.hlevel (codes, code) };

    ghost view = { λ a. record { entries = a.listed.entries; capacity = a.listed.cap; held = a.held; hits = a.hits } };

    ghost invariant = { λ a. IsApart (record { entries = a.listed.entries; capacity = a.listed.cap; held = a.held; hits = a.hits }) };
}

impl RightsCache {
    ghost use Rattle.roles.specs.Lending.{EndsLooked};

    /// A cache of so many entries at most, in which nothing is kept.
    pub fn new(alloc: Global, capacity: u32) -> Result<RightsCache, AllocError>
        requires { 1 ≤ capacity }
        ensures { IfOk result (λ cache. cache ≡ no_entries capacity) }
    {
        let Some(room) = NonZeroUsize::new(capacity as usize) else {
            unreachable!();
        };
        let listed = LruCache::new(alloc, room)?;
        Ok(RightsCache {
            listed,
            held: None,
            hits: 0,
        })
    }

    /// How many looks found their grant kept, or the greatest `u64`.
    pub fn hits(&self) -> u64
        ensures value { result ≡ self.now.hits }
        ensures apart { IsApart self.now }
    {
        self.hits
    }

    /// The grant of a token: the kept one where one is kept with this stamp, and else a new one, which is kept. The stamp has to be
    /// another one whenever rights changed, so that a kept grant is that of the token. A look that finds it takes no memory.
    pub fn look(
        &mut self,
        alloc: Global,
        t: &Tables,
        token: &Token,
        stamp: u64,
    ) -> Result<&Grant, AllocError>
        requires { IsRight self.old t.now token.now stamp }
        ensures* after { sem 𝓛 (EndsLooked self.entry t.now token.now stamp result) }
        ensures admits { IfOk result (λ grant. IsGrantOf t.now (IsAllowed t.now token.now) grant.now) }
        ensures holds { IfOk result (λ grant. (a : Action) → AdmitsSomething (context t.now) grant.now a ↔ Holds t.now token.now a) }
    {
        self.bring(alloc, t, token, stamp, stamp)?;
        match self.at(token.id, stamp) {
            Some(grant) => Ok(grant),
            None => unreachable!(),
        }
    }

    /// The same where the sources of rights (groups, services, roles, shares, and who is an admin) are as they were at the stamp `since`.
    /// A grant that was kept from then on needn't be resolved again, though finding it is no hit.
    pub fn look_since(
        &mut self,
        alloc: Global,
        t: &Tables,
        token: &Token,
        since: u64,
        stamp: u64,
    ) -> Result<&Grant, AllocError>
        requires right { IsRight self.old t.now token.now stamp }
        requires since { IsRightSince self.old t.now token.now since stamp }
        ensures* after { sem 𝓛 (EndsLooked self.entry t.now token.now stamp result) }
        ensures admits { IfOk result (λ grant. IsGrantOf t.now (IsAllowed t.now token.now) grant.now) }
        ensures holds { IfOk result (λ grant. (a : Action) → AdmitsSomething (context t.now) grant.now a ↔ Holds t.now token.now a) }
    {
        self.bring(alloc, t, token, since, stamp)?;
        match self.at(token.id, stamp) {
            Some(grant) => Ok(grant),
            None => unreachable!(),
        }
    }

    /// Sees to it that the grant of the token is kept.
    fn bring(
        &mut self,
        alloc: Global,
        t: &Tables,
        token: &Token,
        since: u64,
        stamp: u64,
    ) -> Result<(), AllocError>
        requires right { IsRight self.old t.now token.now stamp }
        requires since { IsRightSince self.old t.now token.now since stamp }
        ensures ok { OnOk result (IsBrought self.old token.now.id stamp self.new) }
        ensures right { IsRight self.new t.now token.now stamp }
        ensures err { OnErr result ((found self.old token.now.id stamp ≡ None) × (self.new ≡ self.old)) }
    {
        if self.has(token.id, stamp) {
            self.hit(token.id, stamp);
            return Ok(());
        }
        if self.has_since(token.id, since, stamp) {
            self.renew(token.id, stamp);
            return Ok(());
        }
        let grant = caller_grant(alloc, t, token)?;
        self.keep(token.id, KeptGrant { stamp, grant });
        Ok(())
    }

    fn has(&self, id: u64, stamp: u64) -> bool
        ensures { result ≡ is_some (found self.now id stamp) }
    {
        self.at(id, stamp).is_some()
    }

    /// The grant of this id with this stamp.
    fn at(&self, id: u64, stamp: u64) -> Option<&Grant>
        ensures { option_copied result ≡ found self.now id stamp }
    {
        match listed_at(&self.listed, id, stamp) {
            Some(grant) => Some(grant),
            None => held_at(&self.held, id, stamp),
        }
    }

    /// Counts a hit, and brings an entry of the list to its front.
    fn hit(&mut self, id: u64, stamp: u64)
        ensures { self.new ≡ after_hit self.old id stamp }
    {
        if listed_at(&self.listed, id, stamp).is_some() {
            self.listed.promote(&id);
        }
        self.hits = self.hits.saturating_add(1);
    }

    /// Whether the list has a grant of this id whose stamp is one from `since` to `stamp`.
    fn has_since(&self, id: u64, since: u64, stamp: u64) -> bool
        ensures { IsTrue result → IsSomeAnd (lookup (nat_eq id) self.now.entries) (spec.IsSince since stamp) }
    {
        match self.listed.peek(&id) {
            Some(kept) => since <= kept.stamp && kept.stamp <= stamp,
            None => false,
        }
    }

    /// Gives the grant of the list for this id this stamp, brings it to the front, and lets go of the held one.
    fn renew(&mut self, id: u64, stamp: u64)
        ensures { (kept : KeptGrant) → lookup (nat_eq id) self.old.entries ≡ Some kept
            → IsAfterMiss self.old id (kept_now stamp kept.grant) self.new }
    {
        restamp(&mut self.listed, id, stamp);
        self.held = None;
    }

    /// Keeps a grant in the list, or beside it without memory.
    fn keep(&mut self, id: u64, kept: KeptGrant)
        ensures { IsAfterMiss self.old id kept self.new }
    {
        self.held = match self.listed.put(id, kept) {
            Ok(_) => None,
            Err(refused) => Some(refused.value),
        };
    }
}

/// Gives the grant of the list for this id this stamp, and brings it to the front.
fn restamp(listed: &mut LruCache<u64, KeptGrant>, id: u64, stamp: u64)
    ensures { (kept : KeptGrant) → lookup (nat_eq id) listed.old.entries ≡ Some kept
        → listed.new ≡ lru_cache (put_entries nat_eq listed.old id (kept_now stamp kept.grant)) listed.old.cap }
{
    if let Some(kept) = listed.get_mut(&id) {
        kept.stamp = stamp;
    }
}

/// The grant of this id with this stamp in the list.
fn listed_at(listed: &LruCache<u64, KeptGrant>, id: u64, stamp: u64) -> Option<&Grant>
    ensures { option_copied result ≡ spec.with_stamp stamp (lookup (nat_eq id) listed.now.entries) }
{
    match listed.peek(&id) {
        Some(kept) => with_stamp(kept, stamp),
        None => None,
    }
}

/// The grant of this id with this stamp where it is held.
fn held_at(held: &Option<(u64, KeptGrant)>, id: u64, stamp: u64) -> Option<&Grant>
    ensures { option_copied result ≡ spec.with_stamp stamp (spec.with_id id held.now) }
{
    match held {
        Some((other, kept)) => {
            if id == *other {
                with_stamp(kept, stamp)
            } else {
                None
            }
        }
        None => None,
    }
}

fn with_stamp(kept: &KeptGrant, stamp: u64) -> Option<&Grant>
    ensures { option_copied result ≡ spec.with_stamp stamp (Some kept.now) }
{
    if kept.stamp == stamp {
        Some(&kept.grant)
    } else {
        None
    }
}
