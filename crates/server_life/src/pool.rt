//! The targets that servers may hold.
ghost use Rattle.std.specs.Prelude.{◌≡◌, [], IfOk, MatchOption};
ghost use Rattle.std.specs.List.{list_any};
ghost use Rattle.server_life.specs.Pools.{IsPool, are_distinct, same_target};

use hub_kit::list::List;
use hub_kit::target::Target;
use std::alloc::{AllocError, Global};
use std::marker::Model;

/// How many targets a pool has at most.
const LARGEST: usize = 1000;

/// At most 1,000 targets, all distinct, which contracts see as the list of them.
pub struct Pool {
    targets: List<Target>,
}

impl Drop for Pool {
    fn drop(self) {
        let Pool { targets: _ } = self;
    }
}

impl Model for Pool {
    ghost use Rattle.std.specs.Prelude.{List};
    ghost use Rattle.hub_kit.specs.declared.target.Target.{Target};
    ghost use Rattle.server_life.specs.Pools.{IsPool};

    ghost Value = { List Target };

    ghost view = { λ p. p.targets };

    ghost invariant = { λ p. IsPool p.targets };
}

impl Pool {
    /// No target, which takes no memory.
    pub fn empty(alloc: Global) -> Pool
        ensures { result ≡ [] }
    {
        Pool {
            targets: List::new(alloc),
        }
    }

    /// The pool of these targets, if they are few enough and distinct. Takes no memory.
    pub fn new(targets: List<Target>) -> Option<Pool>
        ensures { MatchOption result (IsPool targets → ⊥) (λ pool. (pool ≡ targets) × IsPool targets) }
    {
        if targets.len() > LARGEST || !are_distinct(targets.as_slice()) {
            // in one call, since it has many parts
            drop(targets);
            return None;
        }
        Some(Pool { targets })
    }

    /// The targets in their order.
    pub fn as_slice(&self) -> &[Target]
        ensures value { result.now ≡ self.now }
        ensures pool { IsPool self.now }
    {
        self.targets.as_slice()
    }

    pub fn copy(&self, alloc: Global) -> Result<Pool, AllocError>
        ensures { IfOk result (λ copy. copy ≡ self.now) }
    {
        let mut targets = Vec::new(alloc);
        for target in self.targets.as_slice() {
            targets.push(target.copy(alloc)?)?;
        }
        Ok(Pool {
            targets: List::from_vec(targets),
        })
    }
}

/// Whether a target is among these.
fn is_among(target: &Target, targets: &[Target]) -> bool
    ensures { result ≡ list_any (same_target target.now) targets.now }
{
    targets.iter().any(|other| *target == *other)
}

/// Whether each target stands once. A thousand targets are half a million pairs, and no memory is taken.
#[tactic(auto, using(crate::proofs::Distinct::distinct_turn))]
fn are_distinct(targets: &[Target]) -> bool
    ensures { result ≡ are_distinct targets.now }
{
    for (i, target) in targets.iter().enumerate() {
        if is_among(target, &targets[i + 1..]) {
            return false;
        }
    }
    true
}
