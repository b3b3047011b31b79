//! The workers' servers, one for each kit.
ghost use Rattle.std.specs.Prelude.{◌≡◌, [], All, length, map, reverse, IfOk, IfErr};
ghost use Rattle.std.specs.Vec.{vec_capacity};

use crate::kit::GuardKit;
use crate::sign_in_guard::SignInGuard;
use crate::token_guard::TokenGuard;
use guard_login::door::Door;
use hub_devices::random::Random;
use hub_kit::names::ServerKey;
use hub_kit::target::Target;
use hub_link::link::HubLink;
use std::alloc::{AllocError, Global};
use upstreams::upstream::Upstream;

/// A guard by tokens for each kit, which it takes along: the last kit is that of the first guard. Where there is no memory none is made.
pub(crate) fn hire_by_token<'a, H: HubLink + Drop, R: Random + Drop, U: Upstream + Drop>(
    alloc: Global,
    key: &'a ServerKey,
    target: &'a Target,
    kits: &mut Vec<GuardKit<H, R, U>>,
) -> Result<Vec<TokenGuard<'a, H, R, U>>, AllocError>
    ensures stand { IfOk result (λ v. All (λ g. (g.key.now ≡ key.now) × (g.target.now ≡ target.now)) v.items) }
    ensures hired { IfOk result (λ v. (kits.new.items ≡ []) × (kits.old.items ≡ reverse (map (λ g. g.kit) v.items))) }
    ensures one_each { IfOk result (λ v. length v.items ≡ length kits.old.items) }
    ensures kept { IfErr result (λ _. kits.new.items ≡ kits.old.items) }
    ensures room { vec_capacity kits.new ≡ vec_capacity kits.old }
{
    let mut guards = Vec::with_capacity(alloc, kits.len())?;
    while let Some(kit) = kits.pop() {
        match guards.push(TokenGuard::new(alloc, key, target, kit)) {
            Ok(()) => {}
            Err(_full) => unreachable!(),
        }
    }
    Ok(guards)
}

/// A guard that lets browsers sign in for each kit, which it takes along: the last kit is that of the first guard. Where there is no memory
/// none is made.
pub(crate) fn hire_at_door<'a, H: HubLink + Drop, R: Random + Drop, U: Upstream + Drop>(
    alloc: Global,
    door: &'a Door,
    kits: &mut Vec<GuardKit<H, R, U>>,
) -> Result<Vec<SignInGuard<'a, H, R, U>>, AllocError>
    ensures stand { IfOk result (λ v. All (λ g. g.door.now ≡ door.now) v.items) }
    ensures hired { IfOk result (λ v. (kits.new.items ≡ []) × (kits.old.items ≡ reverse (map (λ g. g.kit) v.items))) }
    ensures one_each { IfOk result (λ v. length v.items ≡ length kits.old.items) }
    ensures kept { IfErr result (λ _. kits.new.items ≡ kits.old.items) }
    ensures room { vec_capacity kits.new ≡ vec_capacity kits.old }
{
    let mut guards = Vec::with_capacity(alloc, kits.len())?;
    while let Some(kit) = kits.pop() {
        match guards.push(SignInGuard::new(alloc, door, kit)) {
            Ok(()) => {}
            Err(_full) => unreachable!(),
        }
    }
    Ok(guards)
}
