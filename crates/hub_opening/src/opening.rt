//! The machine that a book begins with, and the keeper's rows then.
ghost use Rattle.std.specs.Prelude.{◌≡◌, ◌≤◌, ◌^◌, [], None, IfOk, IfErr, OnOk, OnErr};
ghost use Rattle.std.specs.FinMap.{len};
ghost use Rattle.std.specs.Option.{option_copied};
ghost use Rattle.keeper.specs.Rows.{AreSame, after_items};
ghost use Rattle.hub_machine.specs.KeptRows.{Keeps};
ghost use Rattle.hub_machine.specs.State.{owed, next_generation};
ghost use Rattle.server_life.specs.Pools.{IsPool};
ghost use Rattle.hub_opening.specs.Adopting.{IsOpenable};
ghost use Rattle.hub_opening.specs.Changing.{Leads};
ghost use Rattle.hub_opening.specs.Kept as kept;
ghost use Rattle.hub_opening.specs.Opening as spec;

use crate::adopting::lives_of;
use crate::changed::Changed;
use crate::config::HubConfig;
use crate::configured::put_rows;
use crate::generations::give_generations;
use crate::loading::{load_tables, refusal_of};
use crate::open_error::OpenError;
use hub_kit::list::List;
use hub_kit::moment::Moment;
use hub_kit::target::Target;
use hub_lives::Lives;
use hub_machine::machine::Machine;
use hub_rows::limits::Limits;
use hub_rows::records::Lease;
use hub_tables::tables::Tables;
use keeper::keeper::{Batch, Keeper};
use keeper::trail::Trail;
use std::alloc::{AllocError, Global};

/// The most clients of OAuth that a hub has.
const CLIENTS: u32 = 2_000;

/// A machine, and the items by which its rows come to the keeper that the tables were loaded from.
#[derive(Drop)]
pub struct Opened {
    machine: Machine,
    batch: Batch,
}

// ---- why kept rows aren't opened

fn is_in_pool(target: &Target, pool: &[Target]) -> bool
    ensures { result ≡ kept.is_in_pool pool.now target.now }
{
    pool.iter().any(|other| *other == *target)
}

/// The first lease, in the order of targets, whose target isn't in the pool.
fn first_lost<'a>(tables: &'a Tables, pool: &[Target]) -> Option<&'a Lease>
    ensures { option_copied result ≡ kept.first_lost pool.now tables.now }
{
    tables
        .leases()
        .find(|lease| !is_in_pool(&lease.target, pool))
}

/// Refuses tables with a lease whose target isn't in the pool.
fn refuse_lost(alloc: Global, tables: &Tables, pool: &[Target]) -> Result<(), OpenError>
    ensures ok { OnOk result (kept.lost_target pool.now tables.now ≡ None) }
    ensures err { IfErr result (spec.IsLostOr pool.now tables.now) }
{
    match first_lost(tables, pool) {
        None => Ok(()),
        Some(lease) => match lease.target.copy(alloc) {
            Ok(target) => Err(OpenError::LostTarget(target)),
            Err(_) => Err(OpenError::Memory),
        },
    }
}

fn count_of_shares(tables: &Tables) -> usize
    ensures { result ≡ len tables.now.shares }
{
    tables.shares().len()
}

fn count_of_codes(tables: &Tables) -> usize
    ensures { result ≡ len tables.now.codes }
{
    tables.codes().len()
}

fn count_of_grant_codes(tables: &Tables) -> usize
    ensures { result ≡ len tables.now.grant_codes }
{
    tables.grant_codes().len()
}

/// The first kind that has more rows than its limit, and this limit.
fn first_full(tables: &Tables) -> Option<(u8, u32)>
    ensures { result ≡ spec.first_full tables.now }
{
    let limits = tables.limits();
    if (limits.users as usize) < tables.count_of_users() {
        return Some((1, limits.users));
    }
    if (limits.groups as usize) < tables.count_of_groups() {
        return Some((2, limits.groups));
    }
    if (limits.services as usize) < tables.count_of_services() {
        return Some((3, limits.services));
    }
    if (limits.roles as usize) < tables.count_of_roles() {
        return Some((4, limits.roles));
    }
    if (limits.tokens as usize) < tables.count_of_tokens() {
        return Some((5, limits.tokens));
    }
    first_full_grant(tables, limits)
}

/// The same of shares, codes and clients.
fn first_full_grant(tables: &Tables, limits: Limits) -> Option<(u8, u32)>
    requires { limits ≡ tables.now.limits }
    ensures { result ≡ spec.first_full_grant tables.now }
{
    if (limits.shares as usize) < count_of_shares(tables) {
        return Some((8, limits.shares));
    }
    if (limits.codes as usize) < count_of_codes(tables) {
        return Some((9, limits.codes));
    }
    if (CLIENTS as usize) < tables.count_of_clients() {
        return Some((10, CLIENTS));
    }
    if (limits.codes as usize) < count_of_grant_codes(tables) {
        return Some((11, limits.codes));
    }
    None
}

// ---- the state

/// Has the tables changed as a hub's opening changes them: by generations for leases, and by the configuration.
fn change_tables(
    alloc: Global,
    changed: &mut Changed,
    config: &HubConfig,
    now: Moment,
) -> Result<(), AllocError>
    ensures tables { OnOk result (changed.new.tables ≡ spec.opened_tables config.now now changed.old.tables) }
    ensures leads { OnOk result (Leads changed.old changed.new) }
{
    give_generations(alloc, changed)?;
    put_rows(alloc, changed, config, now)
}

fn copy_target(alloc: Global, target: &Option<Target>) -> Result<Option<Target>, AllocError>
    ensures { IfOk result (λ copy. copy ≡ target.now) }
{
    match target {
        Some(target) => Ok(Some(target.copy(alloc)?)),
        None => Ok(None),
    }
}

/// What a machine has beside its tables: the live servers, and the hub's own target.
fn parts_of(
    alloc: Global,
    changed: &Changed,
    config: &HubConfig,
) -> Result<(Lives, Option<Target>), AllocError>
    requires { IsOpenable config.now.pool changed.now.tables }
    ensures { IfOk result (λ parts.
        (parts.0 ≡ record { pool = config.now.pool; lives = kept.lives_in changed.now.tables; next = next_generation changed.now.tables })
        × (parts.1 ≡ config.now.hub_url)) }
{
    let hub_url = copy_target(alloc, &config.hub_url)?;
    let lives = lives_of(alloc, changed, &config.pool)?;
    Ok((lives, hub_url))
}

/// The machine over changed tables.
fn machine_of(alloc: Global, changed: Changed, config: &HubConfig) -> Result<Opened, OpenError>
    requires open { IsOpenable config.now.pool changed.tables }
    requires limit { changed.tables.limits.trail_bytes ≤ 2 ^ 62 }
    ensures { spec.IsOver config.now changed result }
{
    match parts_of(alloc, &changed, config) {
        Ok((lives, hub_url)) => Ok(Opened {
            machine: Machine::opening(changed.tables, lives, hub_url, config.no_trail),
            batch: changed.batch,
        }),
        Err(_) => {
            // in one call, since they have many parts
            drop(changed);
            Err(OpenError::Memory)
        }
    }
}

/// The state of kept tables none of whose leases has lost its target.
fn make_pooled(
    alloc: Global,
    tables: Tables,
    config: &HubConfig,
    now: Moment,
) -> Result<Opened, OpenError>
    requires pool { IsPool config.now.pool }
    requires pooled { kept.lost_target config.now.pool tables ≡ None }
    requires leasable { kept.AreLeasable tables }
    requires limit { tables.limits.trail_bytes ≤ 2 ^ 62 }
    ensures { spec.IsMade config.now now tables result }
{
    let batch = List::new(alloc);
    let mut changed = Changed { tables, batch };
    let Ok(()) = change_tables(alloc, &mut changed, config, now) else {
        drop(changed);
        return Err(OpenError::Memory);
    };
    match first_full(&changed.tables) {
        None => machine_of(alloc, changed, config),
        Some((kind, limit)) => {
            drop(changed);
            Err(OpenError::Full { kind, limit })
        }
    }
}

/// The state that the configuration makes of kept tables.
fn make(alloc: Global, tables: Tables, config: &HubConfig, now: Moment) -> Result<Opened, OpenError>
    requires leasable { kept.AreLeasable tables }
    requires limit { tables.limits.trail_bytes ≤ 2 ^ 62 }
    ensures { spec.IsMade config.now now tables result }
{
    match refuse_lost(alloc, &tables, config.pool.as_slice()) {
        Ok(()) => make_pooled(alloc, tables, config, now),
        Err(error) => {
            drop(tables);
            Err(error)
        }
    }
}

// ---- the keeper's rows

/// Has the keeper do these items, in one commit, or in none where there are none.
fn commit<K: Keeper>(keeper: &mut K, batch: &Batch) -> Result<(), OpenError>
    ensures ok { OnOk result (K.Tells keeper.new → AreSame (K.rows keeper.new) (after_items batch.now (K.rows keeper.old))) }
    ensures err { IfErr result (spec.IsUnkept (K.faults keeper.old) (K.faults keeper.new)) }
    ensures stays { OnErr result (K.Tells keeper.new → AreSame (K.rows keeper.new) (K.rows keeper.old)) }
    ensures told { K.Tells keeper.new → K.Tells keeper.old }
    ensures counted { K.faults keeper.old ≤ K.faults keeper.new }
{
    if batch.is_empty() {
        return Ok(());
    }
    match keeper.commit(batch) {
        Ok(()) => Ok(()),
        Err(error) => Err(refusal_of(error)),
    }
}

/// Makes room in the trail for the entries that the adoptions owe.
fn reserve<T: Trail>(trail: &mut T, machine: &Machine) -> Result<(), OpenError>
    ensures room { OnOk result (owed machine.now.lives ≤ T.spare trail.new) }
    ensures err { IfErr result (λ e. e ≡ OpenError.Memory) }
    ensures same { T.told trail.new ≡ T.told trail.old }
{
    match trail.reserve(machine.lives().owed()) {
        Ok(()) => Ok(()),
        Err(_) => Err(OpenError::Memory),
    }
}

/// Keeps what was made: first there is room in the trail, then the keeper has the rows.
fn keep<K: Keeper, T: Trail>(keeper: &mut K, trail: &mut T, made: &Opened) -> Result<(), OpenError>
    ensures ok { OnOk result (K.Tells keeper.new → AreSame (K.rows keeper.new) (after_items made.now.batch (K.rows keeper.old))) }
    ensures room { OnOk result (owed made.now.machine.lives ≤ T.spare trail.new) }
    ensures err { IfErr result (spec.IsUnkept (K.faults keeper.old) (K.faults keeper.new)) }
    ensures stays { OnErr result (K.Tells keeper.new → AreSame (K.rows keeper.new) (K.rows keeper.old)) }
    ensures told { K.Tells keeper.new → K.Tells keeper.old }
    ensures counted { K.faults keeper.old ≤ K.faults keeper.new }
    ensures trail { T.told trail.new ≡ T.told trail.old }
{
    reserve(trail, &made.machine)?;
    commit(keeper, &made.batch)
}

/// The machine that a configuration opens at NOW over what the keeper has; the rows of its state are all that the keeper keeps from now on.
/// `KeeperFault` where the keeper's count of faults rose, `BadRow` where a kept row doesn't read or breaks a rule across rows, `LostTarget`
/// where a lease has no target in the pool, `Full` where a kind would have more rows than its limit, and `Memory`, in this order. A refusal
/// leaves the keeper's rows as they were. The trail has room for what the adoptions owe.
pub fn open_machine<K: Keeper, T: Trail>(
    alloc: Global,
    keeper: &mut K,
    trail: &mut T,
    config: &HubConfig,
    now: Moment,
) -> Result<Machine, OpenError>
    requires trail { config.now.limits.trail_bytes ≤ 2 ^ 62 }
    requires scopes { kept.MakeTable config.now.custom_scopes }
    ensures ok { IfOk result (spec.IsSetUp config.now now (K.Tells keeper.new) (K.rows keeper.old)) }
    ensures err { IfErr result (spec.IsRefused config.now now (K.Tells keeper.new) (K.rows keeper.old) (K.faults keeper.old)
        (K.faults keeper.new)) }
    ensures stays { OnErr result (K.Tells keeper.new → K.Tells keeper.old × AreSame (K.rows keeper.new) (K.rows keeper.old)) }
    ensures keeps { IfOk result (λ hub. K.Tells keeper.new → Keeps (K.rows keeper.new) hub.tables) }
    ensures told { K.Tells keeper.new → K.Tells keeper.old }
    ensures room { IfOk result (λ hub. owed hub.lives ≤ T.spare trail.new) }
    ensures counted { K.faults keeper.old ≤ K.faults keeper.new }
    ensures trail { T.told trail.new ≡ T.told trail.old }
{
    let tables = load_tables(alloc, keeper, config)?;
    let made = match make(alloc, tables, config, now) {
        Ok(made) => made,
        Err(error) => return Err(error),
    };
    match keep(keeper, trail, &made) {
        Ok(()) => Ok(made.machine),
        Err(error) => {
            drop(made);
            Err(error)
        }
    }
}
