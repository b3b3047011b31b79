//! A generation for each lease: rows of the first schema have none.
ghost use Rattle.std.specs.Prelude.{◌≡◌, None, codes, fold, IfOk, OnOk};
ghost use Rattle.std.specs.FinMap.{insert};
ghost use Rattle.hub_opening.specs.Changing.{Leads};
ghost use Rattle.hub_opening.specs.Kept as spec;

use crate::changed::Changed;
use hub_kit::names::ServerKey;
use hub_kit::target::Target;
use hub_kit::text::Text;
use hub_rows::counter::Counter;
use hub_rows::records::{Lease, Next};
use hub_rows::rows::Row;
use hub_tables::tables::Tables;
use std::alloc::{AllocError, Global};

/// Gives each lease a generation that has none, in the order of targets.
pub(crate) fn give_generations(alloc: Global, changed: &mut Changed) -> Result<(), AllocError>
    ensures tables { OnOk result (changed.new.tables ≡ spec.with_generations changed.old.tables) }
    ensures leads { OnOk result (Leads changed.old changed.new) }
{
    let targets = targets_of(alloc, &changed.tables)?;
    give_at(alloc, changed, targets.as_slice())
}

/// The targets of the leases, in order.
fn targets_of(alloc: Global, tables: &Tables) -> Result<Vec<Target>, AllocError>
    ensures { IfOk result (λ targets. targets.items ≡ spec.targets_of tables.now) }
{
    let mut targets = Vec::new(alloc);
    for lease in tables.leases() {
        targets.push(lease.target.copy(alloc)?)?;
    }
    Ok(targets)
}

fn give_at(alloc: Global, changed: &mut Changed, targets: &[Target]) -> Result<(), AllocError>
    ensures tables { OnOk result (changed.new.tables ≡ fold spec.generation_given changed.old.tables targets.now) }
    ensures leads { OnOk result (Leads changed.old changed.new) }
{
    for target in targets {
        give(alloc, changed, target)?;
    }
    Ok(())
}

/// Gives the lease of a target the next generation, where it has none.
fn give(alloc: Global, changed: &mut Changed, target: &Target) -> Result<(), AllocError>
    ensures tables { OnOk result (changed.new.tables ≡ spec.generation_given changed.old.tables target.now) }
    ensures leads { OnOk result (Leads changed.old changed.new) }
{
    let Some(lease) = changed.tables.lease(target) else {
        return Ok(());
    };
    if lease.generation.is_some() {
        return Ok(());
    }
    let server = lease.server;
    give_next(alloc, changed, target, server)
}

/// Gives the lease of a server the next generation.
fn give_next(
    alloc: Global,
    changed: &mut Changed,
    target: &Target,
    server: ServerKey,
) -> Result<(), AllocError>
    ensures tables { OnOk result (changed.new.tables ≡ spec.with_generation
        (record { target = target.now; server = server; generation = None }) changed.old.tables) }
    ensures leads { OnOk result (Leads changed.old changed.new) }
{
    let name = generation_counter(alloc)?;
    let generation = changed.next_of(name.as_text());
    let Some(next) = generation.checked_add(1) else {
        return Err(AllocError);
    };
    let lease = Lease {
        target: target.copy(alloc)?,
        server,
        generation: Some(generation),
    };
    put_lease(alloc, changed, lease, Next { name, next })
}

/// The counter of generations.
pub(crate) fn generation_counter(alloc: Global) -> Result<Counter, AllocError>
    ensures { IfOk result (λ counter. counter ≡ codes "generation") }
{
    match Counter::from_text(Text::from_str(alloc, "generation")?) {
        Some(counter) => Ok(counter),
        None => Err(AllocError),
    }
}

/// Puts a lease, and the number after its generation as the next.
fn put_lease(
    alloc: Global,
    changed: &mut Changed,
    lease: Lease,
    next: Next,
) -> Result<(), AllocError>
    ensures tables { OnOk result (changed.new.tables ≡ record changed.old.tables
        { leases = insert changed.old.tables.leases lease.target lease; nexts = insert changed.old.tables.nexts next.name next }) }
    ensures leads { OnOk result (Leads changed.old changed.new) }
{
    changed.put(alloc, Row::Lease(lease))?;
    changed.put(alloc, Row::Next(next))
}
