//! The servers that hold a lease at the opening: their programs may still run, and are to be adopted.
ghost use Rattle.std.specs.Prelude.{◌≡◌, fold, IfOk, OnOk};
ghost use Rattle.std.specs.FinMap.{values};
ghost use Rattle.hub_machine.specs.State.{next_generation};
ghost use Rattle.hub_opening.specs.Adopting as spec;
ghost use Rattle.hub_opening.specs.Kept.{lives_in};

use crate::changed::Changed;
use crate::generations::generation_counter;
use hub_lives::Lives;
use hub_rows::records::Lease;
use hub_tables::tables::Tables;
use server_life::Pool;
use std::alloc::{AllocError, Global};

/// Each leased server, in the order of targets.
pub(crate) fn lives_of(alloc: Global, changed: &Changed, pool: &Pool) -> Result<Lives, AllocError>
    requires { spec.IsOpenable pool.now changed.now.tables }
    ensures { IfOk result (λ lives. lives
        ≡ record { pool = pool.now; lives = lives_in changed.now.tables; next = next_generation changed.now.tables }) }
{
    let next = next_generation(alloc, changed)?;
    let mut lives = Lives::new(alloc, pool.copy(alloc)?, next)?;
    adopt_all(alloc, &mut lives, &changed.tables)?;
    Ok(lives)
}

fn next_generation(alloc: Global, changed: &Changed) -> Result<u64, AllocError>
    ensures { IfOk result (λ next. next ≡ next_generation changed.now.tables) }
{
    let name = generation_counter(alloc)?;
    Ok(changed.next_of(name.as_text()))
}

/// Has each lease of the tables among the live servers.
fn adopt_all(alloc: Global, lives: &mut Lives, tables: &Tables) -> Result<(), AllocError>
    requires { spec.FitInTurn lives.old (values tables.now.leases) }
    ensures { OnOk result (lives.new ≡ fold spec.with_lease lives.old (values tables.now.leases)) }
{
    for lease in tables.leases() {
        adopt(alloc, lives, lease)?;
    }
    Ok(())
}

/// Has a lease among the live servers.
fn adopt(alloc: Global, lives: &mut Lives, lease: &Lease) -> Result<(), AllocError>
    requires { spec.FitsLives lives.old lease.now }
    ensures { OnOk result (lives.new ≡ spec.with_lease lives.old lease.now) }
{
    match lease.generation {
        Some(generation) => lives.adopt(alloc, &lease.server, &lease.target, generation),
        None => Ok(()),
    }
}
