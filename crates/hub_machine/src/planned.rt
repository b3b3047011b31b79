//! Changes that are still to be carried out.
ghost use Rattle.std.specs.Prelude.{◌≡◌, ◌∷◌, [], ◌++◌, IfOk};
ghost use Rattle.hub_machine.specs.declared.change.Change.TheVariants.{Rows, Begin, Life};
ghost use Rattle.server_life.specs.declared.life.LifeEvent.TheVariants.{AskStop};
ghost use Rattle.hub_machine.specs.Written.{IsWritten};

use crate::batch::{batch_of, items_cost};
use crate::change::Change;
use hub_kit::list::List;
use hub_kit::names::ServerKey;
use hub_rows::changes::RowChange;
use keeper::keeper::Batch;
use server_life::LifeEvent;
use std::alloc::{AllocError, Global};
use std::marker::Model;

/// The batch of a change, and the bytes of its keys and texts.
pub(crate) struct Written {
    pub batch: Batch,
    pub cost: u64,
}

impl Drop for Written {
    fn drop(self) {
        let Written { batch: _, cost: _ } = self;
    }
}

/// A change of an answer. Its batch is written once: when its cost is counted, and it is this batch that is committed.
pub struct Planned {
    change: Change,
    written: Option<Written>,
}

impl Drop for Planned {
    fn drop(self) {
        let Planned {
            change: _,
            written: _,
        } = self;
    }
}

impl Model for Planned {
    ghost use Rattle.hub_machine.specs.declared.change.Change.{Change};
    ghost use Rattle.hub_machine.specs.Written.{IsAsWritten};
    ghost use Rattle.std.specs.Coded.{codes};

    ghost Value = { Change };

    ghost coded = { Prim.hlevel codes };

    ghost view = { λ p. p.change };

    ghost invariant = { λ p. IsAsWritten p.change p.written };
}

impl Planned {
    /// The change of these rows. Takes no memory.
    pub fn of_rows(rows: Vec<RowChange>) -> Planned
        ensures { result ≡ Rows rows.items }
    {
        Planned {
            change: Change::Rows {
                rows: List::from_vec(rows),
            },
            written: None,
        }
    }

    /// The start of a server, with these rows. Takes no memory.
    pub fn of_begin(generation: u64, server: ServerKey, rows: Vec<RowChange>) -> Planned
        ensures { result ≡ Begin generation server rows.items }
    {
        Planned {
            change: Change::Begin {
                generation,
                server,
                rows: List::from_vec(rows),
            },
            written: None,
        }
    }

    /// The wish that the server of a generation stops. Takes no memory.
    pub fn of_stop(generation: u64) -> Planned
        ensures { result ≡ Life generation AskStop }
    {
        Planned {
            change: Change::Life {
                generation,
                event: LifeEvent::AskStop,
            },
            written: None,
        }
    }

    /// The change of a batch that was written.
    pub(crate) fn of_written(change: Change, written: Written) -> Planned
        requires { IsWritten change written }
        ensures { result ≡ change }
    {
        Planned {
            change,
            written: Some(written),
        }
    }

    /// The change itself.
    pub fn change(&self) -> &Change
        ensures { result.now ≡ self.now }
    {
        let _ = &self.written;
        &self.change
    }

    /// The change, and its batch, which is written now if it wasn't yet.
    pub(crate) fn write(self, alloc: Global) -> Result<(Change, Written), AllocError>
        ensures change { IfOk result (λ p. p.0 ≡ self) }
        ensures written { IfOk result (λ p. IsWritten p.0 p.1) }
    {
        let Planned { change, written } = self;
        match written {
            Some(written) => Ok((change, written)),
            None => match write(alloc, &change) {
                Ok(written) => Ok((change, written)),
                Err(error) => {
                    drop(change);
                    Err(error)
                }
            },
        }
    }
}

/// Writes the batch of a change, and counts it.
fn write(alloc: Global, change: &Change) -> Result<Written, AllocError>
    ensures { IfOk result (λ written. IsWritten change.now written) }
{
    let batch = batch_of(alloc, change.rows())?;
    match items_cost(batch.as_slice()) {
        Ok(cost) => Ok(Written { batch, cost }),
        Err(error) => {
            drop(batch);
            Err(error)
        }
    }
}
