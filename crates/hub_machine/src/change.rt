//! Entries of the history.
ghost use Rattle.std.specs.Prelude.{◌≡◌};
ghost use Rattle.hub_machine.specs.Apply.{rows_of};

use hub_kit::list::List;
use hub_kit::names::ServerKey;
use hub_rows::changes::RowChange;
use server_life::LifeEvent;

/// What one entry of the history does.
#[derive(Drop)]
pub enum Change {
    /// The rows that are put and removed, in this order.
    Rows {
        rows: List<RowChange>,
    },
    /// A start: the server leases the free target of least index for this generation, and the rows are put.
    Begin {
        generation: u64,
        server: ServerKey,
        rows: List<RowChange>,
    },
    /// A step of the life of a generation. The rows of an end follow from the state.
    Life {
        generation: u64,
        event: LifeEvent,
    },
}

impl Change {
    /// The rows of the entry itself.
    pub fn rows(&self) -> &[RowChange]
        ensures { result.now ≡ rows_of self.now }
    {
        match self {
            Change::Rows { rows } => rows.as_slice(),
            Change::Begin { rows, .. } => rows.as_slice(),
            Change::Life { .. } => &[],
        }
    }
}
