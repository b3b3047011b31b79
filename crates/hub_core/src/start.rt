//! What no visit changes.
use hub_machine::machine::Machine;

/// The machine as it was at opening, and whether the keeper told its rows then. For contracts alone: nothing builds one.
pub struct Start {
    pub machine: Machine,
    pub has_rows: bool,
}
