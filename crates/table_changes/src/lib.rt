//! Changes of rows, done to the tables and taken back.
//! `change` carries it: the tables after it are `row_done` of the change and of those before, and memory is wanting at a put of
//! a new key alone; `way_back` gives the change that undoes another. `stage` does the puts of a list and gives the way back, `undo`
//! goes that way, and `settle` does the removals. The machine of the hub carries its batches out by these.
#![tactic(auto)]

mod done;
mod staged;
mod undone;

pub use done::change;
pub use staged::{settle, stage, undo};
pub use undone::{row_at, way_back};
