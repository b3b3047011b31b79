//! A route link in memory over a table of routes, whose messages may be lost or late.
//! The contract of `LateRoutes` carries it: what each call tells, which messages have arrived by then, and exactly what `deliver` tells.
//! It stands for a bad network in tests of connections; no program uses it.
#![tactic(auto)]

mod arrival;
mod late;
mod plan;

pub use late::LateRoutes;
pub use plan::{LatePlan, Outstanding};
