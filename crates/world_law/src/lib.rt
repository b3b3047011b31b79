//! The law of lost and late messages: what holds of a hub's servers, a proxy's routes and the programs, whatever is lost or late.
//! The contract of `world_law` carries it: it speaks of every list of steps of the world, over the definitions that the clauses of the
//! hub's and the proxy's code cite. `ties` says how those are the world's. It is a law alone; no program calls it.
#![tactic(auto)]

mod laws;
mod ties;

pub use laws::world_law;
pub use ties::{calls_are_owed, changes_are_steps, sync_is_steps};
