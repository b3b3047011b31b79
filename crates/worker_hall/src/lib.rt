//! Many connections: a listener's connections are served by several workers.
//! The contract of `serve` carries it: its tally counts each connection that was given. These were served by its servers, each server's
//! own one after the other by `Serves::served`, from what it was handed in as to what it comes back as. It is Ok exactly where they are
//! as many as were asked; else the listener's count of faults rose or memory was wanting. The commands that forward stand above it.
#![tactic(auto)]

mod doors;
mod hall;
mod hired;
mod serves;
mod tally;
mod workers;

pub use hall::{HallFault, serve};
pub use hired::{Hired, dismiss};
pub use serves::Serves;
pub use tally::{Finished, Tally};
