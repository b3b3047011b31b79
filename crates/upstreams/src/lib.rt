//! Where a proxy passes requests on: the trait `Upstream`, its sides for a tunnel (`Tunnelled`), and one in memory.
//! `Upstream::send` and `Upstream::receive` say what was sent and what was received of all that the upstream will give, and
//! each call fails only where its count of faults rose. Both take a connection that is open (`IsOpen`), and what an upstream
//! tells names each target that a connection was asked for, whether it was made or not, as long as it has the memory. The reading of
//! replies and the passing on of bodies stand on these.
#![tactic(auto)]

pub mod mem_upstream;
pub mod tunnelled;
pub mod upstream;
