//! One request that a proxy passes on.
//! `pass_on` sends a request whose head was read to a target and passes the reply back, or writes one refusal: its contract
//! says what was sent, what was received and what was written, for every cutting of all streams. `forward_one` reads the head,
//! asks a table of routes for the target of its path and calls `pass_on`. A proxy's worker calls it once for each connection.
#![tactic(auto)]

pub mod exchange;
pub mod forward;
pub mod passes;
pub mod refusals;
