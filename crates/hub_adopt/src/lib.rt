//! A hub takes its running servers back: those whose programs may still run when it opens over the rows that it kept.
//! The contract of `adopt` carries it: each server that was being adopted when the pass looked is driven by one chain, in the order of
//! targets, and nothing else is done. The command that opens a hub stands above.
#![tactic(auto)]

mod adoption;
mod search;
mod works;

pub use adoption::adopt;
