//! A hub that is asked directly: a link over a desk and a pass of its book, and a guard that asks by it.
//! `DirectLink` makes one `serve_connection` over memory for each ask, as its `does` says; the contract of `guard_direct` is that of
//! `guard_one` over what these connections left. A large job stands above.
#![tactic(auto)]

pub mod direct;
pub mod guarding;
pub mod laws;
