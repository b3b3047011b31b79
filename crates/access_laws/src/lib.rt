//! What an ask for access comes to between a guard and a hub: laws alone. The hub reads the ask as the call that it is meant as, and the
//! guard reads in the reply's body what the hub's rights gave. `guard_direct` stands on these.
#![tactic(auto)]

pub mod laws;
