//! A listener that tends services: one round before its first connection, and one after each that it gives.
//! The contract of `TendedDoors::end` carries it, from the services that it was made with to those that come back: there are as many
//! rounds as it gave connections, and one more, each at the clock's next moment. The command `serve` stands above.
#![tactic(auto)]

pub mod doors;
pub mod kit;
pub mod laws;
