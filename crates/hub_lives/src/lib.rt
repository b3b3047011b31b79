//! The servers that are live: which generation serves which server at which target, and where its life stands.
//! `Lives` keeps the leases of `server_life` and the lives under their generations in one piece (`AreApart`), and looks nothing up by a
//! walk over the live ones. The hub's machine stands above it.
#![tactic(auto)]

pub mod lives;

pub use lives::{Leased, Lives};
