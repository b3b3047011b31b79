//! The command `serve` over the system's devices: sockets, programs of servers and services, the clock and random bytes, routes at a proxy,
//! and a store in a thread of its own.
//! What it does is the contract of `hub_serving::run`, over any store that the program can close; it adds a status where nothing could
//! begin, and lines on standard error that no contract speaks of.
//! The program `hub` stands above.
#![tactic(auto)]

mod announced;
mod paths;
mod services;
mod serving;
mod system;
mod telling;
mod watched;

pub use serving::serve;
