//! The devices of the outside: what the hub asks of sources, sinks, clocks and the like, and one of each in memory.
//! Each trait says what the device tells (as an option), what a call leaves, and that it fails only where its count of
//! faults rose: `Source::read` and `Sink::write` carry the wire, and every crate that meets the outside stands on these.
#![tactic(auto)]

pub mod call_log;
pub mod calls;
pub mod clock;
pub mod failing_calls;
pub mod files;
pub mod link_error;
pub mod listener;
pub mod listing;
pub mod mem_bytes;
pub mod mem_clock;
pub mod mem_files;
pub mod mem_listener;
pub mod mem_random;
pub mod mem_routes;
pub mod mem_spawner;
pub mod random;
pub mod route_link;
pub mod sink;
pub mod source;
pub mod spawner;
pub mod streams;
