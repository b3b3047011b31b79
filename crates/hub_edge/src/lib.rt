//! The outside of the program: the system's sockets, clock, random source, files, programs and standard streams as the devices that
//! the hub asks. No clause can say what they give or take, so each counts its faults, tells no content and is tested. `limits` says how
//! long each of them may keep the hub waiting.
//! The program stands above it.
#![tactic(auto)]

pub mod clock;
mod commands;
pub mod connection;
pub mod ending;
pub mod files;
mod groups;
pub mod limits;
mod line;
pub mod listener;
mod marked;
pub mod output;
pub mod pending;
mod processes;
pub mod programs;
pub mod random;
pub mod routes;
mod sockets;
pub mod standard;
pub mod starting;
pub mod targets;
pub mod variables;
mod waiting;
