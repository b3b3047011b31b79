//! The command `session` over the system's devices: the standard streams, files and random bytes, and starts and routes in memory. What an
//! earlier hub left running it leaves alone.
//! What it does is the contract of `hub_main::run`, over any store that the program can close; it adds lines on standard error that no
//! contract speaks of. The streams, the files and the random bytes tell no content, so what the system gave and took isn't known.
//! The program `hub` stands above, and gives it its store.
#![tactic(auto)]

mod programs;
mod session;
mod system;
mod telling;

pub use session::Session;
