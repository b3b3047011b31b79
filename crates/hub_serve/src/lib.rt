//! Many connections: a listener's connections are served by several workers, over one desk that they share.
//! The contract of `serve` carries it: it is Ok exactly where as many connections were served as were asked. Else the listener's count of
//! faults rose or memory was wanting. Its tally tells how each connection that was given ended. The book has no entries but those that
//! the first pass had made of it and those that these connections gained. The command stands above.
#![tactic(auto)]

mod crew;
mod doors;
mod serves;
mod serving;
mod tally;
mod workers;

pub use serving::{ServeFault, serve};
pub use tally::{Connection, Seen, Shift, Tally};
