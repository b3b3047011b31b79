//! One turn, one history: many passes, each on a thread of its own, share one book through a desk.
//! The contract of `Desk::visit` carries it: under the turn the job acts once, on a book whose history begins with all that the pass had
//! seen. So does that of `Desk::close`, which gives the book back at the end, with exactly that history to a pass that is alone. The
//! machine makes its book `Booked` and its calls `Job`s; connections and workers each hold a pass.
#![tactic(auto)]

pub mod booked;
pub mod desk;
mod plays;
mod sleepers;
mod steps;
mod turn;

pub use booked::{Booked, Job};
pub use desk::{Desk, Pass};
