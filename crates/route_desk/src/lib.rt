//! One table of routes that many threads ask.
//! The contract of `Router` carries it: each look-up and each call of the API is one step on the table that all steps before it left, and
//! that history begins with all that its pass had seen. The table is held for the step alone. A proxy's workers and its API stand on it.
#![tactic(auto)]

mod jobs;
mod past;
mod route_book;
mod router;
mod step;

pub use route_book::RouteBook;
pub use router::{Router, open};
pub use step::Step;
