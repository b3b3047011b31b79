//! A large job from a number: a hub in memory with as many users, each of whom asks about another, and comes to the guard of that
//! one's server. The contract of `load_job` carries it: the job made exactly these asks by one pass, in order, its history is exactly the
//! entries of their posts, and its counts are those of their replies. `run` writes the counts; the command `load` stands above.
#![tactic(auto)]

pub mod job;
pub mod lines;
pub mod rounds;
pub mod run;
mod setting;
