//! The command `cull`: rounds of the idle culler over a hub that is asked, one after the other, with a line for each.
//! The contract of `run` carries it: words that aren't the command's, and a file without a token, do nothing. Else the rounds are those
//! of `idle_culler::rounds::cull_round`, as many as the words say, each with its line and a wait before the next, till one of them breaks
//! off.
//! The status is that of the cause. The program stands above it.
#![tactic(auto)]

pub mod cause;
mod lines;
pub mod pause;
mod rounds;
pub mod run;
mod token;
pub mod world;
