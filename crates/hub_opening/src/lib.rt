//! What a hub begins with: the machine that a configuration makes of what a keeper has, and the rows that the keeper has then.
//! The contract of `open_machine` carries it: the state is the one that the configuration opens over the kept rows. A keeper that tells its
//! rows then has exactly those of that state, or those that it had where the opening is refused, and each refusal has its cause. The book
//! of `hub_core` stands above.
#![tactic(auto)]

mod adopting;
mod changed;
pub mod config;
mod configured;
mod generations;
mod loading;
pub mod open_error;
pub mod opening;
