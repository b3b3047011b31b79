//! The words of the hub's commands, a module and a struct for each command.
//! The contract of each reader, as `session::read_session`, carries it: words are read as their definition says, or refused. The commands
//! have texts for people, too, of which no contract speaks. `hub_main`, `hub_serving`, `guard_serving`, `hub_culling`, `hub_loading`,
//! `help_command` and the program's commands stand above.
#![tactic(auto)]

mod address;
pub mod backup;
pub mod check;
mod command;
pub mod cull;
mod from_word;
pub mod guard;
pub mod load;
pub mod proxy;
mod reading;
pub mod serve;
pub mod session;
pub mod table;
mod values;
pub mod word_error;
pub mod wrong;
