//! The hub's commands: the words of a command line, a session over the outside that the program makes, and its exit status.
//! The contract of `run` carries it: a session is set up by its words and its file, opened over the rows of the chosen store, and is
//! served by `hub_adopt::adopt` and `hub_run::serve_connection`; the status is that of its end. The program `hub` stands above.
#![tactic(auto)]

pub mod cause;
pub mod configured;
pub mod end;
pub mod explain;
pub mod known_names;
pub mod laws;
pub mod opening;
mod refused_words;
pub mod run;
mod serving;
pub mod world;
