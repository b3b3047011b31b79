//! The state of the hub: its rows, its live servers, the length and the cost of its history, and how a change of it is carried out.
//! The contract of `Machine::enter` carries it: a change is done, kept and noted as `apply` says, or all is as it was. That of
//! `Machine::step` carries the lives of servers: an outcome is refused or taken as the life table says.
//! The calls (`hub_calls`) and the book (`hub_core`) stand on it.
#![tactic(auto)]

pub mod answer;
pub mod batch;
pub mod call;
mod carry;
pub mod change;
pub mod ends;
pub mod machine;
pub mod planned;
pub mod refusal;
pub mod reply;
pub mod step;
pub mod work;
