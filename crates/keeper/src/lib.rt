//! What keeps the hub's rows and the entries of its history: the traits of both, and each of them in memory.
//! `Keeper::commit` carries it: a batch is done whole or not at all, and a failure comes only with a risen count of faults.
//! The texts of records stand above it, and so do the keeper over a database and the machine of the hub.
#![tactic(auto)]

pub mod cost;
mod held_rows;
pub mod keeper;
pub mod mem_keeper;
pub mod past;
mod row_key;
pub mod trail;
