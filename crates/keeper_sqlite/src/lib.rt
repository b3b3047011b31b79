//! The hub's rows in a database of SQLite, in memory or in a file.
//! `SqliteKeeper` carries it: it is a `Keeper` that tells its rows of a store of this program, and whose refusals are counted
//! faults, but for want of memory.
//! The program's keeper stands above it, which takes a file where one is named.
#![tactic(auto)]

mod reading;
pub mod sqlite_keeper;
mod store;
