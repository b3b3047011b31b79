//! The store of the program: rows in a keeper of its own, and from the choice of a place on in the keeper at that place.
//! `Store` carries it: it is a `Keeper` that tells what the one of the two tells that has the rows. `FilePlaces` opens a file of
//! SQLite as the keeper at its name.
//! The program stands above it.
#![tactic(auto)]

pub mod command;
pub mod file_places;
pub mod places;
pub mod store;
