//! The REST API of a proxy: its table of routes is listed, added to and deleted from.
//! `api_one` answers one request: the refusals of the wire come first, then the token, the place and the method, then what the
//! call's query or body says, and then those of the table, whose calls it makes. A proxy serves its API by it, and a hub's
//! route link speaks to it.
#![tactic(auto)]

pub mod api;
pub mod calls;
pub mod entries;
mod floats;
pub mod listings;
pub mod queries;
pub mod service;
pub mod texts;
