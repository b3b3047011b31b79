//! The wire: requests of a stream of bytes (RFC 9112), and writing.
//! `read_request` answers what stands next on the bytes, however they are cut into reads, and `next_request_is_one` says
//! that no two things can; `write_all` writes all or says that the sink failed. The sessions of the hub, the proxy and the
//! guard stand on these.
#![tactic(auto)]

pub mod body;
pub mod buffer;
mod connection;
pub mod decimal;
pub mod due;
pub mod error;
mod fields;
mod front;
pub mod head;
pub mod heads;
pub mod laws;
mod place;
pub mod request;
pub mod requests;
mod target;
pub mod token;
mod words;
pub mod writes;
