//! Rights: what a user or a service may do by its roles and shares, and what a token may do within them.
//! `caller_grant` carries it: its grant admits an action on an object exactly where the token's owner may do it now and the token's
//! scopes say so. Every decision of the hub's machine stands on it.
#![tactic(auto)]

pub mod cache;
pub mod grants;
pub mod held;
mod laws;
pub mod naming;
mod received;

pub use laws::rights_come_from_their_sources;
