//! The tables of the hub: twelve kinds of rows, each a finite map from keys to rows.
//! `Tables` carries it: contracts see it as the record `State` of these maps, and each put and removal changes one row of
//! one map. The rights of owners, the tokens, the shares and the machine of the hub stand on it.
#![tactic(auto)]

pub mod boxed;
mod memberships;
mod owned;
mod parties;
pub mod tables;
mod trees;

pub use keyed_rows::PutError;
