//! The rules that kept rows keep among each other. The contract of `kept_tables` carries the crate: it gives the tables of all rows, or the
//! first row, in the order of kind and key, that breaks a rule, and its place.
//! What it takes, of which no clause speaks: time that grows with the number of rows and its logarithm alone.
//! The opening of a hub stands above it, and the rows that `kept_rows` has read are judged here.
#![tactic(auto)]

mod judged;
pub mod kept;
mod put;
mod seen;
mod standing;
