//! Tokens: whom a text finds, and what a new token is issued as. `find` gives exactly the id of the token that has the text's hash, or why
//! there is none; `issue` gives the token exactly as it was asked for, or the first rule that refuses it, and `keeping` what a new token
//! meets among those that are kept. All read the tables and change nothing: the calls of the hub make their rows of what is given here.
#![tactic(auto)]

pub mod finding;
pub mod issuing;
pub mod keeping;
