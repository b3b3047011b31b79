//! The names of scopes: the actions of the fixed table, the custom scopes that a deployment declares, and what each covers.
//! `ScopeTable` carries it: `covers` and `covered` are the closure of the table and of the declared rows, and `new` refuses
//! exactly the rows that make no table. Filters, grants and the tables of the hub stand on these names.
#![tactic(auto)]

pub mod action;
mod coverage;
pub mod custom;
pub mod table;
