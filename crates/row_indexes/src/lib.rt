//! How rows are found besides by their own keys: by an owner, by a member or by a hash, whatever kind of rows they are.
//! `grouped::keys_of` walks over the keys of one owner, which stand together in their tree. An index of `owned` keeps the keys of rows
//! under their owners, one of `members` those of rows under each member that a row lists, and one of `hashed` the ids of rows under their
//! hashes. Each finds what a scan over all rows finds, which `keys_with` and `row_of_hash` say. The tables of the hub find tokens,
//! servers, shares, share codes, groups and roles by them.
#![tactic(auto)]

pub mod grouped;
pub mod hashed;
pub mod members;
pub mod numbers;
pub mod owned;
pub mod servers;
