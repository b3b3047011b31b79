//! The idle culler: which servers and users are culled, and one round that asks a hub for them.
//! `cull_list` is the list by its rules. `cull_round` reads the pages of users from the first to the one without a next page. Then it
//! asks exactly the deletions of that list, in its order. Or it says why it broke off; what it asked till then is the beginning of such a
//! round.
#![tactic(auto)]

pub mod deletions;
pub mod pages;
pub mod readings;
pub mod requests;
pub mod rounds;
pub mod rules;
pub mod views;
