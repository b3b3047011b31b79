//! What a large job asks a hub: the numbers that it draws, the tokens of its users, its requests, and the posts of all users.
//! The contract of `post_all` carries it: the hub was asked exactly the posts of the first users, in order, and accepted each. The job
//! itself, over a hub in memory, stands above.
#![tactic(auto)]

pub mod asks;
pub mod hashes;
pub mod numbers;
pub mod posts;
pub mod requests;
