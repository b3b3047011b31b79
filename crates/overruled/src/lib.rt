//! What a store keeps otherwise than the file of configuration says it, where the kept row stays as it is: the members of a group, and
//! that a user is an admin.
#![tactic(auto)]

pub mod kept;
