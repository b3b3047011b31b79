//! What each call answers that gives somebody access, once its caller may make it: the calls on the tokens of users, on shares, on
//! share codes, and of the authorization code grant. Each call has one function, whose one clause says that its answer is that of the
//! call's definition. The frame of `hub_core` asks them.
#![tactic(auto)]

mod answers;
pub mod code_calls;
pub mod grant_calls;
pub mod share_calls;
pub mod token_calls;
