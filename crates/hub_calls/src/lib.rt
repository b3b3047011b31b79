//! What each call of the hub answers, once its caller may make it: lists, bodies, and the changes of the rules.
//! Each call has one function, whose one clause says that its answer is that of the call's definition.
//! The frame of `hub_core` asks them.
#![tactic(auto)]

pub mod bodies;
pub mod facts;
pub mod group_calls;
mod lists;
pub mod proxy_calls;
pub mod role_calls;
mod ruled;
pub mod server_calls;
pub mod service_calls;
pub mod starts;
pub mod stops;
pub mod user_calls;
