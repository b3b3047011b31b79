//! The rules of the calls on users, servers, groups, services and roles: which rows a call changes, or the first rule that refuses it.
//! Each call carries it: it says exactly the answer of its definition (`Says`), a plain function of the state. What a deletion
//! takes along is `user_rows`, `group_rows`, `service_rows` and `server_rows` of Purges. The machine of the hub stands on it.
#![tactic(auto)]

pub mod groups;
mod of_groups;
mod of_servers;
mod of_services;
mod of_users;
mod purges;
pub mod refusals;
pub mod roles;
mod rows;
pub mod servers;
pub mod services;
pub mod users;
