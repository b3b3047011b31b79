//! The routes of a proxy are brought into step with the servers of a hub.
//! The contract of `sync_routes` carries it: the routes are listed, and the book is visited once. Then the additions and deletions that
//! the state there lacks are made in their order, up to the first that fails. The calls on routes of a connection stand above.
#![tactic(auto)]

mod calls;
mod plan;
mod planning;
mod sync;

pub use calls::{RouteCall, SyncFault, Synced};
pub use sync::{sync_own_routes, sync_routes};
