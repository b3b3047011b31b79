//! The program's store in a thread of its own, for a hub whose workers are many threads.
//! `FarStore` carries it: it is a `Keeper` that puts each call into a mailbox, and waits until the thread that has the store has answered
//! it there. It tells the rows of that store as its answers tell them. `rows_are_the_stores` says so of what the mailbox keeps, and
//! `what_was_heard_was_made` that its answers are those of that store.
//! The command `serve` stands above it.
#![tactic(auto)]

mod caller;
pub mod calls;
mod ends;
pub mod far_store;
pub mod laws;
pub mod mailbox;
pub mod store_thread;
