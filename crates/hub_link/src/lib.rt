//! A hub that is asked: the trait `HubLink`, one in memory, and the reading of a reply.
//! `HubLink::ask` gives the reply to one request, or fails where its count of faults rose. `read_reply` answers the status and
//! the body exactly where bytes are one whole reply, and `reply_is_one` says that they are at most one. `uncode` makes of a reply
//! in chunks the same reply by its length, and refuses every other coding. A guard and a culler stand on these.
#![tactic(auto)]

pub mod chunked;
pub mod coded;
pub mod codings;
pub mod laws;
pub mod link;
pub mod mem_link;
pub mod replies;
