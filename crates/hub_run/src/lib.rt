//! Connections: requests in, replies out, over one desk that many connections share.
//! The contract of `serve_connection` carries it: the sink gets exactly the replies to the requests at the front of the bytes that were
//! taken, however they are cut. Each reply is that of the book at its place in the one history. Programs stand above.
#![tactic(auto)]

mod answering;
mod connection;
mod laws;
mod routed;
mod served;
mod turn;
mod visit;
mod works;
mod written;

pub use connection::{REPLY_LIMIT, serve_connection};
pub use hub_core::kit::HubKit;
pub use laws::{
    a_503_is_counted, a_connection_gains_what_its_turns_gain, a_removed_token_is_turned_away,
    a_request_gets_its_turn, a_request_without_faults_is_served, a_visited_request_gets_its_answer,
    only_work_makes_calls,
};
pub use served::Served;
