//! The parts of a request that say what is asked: names in its path, values in its query, and members of its JSON body.
//! Each reader is its definition, exactly, want of memory aside: `read_in_path`, `query_value`, `body_object` and the readers
//! of its members, and `truth_in`, which makes no tree of most bodies. The interfaces that make calls of requests stand above.
#![tactic(auto)]

pub mod activity;
pub mod body;
pub mod from_text;
pub mod path;
pub mod query;
pub mod scopes;
pub mod truth;
