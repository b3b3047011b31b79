//! The calls of the hub's REST API: a request becomes an asked call, or the first refusal that applies.
//! The contract of `read_call` carries it: it gives exactly what its definition says. Which path a text is stands below in `hub_paths`,
//! and the bytes of a reply in `reply_texts`; connections read requests by `http_wire` and ask these calls of `hub_core`.
#![tactic(auto)]

mod grants;
mod groups;
mod laws;
mod method;
mod parts;
mod reading;
mod refusal;
mod roles;
mod servers;
mod services;
mod sharing;
mod tokens;
mod users;

pub use laws::{
    a_named_user_is_asked, a_user_is_asked, a_version_is_asked, no_name_is_no_path,
    users_are_needed,
};
pub use reading::{draws, read_call};
pub use refusal::{ApiRefusal, no_draw_reply, refusal_reply, wire_refusal_reply};
