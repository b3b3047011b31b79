//! Heads as a proxy reads them and passes them on (RFC 9112).
//! `request_text` is the head of a request as it is sent on. `read_reply` reads the head of an upstream's reply, and skips interim heads.
//! It answers the reply's head as it is passed back and how long its body is, or that the upstream's bytes begin with no reply, whatever
//! follows. `request_framing` says how a request's body is framed, or why it is refused. The passing on of bodies and of whole requests
//! stand on these.
#![tactic(auto)]

pub mod framing;
mod given;
pub mod heads;
pub mod replies;
pub mod upgrades;
