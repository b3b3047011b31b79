//! A reply as bytes (RFC 9112): its status line, its headers and its body. The contract of `reply_text` carries it: its bytes are exactly
//! those of the definition. What a reply says is given by `hub_machine`, or by `hub_api` where no call was asked; `hub_run` writes these
//! texts.
#![tactic(auto)]

mod replies;

pub use replies::{NO_MEMORY, no_memory, reply_text};
