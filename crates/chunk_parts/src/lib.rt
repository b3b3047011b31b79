//! Chunked bodies, part by part (RFC 9112, section 7.1).
//! `next_part` tells what stands next in one: a whole part and what comes behind it, the beginning of a part, or neither,
//! exactly by the grammar; it takes no memory. A law says that bytes which break a chunked body begin none, whatever follows.
//! The passing on of bodies stands on these, both ways.
#![tactic(auto)]

pub mod laws;
pub mod parts;
