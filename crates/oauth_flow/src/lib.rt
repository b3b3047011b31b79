//! The authorization code grant (RFC 6749, section 4.1): which client asks, what a code is made as, and what a code is traded for. Each
//! call carries it: it says exactly the value of its definition, or the first rule that refuses it, and changes nothing: the calls of the
//! hub make their rows of what is given here. A used code tells which token has to be revoked.
#![tactic(auto)]

pub mod asks;
pub mod clients;
pub mod codes;
pub mod trades;
