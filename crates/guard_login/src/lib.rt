//! Browser sign-in at a guard, by the authorization code grant (RFC 6749, section 4.1).
//! `login_one` takes one request: its asks and its bytes are those that `specs/Signed` gives as functions of the door, the head,
//! what the hub gave and the draw, and `sign_in_laws` says what these come to. A guard with a secret serves its requests by `enter_one`,
//! which does so too and carries upgrades.
#![tactic(auto)]

pub mod answers;
pub mod cookies;
pub mod door;
pub mod entries;
pub mod laws;
pub mod logins;
pub mod nexts;
pub mod queries;
pub mod steps;
pub mod texts;
