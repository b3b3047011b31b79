//! One request at the guard of a server.
//! `guard_one` asks a hub whether the request's token admits to the server, and passes the request on exactly where the reply to that
//! one ask says so: its contract says what was asked, and that nothing is sent elsewhere. `guard_carry_one` does so too, and opens a tunnel
//! where the request asks for another protocol. The command `guard` and a browser's sign-in stand on this crate.
#![tactic(auto)]

pub mod access;
pub mod carrying;
pub mod denials;
pub mod guards;
