//! What a start and a stop of a server owe, done to the end: a call on a device, a visit to the desk with its outcome, and so on until
//! nothing is owed. The contract of `drive` carries it: the calls are exactly those owed, with what they told. The entries of the pass
//! are exactly the outcomes of these calls, each at its place in the one history. The turn is never held during a call. The connections
//! and the adoptions of the hub stand above.
#![tactic(auto)]

pub mod adopt;
pub mod book;
pub mod chain;
pub mod laws;
pub mod route;
pub mod tale;
pub mod work;
