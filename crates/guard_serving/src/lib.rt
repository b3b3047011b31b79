//! The command `guard`: a listener's connections, each passed on to one server where a hub admits it.
//! The contract of `run` carries it: by the words, and the secret in the file that they may name, it writes `ready`, takes connections
//! until the listener fails, and tells how many they were and how it ended. As many servings as it counts were made by guards of the
//! words' server and target, or of the door that the secret opens. `run_told` asks besides that the listener is for the words' address and
//! each link for their hub. The program stands above it.
#![tactic(auto)]

mod command;
mod ends;
mod guards;
mod hiring;
mod kit;
mod secret;
mod serving;
mod sign_in_guard;
mod token_guard;

pub use command::{run, run_told};
pub use ends::{GuardEnd, GuardFault};
pub use guards::Guards;
pub use kit::GuardKit;
pub use sign_in_guard::SignInGuard;
pub use token_guard::TokenGuard;
