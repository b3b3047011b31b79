//! The outside of what asks a hub: the hub behind a socket, a proxy there, and the system's clock as a place to wait.
//! `SocketHub` and `SocketProxy` meet `hub_link::link::HubLink` and `SystemPause` meets `hub_culling::pause::Pause`. No clause can say
//! what a hub sends, so they count their faults, tell no content and are tested; `limits` says how long they may keep their caller waiting.
//! The commands that ask a hub stand on it in the program.
#![tactic(auto)]

pub mod hub;
pub mod limits;
pub mod pause;
pub mod proxy;
