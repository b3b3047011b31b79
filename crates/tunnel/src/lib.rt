//! Carries bytes both ways between the two ends of an upgraded connection.
//! `pump` carries one direction: its sink then holds exactly the bytes that were given first and those that its source gave,
//! as many as the number says, and is shut. `relay` runs both directions at once, and what it says of each doesn't depend on
//! the other. Nothing takes memory. A proxy's tunnels stand on it.
#![tactic(auto)]

pub mod ends;
pub mod gate;
pub mod pumps;
pub mod relays;
pub mod shuts;
