//! The targets of a proxy's routes over the system's sockets, and a listener whose connections may become tunnels.
//! `SocketUpstream` is an `Upstream`: no clause can say what its peers give or take, so it counts its faults and tells no bytes. So it is
//! read in the code that a head which is sent goes out with the bytes behind it, in one write. A proxy's program makes one for each worker.
//! `TunnelListener` tells its address and how many connections it gave, and both sides of each have its number.
#![tactic(auto)]

mod sides;
mod socket_upstream;
mod tunnel_listener;

pub use sides::{CallerSource, TunnelSink, TunnelSource};
pub use socket_upstream::SocketUpstream;
pub use tunnel_listener::TunnelListener;
