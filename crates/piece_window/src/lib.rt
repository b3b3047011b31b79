//! A buffer of a fixed size, for bytes that pass through a proxy.
//! `fill_window` takes bytes of a client, those that were kept behind a head first, and `receive_window` those of an
//! upstream, straight into the room that is left. Neither takes memory, so that nothing but a device can fail once a reply is
//! on its way. Bodies are passed on through it. `Rooms` are the buffers of a worker, made once and cleared where a request begins.
#![tactic(auto)]

pub mod rooms;
pub mod window;
