//! The command `proxy`: connections forwarded by their paths, and the interface of the routes beside them.
//! The contract of `serve_proxy` carries it: it writes `ready`, takes the connections of two listeners, each until it fails, and tells how
//! many each of them gave and why no more. What one serving does is `served` of `Forwarder` and of `ApiServer`; the connections of the one
//! listener were served so by forwarders with the kits, and those of the other by servers with the clocks and the secret. All of these
//! began with the same pass of a table without routes. `serve_words` asks besides that each listener is for its address of the words. The
//! program stands above it.
#![tactic(auto)]

mod api_server;
mod ends;
mod forwarder;
mod hiring;
mod serving;

pub use api_server::ApiServer;
pub use ends::{ProxyEnd, ProxyFault};
pub use forwarder::{Forwarder, ProxyKit};
pub use serving::{serve_proxy, serve_words};
