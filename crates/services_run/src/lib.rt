//! Services that the hub starts itself: started, restarted when they end, given up after five tries, and routed under `/services/NAME`.
//! The contract of `Services::tend` carries it: a round makes exactly the calls of the rules, and `services_law` says of any rounds that at
//! most one program of a service may run. The command `serve` stands above, which tends its services after each connection.
#![tactic(auto)]

pub mod calls;
pub mod laws;
pub mod mem_running;
pub mod paths;
pub mod place;
mod placing;
mod rounds;
pub mod running;
pub mod services;
mod visits;
