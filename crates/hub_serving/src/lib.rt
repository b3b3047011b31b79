//! The command `serve`: a hub over its words and its file, which takes its running servers back, brings the proxy's routes into step, and
//! serves a listener's connections with the services of its file beside them. The contract of `run` carries it: the hub is set up by what
//! `read_plan` reads, opened over the rows of the chosen store, and serves by `hub_adopt::adopt`, `hub_sync::sync_routes` and
//! `hub_serve::serve`, through a listener of `service_doors`; its history has what taking the servers back and its connections gained, and
//! no more; the rows at the end are those of the history's last state, the line on the output tells how many connections were served, and
//! the status how it ended. The program `hub` stands above.
#![tactic(auto)]

pub mod end;
pub mod explain;
pub mod laws;
mod line;
pub mod plan;
pub mod run;
mod services;
mod serving;
pub mod world;
