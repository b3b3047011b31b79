//! The proxy's table of routes: which target serves a path.
//! A row stands for each path that has a route or a seen serial, in the order of the paths' decoded segments. Each row stands behind a
//! pointer, so that an addition in front moves pointers alone. `Routes::find` answers the listed route whose segments are the longest
//! prefix of the path's, and takes no memory. `add` and `delete` change the table as a finite map from segments to rows, and refuse exactly
//! by the path, the serials and the limit; `Lookup` is what a proxy asks. The proxy's API and its forwarding stand on these.
#![tactic(auto)]

pub mod extra;
pub mod laws;
mod lists;
pub mod lookup;
mod lookups;
pub mod path;
pub mod route;
pub mod routes;
mod row;
mod rows;
mod search;
mod serials;
