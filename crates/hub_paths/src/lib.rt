//! The paths of the hub's REST API, and which of them a text is. The contract of `path_of` carries it: it finds exactly the path whose
//! parts fit the segments of the text. What a request asks at its path is read by `hub_api`.
#![tactic(auto)]

mod paths;

pub use paths::{Path, path_of};
