//! The ground of the hub: texts, lists, names, moments, hashes and targets.
//! Each reader is a function of the bytes: `read_user` and its kin answer exactly what the grammar says, with the place
//! of the first bad byte. Everything else stands on these types; the devices of the outside are in `hub_devices`.
#![tactic(auto)]

pub mod bytes;
pub mod hashes;
pub mod key;
pub mod list;
pub mod moment;
pub mod moments;
pub mod names;
pub mod short_text;
pub mod target;
pub mod targets;
pub mod text;
