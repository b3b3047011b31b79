//! The file of configuration: one TOML table, in which every key is known and every value has its form.
//! `read_config` carries it: it reads exactly what `config_in` and `IsSound` say of the bytes, and refuses all others with the first rule
//! that they break, and its place. Beside it, outside any contract, `explain` puts that into words.
#![tactic(auto)]

pub mod config;
pub mod config_key;
mod custom;
pub mod explain;
pub mod fault;
mod forms;
mod managed;
mod people;
mod places;
pub mod reading;
pub mod setting;
