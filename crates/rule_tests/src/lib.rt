//! Tests of the crates below the machine: what no clause can say, with values from outside.
//! A crate of their own, since a crate that has tests is proved twice, and one crate, since each program of tests has to be linked and
//! compiled. Nothing stands above it. The wire is tested by whole connections.
#![tactic(auto)]

#[cfg(test)]
mod check;
#[cfg(test)]
mod of_desk;
#[cfg(test)]
mod of_hub_devices;
#[cfg(test)]
mod of_hub_kit;
#[cfg(test)]
mod of_hub_tables;
#[cfg(test)]
mod of_keeper_sqlite;
#[cfg(test)]
mod of_kept_rows;
#[cfg(test)]
mod of_record_texts;
#[cfg(test)]
mod of_roles;
#[cfg(test)]
mod of_scopes;
#[cfg(test)]
mod of_server_life;
