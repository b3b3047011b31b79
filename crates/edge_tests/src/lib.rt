//! Tests of the program's edge that are no rows of text: sockets, programs, files and variables of the system; the states of services and
//! the culler's command over devices in memory; replies of a hub. Nothing stands above this crate.
#![tactic(auto)]

#[cfg(test)]
mod check;
#[cfg(test)]
mod of_chunk_sockets;
#[cfg(test)]
mod of_chunks;
#[cfg(test)]
mod of_culling;
#[cfg(test)]
mod of_hub_sockets;
#[cfg(test)]
mod of_replies;
#[cfg(test)]
mod of_services;
#[cfg(test)]
mod programs;
#[cfg(test)]
mod sockets;
#[cfg(test)]
mod variables;
