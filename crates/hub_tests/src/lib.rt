//! Tests of hubs over devices in memory that are no rows of text. Many connections are served by several workers; two passes meet at one
//! server; servers of an earlier hub are adopted. Calls fail or messages come late, input is cut at each byte, and disks stop after each
//! call. Files of configuration are read or explained, and kept rows keep their rules or break one. A crate of their own, since a crate
//! that has tests is proved twice. Nothing stands above it.
#![tactic(auto)]

#[cfg(test)]
mod called;
#[cfg(test)]
mod check;
#[cfg(test)]
mod held_hubs;
#[cfg(test)]
mod hubs;
#[cfg(test)]
mod late_connections;
#[cfg(test)]
mod late_hubs;
#[cfg(test)]
mod of_adopt;
#[cfg(test)]
mod of_broken;
#[cfg(test)]
mod of_config;
#[cfg(test)]
mod of_disks;
#[cfg(test)]
mod of_failures;
#[cfg(test)]
mod of_late;
#[cfg(test)]
mod of_row_rules;
#[cfg(test)]
mod of_serve;
#[cfg(test)]
mod of_two_passes;
#[cfg(test)]
mod peers;
#[cfg(test)]
mod scene;
