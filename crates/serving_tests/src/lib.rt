//! Tests of `serve` and `load` over devices in memory that are no rows of text: plans and statuses, the hub's own route, services that are
//! tended between connections, and what large jobs write. A crate of their own, since a crate that has tests is proved twice. Nothing
//! stands above it.
#![tactic(auto)]

#[cfg(test)]
mod check;
#[cfg(test)]
mod in_memory;
#[cfg(test)]
mod of_commands;
#[cfg(test)]
mod of_loads;
#[cfg(test)]
mod of_routes;
#[cfg(test)]
mod of_services;
