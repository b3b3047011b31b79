//! Tests of a proxy and a guard over devices in memory that are no rows of text. Tunnels and requests that are carried have their threads;
//! both commands end with their callers; a hub asks a proxy for its routes. A crate of their own, since a crate that has tests is proved
//! twice. Nothing stands above it.
#![tactic(auto)]

#[cfg(test)]
mod caller;
#[cfg(test)]
mod check;
#[cfg(test)]
mod mem_carrier;
#[cfg(test)]
mod of_carry;
#[cfg(test)]
mod of_guard_command;
#[cfg(test)]
mod of_proxy;
#[cfg(test)]
mod of_proxy_command;
#[cfg(test)]
mod of_routes;
#[cfg(test)]
mod of_tunnel;
