//! Addresses `HOST:PORT`, where a hub and a proxy listen.
//! `address::read_address` carries it: it takes exactly the texts that `specs/Addresses.antt` defines. The words of commands and the file
//! of configuration stand above it.
#![tactic(auto)]

pub mod address;
