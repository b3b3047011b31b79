//! The programs of services, started, asked and ended as those of single-user servers are.
//! No clause can say what they do, so `ServicePrograms` counts its faults, tells no calls and is tried over real programs. The command
//! `serve` stands above.
#![tactic(auto)]

pub mod programs;
