//! Copies in memory of a hub's file and of the log beside it, of one moment, also while a hub has the two: nothing on the disk is changed,
//! locked or made.
//! The contract of `alone::stand_alone` carries it: one file that stands alone has the database of the two. `check_command` and
//! `backup_command` stand above.
#![tactic(auto)]

pub mod alone;
pub mod copies;
pub mod copy_error;
mod filled;
pub mod keeping;
