//! Plays the rows of the files that end in `.rows` where it runs, or of those that its words name: tells each difference, and how many
//! rows there are and differ.
#![tactic(auto)]

mod apis;
mod calls;
mod connections;
mod ends;
mod files;
mod forwards;
mod given;
mod guards;
mod hub_links;
mod hubs;
mod rounds;
mod sessions;
mod word_lines;

use crate::files::{found_files, play_files};
use std::process::ExitCode;

fn main(rt: HostRuntime) -> ExitCode {
    let Ok(names) = found_files(&rt) else {
        return ExitCode::from(2);
    };
    let played = play_files(&rt, names.as_slice());
    drop(names);
    match played {
        Ok(0) => ExitCode::from(0),
        Ok(_) => ExitCode::from(1),
        Err(_) => ExitCode::from(2),
    }
}
