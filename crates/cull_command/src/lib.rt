//! The command `cull` over the system's devices: a hub behind a socket, the system's files and clock, standard output.
//! What it does is the contract of `hub_culling::run::run`; it adds what is said to people on standard error, of which no contract speaks.
//! The program `hub` stands above.
#![tactic(auto)]

mod system;
mod telling;

use crate::system::outside;
use crate::telling::{say_memory, say_words, tell};
use hub_culling::cause::status_of;
use hub_culling::run::run;
use hub_kit::text::Text;
use hub_words::cull::{CullWords, read_cull};
use hub_words::word_error::WordError;
use std::process::ExitCode;

/// Runs the command `cull` with these words over the system's devices.
pub fn cull(rt: HostRuntime, words: &[Text]) -> ExitCode {
    match read_cull(rt.alloc(), words) {
        Ok(
            CullWords {
                hub,
                token_file,
                ..
            },
        ) => {
            let mut outside = outside(rt, hub);
            let end = run(rt.alloc(), words, &mut outside);
            tell(&rt, &token_file, &outside, end);
            drop(outside);
            ExitCode::from(status_of(end))
        }
        Err(WordError::Refused) => say_words(&rt),
        Err(WordError::Memory) => say_memory(&rt),
    }
}
