//! The command `check`: whether a hub with this file of configuration would begin over these rows, and why not. It reads copies of the rows
//! in memory, so nothing changes on the disk, also where a hub runs.
//! The contract of `checked::check_over` carries it: it ends for the causes that `serve` and `session` end for, and for no others. The
//! system's devices and what is said to people have no contract. The program `hub` stands above.
#![tactic(auto)]

pub mod checked;
mod places;
mod telling;

use crate::checked::{check_over, status_of};
use crate::places::CopyPlaces;
use crate::telling::{say_memory, say_words, tell};
use hub_devices::clock::Clock;
use hub_edge::clock::SystemClock;
use hub_edge::files::SystemFiles;
use hub_kit::text::Text;
use hub_store::store::Store;
use hub_words::check::{CheckWords, read_check};
use hub_words::word_error::WordError;
use keeper::mem_keeper::MemKeeper;
use std::process::ExitCode;

/// The check that these words ask for.
fn check_words(rt: HostRuntime, words: &CheckWords) -> ExitCode {
    let alloc = rt.alloc();
    let Ok(own) = MemKeeper::new(alloc, Vec::new(alloc), Vec::new(alloc)) else {
        return say_memory(&rt);
    };
    let mut files = SystemFiles::new(rt);
    let now = SystemClock::new(rt).now();
    let store = Store::new(own, CopyPlaces::new(rt));
    let (end, store) = check_over(alloc, words, &mut files, store, now);
    let refusal = store.places().refusal();
    drop(store);
    let code = tell(&rt, words, &files, refusal, &end, status_of(&end));
    drop(end);
    code
}

/// Runs the command `check` with these words over the system's files and clock.
pub fn check(rt: HostRuntime, words: &[Text]) -> ExitCode {
    match read_check(rt.alloc(), words) {
        Ok(words) => {
            let code = check_words(rt, &words);
            drop(words);
            code
        }
        Err(WordError::Refused) => say_words(&rt),
        Err(WordError::Memory) => say_memory(&rt),
    }
}
