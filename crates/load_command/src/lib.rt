//! The command `load` over the system's standard output.
//! What it does is the contract of `hub_loading::run::run`; it adds what is said to people on standard error, of which no contract speaks.
//! The program `hub` stands above.
#![tactic(auto)]

use hub_edge::output::{Output, say};
use hub_kit::text::Text;
use hub_loading::run::{End, run, status_of};
use std::process::ExitCode;
use std::sync::Wait;

/// Runs the command `load` with these words.
pub fn load<W: Wait>(rt: HostRuntime, wait: &W, words: &[Text]) -> ExitCode {
    let mut output = Output::new(rt);
    let end = run(wait, rt.alloc(), words, &mut output);
    let status = status_of(end);
    match end {
        End::Done => ExitCode::from(status),
        End::BadWords => say(
            &rt,
            status,
            "usage: hub load SEED N, with SEED up to 65536 and N from 1 to 20000",
        ),
        End::NoOutput => say(&rt, status, "standard output couldn't be written"),
        End::Memory => say(&rt, status, "there is no memory"),
        End::HashKept(_) => say(&rt, status, "two tokens have one hash"),
    }
}
