//! The hub: a thin main over its commands, each a crate of its own. `session` and `serve` take a file of SQLite where their words name one;
//! nothing is supposed of its first contents.
#![tactic(auto)]

use backup_command::backup;
use check_command::check;
use cull_command::cull;
use guard_command::guard;
use help_command::told;
use hub_edge::output::say;
use hub_edge::standard::{self, NoWords};
use hub_store::command::run_over_file;
use load_command::load;
use proxy_command::proxy;
use serve_command::serve;
use session_command::Session;
use sqlite::Unknown;
use std::alloc::AllocError;
use std::process::ExitCode;

/// The status of a command that needed memory for its store.
fn status(rt: HostRuntime, ran: Result<ExitCode, AllocError>) -> ExitCode {
    match ran {
        Ok(code) => code,
        Err(_) => say(&rt, 7, "there is no memory"),
    }
}

fn main(rt: HostRuntime) -> ExitCode {
    // a system without /dev/null is no reason not to run
    let _ = standard::keep_standard(&rt);
    let words = match standard::words(&rt) {
        Ok(words) => words,
        Err(NoWords::NoText) => return say(&rt, 2, "a word is no UTF-8"),
        Err(NoWords::Memory) => return say(&rt, 7, "there is no memory"),
    };
    let words = words.as_slice();
    if let Some(code) = told(&rt, words) {
        return code;
    }
    match words {
        [first, ..] if first.as_str() == "serve" => serve(rt, rt, words, Unknown),
        [first, ..] if first.as_str() == "check" => check(rt, words),
        [first, ..] if first.as_str() == "backup" => backup(rt, words),
        [first, ..] if first.as_str() == "proxy" => proxy(rt, &rt, words),
        [first, ..] if first.as_str() == "guard" => guard(rt, &rt, words),
        [first, ..] if first.as_str() == "cull" => cull(rt, words),
        [first, ..] if first.as_str() == "load" => load(rt, &rt, words),
        _ => status(rt, run_over_file(rt, Unknown, &Session::new(rt, words))),
    }
}
