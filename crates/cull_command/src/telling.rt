//! What the culler says on standard error: why it ended before its last round.
use crate::system::System;
use hub_culling::cause::{Cause, End};
use hub_culling::world::Outside;
use hub_edge::output::say;
use hub_kit::text::Text;
use std::io::ErrorKind;
use std::process::ExitCode;

const USAGE: &str =
    "hub cull --hub T --token-file F [--timeout S] [--max-age S] [--cull-users] [--remove-named-servers] [--cull-every S] [--rounds N]";

pub(crate) fn say_memory(rt: &HostRuntime) -> ExitCode {
    say(rt, 7, "there is no memory")
}

pub(crate) fn say_words(rt: &HostRuntime) -> ExitCode {
    let _ = eprintln!(rt; "hub: {}: {USAGE}", Cause::Words);
    ExitCode::from(2)
}

/// Why the file of the token wasn't read.
fn file_cause(outside: &Outside<System>) -> &'static str {
    match outside.files.cause() {
        Some(ErrorKind::NotFound) => "there is no such file",
        Some(ErrorKind::PermissionDenied) => "it may not be read",
        Some(ErrorKind::InvalidInput) => "it is no regular file",
        _ => "reading it failed",
    }
}

/// Says why the command ended before its last round, if it did.
pub(crate) fn tell(rt: &HostRuntime, token_file: &Text, outside: &Outside<System>, end: End) {
    let Err(cause) = end else {
        return;
    };
    let _ = match cause {
        Cause::NoFile => {
            let name = token_file.as_str();
            let why = file_cause(outside);
            eprintln!(rt; "hub: {cause}: {name}: {why}")
        }
        Cause::NoToken => {
            let name = token_file.as_str();
            eprintln!(rt; "hub: {cause}: {name}")
        }
        _ => eprintln!(rt; "hub: {cause}"),
    };
}
