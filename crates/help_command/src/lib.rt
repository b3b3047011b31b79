//! What people are told who ask for help or for the version, and who give words that no command takes: what is wrong with them, which word
//! is the nearest, and where help is. The texts are those of the very commands that words are read by.
//! Its contract says that right words are never told of; no contract speaks of the texts. The program `hub` stands above.
#![tactic(auto)]

mod refused;
mod version;

ghost use Rattle.std.specs.Prelude.{IfSome};
ghost use Rattle.help_command.specs.Refused.{AreRefused};

use crate::refused::are_refused;
use crate::version::version_text;
use clap::error::ErrorKind;
use clap::{ArgMatches, Error};
use hub_edge::output::say;
use hub_kit::text::Text;
use hub_words::table::all_commands;
use hub_words::wrong::wrong_value;
use std::alloc::{AllocError, Global};
use std::process::ExitCode;

/// The words as they are typed, behind the program's name.
fn typed<'a>(alloc: Global, words: &'a [Text]) -> Result<Vec<&'a str>, AllocError> {
    let mut typed = Vec::new(alloc);
    typed.push("hub")?;
    for word in words {
        typed.push(word.as_str())?;
    }
    Ok(typed)
}

/// Prints a message: help and the version on standard output, with status 0, and what is wrong on standard error, with status 2.
fn print(rt: &HostRuntime, message: &Error) -> ExitCode {
    let printed = message.print(rt);
    if message.use_stderr() {
        ExitCode::from(2)
    } else if printed.is_err() {
        say(rt, 6, "writing the output failed")
    } else {
        ExitCode::from(0)
    }
}

/// What stands before the name of an argument where it is an option: the others have names in capitals.
fn dashes(name: &str) -> &'static str {
    match name.as_bytes() {
        [b'A'..=b'Z', ..] => "",
        _ => "--",
    }
}

/// Says which value of a command's words is wrong, where nothing else is.
fn say_value(rt: &HostRuntime, matches: &ArgMatches) -> Result<ExitCode, AllocError> {
    let Some((command, matches)) = matches.subcommand() else {
        return Ok(say(rt, 2, "these are the words of no command: see `hub help`"));
    };
    let _ = match wrong_value(rt.alloc(), command, matches)? {
        Some(name) => {
            let name = name.as_str();
            let dashes = dashes(name);
            eprintln!(rt; "hub: {dashes}{name} doesn't take this value: see `hub help {command}`")
        }
        None => { eprintln!(rt; "hub: these are not its words: see `hub help {command}`") }
    };
    Ok(ExitCode::from(2))
}

/// Says what these words ask for, or what is wrong with them.
fn tell(rt: &HostRuntime, words: &[Text]) -> Result<ExitCode, AllocError> {
    let alloc = rt.alloc();
    let typed = typed(alloc, words)?;
    let version = version_text(rt)?;
    let command = all_commands(alloc, version.as_str())?;
    match command.try_get_matches_from(typed.as_slice()) {
        Ok(matches) => say_value(rt, &matches),
        Err(error) if error.kind() == ErrorKind::OutOfMemory => Err(AllocError),
        Err(error) => Ok(print(rt, &error)),
    }
}

/// Says what these words ask for, or what is wrong with them, where each command refuses them; nothing where a command takes them.
pub fn told(rt: &HostRuntime, words: &[Text]) -> Option<ExitCode>
    ensures { IfSome result (λ code. AreRefused words.now) }
{
    if !are_refused(rt.alloc(), words) {
        return None;
    }
    match tell(rt, words) {
        Ok(code) => Some(code),
        Err(_) => Some(say(rt, 7, "there is no memory")),
    }
}
