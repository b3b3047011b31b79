//! A command and its matches, as `clap` has them: what the words of all commands have in common. An argument has a text for people, which
//! changes nothing of what is read: contracts speak of rules, which have none.
ghost use Rattle.std.specs.Prelude.{◌≡◌, ◌≢◌, true, false, [], map, IfOk, IfErr, OnOk, option_map};
ghost use Rattle.clap.specs.Faults.{fault_of, is_simple_and_free};
ghost use Rattle.clap.specs.Matches.{found_of};
ghost use Rattle.clap.specs.Simple.{App, app_of, is_simple, matches_of, new_app, with_rule};
ghost use Rattle.clap.specs.Walk.{first_of, rows_of, rule_of};
ghost use Rattle.hub_words.specs.Commands.{Makes};
ghost use Rattle.hub_words.specs.Commands as spec;

use crate::word_error::WordError;
use clap::error::ErrorKind;
use clap::{Arg, ArgAction, ArgMatches, Command};
use hub_kit::text::Text;
use std::alloc::{AllocError, Global};

/// Whether the first word is this one.
pub(crate) fn begins(words: &[Text], name: &str) -> bool
    ensures { result ≡ spec.begins name.now words.now }
{
    match words {
        [first, ..] => first.as_str() == name,
        [] => false,
    }
}

/// The words as `clap` takes them.
pub(crate) fn texts_of<'a>(alloc: Global, words: &'a [Text]) -> Result<Vec<&'a str>, AllocError>
    ensures { IfOk result (λ texts. map (λ s. s.now) texts.items ≡ words.entry.now) }
{
    let mut texts = Vec::new(alloc);
    for word in words {
        texts.push(word.as_str())?;
    }
    Ok(texts)
}

/// A command without arguments, and what it is for.
pub(crate) fn begun<'a>(
    alloc: Global,
    name: &'a str,
    about: &'a str,
) -> Result<Command<'a>, AllocError>
    ensures { Makes (new_app name.entry.now) result }
{
    Ok(Command::new(alloc, name).about(about))
}

/// Adds an argument to a command.
fn with<'a>(command: Command<'a>, arg: Arg<'a>) -> Result<Command<'a>, AllocError>
    requires { arg.global ≡ false }
    ensures { IfOk result (λ r. app_of r ≡ with_rule (app_of command.entry) (rule_of arg.entry)) }
{
    command.arg(arg)
}

/// Adds an argument, if there is a command.
fn add<'a>(
    command: Result<Command<'a>, AllocError>,
    arg: Arg<'a>,
) -> Result<Command<'a>, AllocError>
    requires { arg.global ≡ false }
    ensures { (app : App) → Makes app command.entry → Makes (with_rule app (rule_of arg.entry)) result }
{
    match command {
        Ok(command) => with(command, arg),
        Err(error) => Err(error),
    }
}

/// Adds an argument that is found by its place.
pub(crate) fn positional<'a>(
    alloc: Global,
    command: Result<Command<'a>, AllocError>,
    id: &'a str,
    text: &'a str,
) -> Result<Command<'a>, AllocError>
    ensures { (app : App) → Makes app command.entry → Makes (with_rule app (spec.positional_rule id.entry.now)) result }
{
    add(command, Arg::new(alloc, id).help(text).required(true))
}

/// Adds an option without a value.
pub(crate) fn flag<'a>(
    alloc: Global,
    command: Result<Command<'a>, AllocError>,
    id: &'a str,
    text: &'a str,
) -> Result<Command<'a>, AllocError>
    ensures { (app : App) → Makes app command.entry → Makes (with_rule app (spec.flag_rule id.entry.now)) result }
{
    add(
        command,
        Arg::new(alloc, id)
            .help(text)
            .long(id)
            .action(ArgAction::SetTrue),
    )
}

/// Adds an option with a value, which may lack. `value` is what people call the value.
pub(crate) fn choice<'a>(
    alloc: Global,
    command: Result<Command<'a>, AllocError>,
    id: &'a str,
    value: &'a str,
    text: &'a str,
) -> Result<Command<'a>, AllocError>
    ensures { (app : App) → Makes app command.entry → Makes (with_rule app (spec.choice_rule id.entry.now)) result }
{
    add(
        command,
        Arg::new(alloc, id).help(text).value_name(value).long(id),
    )
}

/// Adds an option with a value, which has to be there.
pub(crate) fn needed_choice<'a>(
    alloc: Global,
    command: Result<Command<'a>, AllocError>,
    id: &'a str,
    value: &'a str,
    text: &'a str,
) -> Result<Command<'a>, AllocError>
    ensures { (app : App) → Makes app command.entry → Makes (with_rule app (spec.needed_choice_rule id.entry.now)) result }
{
    add(
        command,
        Arg::new(alloc, id)
            .help(text)
            .value_name(value)
            .long(id)
            .required(true),
    )
}

/// The matches of the words, the first of which `clap` takes for the program's name.
pub(crate) fn matches_in<'a>(
    command: Command<'a>,
    words: &'a [&'a str],
) -> Result<ArgMatches<'a>, WordError>
    requires free { is_simple_and_free (app_of command) ≡ true }
    requires simple { is_simple (app_of command) ≡ true }
    ensures taken { OnOk result (fault_of (app_of command.entry) (map (λ s. s.now) words.entry.now) ≡ []) }
    ensures rows { IfOk result (λ m. rows_of (found_of m) ≡ matches_of (app_of command.entry) (map (λ s. s.now) words.entry.now)) }
    ensures err { IfErr result (λ e. e ≡ WordError.Refused → fault_of (app_of command.entry) (map (λ s. s.now) words.entry.now) ≢ []) }
{
    match command.try_get_matches_from(words) {
        Ok(matches) => Ok(matches),
        Err(error) => {
            if error.kind() == ErrorKind::OutOfMemory {
                Err(WordError::Memory)
            } else {
                Err(WordError::Refused)
            }
        }
    }
}

/// The value of an argument.
pub(crate) fn value_in<'a>(matches: &ArgMatches<'a>, id: &str) -> Option<&'a str>
    ensures { option_map (λ s. s.now) result ≡ first_of id.now (rows_of (found_of matches.now)) }
{
    matches.get_str(id)
}

/// Whether a flag is given.
pub(crate) fn is_given(matches: &ArgMatches, id: &str) -> bool
    ensures { result ≡ spec.is_given id.now (rows_of (found_of matches.now)) }
{
    match value_in(matches, id) {
        Some(text) => text == "true",
        None => false,
    }
}
