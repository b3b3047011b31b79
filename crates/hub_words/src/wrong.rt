//! Which value of a command's words isn't one that it takes, for what people are told. No contract speaks of it: the command's own reader
//! says at which argument it stopped.
use crate::reading::CommandWords;
use crate::table::{OverCommands, over_all};
use crate::word_error::NoValue;
use clap::ArgMatches;
use hub_kit::text::Text;
use std::alloc::{AllocError, Global};

/// The argument at which the reader of the command with this name stops, once that command was met.
#[derive(Drop)]
struct Stop<'n, 'm, 'a> {
    name: &'n str,
    matches: &'m ArgMatches<'a>,
    at: Option<Text>,
}

/// The argument at which a reader stops, if it does.
fn stop_of<W: CommandWords>(alloc: Global, matches: &ArgMatches) -> Option<Text> {
    match W::of(alloc, matches) {
        Err(NoValue::Wrong(id)) => Some(id),
        Ok(_) | Err(NoValue::Memory) => None,
    }
}

impl<'n, 'm, 'a> OverCommands for Stop<'n, 'm, 'a> {
    fn with<W: CommandWords>(self, alloc: Global) -> Result<Stop<'n, 'm, 'a>, AllocError> {
        let Stop { name, matches, at } = self;
        let command = W::command(alloc)?;
        let at = if command.get_name() == name {
            stop_of::<W>(alloc, matches)
        } else {
            at
        };
        Ok(Stop { name, matches, at })
    }
}

/// The argument of the command with this name whose value isn't of its form, or out of its limits.
pub fn wrong_value(
    alloc: Global,
    name: &str,
    matches: &ArgMatches,
) -> Result<Option<Text>, AllocError> {
    let stop = Stop {
        name,
        matches,
        at: None,
    };
    Ok(over_all(alloc, stop)?.at)
}
