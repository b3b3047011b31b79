//! How the words of a command are read, whichever command it is.
ghost use Rattle.std.specs.Prelude.{◌≡◌, true, List, Option};
ghost use Rattle.clap.specs.Faults.{is_simple_and_free};
ghost use Rattle.clap.specs.Matches.{found_of};
ghost use Rattle.clap.specs.Simple.{App, is_simple};
ghost use Rattle.clap.specs.Walk.{Row, rows_of};
ghost use Rattle.hub_words.specs.Arguments.{Reads};
ghost use Rattle.hub_words.specs.Commands.{Answers, Makes, read_by};

use crate::command::{begins, matches_in, texts_of};
use crate::word_error::{NoValue, WordError};
use clap::{ArgMatches, Command};
use hub_kit::text::Text;
use std::alloc::{AllocError, Global};

/// What the words of a command say.
pub(crate) trait CommandWords: Drop {
    /// The command.
    ghost app: { App };

    /// What its matches say.
    ghost says: { List Row → Option Self };

    fn command<'a>(alloc: Global) -> Result<Command<'a>, AllocError>
        ensures { Makes app result };

    fn of(alloc: Global, matches: &ArgMatches) -> Result<Self, NoValue>
        ensures { Reads (says (rows_of (found_of matches.now))) result };
}

/// What is said of the words where their matches were read so.
fn of_matches<W: Drop>(read: Result<W, NoValue>) -> Result<W, WordError>
    ensures { (meaning : Option W) → Reads meaning read → Answers meaning result }
{
    match read {
        Ok(words) => Ok(words),
        Err(NoValue::Wrong(_)) => Err(WordError::Refused),
        Err(NoValue::Memory) => Err(WordError::Memory),
    }
}

/// Reads the words of a command, the first of which is its name.
pub(crate) fn read<W: CommandWords>(
    alloc: Global,
    name: &str,
    words: &[Text],
) -> Result<W, WordError>
    requires free { is_simple_and_free W.app ≡ true }
    requires simple { is_simple W.app ≡ true }
    ensures { Answers (read_by name.now W.app W.says words.now) result }
{
    if !begins(words, name) {
        return Err(WordError::Refused);
    }
    let Ok(texts) = texts_of(alloc, words) else {
        return Err(WordError::Memory);
    };
    let Ok(command) = W::command(alloc) else {
        return Err(WordError::Memory);
    };
    match matches_in(command, texts.as_slice()) {
        Ok(matches) => of_matches(W::of(alloc, &matches)),
        Err(error) => Err(error),
    }
}
