//! The words of the command `check`.
ghost use Rattle.std.specs.Prelude.{◌≡◌};
ghost use Rattle.hub_words.specs.Commands.{Answers};
ghost use Rattle.hub_words.specs.Check as spec;

use crate::command::{begun, choice, needed_choice};
use crate::from_word::{both, needed, optional};
use crate::reading::{CommandWords, read};
use crate::word_error::{NoValue, WordError};
use clap::{ArgMatches, Command};
use hub_kit::text::Text;
use std::alloc::{AllocError, Global};

/// What people are told of the command and of its words.
const ABOUT: &str = "Tells whether serve would start, and changes nothing";

const CONFIG: &str = "The file of configuration";

const DB: &str = "The SQLite file of the rows, read alone [default: no rows]";

/// What the words of `check` say.
#[derive(Drop)]
pub struct CheckWords {
    /// The name of the file of configuration.
    pub config: Text,
    /// The name of the file with the rows.
    pub db: Option<Text>,
}

/// Reads the words `check --config F [--db F]`, of which `check` is the first.
pub fn read_check(alloc: Global, words: &[Text]) -> Result<CheckWords, WordError>
    ensures { Answers (spec.check_read words.now) result }
{
    read::<CheckWords>(alloc, "check", words)
}

impl CommandWords for CheckWords {
    ghost app = { spec.check_app };

    ghost says = { spec.check_of };

    fn command<'a>(alloc: Global) -> Result<Command<'a>, AllocError> {
        let command = begun(alloc, "check", ABOUT);
        let command = needed_choice(alloc, command, "config", "FILE", CONFIG);
        choice(alloc, command, "db", "FILE", DB)
    }

    fn of(alloc: Global, matches: &ArgMatches) -> Result<CheckWords, NoValue> {
        let values = both(
            needed::<Text>(alloc, matches, "config"),
            optional::<Text>(alloc, matches, "db"),
        );
        match values {
            Ok(values) => Ok(check_with(values)),
            Err(error) => Err(error),
        }
    }
}

/// The words of these values.
fn check_with(values: (Text, Option<Text>)) -> CheckWords
    ensures { result ≡ spec.check_with values }
{
    let (config, db) = values;
    CheckWords { config, db }
}
