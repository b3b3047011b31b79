//! The words of the command `load`.
ghost use Rattle.std.specs.Prelude.{◌≡◌};
ghost use Rattle.clap.specs.Matches.{found_of};
ghost use Rattle.clap.specs.Walk.{rows_of};
ghost use Rattle.hub_words.specs.Arguments.{Reads};
ghost use Rattle.hub_words.specs.Commands.{Answers};
ghost use Rattle.hub_words.specs.Load as spec;

use crate::command::{begun, positional};
use crate::from_word::{both, needed, wrong};
use crate::reading::{CommandWords, read};
use crate::values::within;
use crate::word_error::{NoValue, WordError};
use clap::{ArgMatches, Command};
use hub_kit::text::Text;
use std::alloc::{AllocError, Global};

/// What people are told of the command and of its words.
const ABOUT: &str = "Puts a hub in memory under a large load, to measure it";

const SEED: &str = "Which user each one asks for, by lot: 0 to 65536";

const N: &str = "How many users there are: 1 to 20000";

/// What the words of `load` say.
#[derive(Drop)]
pub struct LoadWords {
    /// 0 to 65,536.
    pub seed: u32,
    /// How many users there are: 1 to 20,000.
    pub users: u32,
}

/// Reads the words `load SEED N`, of which `load` is the first. Both are numbers of 1 to 20 decimal digits, SEED up to 65,536 and N
/// from 1 to 20,000.
pub fn read_load(alloc: Global, words: &[Text]) -> Result<LoadWords, WordError>
    ensures { Answers (spec.load_read words.now) result }
{
    read::<LoadWords>(alloc, "load", words)
}

/// SEED and N.
type LoadValues = (u64, u64);

impl CommandWords for LoadWords {
    ghost app = { spec.load_app };

    ghost says = { spec.load_of };

    fn command<'a>(alloc: Global) -> Result<Command<'a>, AllocError> {
        let command = begun(alloc, "load", ABOUT);
        let command = positional(alloc, command, "SEED", SEED);
        positional(alloc, command, "N", N)
    }

    fn of(alloc: Global, matches: &ArgMatches) -> Result<LoadWords, NoValue> {
        let values = both(
            needed::<u64>(alloc, matches, "SEED"),
            needed::<u64>(alloc, matches, "N"),
        );
        match values {
            Ok(values) => load_within(alloc, values),
            Err(error) => Err(error),
        }
    }
}

/// The words of these values, where they are within their bounds.
fn load_within(alloc: Global, values: LoadValues) -> Result<LoadWords, NoValue>
    ensures { Reads (spec.load_within values) result }
{
    let (seed, users) = values;
    let Some(seed) = within(seed, 0, 65536) else {
        return wrong(alloc, "SEED");
    };
    let Some(users) = within(users, 1, 20000) else {
        return wrong(alloc, "N");
    };
    Ok(LoadWords { seed, users })
}
