//! The words of the command `serve`.
ghost use Rattle.std.specs.Prelude.{◌≡◌};
ghost use Rattle.clap.specs.Matches.{found_of};
ghost use Rattle.clap.specs.Walk.{rows_of};
ghost use Rattle.hub_words.specs.Arguments.{Reads};
ghost use Rattle.hub_words.specs.Commands.{Answers};
ghost use Rattle.hub_words.specs.Serve as spec;

use crate::command::{begun, choice, flag, is_given, needed_choice};
use crate::from_word::{both, needed, optional, wrong};
use crate::reading::{CommandWords, read};
use crate::values::within;
use crate::word_error::{NoValue, WordError};
use clap::{ArgMatches, Command};
use hub_kit::text::Text;
use std::alloc::{AllocError, Global};

/// What people are told of the command and of its words.
const ABOUT: &str = "Runs a hub: answers its calls, starts servers and services";

const CONFIG: &str = "The file of configuration";

const DB: &str = "The SQLite file of the rows, made if need be [default: memory]";

const NO_TRAIL: &str = "Keeps no history of changes, which grows until it is full";

const WORKERS: &str = "How many connections are served at once: 1 to 16 [default: 4]";

const CONNECTIONS: &str = "Ends after so many connections [default: no end]";

/// What the words of `serve` say.
#[derive(Drop)]
pub struct ServeWords {
    /// The name of the file of configuration.
    pub config: Text,
    /// The place of the store.
    pub db: Option<Text>,
    /// Whether no trail is kept.
    pub no_trail: bool,
    /// How many connections are served at once: 1 to 16.
    pub workers: u32,
    /// After how many connections the hub ends.
    pub connections: u64,
}

/// Reads the words `serve --config F [--db F] [--no-trail] [--workers N] [--connections N]`, of which `serve` is the first. A number
/// has 1 to 20 decimal digits and fits a `u64`. The workers are 1 to 16, and 4 where they lack; the connections are as many as a
/// `u64` counts where they lack.
pub fn read_serve(alloc: Global, words: &[Text]) -> Result<ServeWords, WordError>
    ensures { Answers (spec.serve_read words.now) result }
{
    read::<ServeWords>(alloc, "serve", words)
}

/// The two texts, and the two numbers.
type ServeValues = ((Text, Option<Text>), (Option<u64>, Option<u64>));

impl CommandWords for ServeWords {
    ghost app = { spec.serve_app };

    ghost says = { spec.serve_of };

    fn command<'a>(alloc: Global) -> Result<Command<'a>, AllocError> {
        let command = begun(alloc, "serve", ABOUT);
        let command = needed_choice(alloc, command, "config", "FILE", CONFIG);
        let command = choice(alloc, command, "db", "FILE", DB);
        let command = flag(alloc, command, "no-trail", NO_TRAIL);
        let command = choice(alloc, command, "workers", "N", WORKERS);
        choice(alloc, command, "connections", "N", CONNECTIONS)
    }

    fn of(alloc: Global, matches: &ArgMatches) -> Result<ServeWords, NoValue> {
        let values = both(
            both(
                needed::<Text>(alloc, matches, "config"),
                optional::<Text>(alloc, matches, "db"),
            ),
            both(
                optional::<u64>(alloc, matches, "workers"),
                optional::<u64>(alloc, matches, "connections"),
            ),
        );
        match values {
            Ok(values) => serve_with(alloc, matches, values),
            Err(error) => Err(error),
        }
    }
}

/// The words of these values and of the flag, where there are at most 16 workers.
fn serve_with(
    alloc: Global,
    matches: &ArgMatches,
    values: ServeValues,
) -> Result<ServeWords, NoValue>
    ensures { Reads (spec.serve_with (rows_of (found_of matches.now)) values) result }
{
    let ((config, db), (workers, connections)) = values;
    let Some(workers) = within(workers.unwrap_or(4), 1, 16) else {
        return wrong(alloc, "workers");
    };
    Ok(ServeWords {
        config,
        db,
        no_trail: is_given(matches, "no-trail"),
        workers,
        connections: connections.unwrap_or(u64::MAX),
    })
}
