//! The words of the command `cull`.
ghost use Rattle.std.specs.Prelude.{◌≡◌};
ghost use Rattle.clap.specs.Matches.{found_of};
ghost use Rattle.clap.specs.Walk.{rows_of};
ghost use Rattle.hub_words.specs.Commands.{Answers};
ghost use Rattle.hub_words.specs.Cull as spec;

use crate::command::{begun, choice, flag, is_given, needed_choice};
use crate::from_word::{both, needed, optional};
use crate::reading::{CommandWords, read};
use crate::word_error::{NoValue, WordError};
use clap::{ArgMatches, Command};
use hub_kit::target::Target;
use hub_kit::text::Text;
use std::alloc::{AllocError, Global};

/// What people are told of the command and of its words.
const ABOUT: &str = "Stops servers that nobody uses, in rounds";

const HUB: &str = "Where the hub is, as http://HOST:PORT";

const TOKEN_FILE: &str = "The file with the token for the hub";

const TIMEOUT: &str = "How many seconds a server may be idle [default: 600]";

const MAX_AGE: &str = "How many seconds old a server may be; 0 is any age [default: 0]";

const CULL_USERS: &str = "Deletes users too who are idle, no admins, and have no server";

const REMOVE_NAMED_SERVERS: &str = "Removes a named server once it is stopped";

const CULL_EVERY: &str = "Seconds between two rounds [default: half of --timeout]";

const ROUNDS: &str = "Ends after so many rounds [default: no end]";

/// What the words of `cull` say. Times are numbers of seconds.
#[derive(Drop)]
pub struct CullWords {
    pub hub: Target,
    /// The name of the file with the token.
    pub token_file: Text,
    /// How long a server may be idle.
    pub timeout: u64,
    /// How old a server may be, where it isn't 0.
    pub max_age: u64,
    /// Whether idle users are deleted too.
    pub cull_users: bool,
    /// Whether named servers are removed with their stop.
    pub remove_named_servers: bool,
    /// How long the culler sleeps between two rounds.
    pub cull_every: u64,
    /// After how many rounds it ends, if ever.
    pub rounds: Option<u64>,
}

/// Reads the words `cull --hub T --token-file F [--timeout S] [--max-age S] [--cull-users] [--remove-named-servers] [--cull-every S]
/// [--rounds N]`, of which `cull` is the first. T is a target, and a number has 1 to 20 decimal digits and fits a `u64`. Where they
/// lack, the timeout is 600, the greatest age 0 and the sleep half the timeout, and the rounds have no end.
pub fn read_cull(alloc: Global, words: &[Text]) -> Result<CullWords, WordError>
    ensures { Answers (spec.cull_read words.now) result }
{
    read::<CullWords>(alloc, "cull", words)
}

/// Where and by which token, the two ages, and how often.
type CullValues = (
    (Target, Text),
    ((Option<u64>, Option<u64>), (Option<u64>, Option<u64>)),
);

impl CommandWords for CullWords {
    ghost app = { spec.cull_app };

    ghost says = { spec.cull_of };

    fn command<'a>(alloc: Global) -> Result<Command<'a>, AllocError> {
        let command = begun(alloc, "cull", ABOUT);
        let command = needed_choice(alloc, command, "hub", "URL", HUB);
        let command = needed_choice(alloc, command, "token-file", "FILE", TOKEN_FILE);
        let command = choice(alloc, command, "timeout", "S", TIMEOUT);
        let command = choice(alloc, command, "max-age", "S", MAX_AGE);
        let command = flag(alloc, command, "cull-users", CULL_USERS);
        let command = flag(alloc, command, "remove-named-servers", REMOVE_NAMED_SERVERS);
        let command = choice(alloc, command, "cull-every", "S", CULL_EVERY);
        choice(alloc, command, "rounds", "N", ROUNDS)
    }

    fn of(alloc: Global, matches: &ArgMatches) -> Result<CullWords, NoValue> {
        let values = both(
            both(
                needed::<Target>(alloc, matches, "hub"),
                needed::<Text>(alloc, matches, "token-file"),
            ),
            both(
                both(
                    optional::<u64>(alloc, matches, "timeout"),
                    optional::<u64>(alloc, matches, "max-age"),
                ),
                both(
                    optional::<u64>(alloc, matches, "cull-every"),
                    optional::<u64>(alloc, matches, "rounds"),
                ),
            ),
        );
        match values {
            Ok(values) => Ok(cull_with(matches, values)),
            Err(error) => Err(error),
        }
    }
}

/// The words of these values, and of the flags.
fn cull_with(matches: &ArgMatches, values: CullValues) -> CullWords
    ensures { result ≡ spec.cull_with (rows_of (found_of matches.now)) values }
{
    let ((hub, token_file), ((timeout, max_age), (cull_every, rounds))) = values;
    let timeout = timeout.unwrap_or(600);
    CullWords {
        hub,
        token_file,
        timeout,
        max_age: max_age.unwrap_or(0),
        cull_users: is_given(matches, "cull-users"),
        remove_named_servers: is_given(matches, "remove-named-servers"),
        cull_every: cull_every.unwrap_or(timeout / 2),
        rounds,
    }
}
