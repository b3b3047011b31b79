//! The words of the command `guard`.
ghost use Rattle.std.specs.Prelude.{◌≡◌};
ghost use Rattle.clap.specs.Matches.{found_of};
ghost use Rattle.clap.specs.Walk.{rows_of};
ghost use Rattle.hub_words.specs.Commands.{Answers};
ghost use Rattle.hub_words.specs.Guard as spec;

use crate::command::{begun, choice, flag, is_given, needed_choice};
use crate::from_word::{both, needed, optional};
use crate::reading::{CommandWords, read};
use crate::word_error::{NoValue, WordError};
use addresses::address::Address;
use clap::{ArgMatches, Command};
use hub_kit::names::ServerKey;
use hub_kit::target::Target;
use hub_kit::text::Text;
use std::alloc::{AllocError, Global};

/// What people are told of the command and of its words.
const ABOUT: &str = "Stands before a server, and lets in whom the hub allows";

const LISTEN: &str = "The address of the guard";

const FOR: &str = "The server that it guards, as ann/ or ann/lab";

const HUB: &str = "Where the hub is, as http://HOST:PORT";

const TARGET: &str = "Where the server listens, as http://HOST:PORT";

const SECRET_FILE: &str = "The file with the server's secret; with it browsers sign in";

const SECURE_COOKIES: &str = "Browsers send its cookies over TLS alone";

/// What the words of `guard` say: whose server is guarded, and where all stand.
#[derive(Drop)]
pub struct GuardWords {
    /// The address of the guard.
    pub listen: Text,
    /// The server that is guarded.
    pub server: ServerKey,
    pub hub: Target,
    /// Where the server listens.
    pub target: Target,
    /// The name of the file with the server's secret, where browsers sign in.
    pub secret_file: Option<Text>,
    /// Whether the cookies of who signs in go over TLS alone.
    pub secure_cookies: bool,
}

/// Reads the words `guard --listen A --for U/S --hub T --target T [--secret-file F] [--secure-cookies]`, of which `guard` is the first. An
/// address A is `HOST:PORT`, of which `http://HOST:PORT` is a target, U/S the key of a server, and T a target.
pub fn read_guard(alloc: Global, words: &[Text]) -> Result<GuardWords, WordError>
    ensures { Answers (spec.guard_read words.now) result }
{
    read::<GuardWords>(alloc, "guard", words)
}

/// The address and the server, the two targets, and the name of the file.
type GuardValues = ((Address, ServerKey), (Target, (Target, Option<Text>)));

impl CommandWords for GuardWords {
    ghost app = { spec.guard_app };

    ghost says = { spec.guard_of };

    fn command<'a>(alloc: Global) -> Result<Command<'a>, AllocError> {
        let command = begun(alloc, "guard", ABOUT);
        let command = needed_choice(alloc, command, "listen", "HOST:PORT", LISTEN);
        let command = needed_choice(alloc, command, "for", "USER/SERVER", FOR);
        let command = needed_choice(alloc, command, "hub", "URL", HUB);
        let command = needed_choice(alloc, command, "target", "URL", TARGET);
        let command = choice(alloc, command, "secret-file", "FILE", SECRET_FILE);
        flag(alloc, command, "secure-cookies", SECURE_COOKIES)
    }

    fn of(alloc: Global, matches: &ArgMatches) -> Result<GuardWords, NoValue> {
        let values = both(
            both(
                needed::<Address>(alloc, matches, "listen"),
                needed::<ServerKey>(alloc, matches, "for"),
            ),
            both(
                needed::<Target>(alloc, matches, "hub"),
                both(
                    needed::<Target>(alloc, matches, "target"),
                    optional::<Text>(alloc, matches, "secret-file"),
                ),
            ),
        );
        match values {
            Ok(values) => Ok(guard_with(matches, values)),
            Err(error) => Err(error),
        }
    }
}

/// The words of these values, and of the flag.
fn guard_with(matches: &ArgMatches, values: GuardValues) -> GuardWords
    ensures { result ≡ spec.guard_with (rows_of (found_of matches.now)) values }
{
    let ((listen, server), (hub, (target, secret_file))) = values;
    GuardWords {
        listen: listen.into_text(),
        server,
        hub,
        target,
        secret_file,
        secure_cookies: is_given(matches, "secure-cookies"),
    }
}
