//! The words of the command `session`.
ghost use Rattle.std.specs.Prelude.{◌≡◌};
ghost use Rattle.clap.specs.Matches.{found_of};
ghost use Rattle.clap.specs.Walk.{rows_of};
ghost use Rattle.hub_words.specs.Commands.{Answers};
ghost use Rattle.hub_words.specs.Session as spec;

use crate::command::{begun, choice, flag, is_given, positional};
use crate::from_word::{both, needed, optional};
use crate::reading::{CommandWords, read};
use crate::values::Secret;
use crate::word_error::{NoValue, WordError};
use clap::{ArgMatches, Command};
use hub_kit::moment::Moment;
use hub_kit::names::UserName;
use hub_kit::text::Text;
use std::alloc::{AllocError, Global};

/// What people are told of the command and of its words.
const ABOUT: &str = "Serves one connection, on standard input and output";

const NOW: &str = "The moment of its clock, in seconds since 1970";

const USER: &str = "A user, who is made if need be";

const TOKEN: &str = "A token of the user: 8 to 255 visible ASCII characters";

const ADMIN: &str = "The user is an admin";

const CONFIG: &str = "The file of configuration [default: none]";

const DB: &str = "The SQLite file of the rows, made if need be [default: memory]";

const NO_TRAIL: &str = "Keeps no history of changes, which grows until it is full";

/// What the words of `session` say: the moment of the session's clock, a user, and a token of this user.
pub struct SessionWords {
    pub now: Moment,
    pub user: UserName,
    /// 8 to 255 visible ASCII bytes.
    pub token: Text,
    /// Whether the user is an admin.
    pub admin: bool,
    /// The name of the file of configuration.
    pub config: Option<Text>,
    /// The place of the store.
    pub db: Option<Text>,
    /// Whether no trail is kept.
    pub no_trail: bool,
}

impl Drop for SessionWords {
    fn drop(self) {
        let SessionWords {
            now: _,
            user: _,
            token: _,
            admin: _,
            config: _,
            db: _,
            no_trail: _,
        } = self;
    }
}

/// Reads the words `session NOW USER TOKEN [--admin] [--config F] [--db F] [--no-trail]`, of which `session` is the first. NOW is
/// the number of seconds of a moment in 1 to 20 decimal digits, USER a user name, and TOKEN has 8 to 255 visible ASCII bytes. A
/// word that begins with a dash is an option, but for those behind `--`; an option is given at most once, as `--db F` or `--db=F`.
pub fn read_session(alloc: Global, words: &[Text]) -> Result<SessionWords, WordError>
    ensures { Answers (spec.session_read words.now) result }
{
    read::<SessionWords>(alloc, "session", words)
}

/// NOW and USER, TOKEN, and the values of the two options.
type SessionValues = ((Moment, UserName), (Secret, (Option<Text>, Option<Text>)));

impl CommandWords for SessionWords {
    ghost app = { spec.session_app };

    ghost says = { spec.session_of };

    fn command<'a>(alloc: Global) -> Result<Command<'a>, AllocError> {
        let command = begun(alloc, "session", ABOUT);
        let command = positional(alloc, command, "NOW", NOW);
        let command = positional(alloc, command, "USER", USER);
        let command = positional(alloc, command, "TOKEN", TOKEN);
        let command = flag(alloc, command, "admin", ADMIN);
        let command = choice(alloc, command, "config", "FILE", CONFIG);
        let command = choice(alloc, command, "db", "FILE", DB);
        flag(alloc, command, "no-trail", NO_TRAIL)
    }

    fn of(alloc: Global, matches: &ArgMatches) -> Result<SessionWords, NoValue> {
        let values = both(
            both(
                needed::<Moment>(alloc, matches, "NOW"),
                needed::<UserName>(alloc, matches, "USER"),
            ),
            both(
                needed::<Secret>(alloc, matches, "TOKEN"),
                both(
                    optional::<Text>(alloc, matches, "config"),
                    optional::<Text>(alloc, matches, "db"),
                ),
            ),
        );
        match values {
            Ok(values) => Ok(session_with(matches, values)),
            Err(error) => Err(error),
        }
    }
}

/// The words of these values, and of the flags.
fn session_with(matches: &ArgMatches, values: SessionValues) -> SessionWords
    ensures { result ≡ spec.session_with (rows_of (found_of matches.now)) values }
{
    let ((now, user), (token, (config, db))) = values;
    SessionWords {
        now,
        user,
        token: token.into_text(),
        admin: is_given(matches, "admin"),
        config,
        db,
        no_trail: is_given(matches, "no-trail"),
    }
}
