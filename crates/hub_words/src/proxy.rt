//! The words of the command `proxy`.
ghost use Rattle.std.specs.Prelude.{◌≡◌};
ghost use Rattle.clap.specs.Matches.{found_of};
ghost use Rattle.clap.specs.Walk.{rows_of};
ghost use Rattle.hub_words.specs.Commands.{Answers};
ghost use Rattle.hub_words.specs.Proxy as spec;

use crate::command::{begun, needed_choice};
use crate::from_word::{both, needed};
use crate::reading::{CommandWords, read};
use crate::word_error::{NoValue, WordError};
use addresses::address::Address;
use clap::{ArgMatches, Command};
use hub_kit::text::Text;
use std::alloc::{AllocError, Global};

/// What people are told of the command and of its words.
const ABOUT: &str = "Forwards browsers to the hub and to servers";

const LISTEN: &str = "The address for browsers";

const API: &str = "The address where the hub sets routes";

const SECRET_FILE: &str = "The file with the secret for setting routes";

/// What the words of `proxy` say.
pub struct ProxyWords {
    /// The address of the browsers' side.
    pub listen: Text,
    /// The address of the interface for routes.
    pub api: Text,
    /// The name of the file with the interface's secret.
    pub secret_file: Text,
}

impl Drop for ProxyWords {
    fn drop(self) {
        let ProxyWords {
            listen: _,
            api: _,
            secret_file: _,
        } = self;
    }
}

/// Reads the words `proxy --listen A --api A --secret-file F`, of which `proxy` is the first. An address A is `HOST:PORT`, of which
/// `http://HOST:PORT` is a target.
pub fn read_proxy(alloc: Global, words: &[Text]) -> Result<ProxyWords, WordError>
    ensures { Answers (spec.proxy_read words.now) result }
{
    read::<ProxyWords>(alloc, "proxy", words)
}

/// The two addresses, and the name of the file.
type ProxyValues = (Address, (Address, Text));

impl CommandWords for ProxyWords {
    ghost app = { spec.proxy_app };

    ghost says = { spec.proxy_of };

    fn command<'a>(alloc: Global) -> Result<Command<'a>, AllocError> {
        let command = begun(alloc, "proxy", ABOUT);
        let command = needed_choice(alloc, command, "listen", "HOST:PORT", LISTEN);
        let command = needed_choice(alloc, command, "api", "HOST:PORT", API);
        needed_choice(alloc, command, "secret-file", "FILE", SECRET_FILE)
    }

    fn of(alloc: Global, matches: &ArgMatches) -> Result<ProxyWords, NoValue> {
        let values = both(
            needed::<Address>(alloc, matches, "listen"),
            both(
                needed::<Address>(alloc, matches, "api"),
                needed::<Text>(alloc, matches, "secret-file"),
            ),
        );
        match values {
            Ok(values) => Ok(proxy_with(values)),
            Err(error) => Err(error),
        }
    }
}

/// The words of these values.
fn proxy_with(values: ProxyValues) -> ProxyWords
    ensures { result ≡ spec.proxy_with values }
{
    let (listen, (api, secret_file)) = values;
    ProxyWords {
        listen: listen.into_text(),
        api: api.into_text(),
        secret_file,
    }
}
