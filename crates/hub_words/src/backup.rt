//! The words of the command `backup`.
ghost use Rattle.std.specs.Prelude.{◌≡◌};
ghost use Rattle.hub_words.specs.Commands.{Answers};
ghost use Rattle.hub_words.specs.Backup as spec;

use crate::command::{begun, needed_choice, positional};
use crate::from_word::{both, needed};
use crate::reading::{CommandWords, read};
use crate::word_error::{NoValue, WordError};
use clap::{ArgMatches, Command};
use hub_kit::text::Text;
use std::alloc::{AllocError, Global};

/// What people are told of the command and of its words.
const ABOUT: &str = "Copies the file of a hub that may run, and checks the copy";

const DB: &str = "The SQLite file of the hub's rows";

const TO: &str = "The name of the copy; no file may be there";

/// What the words of `backup` say.
#[derive(Drop)]
pub struct BackupWords {
    /// The name of the file with the rows.
    pub db: Text,
    /// The name of the copy.
    pub to: Text,
}

/// Reads the words `backup --db F TO`, of which `backup` is the first.
pub fn read_backup(alloc: Global, words: &[Text]) -> Result<BackupWords, WordError>
    ensures { Answers (spec.backup_read words.now) result }
{
    read::<BackupWords>(alloc, "backup", words)
}

impl CommandWords for BackupWords {
    ghost app = { spec.backup_app };

    ghost says = { spec.backup_of };

    fn command<'a>(alloc: Global) -> Result<Command<'a>, AllocError> {
        let command = begun(alloc, "backup", ABOUT);
        let command = needed_choice(alloc, command, "db", "FILE", DB);
        positional(alloc, command, "TO", TO)
    }

    fn of(alloc: Global, matches: &ArgMatches) -> Result<BackupWords, NoValue> {
        let values = both(
            needed::<Text>(alloc, matches, "db"),
            needed::<Text>(alloc, matches, "TO"),
        );
        match values {
            Ok(values) => Ok(backup_with(values)),
            Err(error) => Err(error),
        }
    }
}

/// The words of these values.
fn backup_with(values: (Text, Text)) -> BackupWords
    ensures { result ≡ spec.backup_with values }
{
    let (db, to) = values;
    BackupWords { db, to }
}
