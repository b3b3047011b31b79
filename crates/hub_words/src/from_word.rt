//! What is read from the words of a command, each value from one word.
ghost use Rattle.std.specs.Prelude.{ℕ, List, Option, None};
ghost use Rattle.clap.specs.Matches.{found_of};
ghost use Rattle.clap.specs.Walk.{rows_of};
ghost use Rattle.hub_words.specs.Commands.{Answers};
ghost use Rattle.hub_words.specs.Arguments as spec;
ghost use Rattle.hub_words.specs.Arguments.{Reads};

use crate::command::value_in;
use crate::word_error::{NoValue, WordError};
use clap::ArgMatches;
use hub_kit::text::Text;
use std::alloc::Global;

/// Read from a word.
pub(crate) trait FromWord: Drop {
    ghost reads: { List ℕ → Option Self };

    fn read(alloc: Global, word: &str) -> Result<Self, WordError>
        ensures { Answers (reads word.now) result };
}

/// What two readers gave. The values of a command are put together by twos, so that one early return is left: each drops what was
/// read before it, and the proof follows each drop.
pub(crate) fn both<A: Drop, B: Drop>(
    first: Result<A, NoValue>,
    second: Result<B, NoValue>,
) -> Result<(A, B), NoValue>
    ensures { (a : Option A) (b : Option B) → Reads a first → Reads b second → Reads (spec.pair a b) result }
{
    match first {
        Ok(first) => match second {
            Ok(second) => Ok((first, second)),
            Err(error) => Err(error),
        },
        Err(error) => Err(error),
    }
}

/// The value of this argument isn't one that it takes.
pub(crate) fn wrong<V>(alloc: Global, id: &str) -> Result<V, NoValue>
    ensures { Reads None result }
{
    match Text::from_str(alloc, id) {
        Ok(id) => Err(NoValue::Wrong(id)),
        Err(_) => Err(NoValue::Memory),
    }
}

/// What a reader of the value of this argument answered.
fn of_argument<V>(alloc: Global, id: &str, read: Result<V, WordError>) -> Result<V, NoValue>
    ensures { (meaning : Option V) → Answers meaning read → Reads meaning result }
{
    match read {
        Ok(value) => Ok(value),
        Err(WordError::Refused) => wrong(alloc, id),
        Err(WordError::Memory) => Err(NoValue::Memory),
    }
}

/// The value of an argument that has to be there.
pub(crate) fn needed<V: FromWord>(
    alloc: Global,
    matches: &ArgMatches,
    id: &str,
) -> Result<V, NoValue>
    ensures { Reads (spec.needed V.reads id.now (rows_of (found_of matches.now))) result }
{
    match value_in(matches, id) {
        Some(word) => of_argument(alloc, id, V::read(alloc, word)),
        None => wrong(alloc, id),
    }
}

/// The value of an option that may lack.
pub(crate) fn optional<V: FromWord>(
    alloc: Global,
    matches: &ArgMatches,
    id: &str,
) -> Result<Option<V>, NoValue>
    ensures { Reads (spec.optional V.reads id.now (rows_of (found_of matches.now))) result }
{
    match value_in(matches, id) {
        Some(word) => match of_argument(alloc, id, V::read(alloc, word)) {
            Ok(read) => Ok(Some(read)),
            Err(error) => Err(error),
        },
        None => Ok(None),
    }
}
