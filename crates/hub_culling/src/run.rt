//! The whole command.
ghost use Rattle.std.specs.Prelude.{◌≡◌, ◌≤◌, Some, Err};
ghost use Rattle.hub_devices.specs.Faults.{Rises};
ghost use Rattle.hub_words.specs.Cull.{cull_read};
ghost use Rattle.hub_culling.specs.Runs as spec;
ghost use Rattle.hub_culling.specs.Scenes.{scene};
ghost use Rattle.hub_culling.specs.Turns.{RoundsEnd};

use crate::cause::{Cause, End};
use crate::rounds::make_rounds;
use crate::token::token_at;
use crate::world::{Outside, World};
use hub_kit::text::Text;
use hub_words::cull::{CullWords, read_cull};
use hub_words::word_error::WordError;
use idle_culler::rules::CullOptions;
use std::alloc::Global;

fn options_of(words: &CullWords) -> CullOptions
    ensures { result ≡ spec.options words.now }
{
    CullOptions {
        timeout: words.timeout,
        max_age: words.max_age,
        cull_users: words.cull_users,
        remove_named: words.remove_named_servers,
    }
}

/// The rounds of these words, with this token.
fn run_told<W: World>(
    alloc: Global,
    words: &CullWords,
    token: &Text,
    outside: &mut Outside<W>,
) -> End
    ensures ends { RoundsEnd W.Asks.asked W.Asks.does token.now (spec.options words.now) words.now.cull_every (spec.count words.now)
        (scene W.Time.to_come W.Out.held W.Rests.waits outside.old.link outside.old.clock outside.old.output outside.old.rest) result
        (scene W.Time.to_come W.Out.held W.Rests.waits outside.new.link outside.new.clock outside.new.output outside.new.rest) }
    ensures files { outside.new.files ≡ outside.old.files }
    ensures asks { W.Asks.faults outside.old.link ≤ W.Asks.faults outside.new.link }
    ensures writes { W.Out.faults outside.old.output ≤ W.Out.faults outside.new.output }
    ensures link { result ≡ Err Cause.Link → Rises (W.Asks.faults outside.old.link) (W.Asks.faults outside.new.link) }
    ensures output { result ≡ Err Cause.Output → Rises (W.Out.faults outside.old.output) (W.Out.faults outside.new.output) }
{
    make_rounds(
        alloc,
        token,
        &options_of(words),
        words.cull_every,
        words.rounds.unwrap_or(u64::MAX),
        outside,
    )
}

/// The command of these words.
fn run_words<W: World>(alloc: Global, words: &CullWords, outside: &mut Outside<W>) -> End
    ensures ends { spec.RunEnds W.Asks.asked W.Asks.does (W.Reads.files outside.old.files) (Some words.now)
        (scene W.Time.to_come W.Out.held W.Rests.waits outside.old.link outside.old.clock outside.old.output outside.old.rest) result
        (scene W.Time.to_come W.Out.held W.Rests.waits outside.new.link outside.new.clock outside.new.output outside.new.rest) }
    ensures files { W.Reads.files outside.new.files ≡ W.Reads.files outside.old.files }
    ensures looked { W.Reads.faults outside.old.files ≤ W.Reads.faults outside.new.files }
    ensures asks { W.Asks.faults outside.old.link ≤ W.Asks.faults outside.new.link }
    ensures writes { W.Out.faults outside.old.output ≤ W.Out.faults outside.new.output }
    ensures unread { result ≡ Err Cause.NoFile → Rises (W.Reads.faults outside.old.files) (W.Reads.faults outside.new.files) }
    ensures link { result ≡ Err Cause.Link → Rises (W.Asks.faults outside.old.link) (W.Asks.faults outside.new.link) }
    ensures output { result ≡ Err Cause.Output → Rises (W.Out.faults outside.old.output) (W.Out.faults outside.new.output) }
{
    match token_at(alloc, &mut outside.files, &words.token_file) {
        Ok(token) => {
            let end = run_told(alloc, words, &token, outside);
            drop(token);
            end
        }
        Err(cause) => Err(cause),
    }
}

/// Runs the command `cull` that the words say: reads the token in its file, and makes as many rounds as they say, each with its line
/// `users U culled C refused R`, and with a wait between two. Without a number the rounds have no end: there are 2^64 - 1 of them.
///
/// It ends before its last round where the words are refused, where the file can't be read or has no token, where a line can't be
/// written, where the hub can't be asked, where a page of users isn't one, or for want of memory. Refused words, and a file without
/// a token, do nothing.
pub fn run<W: World>(alloc: Global, words: &[Text], outside: &mut Outside<W>) -> End
    ensures ends { spec.RunEnds W.Asks.asked W.Asks.does (W.Reads.files outside.old.files) (cull_read words.now)
        (scene W.Time.to_come W.Out.held W.Rests.waits outside.old.link outside.old.clock outside.old.output outside.old.rest) result
        (scene W.Time.to_come W.Out.held W.Rests.waits outside.new.link outside.new.clock outside.new.output outside.new.rest) }
    ensures files { W.Reads.files outside.new.files ≡ W.Reads.files outside.old.files }
    ensures looked { W.Reads.faults outside.old.files ≤ W.Reads.faults outside.new.files }
    ensures asks { W.Asks.faults outside.old.link ≤ W.Asks.faults outside.new.link }
    ensures writes { W.Out.faults outside.old.output ≤ W.Out.faults outside.new.output }
    ensures unread { result ≡ Err Cause.NoFile → Rises (W.Reads.faults outside.old.files) (W.Reads.faults outside.new.files) }
    ensures link { result ≡ Err Cause.Link → Rises (W.Asks.faults outside.old.link) (W.Asks.faults outside.new.link) }
    ensures output { result ≡ Err Cause.Output → Rises (W.Out.faults outside.old.output) (W.Out.faults outside.new.output) }
{
    match read_cull(alloc, words) {
        Ok(words) => {
            let end = run_words(alloc, &words, outside);
            // in one call, since it has many parts
            drop(words);
            end
        }
        Err(WordError::Refused) => Err(Cause::Words),
        Err(WordError::Memory) => Err(Cause::Memory),
    }
}
