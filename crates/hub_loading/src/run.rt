//! The command `load`.
ghost use Rattle.std.specs.Prelude.{◌≡◌, ◌≤◌};
ghost use Rattle.hub_words.specs.Load.{load_read};
ghost use Rattle.hub_loading.specs.Lines.{lines};
ghost use Rattle.hub_loading.specs.Runs as spec;

use crate::job::{LoadFault, Loaded, load_job};
use crate::lines::lines_of;
use http_wire::writes::write_all;
use hub_devices::sink::Sink;
use hub_kit::text::Text;
use hub_words::load::{LoadWords, read_load};
use hub_words::word_error::WordError;
use std::alloc::Global;
use std::sync::Wait;

/// How the command ended.
#[derive(Clone, Copy, PartialEq, Eq)]
pub enum End {
    Done,
    /// The words are none of a job.
    BadWords,
    /// The output has failed.
    NoOutput,
    Memory,
    /// The token of this draw has the hash of another.
    HashKept(u32),
}

/// The status of a process that ends so.
pub fn status_of(end: End) -> u8
    ensures { result ≡ spec.status_of end }
{
    match end {
        End::Done => 0,
        End::BadWords => 2,
        End::NoOutput => 6,
        End::Memory => 7,
        End::HashKept(_) => 12,
    }
}

/// Runs the job of these words, and writes its lines.
pub fn run<W: Wait, O: Sink>(rt: &W, alloc: Global, words: &[Text], output: &mut O) -> End
    ensures ends { spec.Ends (load_read words.now) (O.held output.old) (O.held output.new) (O.faults output.old) (O.faults output.new)
        result }
    ensures counted { O.faults output.old ≤ O.faults output.new }
{
    let LoadWords { seed, users } = match read_load(alloc, words) {
        Ok(words) => words,
        Err(WordError::Refused) => return End::BadWords,
        Err(WordError::Memory) => return End::Memory,
    };
    match load_job(rt, alloc, seed, users) {
        Ok((book, loaded)) => {
            // taken apart since its keeper tells then that it had no rows
            let (keeper, trail) = book.into_parts();
            drop(keeper);
            drop(trail);
            write_lines(alloc, output, users, &loaded)
        }
        Err(fault) => end_of(fault),
    }
}

/// How the command ends without a job.
fn end_of(fault: LoadFault) -> End
    ensures { result ≡ spec.end_of fault }
{
    match fault {
        LoadFault::HashKept(draw) => End::HashKept(draw),
        LoadFault::Memory => End::Memory,
    }
}

/// Writes the lines of a job.
fn write_lines<O: Sink>(alloc: Global, output: &mut O, users: u32, loaded: &Loaded) -> End
    ensures ends { spec.Writes (lines users loaded.now) (O.held output.old) (O.held output.new) (O.faults output.old) (O.faults output.new)
        result }
    ensures counted { O.faults output.old ≤ O.faults output.new }
{
    let Ok(text) = lines_of(alloc, users, loaded) else {
        return End::Memory;
    };
    match write_all(output, text.as_slice()) {
        Ok(()) => End::Done,
        Err(_) => End::NoOutput,
    }
}
