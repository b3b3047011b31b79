//! The command `backup`: a copy of a hub's file and its log, of one moment, in one file that stands alone. The hub may run meanwhile.
//! The contract of `copied::copied` carries it: what is written has the database of the bytes that were read. The system's files and what is
//! said to people have no contract. The program `hub` stands above.
#![tactic(auto)]

pub mod copied;
mod made;
mod telling;

use crate::copied::copied;
use crate::made::{find_free, make_whole};
use crate::telling::{Fault, say_memory, say_words, tell_fault, tell_good};
use file_copies::copies::read_copies;
use hub_kit::text::Text;
use hub_words::backup::{BackupWords, read_backup};
use hub_words::word_error::WordError;
use std::process::ExitCode;

/// Makes the copy, and tells how many rows it has.
fn make_backup(rt: &HostRuntime, words: &BackupWords) -> Result<u64, Fault> {
    let to = words.to.as_str();
    // before a large file is read for nothing
    find_free(rt, to)?;
    let copies = match read_copies(rt, words.db.as_str()) {
        Ok(copies) => copies,
        Err(error) => return Err(Fault::NotCopied(error)),
    };
    let made = copied(rt.alloc(), &copies);
    drop(copies);
    match made {
        Ok((file, rows)) => {
            make_whole(rt, to, file.bytes())?;
            Ok(rows)
        }
        Err(error) => Err(Fault::NotCopied(error)),
    }
}

/// Runs the command `backup` with these words over the system's files.
pub fn backup(rt: HostRuntime, words: &[Text]) -> ExitCode {
    match read_backup(rt.alloc(), words) {
        Ok(words) => {
            let code = match make_backup(&rt, &words) {
                Ok(rows) => tell_good(&rt, &words, rows),
                Err(fault) => tell_fault(&rt, &words, fault),
            };
            drop(words);
            code
        }
        Err(WordError::Refused) => say_words(&rt),
        Err(WordError::Memory) => say_memory(&rt),
    }
}
