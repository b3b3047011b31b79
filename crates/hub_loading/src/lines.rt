//! What a job says: six lines, each a word and a number.
ghost use Rattle.std.specs.Prelude.{◌≡◌, ◌++◌, IfOk, OnOk};
ghost use Rattle.hub_loading.specs.Lines as spec;

use crate::job::Loaded;
use hub_kit::bytes::Bytes;
use std::alloc::{AllocError, Global};

/// Adds a line of a word and a number.
fn add_line(alloc: Global, text: &mut Bytes, word: &[u8], number: u64) -> Result<(), AllocError>
    ensures { OnOk result (text.new ≡ text.old ++ spec.line word.now number) }
{
    let digits = format!(in alloc; "{number}")?;
    text.push_all(word)?;
    text.push_all(b" ")?;
    text.push_all(digits.as_bytes())?;
    text.push_all(b"\n")
}

/// The lines of a job of so many users.
pub fn lines_of(alloc: Global, users: u32, loaded: &Loaded) -> Result<Bytes, AllocError>
    ensures { IfOk result (λ text. text ≡ spec.lines users loaded.now) }
{
    let mut text = Bytes::new(alloc);
    add_line(alloc, &mut text, b"users", users as u64)?;
    add_line(alloc, &mut text, b"ok", loaded.ok)?;
    add_line(alloc, &mut text, b"missing", loaded.missing)?;
    add_line(alloc, &mut text, b"admitted", loaded.admitted)?;
    add_line(alloc, &mut text, b"refused", loaded.refused)?;
    add_line(alloc, &mut text, b"revision", loaded.revision)?;
    Ok(text)
}
