//! Why words are refused.
use hub_kit::text::Text;
use std::fmt;

/// The words are not those of the command, or there is no memory to read them.
#[derive(Clone, Copy, Debug, PartialEq, Eq)]
pub enum WordError {
    Refused,
    Memory,
}

impl fmt::Display for WordError {
    fn fmt<W: fmt::Write>(&self, f: &mut fmt::Formatter<W>) -> fmt::Result {
        let why = match self {
            WordError::Refused => "these are not the words of the command",
            WordError::Memory => "there is no memory",
        };
        f.write_str(why)
    }
}

/// Why the matches of a command's words aren't read. The readers of its values say it where it comes up, so that none is forgotten.
#[derive(Drop)]
pub(crate) enum NoValue {
    /// The value of this argument isn't of its form, or out of its limits.
    Wrong(Text),
    Memory,
}
