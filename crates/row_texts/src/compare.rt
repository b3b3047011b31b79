//! What a row says beside what came.
use crate::item::{Item, find};
use crate::trouble::Trouble;
use std::alloc::Global;

/// What is told of the differences of rows.
pub struct Report<'a> {
    pub alloc: Global,
    /// The file and the row that are being played.
    pub file: &'a str,
    pub row: &'a str,
    pub text: String,
    /// Whether something differed in the row that is being played.
    pub differs: bool,
    /// How many rows were played, and differed.
    pub rows: u64,
    pub differ: u64,
}

impl Drop for Report<'_> {
    fn drop(self) {
        let Report {
            alloc: _,
            file: _,
            row: _,
            text: _,
            differs: _,
            rows: _,
            differ: _,
        } = self;
    }
}

impl<'a> Report<'a> {
    /// Nothing was played.
    pub fn new(alloc: Global, file: &'a str, row: &'a str) -> Report<'a> {
        Report {
            alloc,
            file,
            row,
            text: String::new(alloc),
            differs: false,
            rows: 0,
            differ: 0,
        }
    }

    /// One row was played.
    pub fn end_row(&mut self) {
        self.rows = self.rows.saturating_add(1);
        if self.differs {
            self.differ = self.differ.saturating_add(1);
        }
        self.differs = false;
    }

    /// Begins to tell of a difference.
    pub fn begin(&mut self, line: u64, key: &str) -> Result<(), Trouble> {
        self.differs = true;
        let (file, row) = (self.file, self.row);
        let head = format!(in self.alloc; "{file}:{line}: {row}: {key}\n")?;
        self.text.push_str(&head)?;
        Ok(())
    }

    fn push_byte(&mut self, byte: u8) -> Result<(), Trouble> {
        match byte {
            b'\r' => self.text.push_str("\\r")?,
            b' '..=b'~' => self.text.push(byte as char)?,
            _ => {
                let escape = format!(in self.alloc; "\\x{byte:02x}")?;
                self.text.push_str(&escape)?;
            }
        }
        Ok(())
    }

    fn push_line(&mut self, front: &str, line: &[u8]) -> Result<(), Trouble> {
        self.text.push_str(front)?;
        let line = line.strip_suffix(b"\r").unwrap_or(line);
        for byte in line {
            self.push_byte(*byte)?;
        }
        self.text.push('\n')?;
        Ok(())
    }

    /// A line that was to come, beside the line that came.
    fn push_pair(&mut self, wanted: Option<&[u8]>, came: Option<&[u8]>) -> Result<(), Trouble> {
        if wanted == came {
            if let Some(line) = wanted {
                self.push_line("    ", line)?;
            }
            return Ok(());
        }
        if let Some(line) = wanted {
            self.push_line("  - ", line)?;
        }
        if let Some(line) = came {
            self.push_line("  + ", line)?;
        }
        Ok(())
    }

    /// The lines that were to come, each beside the line that came.
    pub fn push_both(&mut self, wanted: &[u8], came: &[u8]) -> Result<(), Trouble> {
        let mut lines = wanted.split(|byte| *byte == b'\n');
        let mut others = came.split(|byte| *byte == b'\n');
        let most = wanted.len().max(came.len());
        for _ in 0..=most {
            match (lines.next(), others.next()) {
                (None, None) => break,
                (line, other) => self.push_pair(line, other)?,
            }
        }
        Ok(())
    }
}

/// The first message of these bytes: what stands before the next head.
fn first_message(bytes: &[u8]) -> &[u8] {
    for at in 1..bytes.len() {
        if bytes[at..].starts_with(b"HTTP/1.1 ") {
            return &bytes[..at];
        }
    }
    bytes
}

/// What is left behind the message that the item says, where that comes first. A status alone stands for any reply that has it.
fn behind<'b>(item: &Item<'_>, left: &'b [u8]) -> Option<&'b [u8]> {
    if item.words.is_empty() {
        return left.strip_prefix(item.bytes.as_slice());
    }
    let rest = left.strip_prefix(b"HTTP/1.1 ")?;
    if rest.starts_with(item.words.as_bytes()) {
        left.strip_prefix(first_message(left))
    } else {
        None
    }
}

/// Tells of a message that was to come first.
fn tell_message(report: &mut Report<'_>, item: &Item<'_>, left: &[u8]) -> Result<(), Trouble> {
    report.begin(item.line, item.key)?;
    let wanted = if item.words.is_empty() {
        item.bytes.as_slice()
    } else {
        item.words.as_bytes()
    };
    report.push_both(wanted, first_message(left))
}

/// Compares the messages of a key, which stand there so many times, with the bytes that came.
pub fn compare_messages(
    report: &mut Report<'_>,
    items: &[Item<'_>],
    key: &str,
    times: u64,
    came: &[u8],
) -> Result<(), Trouble> {
    let mut left = came;
    for _ in 0..times {
        for item in items {
            if item.key == key {
                match behind(item, left) {
                    Some(rest) => left = rest,
                    None => return tell_message(report, item, left),
                }
            }
        }
    }
    if !left.is_empty() {
        let line = match items.last() {
            Some(item) => item.line,
            None => 0,
        };
        report.begin(line, key)?;
        report.push_both(b"", left)?;
    }
    Ok(())
}

/// Compares what a key says at a line with what came.
pub fn compare_texts(
    report: &mut Report<'_>,
    line: u64,
    key: &str,
    wanted: &[u8],
    came: &[u8],
) -> Result<(), Trouble> {
    if wanted != came {
        report.begin(line, key)?;
        report.push_both(wanted, came)?;
    }
    Ok(())
}

/// Compares the words of a key with those that came, where the items have the key.
pub fn compare_words(
    report: &mut Report<'_>,
    items: &[Item<'_>],
    key: &str,
    came: &str,
) -> Result<(), Trouble> {
    match find(items, key) {
        Some(item) => compare_texts(
            report,
            item.line,
            key,
            item.words.as_bytes(),
            came.as_bytes(),
        ),
        None => Ok(()),
    }
}
