//! Reads a file of rows.
//!
//!     # a comment                          hub:
//!     == the name of a row                 | lines of a text, as they stand
//!     -- a further part of it              > lines of a message that is sent
//!     word: what is said                   < lines of a message that has to come
//!     let NAME = a text                    hub> hub< the same with another party
//!
//! Each line of a head ends in CR LF. An empty line ends the head, and where none stands there it is written for it. Lines of a body stand
//! with LF between them. A line that ends in a backslash goes on in the next one, and the last line of a head so has no end at all.
use crate::item::{Item, Row, Rows};
use crate::marks::{Named, Sense, push_line};
use crate::trouble::Trouble;
use std::alloc::Global;

/// A message whose lines are being read.
struct Block<'a> {
    line: u64,
    key: &'a str,
    lines: Vec<&'a str>,
}

impl Drop for Block<'_> {
    fn drop(self) {
        let Block {
            line: _,
            key: _,
            lines: _,
        } = self;
    }
}

struct Reader<'a> {
    alloc: Global,
    names: Vec<Named<'a>>,
    read: Rows<'a>,
    block: Option<Block<'a>>,
    revision: u64,
}

impl Drop for Reader<'_> {
    fn drop(self) {
        let Reader {
            alloc: _,
            names: _,
            read: _,
            block: _,
            revision: _,
        } = self;
    }
}

/// Whether the lines are a status alone, as `503`.
fn is_status(lines: &[&str]) -> bool {
    match lines {
        [line] => (line.len() == 3) & line.bytes().all(|byte| byte.is_ascii_digit()),
        _ => false,
    }
}

/// The arrow of a line and what stands behind it.
fn arrow_of(line: &str) -> Option<(&str, &str)> {
    let (word, rest) = match line.split_once(' ') {
        Some(parts) => parts,
        None => (line, ""),
    };
    if word.ends_with('>') | word.ends_with('<') {
        Some((word, rest))
    } else {
        None
    }
}

/// The line without the backslash that joins it to the next one, and whether it has one.
fn joint(line: &str) -> (&str, bool) {
    match line.strip_suffix('\\') {
        Some(front) => (front, true),
        None => (line, false),
    }
}

/// The body of a message.
fn body_of(alloc: Global, lines: &[&str], sense: &mut Sense<'_, '_>) -> Result<Vec<u8>, Trouble> {
    let mut body = Vec::new(alloc);
    let mut is_behind = false;
    let mut is_ended = false;
    for line in lines {
        if is_behind {
            if is_ended {
                body.push(b'\n')?;
            }
            let (front, goes_on) = joint(line);
            push_line(alloc, &mut body, front, sense)?;
            is_ended = !goes_on;
        } else {
            is_behind = line.is_empty();
        }
    }
    Ok(body)
}

/// The head of a message.
fn head_of(alloc: Global, lines: &[&str], sense: &mut Sense<'_, '_>) -> Result<Vec<u8>, Trouble> {
    let mut head = Vec::new(alloc);
    let mut is_whole = true;
    for line in lines {
        if line.is_empty() {
            break;
        }
        let (front, goes_on) = joint(line);
        push_line(alloc, &mut head, front, sense)?;
        if !goes_on {
            head.extend_from_slice(b"\r\n")?;
        }
        is_whole = !goes_on;
    }
    if is_whole {
        head.extend_from_slice(b"\r\n")?;
    }
    Ok(head)
}

/// The bytes of a message.
fn message(
    alloc: Global,
    block: &Block<'_>,
    names: &[Named<'_>],
    revision: &mut u64,
) -> Result<Vec<u8>, Trouble> {
    let mut sense = Sense {
        names,
        length: 0,
        revision,
        line: block.line,
    };
    let body = body_of(alloc, &block.lines, &mut sense)?;
    sense.length = body.len() as u64;
    let mut all = head_of(alloc, &block.lines, &mut sense)?;
    all.extend_from_slice(&body)?;
    Ok(all)
}

/// Puts a line behind the last of the items.
fn push_text(items: &mut Vec<Item<'_>>, line: u64, text: &str) -> Result<(), Trouble> {
    let Some(item) = items.last_mut() else {
        return Err(Trouble::At(line, "a text without a word"));
    };
    item.bytes.extend_from_slice(text.as_bytes())?;
    item.bytes.push(b'\n')?;
    Ok(())
}

impl<'a> Reader<'a> {
    fn push(&mut self, item: Item<'a>) -> Result<(), Trouble> {
        match self.read.rows.last_mut() {
            Some(row) => row.items.push(item)?,
            None => self.read.opening.push(item)?,
        }
        Ok(())
    }

    /// Ends the message whose lines are being read.
    fn end_block(&mut self) -> Result<(), Trouble> {
        let Some(block) = self.block.take() else {
            return Ok(());
        };
        let is_status = block.key.ends_with('<') & is_status(&block.lines);
        let words = match block.lines.first() {
            Some(line) => *line,
            None => "",
        };
        let bytes = if is_status {
            Vec::new(self.alloc)
        } else {
            message(self.alloc, &block, &self.names, &mut self.revision)?
        };
        let (line, key) = (block.line, block.key);
        drop(block);
        self.push(Item {
            line,
            key,
            words: if is_status { words } else { "" },
            bytes,
        })
    }

    /// A further line of a message, or the first.
    fn take_arrow(&mut self, line: u64, key: &'a str, rest: &'a str) -> Result<(), Trouble> {
        let goes_on = match &self.block {
            Some(block) => block.key == key,
            None => false,
        };
        if !goes_on {
            self.end_block()?;
            self.block = Some(Block {
                line,
                key,
                lines: Vec::new(self.alloc),
            });
        }
        if let Some(block) = &mut self.block {
            block.lines.push(rest)?;
        }
        Ok(())
    }

    /// A line of a text, which goes behind the last word.
    fn take_text(&mut self, line: u64, rest: &str) -> Result<(), Trouble> {
        match self.read.rows.last_mut() {
            Some(row) => push_text(&mut row.items, line, rest),
            None => push_text(&mut self.read.opening, line, rest),
        }
    }

    fn take_row(&mut self, line: u64, name: &'a str) -> Result<(), Trouble> {
        self.revision = 0;
        self.read.rows.push(Row {
            line,
            name,
            items: Vec::new(self.alloc),
        })?;
        Ok(())
    }

    fn take_word(&mut self, line: u64, key: &'a str, words: &'a str) -> Result<(), Trouble> {
        let bytes = Vec::new(self.alloc);
        self.push(Item {
            line,
            key,
            words,
            bytes,
        })
    }

    /// A line that is none of a message.
    fn take_other(&mut self, number: u64, line: &'a str) -> Result<(), Trouble> {
        if line.is_empty() | line.starts_with('#') {
            return Ok(());
        }
        if let Some(name) = line.strip_prefix("== ") {
            return self.take_row(number, name);
        }
        if let Some(title) = line.strip_prefix("-- ") {
            return self.take_word(number, "--", title);
        }
        if let Some(rest) = line.strip_prefix("let ") {
            let Some((name, text)) = rest.split_once(" = ") else {
                return Err(Trouble::At(number, "a name without a text"));
            };
            self.names.push(Named { name, text })?;
            return Ok(());
        }
        if let Some(rest) = line.strip_prefix("| ") {
            return self.take_text(number, rest);
        }
        if line == "|" {
            return self.take_text(number, "");
        }
        match line.split_once(':') {
            Some((key, words)) => {
                let words = words.strip_prefix(' ').unwrap_or("");
                self.take_word(number, key, words)
            }
            None => Err(Trouble::At(number, "a line of no form")),
        }
    }

    /// The rows that were read.
    fn into_read(self) -> Rows<'a> {
        let Reader {
            alloc: _,
            names: _,
            read,
            block: _,
            revision: _,
        } = self;
        read
    }

    fn take(&mut self, number: u64, line: &'a str) -> Result<(), Trouble> {
        if !line.starts_with('|') {
            if let Some((key, rest)) = arrow_of(line) {
                return self.take_arrow(number, key, rest);
            }
        }
        self.end_block()?;
        self.take_other(number, line)
    }
}

/// Reads the rows of a text.
pub fn read_rows(alloc: Global, text: &str) -> Result<Rows<'_>, Trouble> {
    let mut reader = Reader {
        alloc,
        names: Vec::new(alloc),
        read: Rows {
            opening: Vec::new(alloc),
            rows: Vec::new(alloc),
        },
        block: None,
        revision: 0,
    };
    let mut number: u64 = 0;
    for line in text.lines() {
        number = number.saturating_add(1);
        reader.take(number, line)?;
    }
    reader.end_block()?;
    Ok(reader.into_read())
}
