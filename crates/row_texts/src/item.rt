//! What stands in a file of rows.

/// One thing that a row says: a word as `fails: spawner 0`, or a message as the lines behind `>`.
pub struct Item<'a> {
    /// Where it begins.
    pub line: u64,
    /// The word before the colon, or the arrow; `--` where a further part of the row begins.
    pub key: &'a str,
    /// What stands behind the colon; of a message, its status where that is all that is said of it, or nothing.
    pub words: &'a str,
    /// A message as it stands on the wire, or the text of the lines behind `|`.
    pub bytes: Vec<u8>,
}

impl Drop for Item<'_> {
    fn drop(self) {
        let Item {
            line: _,
            key: _,
            words: _,
            bytes: _,
        } = self;
    }
}

pub struct Row<'a> {
    pub line: u64,
    pub name: &'a str,
    pub items: Vec<Item<'a>>,
}

impl Drop for Row<'_> {
    fn drop(self) {
        let Row {
            line: _,
            name: _,
            items: _,
        } = self;
    }
}

/// What all rows of a file begin with, and its rows.
pub struct Rows<'a> {
    pub opening: Vec<Item<'a>>,
    pub rows: Vec<Row<'a>>,
}

impl Drop for Rows<'_> {
    fn drop(self) {
        let Rows {
            opening: _,
            rows: _,
        } = self;
    }
}

/// The last of the items with the key.
pub fn find<'a, 'b>(items: &'b [Item<'a>], key: &str) -> Option<&'b Item<'a>> {
    let mut found = None;
    for item in items {
        if item.key == key {
            found = Some(item);
        }
    }
    found
}

/// How many items have the key.
pub fn count(items: &[Item<'_>], key: &str) -> u64 {
    let mut count: u64 = 0;
    for item in items {
        if item.key == key {
            count = count.saturating_add(1);
        }
    }
    count
}
