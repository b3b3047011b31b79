//! The sets of signals that /proc/PID/status tells.

/// A set of signals. The bit n - 1 is that of signal n.
#[derive(Clone, Copy, Debug, PartialEq, Eq)]
pub struct Signals {
    mask: u64,
}

impl Signals {
    pub fn none() -> Signals {
        Signals { mask: 0 }
    }

    /// Whether SIGINT, which is 2, is one of them.
    pub fn has_int(self) -> bool {
        self.mask / 2 % 2 == 1
    }

    /// Whether SIGTERM, which is 15, is one of them.
    pub fn has_term(self) -> bool {
        self.mask / 16384 % 2 == 1
    }
}

/// The value of a hexadecimal digit.
fn digit(byte: u8) -> Option<u64> {
    match byte {
        b'0'..=b'9' => Some((byte - b'0') as u64),
        b'a'..=b'f' => Some((byte - b'a' + 10) as u64),
        _ => None,
    }
}

/// The number of the hexadecimal digits at the beginning of a text. What is past 64 bits is lost.
fn hex_at(text: &[u8]) -> u64 {
    let mut mask = 0u64;
    for byte in text {
        match digit(*byte) {
            Some(value) => mask = (mask << 4) | value,
            None => break,
        }
    }
    mask
}

/// The set behind a key, which has the line's end before it and the tab behind it, so that it stands nowhere else. None of them where the
/// text hasn't the key.
pub fn signals_at(text: &[u8], key: &[u8]) -> Signals {
    for at in 0..text.len() {
        let rest = &text[at..];
        if rest.starts_with(key) {
            return Signals {
                mask: hex_at(&rest[key.len()..]),
            };
        }
    }
    Signals::none()
}
