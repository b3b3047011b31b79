//! Why no request was read and why bytes were not written.

/// Why no request was read.
#[derive(Clone, Copy, Debug, PartialEq, Eq)]
pub enum WireError {
    /// The bytes begin no head of the grammar, the target is no path, or a header's value is no number where one is due.
    BadHead,
    /// Past a limit: 16,385 for a head, the number of its headers, or the length of the body.
    TooLarge(u64),
    /// There is a `Transfer-Encoding`.
    Coding,
    /// The input ended before the first byte of a request.
    Ended,
    /// The input ended inside a request.
    Cut,
    /// The source failed.
    ReadFault,
    Memory,
}

/// Why bytes were not all written.
#[derive(Clone, Copy, Debug, PartialEq, Eq)]
pub enum WriteError {
    /// The sink failed.
    WriteFault,
}

/// Why a session ended early, with the number of replies that were written whole.
#[derive(Clone, Copy, Debug, PartialEq, Eq)]
pub enum SessionFault {
    ReadFault(u64),
    WriteFault(u64),
}
