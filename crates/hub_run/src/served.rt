//! How a connection ends.

/// How a connection ended. The numbers count the replies that were written whole.
#[derive(Clone, Copy, Debug, PartialEq, Eq)]
pub enum Served {
    /// The input ended between requests.
    Ended(u64),
    /// The input ended inside a request.
    Cut(u64),
    /// The last reply closed the connection.
    Closed(u64),
}

/// How a turn ended without a whole reply.
#[derive(Clone, Copy)]
pub(crate) enum TurnEnd {
    Ended,
    Cut,
    ReadFault,
    WriteFault,
}
