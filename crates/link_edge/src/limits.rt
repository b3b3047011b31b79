//! How long a hub or a proxy may keep who asks it waiting, and how much of its reply is taken. The limits of `hub_edge` hold besides: of
//! making the connection, and of one read or write. docs/RUNNING.md has them as a table.
use hub_edge::limits::TARGET_READ_SECONDS;

/// How many seconds a reply of a hub may take to its end: as many as its first bytes may. A start of a server is within them.
pub const REPLY_SECONDS: u64 = TARGET_READ_SECONDS;

/// How many seconds a reply of a proxy may take to its end. It answers from its memory, and a hub that asks it keeps others waiting, as
/// those who come in while services are tended.
pub const PROXY_REPLY_SECONDS: u64 = 10;

/// How many milliseconds the end of a connection may take behind a whole reply. A hub that was asked to ends it with the reply; what
/// stands between and keeps it open has to cost nobody more than this.
pub const END_MILLISECONDS: u64 = 100;

/// How many bytes a reply may have.
pub const REPLY_BYTES: usize = 16_777_216;
