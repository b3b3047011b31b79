//! How long the outside may keep the hub waiting, and how much of it is taken. docs/RUNNING.md has them as a table.

/// How many seconds one read or write of a connection may wait.
pub const READ_OR_WRITE_SECONDS: u64 = 30;

/// How many seconds a head may take from its first byte on.
pub const HEAD_SECONDS: u64 = 30;

/// How many seconds a request may take from its first byte on.
pub const REQUEST_SECONDS: u64 = 300;

/// How many seconds a connection may be silent at its beginning, and between two requests.
pub const SILENT_SECONDS: u64 = 15;

/// How many milliseconds it may be silent between two requests while a caller waits and no worker is free.
pub const CROWDED_MILLIS: u64 = 100;

/// How many seconds a request may take from its first byte on while a caller waits and no worker is free, beside those for its bytes.
pub const CROWDED_SECONDS: u64 = 2;

/// How many seconds the writes of a reply may wait in all then, beside those for its bytes. The system takes them in large pieces where a
/// peer reads slowly.
pub const CROWDED_WRITE_SECONDS: u64 = 10;

/// How many bytes of a request or a reply give it another second then.
pub const CROWDED_BYTES: u64 = 16384;

/// How many milliseconds a peer has to take a refusal whose request wasn't read to its end.
pub const LINGER_MILLIS: u64 = 2000;

/// How many bytes of such a request are still read.
pub const LINGER_BYTES: usize = 1048576;

/// How many seconds a side of a tunnel may be silent.
pub const TUNNEL_SILENT_SECONDS: u64 = 86400;

/// How many seconds it may still be silent once it was told that no more bytes come.
pub const TUNNEL_END_SECONDS: u64 = 60;

/// How many seconds pass until a tunnel's wait looks whether it was told so.
pub const TUNNEL_LOOK_SECONDS: u64 = 10;

/// How many seconds a peer is silent before the system asks it whether it is still there.
pub const KEEP_SILENT_SECONDS: i32 = 300;

/// How many seconds pass until it asks again.
pub const KEEP_AGAIN_SECONDS: i32 = 60;

/// How many times in a row nothing may come back before the connection has ended.
pub const KEEP_TRIES: i32 = 5;

/// How many connections may wait for a worker. The system refuses more, or lets them try again.
pub const WAITING_CALLERS: i32 = 1024;

/// How many connections are kept that have sent nothing yet. They hold no worker.
pub const SILENT_CALLERS: usize = 256;

/// How many milliseconds pass before the next try where a connection can't be taken, as for want of descriptors.
pub const ACCEPT_AGAIN_MILLIS: u64 = 50;

/// How many times in a row this may be so before the listener has failed. Want of descriptors or memory doesn't count.
pub const ACCEPT_TRIES: u32 = 1200;

/// How many seconds a connection to a target may take to be made.
pub const CONNECT_SECONDS: u64 = 10;

/// How many seconds a target may take until its next bytes come. A hub that starts a server replies once its program is ready.
pub const TARGET_READ_SECONDS: u64 = 300;

/// How many seconds a wait takes at once. Then it is looked whether to go on: whether the caller is still there for whom a target is asked,
/// and whether another one waits for the worker.
pub const WAIT_SECONDS: u64 = 1;

/// How many seconds a program may take to say that it is ready.
pub const READY_SECONDS: u64 = 60;

/// How many seconds a program, and what it started, has to end in peace.
pub const END_SECONDS: u64 = 10;

/// How many seconds what was killed then may take to be gone, as a large process does until the system has taken its memory back.
pub const GONE_SECONDS: u64 = 5;

/// How many seconds the address of a program that another run of the hub started may be held behind its end, as a large one holds it until
/// the system has taken its memory back.
pub const LET_GO_SECONDS: u64 = 5;

/// How many milliseconds pass before such an address is looked at again.
pub const LOOK_AGAIN_MILLIS: u64 = 50;
