//! The limits of a hub.

/// The greatest numbers of rows, and of bytes of the trail. `servers` limits the named servers of one user, which are not
/// rows of a table's own; `codes` limits the share codes and the codes of OAuth, each by itself.
#[derive(Clone, Copy)]
pub struct Limits {
    pub users: u32,
    pub groups: u32,
    pub services: u32,
    pub roles: u32,
    pub servers: u32,
    pub tokens: u32,
    pub shares: u32,
    pub codes: u32,
    pub trail_bytes: u64,
}
