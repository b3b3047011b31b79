//! What a step of a life answers.
use server_life::Todo;

/// Whether the keeper keeps the end of a lease.
#[derive(Clone, Copy, Debug, PartialEq, Eq)]
pub enum Kept {
    /// The step isn't an end.
    NotAsked,
    Kept,
    /// The keeper refused it.
    KeeperFault,
    /// There was no memory for its rows.
    Memory,
}

/// A step that was taken: the call that is then owed, whether its end is kept, and the length of the history with its entry.
#[derive(Clone, Copy)]
pub struct Step {
    pub todo: Todo,
    pub kept: Kept,
    pub length: u64,
}
