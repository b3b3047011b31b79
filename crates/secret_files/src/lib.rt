//! Secrets and tokens that stand in files of their own.
//! The contract of `read_secret_file` carries it: the text of a file without its last line end, where that is 8 to 255 visible ASCII bytes.
//! The commands that ask for such a file stand above it.
#![tactic(auto)]

mod secret_file;

pub use secret_file::{SecretError, read_secret_file};
