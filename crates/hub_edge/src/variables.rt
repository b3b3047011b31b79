//! The variables of the hub's environment that a program doesn't get.
use crate::commands::unset;
use crate::processes::cut;
use crate::starting::StartFault;
use std::alloc::{AllocError, Global};
use std::env::{Env, FillError};
use std::process::Command;

/// What the names of variables contain whose values are secret.
const SECRET_WORDS: [&str; 4] = ["TOKEN", "SECRET", "PASSWORD", "CRYPT_KEY"];

/// How many bytes of a variable there is room for at first.
const FIRST_BYTES: usize = 4096;

/// Takes what is secret out of the environment that a program gets. Only names are read: a value needn't be a text.
pub fn hide_secrets(
    env: &impl Env,
    alloc: Global,
    command: &mut Command,
) -> Result<(), StartFault> {
    for at in 0..usize::MAX {
        let Some(variable) = variable_at(env, alloc, at)? else {
            break;
        };
        hide_secret(command, name_of(variable.as_slice()))?;
    }
    Ok(())
}

/// The variable at a place of the environment, as it stands there. The room for it is doubled until it fits.
fn variable_at(env: &impl Env, alloc: Global, at: usize) -> Result<Option<Vec<u8>>, AllocError> {
    let mut size = FIRST_BYTES;
    for _ in 0..usize::BITS {
        let mut variable = Vec::new(alloc);
        variable.resize(size, 0u8)?;
        match env.var_at(at, variable.as_mut_slice()) {
            Ok(count) => {
                variable.truncate(count);
                return Ok(Some(variable));
            }
            Err(FillError::NotPresent) => return Ok(None),
            Err(FillError::TooLong) => size = size.saturating_mul(2),
        }
    }
    Err(AllocError)
}

/// The name of a variable, behind which its value stands.
fn name_of(variable: &[u8]) -> &[u8] {
    match cut(variable, b'=') {
        Some((name, _)) => name,
        None => variable,
    }
}

/// Takes a variable out of the environment, if it is secret. One whose name is no text can't be.
fn hide_secret(command: &mut Command, name: &[u8]) -> Result<(), StartFault> {
    if !is_secret(name) {
        return Ok(());
    }
    match std::str::from_utf8(name) {
        Ok(name) => Ok(unset(command, name)?),
        Err(_) => Err(StartFault::SecretName),
    }
}

/// Whether the value of a variable of this name is secret.
fn is_secret(name: &[u8]) -> bool {
    for word in SECRET_WORDS {
        if has_word(name, word.as_bytes()) {
            return true;
        }
    }
    false
}

/// Whether a word stands within a name.
fn has_word(name: &[u8], word: &[u8]) -> bool {
    for at in 0..name.len() {
        if name[at..].starts_with(word) {
            return true;
        }
    }
    false
}
