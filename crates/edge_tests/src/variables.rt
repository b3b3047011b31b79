//! Which variables of the environment a program doesn't get.
use crate::check::check;
use hub_edge::starting::StartFault;
use hub_edge::variables::hide_secrets;
use std::env::{Env, FillError};
use std::process::Command;

/// An environment of these variables.
#[derive(Clone, Copy)]
struct Variables<'a>(&'a [&'a [u8]]);

impl Env for Variables<'_> {
    fn arg(&self, _i: usize, _buf: &mut [u8]) -> Result<usize, FillError> {
        Err(FillError::NotPresent)
    }

    fn var(&self, _name: &str, _buf: &mut [u8]) -> Result<usize, FillError> {
        Err(FillError::NotPresent)
    }

    fn var_at(&self, i: usize, buf: &mut [u8]) -> Result<usize, FillError> {
        if i >= self.0.len() {
            return Err(FillError::NotPresent);
        }
        let variable = self.0[i];
        if variable.len() > buf.len() {
            return Err(FillError::TooLong);
        }
        buf[..variable.len()].copy_from_slice(variable);
        Ok(variable.len())
    }
}

/// Whether a program doesn't get the variables of these names, and no others are changed.
fn are_hidden(command: &Command, names: &[&str]) -> bool {
    let mut changed = command.get_envs();
    for name in names {
        match changed.next() {
            Some((found, None)) if found == *name => {}
            _ => return false,
        }
    }
    changed.next().is_none()
}

const VARIABLES: [&[u8]; 7] = [
    b"PATH=/bin",
    b"MY_TOKEN=x",
    b"LATIN=\xe9",
    b"\xe9=1",
    &[b'x'; 5000],
    b"DB_PASSWORD=\xe9",
    b"TEXT=SECRET",
];

/// What is no text goes on as it is, and names alone say what is secret.
#[test]
fn secrets_are_hidden(rt: HostRuntime) {
    let mut command = Command::new(rt.alloc(), "program").expect(&rt, "there is memory");
    let told = hide_secrets(&Variables(&VARIABLES), rt.alloc(), &mut command);
    check(&rt, told.is_ok(), "all are read");
    let hidden = are_hidden(&command, &["DB_PASSWORD", "MY_TOKEN"]);
    drop(command);
    check(&rt, hidden, "two are hidden");
}

/// A secret name that is no text can't be taken out.
#[test]
fn a_secret_name_is_no_text(rt: HostRuntime) {
    let mut command = Command::new(rt.alloc(), "program").expect(&rt, "there is memory");
    let variables: [&[u8]; 1] = [b"\xe9TOKEN=x"];
    let told = hide_secrets(&Variables(&variables), rt.alloc(), &mut command);
    drop(command);
    check(&rt, told == Err(StartFault::SecretName), "it is refused");
}
