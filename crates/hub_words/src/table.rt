//! All commands below the program's name, each once, for what people are told. No contract speaks of the texts.
use crate::backup::BackupWords;
use crate::check::CheckWords;
use crate::cull::CullWords;
use crate::guard::GuardWords;
use crate::load::LoadWords;
use crate::proxy::ProxyWords;
use crate::reading::CommandWords;
use crate::serve::ServeWords;
use crate::session::SessionWords;
use clap::Command;
use std::alloc::{AllocError, Global};

/// What people are told of the program.
const ABOUT: &str = "A hub: many users, each with servers of their own, behind one address";

/// What is made of all commands, one after the other.
pub(crate) trait OverCommands: Drop {
    fn with<W: CommandWords>(self, alloc: Global) -> Result<Self, AllocError>;
}

/// What is made of each command of the program.
pub(crate) fn over_all<T: OverCommands>(alloc: Global, begun: T) -> Result<T, AllocError> {
    begun
        .with::<ServeWords>(alloc)?
        .with::<CheckWords>(alloc)?
        .with::<BackupWords>(alloc)?
        .with::<ProxyWords>(alloc)?
        .with::<GuardWords>(alloc)?
        .with::<CullWords>(alloc)?
        .with::<SessionWords>(alloc)?
        .with::<LoadWords>(alloc)
}

/// A command that has others below it.
#[derive(Drop)]
struct Above<'a> {
    command: Command<'a>,
}

impl<'a> OverCommands for Above<'a> {
    fn with<W: CommandWords>(self, alloc: Global) -> Result<Above<'a>, AllocError> {
        let command = self.command.subcommand(W::command(alloc)?)?;
        Ok(Above { command })
    }
}

/// The very commands that words are read by, below one name. It has help, a version, and a help of each command.
pub fn all_commands<'a>(alloc: Global, version: &'a str) -> Result<Command<'a>, AllocError> {
    let command = Command::new(alloc, "hub")
        .version(version)
        .about(ABOUT)
        .subcommand_required(true)
        .arg_required_else_help(true);
    let above = over_all(alloc, Above { command })?;
    Ok(above.command)
}
