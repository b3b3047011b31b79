//! What a guard says on standard error: why it ended.
ghost use Rattle.std.specs.Prelude.{◌≡◌};
ghost use Rattle.std.specs.Process.{exit_status};

use guard_serving::GuardFault;
use hub_edge::files::SystemFiles;
use hub_edge::output::say;
use hub_kit::text::Text;
use hub_words::guard::GuardWords;
use std::alloc::{AllocError, Global};
use std::io::ErrorKind;
use std::process::ExitCode;

/// The name of the file with the secret, which is empty where none is named.
pub(crate) fn secret_name(alloc: Global, words: &GuardWords) -> Result<Text, AllocError> {
    match &words.secret_file {
        Some(name) => name.copy(alloc),
        None => Ok(Text::new(alloc)),
    }
}

/// Why the file of the secret wasn't read.
fn file_cause(files: &SystemFiles) -> &'static str {
    match files.cause() {
        Some(ErrorKind::NotFound) => "there is no such file",
        Some(ErrorKind::PermissionDenied) => "it may not be read",
        Some(ErrorKind::InvalidInput) => "it is no regular file",
        _ => "reading it failed",
    }
}

/// Says why the guard ended, with the name of its file where that is the cause.
pub(crate) fn tell(rt: &HostRuntime, name: &Text, files: &SystemFiles, fault: GuardFault) {
    let name = name.as_str();
    let _ = match fault {
        GuardFault::NoFile => {
            let why = file_cause(files);
            eprintln!(rt; "hub: {fault}: {name}: {why}")
        }
        GuardFault::NoSecret => eprintln!(rt; "hub: {fault}: {name}"),
        _ => eprintln!(rt; "hub: {fault}"),
    };
}

/// Says why there is this status.
pub(crate) fn said(rt: &HostRuntime, status: u8, why: &str) -> ExitCode
    ensures { exit_status result ≡ status }
{
    let _ = say(rt, status, why);
    ExitCode::from(status)
}
