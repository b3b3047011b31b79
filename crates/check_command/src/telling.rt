//! What a check says to people: what is wrong first, on standard error, or that nothing is, on standard output.
use crate::checked::Checked;
use file_copies::copy_error::CopyError;
use hub_edge::files::SystemFiles;
use hub_edge::output::say;
use hub_kit::text::Text;
use hub_main::cause::Cause;
use hub_serving::end::NotServed;
use hub_serving::explain::explain_refusal;
use hub_words::check::CheckWords;
use std::alloc::{AllocError, Global};
use std::io::ErrorKind;
use std::process::ExitCode;

pub(crate) fn say_memory(rt: &HostRuntime) -> ExitCode {
    say(rt, 7, "there is no memory")
}

pub(crate) fn say_words(rt: &HostRuntime) -> ExitCode {
    say(
        rt,
        2,
        "these are not the words of `check`: see `hub help check`",
    )
}

/// Why the file of configuration wasn't read.
fn file_cause(files: &SystemFiles) -> &'static str {
    match files.cause() {
        Some(ErrorKind::NotFound) => "there is no such file",
        Some(ErrorKind::PermissionDenied) => "it may not be read",
        Some(ErrorKind::InvalidInput) => "it is no regular file",
        _ => "reading it failed",
    }
}

/// What the devices add to a cause.
fn device_cause(
    why: &NotServed,
    files: &SystemFiles,
    refusal: Option<CopyError>,
) -> Option<&'static str> {
    match why {
        NotServed::Because(Cause::NoFile) => Some(file_cause(files)),
        NotServed::Because(Cause::NoStore) => match refusal {
            Some(refusal) => Some(refusal.text()),
            None => None,
        },
        _ => None,
    }
}

/// The words of a `serve` with the same file, whose refusal is explained in the same way.
fn serve_words(alloc: Global, words: &CheckWords) -> Result<Vec<Text>, AllocError> {
    let mut serve = Vec::new(alloc);
    serve.push(Text::from_str(alloc, "serve")?)?;
    serve.push(Text::from_str(alloc, "--config")?)?;
    serve.push(words.config.copy(alloc)?)?;
    Ok(serve)
}

/// Why a hub wouldn't begin, in a line.
fn explain(alloc: Global, words: &CheckWords, why: &NotServed) -> Result<String, AllocError> {
    let serve = serve_words(alloc, words)?;
    let said = explain_refusal(alloc, serve.as_slice(), why)?;
    match (why, &words.db) {
        (NotServed::Because(Cause::NoStore), Some(db)) => {
            let said = said.as_str();
            let db = db.as_str();
            format!(in alloc; "{said}: {db}")
        }
        _ => Ok(said),
    }
}

/// Says that a hub would begin.
fn tell_good(rt: &HostRuntime, words: &CheckWords) -> ExitCode {
    let config = words.config.as_str();
    let said = match &words.db {
        Some(db) => {
            let db = db.as_str();
            println!(rt; "{config} is fit to serve, with the rows of {db}")
        }
        None => println!(rt; "{config} is fit to serve, without rows"),
    };
    match said {
        Ok(()) => ExitCode::from(0),
        Err(_) => say(rt, 6, "writing the output failed"),
    }
}

/// Says how the check ended. The status is the one that is given, or 6 where the output fails.
pub(crate) fn tell(
    rt: &HostRuntime,
    words: &CheckWords,
    files: &SystemFiles,
    refusal: Option<CopyError>,
    end: &Checked,
    status: u8,
) -> ExitCode {
    let Err(why) = end else {
        return tell_good(rt, words);
    };
    let _ = match (
        explain(rt.alloc(), words, why),
        device_cause(why, files, refusal),
    ) {
        (Ok(said), Some(more)) => eprintln!(rt; "hub: {said}: {more}"),
        (Ok(said), None) => eprintln!(rt; "hub: {said}"),
        (Err(_), _) => eprintln!(rt; "hub: there is no memory"),
    };
    ExitCode::from(status)
}
