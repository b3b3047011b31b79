//! What is said on standard error where the command didn't do its work. It changes no status, and where it can't be said nothing is.
use crate::system::System;
use hub_edge::files::SystemFiles;
use hub_kit::text::Text;
use hub_main::cause::Cause;
use hub_main::end::End;
use hub_main::explain::explain;
use hub_main::world::Outside;
use hub_store::command::ProgramStore;
use std::io::ErrorKind;

/// Why the file of configuration wasn't read.
fn file_cause(files: &SystemFiles) -> &'static str {
    match files.cause() {
        Some(ErrorKind::NotFound) => "there is no such file",
        Some(ErrorKind::PermissionDenied) => "it may not be read",
        Some(ErrorKind::InvalidInput) => "it is no regular file",
        _ => "reading it failed",
    }
}

/// Why the store's file wasn't taken.
fn store_cause<K: ProgramStore>(store: &Option<K>) -> Option<&'static str> {
    match store {
        Some(store) => match store.refusal() {
            Some(refusal) => Some(refusal.text()),
            None => None,
        },
        None => None,
    }
}

/// What the devices add.
fn device_cause<K: ProgramStore>(outside: &Outside<System<K>>, end: &End) -> Option<&'static str> {
    match end {
        Err(Cause::NoFile) => Some(file_cause(&outside.files)),
        Err(Cause::NoStore) => store_cause(&outside.store),
        _ => None,
    }
}

/// Says why the last command didn't do its work, if it didn't.
pub(crate) fn tell<K: ProgramStore>(
    rt: &HostRuntime,
    words: &[Text],
    outside: &Outside<System<K>>,
) {
    let Some(end) = &outside.end else {
        return;
    };
    match (explain(rt.alloc(), words, end), device_cause(outside, end)) {
        (Ok(Some(why)), Some(more)) => {
            let _ = eprintln!(rt; "hub: {why}: {more}");
        }
        (Ok(Some(why)), None) => {
            let _ = eprintln!(rt; "hub: {why}");
        }
        (Ok(None), _) => {}
        (Err(_), _) => {
            let _ = eprintln!(rt; "hub: there is no memory");
        }
    }
}
