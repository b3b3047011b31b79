//! What is said on standard error: where the hub listens, which services it left, and why it didn't serve what it was asked for. It changes
//! no status, and where it can't be said nothing is.
use crate::system::ServeSystem;
use crate::watched::Said;
use hub_edge::files::SystemFiles;
use hub_edge::listener::SocketListener;
use hub_edge::output::moment_now;
use hub_kit::text::Text;
use hub_main::cause::Cause;
use hub_serving::end::NotServed;
use hub_serving::explain::{explain_end, explain_refusal};
use hub_serving::plan::Plan;
use hub_serving::world::ServeOutside;
use hub_store::command::ProgramStore;
use keeper::keeper::Row;
use kept_rows::reading::read_row;
use overruled::kept::{Overruled, told_of};
use service_edge::programs::ServicePrograms;
use services_run::place::State;
use std::alloc::{AllocError, Global};
use std::io::{Error, ErrorKind};
use std::process::ExitCode;
use std::sync::Wait;
use std::thread::Threads;

/// Says why a command didn't do its work, if it didn't, and what the devices add.
fn say_why(rt: &HostRuntime, why: Result<Option<String>, AllocError>, more: Option<&'static str>) {
    match (why, more) {
        (Ok(Some(why)), Some(more)) => {
            let _ = eprintln!(rt; "hub: {why}: {more}");
        }
        (Ok(Some(why)), None) => {
            let _ = eprintln!(rt; "hub: {why}");
        }
        (Ok(None), _) => {}
        (Err(_), _) => {
            let _ = eprintln!(rt; "hub: there is no memory");
        }
    }
}

/// Why the file of configuration wasn't read.
fn file_cause(files: &SystemFiles) -> &'static str {
    match files.cause() {
        Some(ErrorKind::NotFound) => "there is no such file",
        Some(ErrorKind::PermissionDenied) => "it may not be read",
        Some(ErrorKind::InvalidInput) => "it is no regular file",
        _ => "reading it failed",
    }
}

/// Why the store's file wasn't taken.
fn store_cause<K: ProgramStore>(store: &Option<K>) -> Option<&'static str> {
    match store {
        Some(store) => match store.refusal() {
            Some(refusal) => Some(refusal.text()),
            None => None,
        },
        None => None,
    }
}

/// Says why the hub didn't serve all that it was asked for, if it didn't.
pub(crate) fn tell_served<K: ProgramStore + Send, H: Threads + Wait + Copy + Send + Sync>(
    rt: &HostRuntime,
    words: &[Text],
    plan: &Plan,
    outside: &ServeOutside<ServeSystem<K, H>>,
) {
    let Some(end) = &outside.end else {
        return;
    };
    let more = match end {
        Err(NotServed::Because(Cause::NoStore)) => store_cause(&outside.store),
        _ => None,
    };
    say_why(rt, explain_end(rt.alloc(), words, plan, end), more);
}

/// Says why the words or the file of `serve` are refused.
pub(crate) fn tell_refused(
    rt: &HostRuntime,
    words: &[Text],
    files: &SystemFiles,
    why: NotServed,
) -> ExitCode {
    let more = match &why {
        NotServed::Because(Cause::NoFile) => Some(file_cause(files)),
        _ => None,
    };
    let said = match explain_refusal(rt.alloc(), words, &why) {
        Ok(said) => Ok(Some(said)),
        Err(_) => Err(AllocError),
    };
    say_why(rt, said, more);
    ExitCode::from(why.status())
}

/// Why a service is left whose program has this number.
fn why_left<H: Threads + Wait + Copy>(running: &ServicePrograms<H>, number: u64) -> &'static str {
    if running.is_unstopped(number) {
        "its program couldn't be stopped"
    } else {
        "its route couldn't be deleted"
    }
}

/// Says of each service of the plan that is left at the end where its program listens, and why it is left.
pub(crate) fn tell_left<K: ProgramStore + Send, H: Threads + Wait + Copy + Send + Sync>(
    rt: &HostRuntime,
    plan: &Plan,
    outside: &ServeOutside<ServeSystem<K, H>>,
) {
    let Some(stopped) = &outside.stopped else {
        return;
    };
    let managed = plan.managed.as_slice();
    for at in 0..managed.len() {
        // they stand in the order of the plan
        let service = &managed[at];
        if let Some((State::Loose(number), _)) = stopped.state(at) {
            let name = service.name.as_str();
            let target = service.target.as_text().as_str();
            let why = why_left(&outside.services.running, number);
            let moment = moment_now(rt);
            let now = moment.as_str();
            let _ = eprintln!(rt;
                "{now} hub: the service {name} is left, and its program at {target} may run on: {why}"
            );
        }
    }
}

/// Where the hub listens, over which store, and with how many configured users and workers.
pub(crate) fn announcement(
    alloc: Global,
    plan: &Plan,
    listener: &SocketListener,
) -> Result<String, AllocError> {
    let place = match &plan.db {
        Some(name) => name.as_str(),
        None => "memory",
    };
    let address = plan.listen.as_str();
    let port = listener.port().unwrap_or(0);
    let users = plan.hub.users.as_slice().len();
    let workers = plan.workers;
    format!(in alloc;
        "listens at {address}, port {port}, over {place}: {users} configured users, {workers} workers"
    )
}

/// Says which thing of the configuration a kept row overrules, and which call changes it.
fn tell_one(rt: &HostRuntime, file: &str, thing: Overruled) {
    match thing {
        Overruled::Members(group) => {
            let group = group.as_str();
            let _ = eprintln!(rt;
                "hub: {file}: the group {group} is kept with other members; POST and DELETE /hub/api/groups/{group}/users change them"
            );
        }
        Overruled::Admin(user) => {
            let user = user.as_str();
            let _ = eprintln!(rt;
                "hub: {file}: the user {user} is kept as an admin; PATCH /hub/api/users/{user} changes it"
            );
        }
    }
}

/// Says what of the configuration the kept rows overrule. A row that doesn't read is told by the opening.
pub(crate) fn tell_overruled(rt: &HostRuntime, said: &Said, rows: &[Row]) {
    for kept in rows {
        // users and groups
        if kept.kind > 2 {
            return;
        }
        if let Ok(row) = read_row(rt.alloc(), kept) {
            if let Some(thing) = told_of(said.users.as_slice(), said.groups.as_slice(), &row) {
                tell_one(rt, said.file.as_str(), thing);
            }
            drop(row);
        }
    }
}

/// Says that the hub listens.
pub(crate) fn announce(rt: &HostRuntime, line: &str) {
    let moment = moment_now(rt);
    let at = moment.as_str();
    let _ = eprintln!(rt; "{at} hub: {line}");
}

/// Why an address can't be listened at.
fn listener_cause(error: &Error) -> &'static str {
    match error.kind() {
        ErrorKind::AddrInUse => "another program listens there",
        ErrorKind::AddrNotAvailable => "this machine has no such address",
        ErrorKind::PermissionDenied => "the system doesn't permit it",
        ErrorKind::InvalidInput | ErrorKind::NotFound => "the system knows no such address",
        ErrorKind::OutOfMemory => "there is no memory",
        _ => "the system refuses it",
    }
}

/// Says at which address the hub can't listen, and why.
pub(crate) fn tell_unheard(rt: &HostRuntime, plan: &Plan, error: &Error) {
    let address = plan.listen.as_str();
    let cause = listener_cause(error);
    let _ = eprintln!(rt;
        "hub: nothing can listen at {address}, the `listen` of the configuration: {cause}"
    );
}
