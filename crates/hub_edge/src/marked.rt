//! Programs by a variable in their environment, which all that they start gets too: so what left a program's group is found, and so is a
//! program that another run of the hub started, which is none of its children.
use crate::groups::signal;
use crate::limits::{END_SECONDS, GONE_SECONDS};
use crate::processes::{
    beginning, cut, has_ended, own_group, own_number, read_number, read_process, running_group,
    told,
};
use crate::waiting::{is_over, pause};
use hub_kit::target::Target;
use std::alloc::{AllocError, Global};
use std::fs::{self, DirEntry};
use std::io::{self, ErrorKind};
use std::process::Child;
use std::time::{Duration, Instant};

/// The variable that says of a program for which target and as which generation it was started.
pub(crate) const MARK: &str = "HUB_PROGRAM";

/// The variable that says which hub started it.
pub(crate) const HUB: &str = "HUB_PROCESS";

/// The variables as they stand in an environment.
const MARK_PREFIX: &[u8] = b"HUB_PROGRAM=";

const HUB_PREFIX: &[u8] = b"HUB_PROCESS=";

/// What stands in the first variable.
pub(crate) fn mark_of(
    alloc: Global,
    generation: u64,
    target: &Target,
) -> Result<String, AllocError> {
    let target = target.as_text().as_str();
    format!(in alloc; "{generation} {target}")
}

/// What stands in the second variable: the number of this process, and when it began.
pub(crate) fn own_hub(rt: &HostRuntime) -> io::Result<String> {
    let number = own_number();
    match beginning(rt, number) {
        Some(begun) => Ok(format!(in rt.alloc(); "{number} {begun}")?),
        None => Err(io::Error::from(ErrorKind::NotFound)),
    }
}

/// Which programs are meant: those that were started for a target, and not by another hub that runs, and what they started.
#[derive(Clone, Copy)]
pub(crate) struct Marked<'a> {
    /// As which generation. `None`: as any.
    pub(crate) generation: Option<u64>,
    pub(crate) target: &'a Target,
    /// The program, where it is a child that wasn't waited for. What is in its group is meant too, whatever its environment says.
    pub(crate) child: Option<u32>,
}

/// Ends a generation's program that is a child, and what it started: they are asked, then killed, and the program is waited for.
pub(crate) fn end_child(
    rt: &HostRuntime,
    child: &mut Child,
    generation: u64,
    target: &Target,
) -> io::Result<()> {
    let number = child.id();
    let marked = Marked {
        generation: Some(generation),
        target,
        child: Some(number),
    };
    let ended = end_found(rt, marked);
    if ended.is_err() {
        let _ = signal(rt, "KILL", number);
    }
    child.kill()?;
    child.wait()?;
    ended
}

/// Ends the programs that are meant and run, and what they started: they are asked, then killed.
pub(crate) fn end_found(rt: &HostRuntime, marked: Marked<'_>) -> io::Result<()> {
    signal_all(rt, "TERM", marked)?;
    if await_gone(rt, marked, END_SECONDS)? {
        return Ok(());
    }
    signal_all(rt, "KILL", marked)?;
    if await_gone(rt, marked, GONE_SECONDS)? {
        return Ok(());
    }
    Err(io::Error::from(ErrorKind::ResourceBusy))
}

/// Sends a signal to the groups of all that is meant. Some may be over meanwhile.
fn signal_all(rt: &HostRuntime, name: &str, marked: Marked<'_>) -> io::Result<()> {
    let groups = groups_of(rt, marked)?;
    for group in groups.as_slice() {
        let _ = signal(rt, name, *group);
    }
    Ok(())
}

/// Gives all that is meant so many seconds to end, and says whether it did.
fn await_gone(rt: &HostRuntime, marked: Marked<'_>, seconds: u64) -> io::Result<bool> {
    let begun = Instant::now(rt)?;
    let mut millis = 1u64;
    for _ in 0..100_000 {
        if are_gone(rt, marked)? {
            return Ok(true);
        }
        if is_over(rt, begun, Duration::from_secs(seconds))? {
            break;
        }
        millis = pause(rt, millis);
    }
    Ok(false)
}

/// Whether nothing that is meant runs. While the child does, nothing else is looked at.
fn are_gone(rt: &HostRuntime, marked: Marked<'_>) -> io::Result<bool> {
    if let Some(child) = marked.child {
        if !has_ended(rt, child)? {
            return Ok(false);
        }
    }
    let groups = groups_of(rt, marked)?;
    Ok(groups.is_empty())
}

/// The groups of the processes that are meant and run.
fn groups_of(rt: &HostRuntime, marked: Marked<'_>) -> io::Result<Vec<u32>> {
    let mut groups = Vec::new(rt.alloc());
    add_groups(rt, marked, &mut groups)?;
    Ok(groups)
}

/// Adds the groups of these processes, but for the hub's own, in which a program is before it has one of its own.
fn add_groups(rt: &HostRuntime, marked: Marked<'_>, groups: &mut Vec<u32>) -> io::Result<()> {
    let own = own_group(rt);
    for found in fs::read_dir(rt, "/proc")? {
        match group_of(rt, found?, marked) {
            Some(group) if Some(group) != own => add_group(groups, group)?,
            _ => {}
        }
    }
    Ok(())
}

/// Adds a group that isn't among them.
fn add_group(groups: &mut Vec<u32>, group: u32) -> Result<(), AllocError> {
    if !groups.contains(&group) {
        groups.push(group)?;
    }
    Ok(())
}

/// The group of a process that runs, if it is meant.
fn group_of(rt: &HostRuntime, found: DirEntry, marked: Marked<'_>) -> Option<u32> {
    let number = read_process(found.file_name().as_bytes())?;
    let group = running_group(rt, number)?;
    if marked.child == Some(group) || has_mark(rt, number, marked) {
        Some(group)
    } else {
        None
    }
}

/// Whether the environment that a process was started with says that it is meant. Of another user's process, and of one that has ended,
/// this isn't known: it is none of the hub's.
fn has_mark(rt: &HostRuntime, number: u32, marked: Marked<'_>) -> bool {
    match told(rt, number, "environ") {
        Ok(text) => is_meant(rt, text.as_slice(), marked),
        Err(_) => false,
    }
}

/// Whether an environment says so.
fn is_meant(rt: &HostRuntime, environment: &[u8], marked: Marked<'_>) -> bool {
    let Some(mark) = value_of(environment, MARK_PREFIX) else {
        return false;
    };
    is_mark(mark, marked) && is_left(rt, environment)
}

/// The value of the first variable that begins so, in an environment: zeros stand between them.
fn value_of<'a>(environment: &'a [u8], prefix: &[u8]) -> Option<&'a [u8]> {
    let mut rest = environment;
    for _ in 0..environment.len() {
        let Some((entry, more)) = cut(rest, 0) else {
            break;
        };
        if let Some(value) = entry.strip_prefix(prefix) {
            return Some(value);
        }
        rest = more;
    }
    rest.strip_prefix(prefix)
}

/// Whether this is the mark that is meant: the generation, and behind a blank the target.
fn is_mark(mark: &[u8], marked: Marked<'_>) -> bool {
    let Some((number, target)) = cut(mark, b' ') else {
        return false;
    };
    if target != marked.target.as_text().as_bytes() {
        return false;
    }
    match marked.generation {
        Some(generation) => read_number(number) == Some(generation),
        None => true,
    }
}

/// Whether no other hub that runs has started what has this environment. Where the hub isn't named, it was an earlier one.
fn is_left(rt: &HostRuntime, environment: &[u8]) -> bool {
    match value_of(environment, HUB_PREFIX) {
        Some(hub) => !is_other_hub(rt, hub),
        None => true,
    }
}

/// Whether this names a hub that runs, and is another process than this.
fn is_other_hub(rt: &HostRuntime, hub: &[u8]) -> bool {
    match read_hub(hub) {
        Some((number, begun)) => { number != own_number() && beginning(rt, number) == Some(begun) }
        None => false,
    }
}

/// The number of a process, and when it began.
fn read_hub(hub: &[u8]) -> Option<(u32, u64)> {
    let (number, begun) = cut(hub, b' ')?;
    Some((read_process(number)?, read_number(begun)?))
}
