//! What programs of servers do, and the clock, the random source and the files of the system.
use crate::check::{check, text};
use hub_devices::clock::Clock;
use hub_devices::files::Files;
use hub_devices::random::Random;
use hub_devices::spawner::Spawner;
use hub_edge::clock::SystemClock;
use hub_edge::files::SystemFiles;
use hub_edge::programs::Programs;
use hub_edge::random::SystemRandom;
use hub_kit::list::List;
use hub_kit::names::read_key;
use hub_kit::target::Target;
use hub_kit::targets::read_target;
use hub_kit::text::Text;
use std::alloc::Global;
use std::fs;
use std::process::Abort;
use std::sync::{Arc, Mutex, Wait};
use std::thread::{self, Threads};
use std::time::Duration;

/// The words of a program that the shell runs.
fn shell(rt: &impl Abort, alloc: Global, script: &str) -> Vec<Text> {
    let mut words = Vec::new(alloc);
    for word in ["/bin/sh", "-c", script] {
        words
            .push(text(rt, alloc, word))
            .expect(rt, "there is memory");
    }
    words
}

/// Programs of these words, none of which was started by them yet.
fn programs_of<H: Threads + Wait + Abort + Copy>(
    rt: HostRuntime,
    handle: H,
    script: &str,
) -> Programs<H> {
    let alloc = rt.alloc();
    let started = Arc::new(alloc, Mutex::new(Vec::new(alloc))).expect(&handle, "there is memory");
    let words = List::from_vec(shell(&handle, alloc, script));
    let words = Arc::new(alloc, words).expect(&handle, "there is memory");
    Programs::new(rt, handle, started, words)
}

/// Who ends a program.
#[derive(Clone, Copy)]
enum Ender {
    /// The hub that started it.
    Own,
    /// A hub that was started later, and knows its generation.
    Next,
    /// A hub that was started later, and knows its target alone.
    NextByTarget,
}

/// Whether the stop succeeds.
fn ends<H: Threads + Wait + Copy>(
    own: &mut Programs<H>,
    next: &mut Programs<H>,
    target: &Target,
    ender: Ender,
) -> bool {
    match ender {
        Ender::Own => own.stop(7, target).is_ok(),
        Ender::Next => next.stop(7, target).is_ok(),
        Ender::NextByTarget => next.end_left(target).is_ok(),
    }
}

/// Whether the program runs on, once it has had two seconds to end: what ends it from outside doesn't wait for it.
fn runs_on<H: Threads + Wait + Copy>(
    rt: HostRuntime,
    programs: &mut Programs<H>,
    target: &Target,
) -> Option<bool> {
    for _ in 0..100 {
        match programs.poll(7, target) {
            Ok(false) => return Some(false),
            Ok(true) => thread::sleep(&rt, Duration::from_millis(20)),
            Err(_) => return None,
        }
    }
    Some(true)
}

/// Whether a start, a question, a stop and another question succeed, and what the questions tell.
fn life<H: Threads + Wait + Abort + Copy>(
    rt: HostRuntime,
    handle: H,
    script: &str,
    ender: Ender,
) -> [Option<bool>; 4] {
    let mut programs = programs_of(rt, handle, script);
    let mut next = programs_of(rt, handle, script);
    // nobody listens there
    let target = read_target(rt.alloc(), b"http://127.0.0.1:1").expect(&handle, "it is a target");
    let begins = starts(rt, &handle, &mut programs, 7, &target);
    let runs = programs.poll(7, &target).ok();
    let ends = ends(&mut programs, &mut next, &target, ender);
    let after = runs_on(rt, &mut programs, &target);
    drop(programs);
    drop(next);
    drop(target);
    [Some(begins), runs, Some(ends), after]
}

const ENDERS: [Ender; 3] = [Ender::Own, Ender::Next, Ender::NextByTarget];

#[test]
fn a_program_starts_and_ends(rt: HostRuntime) {
    for ender in &ENDERS {
        let script = "read s; test \"$s\" = secret-word && echo ready; sleep 100";
        let told = life(rt, rt, script, *ender);
        let wanted = [Some(true), Some(true), Some(true), Some(false)];
        check(&rt, told == wanted, script);
    }
}

/// A file that the tests of this process have to themselves.
fn own_path(handle: &impl Abort, rt: HostRuntime) -> String {
    let process = fs::read_link(&rt, "/proc/self").expect(handle, "the number of this process");
    let number = process.as_str();
    let path = format!(in rt.alloc(); "/tmp/hub-edge-tests-{number}").expect(handle, "a path");
    drop(process);
    path
}

/// What a program's script starts by these words: it works for a second once it is to end, and leaves its number in a file.
fn script_of(handle: &impl Abort, alloc: Global, starter: &str, path: &str) -> String {
    let trap = format!(in alloc; "sleep 1; echo $$ > {path}; exit").expect(handle, "a trap");
    let waits = "echo ready; while :; do sleep 0.1; done";
    let script = format!(in alloc;
        "read s; {starter} sh -c 'trap \"{trap}\" TERM; {waits}' & exec sleep 100"
    );
    drop(trap);
    script.expect(handle, "a script")
}

/// Whether a file has the number of a process, and that process is over. The file is removed.
fn told_its_end(handle: &impl Abort, rt: HostRuntime, path: &str) -> bool {
    let Ok(number) = fs::read_to_string(&rt, path) else {
        return false;
    };
    let number = number.trim_end();
    let words = format!(in rt.alloc(); "/proc/{number}/cmdline").expect(handle, "a path");
    let is_over = match fs::read(&rt, words.as_str()) {
        Ok(words) => words.is_empty(),
        Err(_) => true,
    };
    drop(words);
    fs::remove_file(&rt, path).is_ok() & is_over
}

/// What a program started has time to end too, in its group and outside of it.
#[test]
fn what_a_program_started_ends(rt: HostRuntime) {
    let path = own_path(&rt, rt);
    for starter in ["env", "setsid"] {
        for ender in [Ender::Own, Ender::Next] {
            let script = script_of(&rt, rt.alloc(), starter, path.as_str());
            let told = life(rt, rt, script.as_str(), ender);
            drop(script);
            let wanted = [Some(true), Some(true), Some(true), Some(false)];
            check(&rt, told == wanted, starter);
            check(&rt, told_its_end(&rt, rt, path.as_str()), starter);
        }
    }
    drop(path);
}

/// Programs of a script, of which the first was started as generation 7.
fn started<H: Threads + Wait + Abort + Copy>(
    rt: HostRuntime,
    handle: H,
    target: &Target,
    script: &str,
) -> Programs<H> {
    let mut programs = programs_of(rt, handle, script);
    check(
        &handle,
        starts(rt, &handle, &mut programs, 7, target),
        script,
    );
    programs
}

/// Whether a generation starts at a target.
fn starts<H: Threads + Wait + Abort + Copy>(
    rt: HostRuntime,
    handle: &H,
    programs: &mut Programs<H>,
    generation: u64,
    target: &Target,
) -> bool {
    let secret = text(handle, rt.alloc(), "secret-word");
    let key = read_key(b"ann/lab").expect(handle, "it is a key");
    let starts = programs.start(generation, &key, target, &secret).is_ok();
    drop(secret);
    starts
}

/// A start ends what is left at its target, as of a hub that kept nothing.
#[test]
fn a_start_ends_what_was_left(rt: HostRuntime) {
    let target = read_target(rt.alloc(), b"http://127.0.0.1:2").expect(&rt, "it is a target");
    let script = "read s; echo ready; exec sleep 100";
    let mut programs = started(rt, rt, &target, script);
    let mut next = programs_of(rt, rt, script);
    check(&rt, starts(rt, &rt, &mut next, 8, &target), "it starts");
    check(
        &rt,
        runs_on(rt, &mut programs, &target) == Some(false),
        "the other one is over",
    );
    check(&rt, next.stop(8, &target).is_ok(), "a stop");
    check(
        &rt,
        programs.stop(7, &target).is_ok(),
        "a stop of what is over",
    );
    drop(programs);
    drop(next);
    drop(target);
}

/// A program that names another process as its hub, which runs.
const ANOTHER_HUBS: &str =
    "read s; env -i sleep 99& exec env HUB_PROCESS=\"$! $(sed 's/.*) //' /proc/$!/stat | cut -d' ' -f20)\" sh -c 'echo ready; sleep 99'";

/// What another hub started isn't left while that hub runs.
#[test]
fn a_program_of_another_hub_runs_on(rt: HostRuntime) {
    let target = read_target(rt.alloc(), b"http://127.0.0.1:3").expect(&rt, "it is a target");
    let mut programs = started(rt, rt, &target, ANOTHER_HUBS);
    check(&rt, programs.end_left(&target).is_ok(), "nothing is left");
    check(
        &rt,
        programs.poll(7, &target).ok() == Some(true),
        "it runs on",
    );
    check(&rt, programs.stop(7, &target).is_ok(), "a stop");
    drop(programs);
    drop(target);
}

const NEVER_READY: [&str; 3] = ["echo steady; sleep 100", "exit 3", "read s"];

#[test]
fn a_program_is_never_ready(rt: HostRuntime) {
    for script in &NEVER_READY {
        let told = life(rt, rt, script, Ender::Own);
        let wanted = [Some(false), Some(false), Some(true), Some(false)];
        check(&rt, told == wanted, script);
    }
}

fn draws_differ(rt: HostRuntime) -> bool {
    let mut random = SystemRandom::new(rt);
    let first = random.draw().ok();
    first.is_some() & (first != random.draw().ok())
}

/// Whether a file's first bytes are read, one more than the limit, and an empty one at which there is nothing to read is refused.
fn are_read(handle: &impl Abort, rt: HostRuntime) -> bool {
    let mut files = SystemFiles::new(rt);
    let stat = text(handle, rt.alloc(), "/proc/self/stat");
    let none = text(handle, rt.alloc(), "/dev/null");
    let read = files.text(&stat, 10).is_ok_and(|bytes| bytes.len() == 11);
    let refused = files.text(&none, 10).is_err() & files.cause().is_some();
    drop(stat);
    drop(none);
    read & refused
}

#[test]
fn clock_random_and_files(rt: HostRuntime) {
    check(
        &rt,
        SystemClock::new(rt).now().seconds() > 1577836800,
        "now",
    );
    check(&rt, draws_differ(rt), "two draws");
    check(&rt, are_read(&rt, rt), "two files");
}
