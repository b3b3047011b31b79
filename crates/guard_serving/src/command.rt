//! The command `guard`, over the outside that the program makes.
ghost use Rattle.std.specs.Prelude.{◌≡◌, ◌≤◌, ◌<◌, All, Some, length};
ghost use Rattle.guard_serving.specs.Ends.{IsOver};
ghost use Rattle.guard_serving.specs.Hall.{hall};
ghost use Rattle.guard_serving.specs.Runs as spec;
ghost use Rattle.hub_words.specs.Guard.{guard_read};

use crate::ends::{GuardEnd, GuardFault, unserved};
use crate::guards::Guards;
use crate::kit::GuardKit;
use crate::secret::secret_of;
use crate::serving::{serve_at_door, serve_by_token};
use carries::{Addressed, Carrier};
use guard_login::door::Door;
use hub_devices::files::Files;
use hub_devices::listener::Listener;
use hub_devices::random::Random;
use hub_devices::sink::Sink;
use hub_kit::text::Text;
use hub_link::link::HubLink;
use hub_words::guard::{GuardWords, read_guard};
use hub_words::word_error::WordError;
use std::alloc::Global;
use std::sync::Wait;
use std::thread::Threads;
use tunnel::shuts::Shuts;

/// The door of these words, with this secret.
fn door_of(words: GuardWords, secret: Text) -> Door
    ensures { result ≡ spec.door_of words secret }
{
    Door {
        key: words.server,
        target: words.target,
        hub: words.hub,
        secret,
        secure_cookies: words.secure_cookies,
    }
}

/// Serves by these words, with this secret where browsers sign in.
fn serve_words<
    L: Listener<In: Send, Out: Shuts + Send> + Send,
    H: HubLink + Send + Drop,
    R: Random + Send + Drop,
    U: Carrier<L::In, L::Out, Reads: Send, Writes: Send> + Send + Drop,
    O: Sink,
    W: Threads + Wait + Sync,
>(
    rt: &W,
    alloc: Global,
    words: GuardWords,
    secret: Option<Text>,
    doors: &mut L,
    kits: &mut Vec<GuardKit<H, R, U>>,
    output: &mut O,
) -> GuardEnd
    requires kits { 0 < length kits.old.items }
    ensures served { spec.AreGuarded L.are_sides ⟦<GuardKit<H, R, U> as Guards<L::In, L::Out>>⟧.guarded
        ⟦<GuardKit<H, R, U> as Guards<L::In, L::Out>>⟧.signed_in kits.old.items kits.new.items words secret result.served }
    ensures over { IsOver (hall L.given L.faults O.held O.faults doors.old output.old) result
        (hall L.given L.faults O.held O.faults doors.new output.new) }
    ensures writes { O.faults output.old ≤ O.faults output.new }
{
    match secret {
        Some(secret) => {
            let door = door_of(words, secret);
            let end = serve_at_door(rt, alloc, &door, doors, kits, output);
            drop(door);
            end
        }
        None => {
            let end = serve_by_token(rt, alloc, &words.server, &words.target, doors, kits, output);
            drop(words);
            end
        }
    }
}

/// The command of these words.
fn run_words<
    L: Listener<In: Send, Out: Shuts + Send> + Send,
    H: HubLink + Send + Drop,
    R: Random + Send + Drop,
    U: Carrier<L::In, L::Out, Reads: Send, Writes: Send> + Send + Drop,
    F: Files,
    O: Sink,
    W: Threads + Wait + Sync,
>(
    rt: &W,
    alloc: Global,
    words: GuardWords,
    files: &mut F,
    doors: &mut L,
    kits: &mut Vec<GuardKit<H, R, U>>,
    output: &mut O,
) -> GuardEnd
    requires kits { 0 < length kits.old.items }
    ensures ends { spec.RunEnds (spec.AreGuarded L.are_sides ⟦<GuardKit<H, R, U> as Guards<L::In, L::Out>>⟧.guarded
        ⟦<GuardKit<H, R, U> as Guards<L::In, L::Out>>⟧.signed_in kits.old.items kits.new.items)
        (kits.new.items ≡ kits.old.items) (Some words) (F.files files.old) (F.faults files.old) (F.faults files.new)
        (hall L.given L.faults O.held O.faults doors.old output.old) result (hall L.given L.faults O.held O.faults doors.new output.new) }
    ensures files { F.files files.new ≡ F.files files.old }
    ensures looked { F.faults files.old ≤ F.faults files.new }
    ensures writes { O.faults output.old ≤ O.faults output.new }
{
    match secret_of(alloc, files, &words.secret_file) {
        Ok(secret) => serve_words(rt, alloc, words, secret, doors, kits, output),
        Err(error) => {
            drop(words);
            unserved(GuardFault::of_secret(error))
        }
    }
}

/// The same of the command whose words are read: by a listener for their address, and by links that ask their hub.
pub fn run_told<
    L: Listener<In: Send, Out: Shuts + Send> + Addressed + Send,
    H: HubLink + Addressed + Send + Drop,
    R: Random + Send + Drop,
    U: Carrier<L::In, L::Out, Reads: Send, Writes: Send> + Send + Drop,
    F: Files,
    O: Sink,
    W: Threads + Wait + Sync,
>(
    rt: &W,
    alloc: Global,
    words: GuardWords,
    files: &mut F,
    doors: &mut L,
    kits: &mut Vec<GuardKit<H, R, U>>,
    output: &mut O,
) -> GuardEnd
    requires listen { L.address doors.old ≡ words.listen }
    requires hub { All (λ kit. H.address kit.link ≡ words.hub) kits.old.items }
    requires kits { 0 < length kits.old.items }
    ensures ends { spec.RunEnds (spec.AreGuarded L.are_sides ⟦<GuardKit<H, R, U> as Guards<L::In, L::Out>>⟧.guarded
        ⟦<GuardKit<H, R, U> as Guards<L::In, L::Out>>⟧.signed_in kits.old.items kits.new.items)
        (kits.new.items ≡ kits.old.items) (Some words) (F.files files.old) (F.faults files.old) (F.faults files.new)
        (hall L.given L.faults O.held O.faults doors.old output.old) result (hall L.given L.faults O.held O.faults doors.new output.new) }
    ensures files { F.files files.new ≡ F.files files.old }
    ensures looked { F.faults files.old ≤ F.faults files.new }
    ensures writes { O.faults output.old ≤ O.faults output.new }
{
    run_words(rt, alloc, words, files, doors, kits, output)
}

/// Runs the command `guard` that the words say: reads the secret in the file that they name, if they do, writes `ready` and a line end, and
/// takes the listener's connections until it fails. Each is served by a worker with one of the kits: one request by
/// `guard::carrying::guard_carry_one`, and by `guard_login::entries::enter_one` where there is a secret. The kits come back in
/// their places.
///
/// Refused words, and a file that can't be read or has no secret, do nothing, and so does want of memory before `ready`.
pub fn run<
    L: Listener<In: Send, Out: Shuts + Send> + Send,
    H: HubLink + Send + Drop,
    R: Random + Send + Drop,
    U: Carrier<L::In, L::Out, Reads: Send, Writes: Send> + Send + Drop,
    F: Files,
    O: Sink,
    W: Threads + Wait + Sync,
>(
    rt: &W,
    alloc: Global,
    words: &[Text],
    files: &mut F,
    doors: &mut L,
    kits: &mut Vec<GuardKit<H, R, U>>,
    output: &mut O,
) -> GuardEnd
    requires kits { 0 < length kits.old.items }
    ensures ends { spec.RunEnds (spec.AreGuarded L.are_sides ⟦<GuardKit<H, R, U> as Guards<L::In, L::Out>>⟧.guarded
        ⟦<GuardKit<H, R, U> as Guards<L::In, L::Out>>⟧.signed_in kits.old.items kits.new.items)
        (kits.new.items ≡ kits.old.items) (guard_read words.now) (F.files files.old) (F.faults files.old) (F.faults files.new)
        (hall L.given L.faults O.held O.faults doors.old output.old) result (hall L.given L.faults O.held O.faults doors.new output.new) }
    ensures files { F.files files.new ≡ F.files files.old }
    ensures looked { F.faults files.old ≤ F.faults files.new }
    ensures writes { O.faults output.old ≤ O.faults output.new }
{
    match read_guard(alloc, words) {
        Ok(words) => run_words(rt, alloc, words, files, doors, kits, output),
        Err(WordError::Refused) => unserved(GuardFault::Words),
        Err(WordError::Memory) => unserved(GuardFault::Memory),
    }
}
