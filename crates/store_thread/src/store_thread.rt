//! The thread that has a store.
ghost use Rattle.std.specs.Prelude.{◌≡◌, Some, MatchBool, IfOk};
ghost use Rattle.store_thread.specs.Mailbox.{no_talk, with_answer, exchange};
ghost use Rattle.store_thread.specs.Runs.{Calls, WentAt};
ghost use Rattle.store_thread.specs.Told.{IsFaithful, known_of};
ghost use Rattle.store_thread.specs.declared.calls.Call.{Call};
ghost use Rattle.store_thread.specs.declared.calls.Call.TheVariants as calls;

use crate::calls::{Answer, Call};
use crate::ends::{NearEnd, two_ends};
use crate::far_store::FarStore;
use crate::mailbox::Telling;
use hub_kit::text::Text;
use hub_store::command::{ProgramStore, StoreCommand};
use keeper::keeper::{Batch, KeeperError};
use std::alloc::{AllocError, Global};
use std::cell::Cell;
use std::marker::Brand;
use std::process::ExitCode;
use std::sync::Wait;

/// What the thread that has a store does: it answers the calls of one `FarStore`, and closes the store once that is gone.
#[derive(Drop)]
pub struct StoreThread<W: Wait + Copy> {
    /// Until it begins.
    end: Cell<Option<NewEnd<W>>>,
}

/// An end at which nothing was said yet.
#[derive(Drop)]
struct NewEnd<W: Wait + Copy> {
    wait: W,
    end: NearEnd<W>,
    ghost fresh: { end ≡ no_talk },
}

/// A store, which tells no rows yet, and what the thread that has it does.
pub fn far_store<W: Wait + Copy>(
    alloc: Global,
    wait: W,
) -> Result<(FarStore<W>, StoreThread<W>), AllocError>
    ensures { IfOk result (λ made. (made.0.caller ≡ no_talk) × (made.0.faults ≡ 0)) }
{
    let (far, near) = two_ends(alloc, wait)?;
    let end = NewEnd { wait, end: near };
    Ok((
        FarStore::new(alloc, far),
        StoreThread {
            end: Cell::new(Some(end)),
        },
    ))
}

/// An answer for which nothing was read.
fn done_so<K: ProgramStore>(store: &K, done: Result<(), KeeperError>) -> Answer
    ensures { (result.done ≡ done) × (result.rows ≡ None) }
{
    Answer {
        done,
        rows: None,
        refusal: store.refusal(),
    }
}

fn open<K: ProgramStore>(store: &mut K, place: &Text) -> Answer
    ensures { Calls K.Tells K.rows K.is_told K.faults K.Chooses (calls.Open place.now) store.old result.done result.rows store.new }
{
    if let Err(error) = store.choose(Some(place)) {
        return done_so(store, Err(error));
    }
    let rows = store.load();
    Answer {
        done: Ok(()),
        rows: Some(rows),
        refusal: store.refusal(),
    }
}

fn stay<K: ProgramStore>(store: &mut K) -> Answer
    ensures { Calls K.Tells K.rows K.is_told K.faults K.Chooses calls.Stay store.old result.done result.rows store.new }
{
    let done = store.choose(None);
    done_so(store, done)
}

fn load<K: ProgramStore>(store: &mut K) -> Answer
    ensures { Calls K.Tells K.rows K.is_told K.faults K.Chooses calls.Load store.old result.done result.rows store.new }
{
    let rows = store.load();
    Answer {
        done: Ok(()),
        rows: Some(rows),
        refusal: store.refusal(),
    }
}

fn commit<K: ProgramStore>(store: &mut K, batch: &Batch) -> Answer
    ensures { Calls K.Tells K.rows K.is_told K.faults K.Chooses (calls.Commit batch.now) store.old result.done result.rows store.new }
{
    let done = store.commit(batch);
    done_so(store, done)
}

fn answer<K: ProgramStore>(store: &mut K, call: &Call) -> Answer
    ensures { Calls K.Tells K.rows K.is_told K.faults K.Chooses call.now store.old result.done result.rows store.new }
{
    match call {
        Call::Open(place) => open(store, place),
        Call::Stay => stay(store),
        Call::Load => load(store),
        Call::Commit(batch) => commit(store, batch),
    }
}

/// Gives the answer of a store as it is now, and says whether it could.
fn give<N: Telling, K: ProgramStore, W: Wait + Copy>(
    end: &mut NearEnd<W>,
    store: &K,
    answer: Answer,
) -> bool
    requires { (call : Call) × (end.old.asked ≡ Some call) × IsFaithful (known_of end.old.seen) (exchange call answer N.told) }
    ensures { MatchBool result ((call : Call) → end.old.asked ≡ Some call → end.new ≡ with_answer call answer N.told end.old)
        (end.new ≡ end.old) }
{
    // the caller picks from it what is told
    let _ = store;
    end.give_as::<N>(answer)
}

/// Waits for one call, answers it, and says whether another one may come.
fn answer_one<K: ProgramStore, W: Wait + Copy>(end: &mut NearEnd<W>, store: &mut K) -> bool
    requires { (began : K) × WentAt K.Tells K.rows K.is_told K.faults K.Chooses began end.old store.old }
    ensures { (began : K) → WentAt K.Tells K.rows K.is_told K.faults K.Chooses began end.old store.old
        → WentAt K.Tells K.rows K.is_told K.faults K.Chooses began end.new store.new }
{
    let Some(call) = end.take() else {
        return false;
    };
    let said = answer(store, &call);
    give::<Brand, K, W>(end, store, said) && end.ring()
}

/// Answers calls until there is nobody to call. Each call that was asked was made once, in that order, and answered as it went, and no
/// other was made; the last one may have stayed without an answer.
fn answer_all<K: ProgramStore, W: Wait + Copy>(wait: W, end: &mut NearEnd<W>, store: &mut K)
    requires { end.old ≡ no_talk }
    ensures { WentAt K.Tells K.rows K.is_told K.faults K.Chooses store.old end.new store.new }
{
    for _ in wait.forever() {
        if !answer_one(end, store) {
            return;
        }
    }
}

impl<W: Wait + Copy> StoreCommand for StoreThread<W> {
    fn run<K: ProgramStore>(&self, _rt: HostRuntime, store: K) -> ExitCode {
        let mut store = store;
        if let Some(begun) = self.end.take() {
            let NewEnd { wait, mut end } = begun;
            answer_all(wait, &mut end, &mut store);
        }
        store.close();
        ExitCode::SUCCESS
    }
}
