//! What is told of the connections that were served. It is for clauses alone, and only the count has bytes.
ghost use Rattle.std.specs.Prelude.{◌≡◌, ◌+◌, ◌<◌, ◌^◌, ◌++◌, ◌∷◌, [], length};
ghost use Rattle.keeper.specs.Pasts.{entries_of};
ghost use Rattle.hub_serve.specs.Shifts.{count_of, shifts_of};

use http_wire::error::SessionFault;
use hub_run::Served;
use keeper::past::Past;
use std::snapshot::Snapshot;

/// The pass and the kit of a worker, and the two sides of the connection that it serves, at one time.
pub struct Seen<P, Q, I, O> {
    pub pass: Snapshot<P>,
    pub kit: Snapshot<Q>,
    pub input: Snapshot<I>,
    pub output: Snapshot<O>,
}

impl<P, Q, I, O> Drop for Seen<P, Q, I, O> {
    fn drop(self) {
        let Self {
            pass: _,
            kit: _,
            input: _,
            output: _,
        } = self;
    }
}

impl<P, Q, I, O> Seen<P, Q, I, O> {
    pub(crate) fn of(pass: &P, kit: &Q, input: &I, output: &O) -> Seen<P, Q, I, O>
        ensures worker { (result.pass.value ≡ pass.now) × (result.kit.value ≡ kit.now) }
        ensures sides { (result.input.value ≡ input.now) × (result.output.value ≡ output.now) }
    {
        Seen {
            pass: Snapshot::of(pass),
            kit: Snapshot::of(kit),
            input: Snapshot::of(input),
            output: Snapshot::of(output),
        }
    }
}

/// A connection that was served: what stood before it and after it, and how it ended.
pub struct Connection<P, Q, I, O> {
    pub before: Seen<P, Q, I, O>,
    pub after: Seen<P, Q, I, O>,
    pub ended: Result<Served, SessionFault>,
}

impl<P, Q, I, O> Drop for Connection<P, Q, I, O> {
    fn drop(self) {
        let Self {
            before: _,
            after: _,
            ended: _,
        } = self;
    }
}

/// The connections that one worker served, one after the other.
pub type Shift<P, Q, I, O> = Past<Connection<P, Q, I, O>>;

/// The connections that were served: how many, and what is told of each, for each worker those that it served.
#[derive(Drop)]
pub struct Tally<P, Q, I, O> {
    pub count: u64,
    pub shifts: Past<Shift<P, Q, I, O>>,
}

impl<P, Q, I, O> Tally<P, Q, I, O> {
    /// A tally of no connection.
    pub(crate) fn new() -> Tally<P, Q, I, O>
        ensures { (result.count ≡ 0) × (shifts_of result ≡ []) }
    {
        Tally {
            count: 0,
            shifts: Past::new(),
        }
    }

    /// How many connections were served.
    pub fn count(&self) -> u64
        ensures { result ≡ self.now.count }
    {
        self.count
    }

    /// Adds what one more worker served.
    pub(crate) fn add(&mut self, count: u64, shift: Shift<P, Q, I, O>)
        requires room { self.old.count + count < 2 ^ 64 }
        ensures count { self.new.count ≡ self.old.count + count }
        ensures shifts { shifts_of self.new ≡ shifts_of self.old ++ entries_of shift ∷ [] }
    {
        self.count += count;
        self.shifts.add(shift);
    }
}
