//! How many connections were served. Only `serve` and `add` raise the count.
ghost use Rattle.std.specs.Prelude.{◌≡◌, ◌+◌, ◌<◌, ◌^◌};
ghost use Rattle.worker_hall.specs.Shifts.{IsServed};

use crate::serves::Serves;
use hub_devices::listener::Listener;
use std::alloc::Global;
use std::marker::{Model, PhantomData};
use std::sync::Wait;

/// A source and a sink as a connection left them. Contracts see both, and no call takes them out: the connection ends
/// where this is dropped.
#[derive(Drop)]
pub struct Finished<I, O> {
    input: I,
    output: O,
}

impl<I, O> Model for Finished<I, O> {
    ghost Value = { I × O };

    ghost view = { λ f. (f.input, f.output) };
}

/// How many connections of a listener were served. Contracts see the count.
#[derive(Drop)]
pub struct Tally<L> {
    count: u64,
    of: PhantomData<L>,
}

impl<L> Model for Tally<L> {
    ghost use Rattle.std.specs.Prelude.{ℕ, ◌<◌, ◌^◌};

    ghost Value = { ℕ };

    ghost view = { λ t. t.count };

    ghost invariant = { λ t. t.count < 2 ^ 64 };
}

impl<L: Listener> Tally<L> {
    /// A tally of no connection.
    pub fn new() -> Tally<L>
        ensures { result ≡ 0 }
    {
        Tally {
            count: 0,
            of: PhantomData,
        }
    }

    /// How many connections were served.
    pub fn count(&self) -> u64
        ensures { result ≡ self.now }
    {
        self.count
    }

    /// Has a connection served on its own two sides, and counts it.
    pub fn serve<S: Serves<L::In, L::Out>, W: Wait>(
        &mut self,
        rt: &W,
        alloc: Global,
        server: &mut S,
        input: L::In,
        output: L::Out,
    ) -> Finished<L::In, L::Out>
        requires sides { L.are_sides input output }
        requires room { self.old + 1 < 2 ^ 64 }
        ensures counted { self.new ≡ self.old + 1 }
        ensures served { S.served server.old input output server.new result.0 result.1 }
        ensures once { IsServed L.are_sides S.served server.old server.new }
    {
        let mut input = input;
        let mut output = output;
        self.count += 1;
        server.serve(rt, alloc, &mut input, &mut output);
        Finished { input, output }
    }

    /// Adds what another tally counts.
    pub fn add(&mut self, other: Tally<L>)
        requires room { self.old + other < 2 ^ 64 }
        ensures { self.new ≡ self.old + other }
    {
        self.count += other.count;
    }
}
