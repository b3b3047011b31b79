//! Two ends that wait for one another, a write that fails, and a budget.
ghost use Rattle.std.specs.Prelude.{◌<◌, None, false, ℕ};

use crate::check::check;
use hub_devices::mem_bytes::{MemSink, MemSource};
use hub_devices::sink::Sink;
use hub_devices::source::{Failed, Source};
use hub_kit::bytes::Bytes;
use std::alloc::Global;
use std::sync::atomic::{AtomicU64, Ordering};
use std::thread;
use std::thread::Threads;
use tunnel::ends::{Pump, PumpEnd};
use tunnel::gate::Gate;
use tunnel::pumps::pump;
use tunnel::relays::relay;

/// Gives one byte, then waits for the other end's first byte, and ends.
#[derive(Drop)]
struct Waiting<'a> {
    gave: bool,
    came: &'a AtomicU64,
    faults: u64,
}

impl Source for Waiting<'_> {
    ghost left = { λ s. None };

    ghost faults = { λ s. s.faults };

    fn read(&mut self, into: &mut [u8]) -> Result<usize, Failed> {
        if into.is_empty() {
            return Ok(0);
        }
        if !self.gave {
            self.gave = true;
            into[0] = 120;
            return Ok(1);
        }
        for _ in 0..10_000_000 {
            if self.came.load(Ordering::SeqCst) != 0 {
                return Ok(0);
            }
            thread::yield_now();
        }
        self.faults = self.faults.saturating_add(1);
        Err(Failed)
    }
}

/// Tells that a byte came.
#[derive(Drop)]
struct Telling<'a> {
    came: &'a AtomicU64,
}

impl Sink for Telling<'_> {
    ghost held = { λ s. None };

    ghost faults = { λ s. 0 };

    ghost closed = { λ s. false };

    fn write(&mut self, from: &[u8]) -> Result<usize, Failed> {
        if !from.is_empty() {
            self.came.store(1, Ordering::SeqCst);
        }
        Ok(from.len())
    }
}

fn end_that_waits(came: &AtomicU64) -> Waiting<'_> {
    Waiting {
        gave: false,
        came,
        faults: 0,
    }
}

fn end_that_tells(came: &AtomicU64) -> Gate<Telling<'_>> {
    Gate::new(Telling { came })
}

/// Either end waits until its own byte has come to the other one.
fn one_byte_each(rt: &impl Threads, client: &AtomicU64, upstream: &AtomicU64) -> (Pump, Pump) {
    let mut client_in = end_that_waits(client);
    let mut client_out = end_that_tells(client);
    let mut up_in = end_that_waits(upstream);
    let mut up_out = end_that_tells(upstream);
    relay(
        rt,
        b"",
        &mut client_in,
        &mut client_out,
        b"",
        &mut up_in,
        &mut up_out,
        1000,
    )
}

#[test]
fn ends_that_wait(rt: HostRuntime) {
    let client = AtomicU64::new(0);
    let upstream = AtomicU64::new(0);
    let ended = Pump {
        bytes: 1,
        end: PumpEnd::Ended,
    };
    let done = one_byte_each(&rt, &client, &upstream);
    check(&rt, done == (ended, ended), "one byte each way");
}

fn source(alloc: Global, bytes: &[u8]) -> MemSource {
    MemSource::new(
        Bytes::from_slice(alloc, bytes).unwrap_or(Bytes::new(alloc)),
        1,
        Vec::new(alloc),
    )
}

fn sink(alloc: Global, failing: &[u64]) -> Gate<MemSink> {
    Gate::new(MemSink::new(
        alloc,
        Vec::from_slice(alloc, failing).unwrap_or(Vec::new(alloc)),
    ))
}

/// Whether three bytes up, one of them given first, and two bytes down come to this, and nothing can be written behind them.
fn relays_so(
    rt: &impl Threads,
    alloc: Global,
    failing: &[u64],
    ended: (Pump, Pump),
    sent: &[u8],
) -> bool {
    let mut client_in = source(alloc, b"bc");
    let mut client_out = sink(alloc, &[]);
    let mut up_in = source(alloc, b"xy");
    let mut up_out = sink(alloc, failing);
    let done = relay(
        rt,
        b"a",
        &mut client_in,
        &mut client_out,
        b"",
        &mut up_in,
        &mut up_out,
        1000,
    );
    let up = up_out.inner().as_slice() == sent;
    let down = client_out.inner().as_slice() == b"xy".as_slice();
    let refused = up_out.write(b"z").is_err();
    drop(client_in);
    drop(client_out);
    drop(up_in);
    drop(up_out);
    (done == ended) & up & down & refused
}

const DOWN: Pump = Pump {
    bytes: 2,
    end: PumpEnd::Ended,
};

#[test]
fn both_ways(rt: HostRuntime) {
    let up = Pump {
        bytes: 3,
        end: PumpEnd::Ended,
    };
    let holds = relays_so(&rt, rt.alloc(), &[], (up, DOWN), b"abc");
    check(&rt, holds, "both ways");
}

#[test]
fn one_way_fails(rt: HostRuntime) {
    let up = Pump {
        bytes: 1,
        end: PumpEnd::WriteFault,
    };
    let holds = relays_so(&rt, rt.alloc(), &[1], (up, DOWN), b"a");
    check(&rt, holds, "the second write up fails");
}

/// What is passed on of two bytes that are given first and two of a source.
fn passed_on(alloc: Global, most: u64) -> Pump {
    let mut input = source(alloc, b"cd");
    let mut output = sink(alloc, &[]);
    let pumped = pump(b"ab", &mut input, &mut output, most);
    drop(input);
    drop(output);
    pumped
}

/// The most that may be passed on, and what is.
const BUDGETS: [(u64, Pump); 5] = [
    (
        0,
        Pump {
            bytes: 0,
            end: PumpEnd::Budget,
        },
    ),
    (
        2,
        Pump {
            bytes: 2,
            end: PumpEnd::Budget,
        },
    ),
    (
        3,
        Pump {
            bytes: 3,
            end: PumpEnd::Budget,
        },
    ),
    (
        4,
        Pump {
            bytes: 4,
            end: PumpEnd::Budget,
        },
    ),
    (
        5,
        Pump {
            bytes: 4,
            end: PumpEnd::Ended,
        },
    ),
];

#[test]
fn budget(rt: HostRuntime) {
    let alloc = rt.alloc();
    for (most, pump) in &BUDGETS {
        check(&rt, passed_on(alloc, *most) == *pump, "a budget");
    }
}
