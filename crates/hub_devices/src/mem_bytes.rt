//! A source and a sink in memory.
ghost use Rattle.std.specs.Prelude.{◌≡◌, ℕ, ◌<◌, ◌≤◌, ◌-◌, List, [], length, take, min, max, Some, false, true, is_err, IfOk, OnErr, IsErr};
ghost use Rattle.hub_devices.specs.FailingCalls.{Script, is_failing, after_call, new_script};
ghost use Rattle.hub_devices.specs.Faults.{Rises};
ghost use Rattle.hub_devices.specs.Streams.{Takes, Appends, IsEnd, left_from};

use crate::failing_calls::FailingCalls;
use crate::sink::Sink;
use crate::source::{Failed, Source};
use hub_kit::bytes::Bytes;
use std::alloc::Global;

/// Gives at most `cut` bytes for each read. It fails at the calls that `failing` numbers, the first call being 0.
pub struct MemSource {
    bytes: Bytes,
    at: usize,
    cut: usize,
    script: FailingCalls,
    ghost in_range: { at ≤ length bytes },
    ghost gives: { 0 < cut },
}

impl Drop for MemSource {
    fn drop(self) {
        let MemSource {
            bytes: _,
            at: _,
            cut: _,
            script: _,
        } = self;
    }
}

impl MemSource {
    /// A `cut` of 0 counts as 1.
    pub fn new(bytes: Bytes, cut: usize, failing: Vec<u64>) -> MemSource
        ensures left { ⟦<MemSource as Source>⟧.left result ≡ Some bytes }
        ensures cut { result.cut ≡ max cut 1 }
        ensures script { result.script ≡ new_script failing.items }
    {
        MemSource {
            bytes,
            at: 0,
            cut: cut.max(1),
            script: FailingCalls::new(failing),
        }
    }
}

impl Source for MemSource {
    ghost left = { λ s. left_from s.at s.bytes };

    ghost faults = { λ s. s.script.faults };

    fn read(&mut self, into: &mut [u8]) -> Result<usize, Failed>
        ensures fits { IfOk result (λ n. n ≤ length into.new) }
        ensures takes { IfOk result (λ n. Takes (left_from self.old.at self.old.bytes) (take n into.new)
            (left_from self.new.at self.new.bytes)) }
        ensures end { IfOk result (λ n. n ≡ 0 → 0 < length into.new → IsEnd (left_from self.new.at self.new.bytes)) }
        ensures kept { OnErr result (left_from self.new.at self.new.bytes ≡ left_from self.old.at self.old.bytes) }
        ensures counted { self.old.script.faults ≤ self.new.script.faults }
        ensures cause { OnErr result (Rises self.old.script.faults self.new.script.faults) }
        ensures count { IfOk result (λ n. n ≡ min (min (length self.old.bytes - self.old.at) self.old.cut) (length into.old)) }
        ensures cut { self.new.cut ≡ self.old.cut }
        ensures fails { is_err result ≡ is_failing self.old.script }
        ensures script { self.new.script ≡ after_call self.old.script (is_err result) }
    {
        if self.script.next() {
            return Err(Failed);
        }
        let left = &self.bytes.as_slice()[self.at..];
        let count = left.len().min(self.cut).min(into.len());
        into[..count].copy_from_slice(&left[..count]);
        self.at += count;
        Ok(count)
    }
}

/// Holds what is written. It fails at the calls that `failing` numbers, the first call being 0, and where it finds no
/// memory for the bytes.
pub struct MemSink {
    bytes: Bytes,
    script: FailingCalls,
}

impl Drop for MemSink {
    fn drop(self) {
        let MemSink {
            bytes: _,
            script: _,
        } = self;
    }
}

impl MemSink {
    pub fn new(alloc: Global, failing: Vec<u64>) -> MemSink
        ensures held { ⟦<MemSink as Sink>⟧.held result ≡ Some [] }
        ensures script { result.script ≡ new_script failing.items }
    {
        MemSink {
            bytes: Bytes::new(alloc),
            script: FailingCalls::new(failing),
        }
    }

    pub fn as_slice(&self) -> &[u8]
        ensures { ⟦<MemSink as Sink>⟧.held self.now ≡ Some result.now }
    {
        self.bytes.as_slice()
    }
}

impl Sink for MemSink {
    ghost held = { λ s. Some s.bytes };

    ghost faults = { λ s. s.script.faults };

    ghost closed = { λ s. false };

    /// Takes all the bytes.
    fn write(&mut self, from: &[u8]) -> Result<usize, Failed>
        ensures fits { IfOk result (λ n. n ≤ length from.now) }
        ensures some { IfOk result (λ n. 0 < length from.now → 0 < n) }
        ensures appends { IfOk result (λ n. Appends (Some self.old.bytes) (take n from.now) (Some self.new.bytes)) }
        ensures kept { OnErr result (Some self.new.bytes ≡ Some self.old.bytes) }
        ensures counted { self.old.script.faults ≤ self.new.script.faults }
        ensures cause { OnErr result (Rises self.old.script.faults self.new.script.faults) }
        ensures all { IfOk result (λ n. n ≡ length from.now) }
        ensures fails { is_failing self.old.script ≡ true → IsErr result }
        ensures script { self.new.script ≡ after_call self.old.script (is_err result) }
    {
        if self.script.next() {
            return Err(Failed);
        }
        if self.bytes.push_all(from).is_err() {
            self.script.fail();
            return Err(Failed);
        }
        Ok(from.len())
    }
}
