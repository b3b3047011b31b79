//! An upstream in memory.
ghost use Rattle.std.specs.Prelude.{◌≡◌, ℕ, ◌<◌, ◌≤◌, ◌-◌, List, [], ◌∷◌, ◌++◌, length, take, drop, min, max, Option, Some, None, false};
ghost use Rattle.std.specs.Prelude.{true, is_err, IfOk, OnOk, OnErr, IsErr};
ghost use Rattle.hub_devices.specs.FailingCalls.{is_failing, after_call, new_script};
ghost use Rattle.hub_devices.specs.Faults.{Rises};
ghost use Rattle.upstreams.specs.Upstream.{Told, IsOpen, Connects, Misses, Moves, Finishes, IsSpent};

use crate::tunnelled::Tunnelled;
use crate::upstream::Upstream;
use hub_devices::failing_calls::FailingCalls;
use hub_devices::mem_bytes::{MemSink, MemSource};
use hub_devices::source::Failed;
use hub_kit::bytes::Bytes;
use hub_kit::target::Target;
use std::alloc::{AllocError, Global};
use tunnel::gate::Gate;

/// Gives at most `cut` bytes for each receive, and keeps the targets that it was asked for, as far as it has the memory, what was sent and
/// whether a connection is open. It fails at the calls that `failing` numbers, the first call being 0, and where it finds no memory; a
/// `send` that is to fail keeps the first half of the bytes.
pub struct MemUpstream {
    alloc: Global,
    given: Bytes,
    at: usize,
    cut: usize,
    targets: Vec<Target>,
    names_all: bool,
    sent: Bytes,
    is_open: bool,
    script: FailingCalls,
    ghost in_range: { at ≤ length given },
    ghost gives: { 0 < cut },
}

impl Drop for MemUpstream {
    fn drop(self) {
        let MemUpstream {
            alloc: _,
            given: _,
            at: _,
            cut: _,
            targets: _,
            names_all: _,
            sent: _,
            is_open: _,
            script: _,
        } = self;
    }
}

impl MemUpstream {
    /// A `cut` of 0 counts as 1.
    pub fn new(alloc: Global, given: Bytes, cut: usize, failing: Vec<u64>) -> MemUpstream
        ensures told { ⟦<MemUpstream as Upstream>⟧.told result
            ≡ Some (record { asked_for = []; names_all = true; sent = []; left = given; is_open = false }) }
        ensures cut { result.cut ≡ max cut 1 }
        ensures script { result.script ≡ new_script failing.items }
    {
        MemUpstream {
            alloc,
            given,
            at: 0,
            cut: cut.max(1),
            targets: Vec::new(alloc),
            names_all: true,
            sent: Bytes::new(alloc),
            is_open: false,
            script: FailingCalls::new(failing),
        }
    }

    /// What was sent.
    pub fn sent(&self) -> &[u8]
        ensures { result.now ≡ self.now.sent }
    {
        self.sent.as_slice()
    }
}

/// Keeps a target that is asked for.
fn keep(alloc: Global, targets: &mut Vec<Target>, target: &Target) -> Result<(), AllocError>
    ensures ok { OnOk result (targets.new.items ≡ targets.old.items ++ target.now ∷ []) }
    ensures err { OnErr result (targets.new.items ≡ targets.old.items) }
{
    targets.push(target.copy(alloc)?)?;
    Ok(())
}

impl Upstream for MemUpstream {
    ghost told = { λ u. Some (record {
      asked_for = u.targets.items;
      names_all = u.names_all;
      sent = u.sent;
      left = drop u.at u.given;
      is_open = u.is_open;
    }) };

    ghost faults = { λ u. u.script.faults };

    fn connect(&mut self, target: &Target) -> Result<(), Failed> {
        self.is_open = false;
        if self.script.next() {
            return match keep(self.alloc, &mut self.targets, target) {
                Ok(()) => Err(Failed),
                Err(_) => {
                    self.names_all = false;
                    Err(Failed)
                }
            };
        }
        match keep(self.alloc, &mut self.targets, target) {
            Ok(()) => {
                self.is_open = true;
                Ok(())
            }
            Err(_) => {
                self.names_all = false;
                self.script.fail();
                Err(Failed)
            }
        }
    }

    fn send(&mut self, bytes: &[u8]) -> Result<(), Failed> {
        if self.script.next() {
            return match self.sent.push_all(&bytes[..bytes.len() / 2]) {
                Ok(()) => Err(Failed),
                Err(_) => Err(Failed),
            };
        }
        if self.sent.push_all(bytes).is_err() {
            self.script.fail();
            return Err(Failed);
        }
        Ok(())
    }

    fn receive(&mut self, into: &mut [u8]) -> Result<usize, Failed> {
        if self.script.next() {
            return Err(Failed);
        }
        let left = &self.given.as_slice()[self.at..];
        let count = left.len().min(self.cut).min(into.len());
        into[..count].copy_from_slice(&left[..count]);
        self.at += count;
        Ok(count)
    }

    fn finish(&mut self) {
        self.is_open = false;
    }
}

impl Tunnelled for MemUpstream {
    type Reads = MemSource;

    type Writes = Gate<MemSink>;

    fn halves(&mut self) -> Result<(MemSource, Gate<MemSink>), Failed> {
        if self.script.next() {
            return Err(Failed);
        }
        let Ok(left) = Bytes::from_slice(self.alloc, &self.given.as_slice()[self.at..]) else {
            self.script.fail();
            return Err(Failed);
        };
        let reads = MemSource::new(left, self.cut, Vec::new(self.alloc));
        let writes = MemSink::new(self.alloc, Vec::new(self.alloc));
        Ok((reads, Gate::new(writes)))
    }
}
