//! The bytes that were read and belong to no request yet.
ghost use Rattle.std.specs.Prelude.{◌≡◌, ℕ, ◌+◌, ◌<◌, ◌≤◌, List, [], ◌++◌, length, drop, IfOk, OnErr};
ghost use Rattle.hub_devices.specs.Streams.{IsEnd};
ghost use Rattle.hub_devices.specs.Faults.{Rises};
ghost use Rattle.http_wire.specs.Took.{Took};

use hub_devices::source::Source;
use std::alloc::Global;
use std::marker::Model;

/// How many bytes a head may have, and how many a buffer keeps.
pub const HEAD_LIMIT: usize = 16384;

/// How many bytes are read first: most heads have no more, and the allocator hands out a piece of this size at once.
const FIRST: usize = 1000;

/// How many bytes are read at once behind those.
const CHUNK: usize = 4096;

pub struct WireBuffer {
    bytes: Vec<u8>,
}

impl Drop for WireBuffer {
    fn drop(self) {
        let WireBuffer { bytes: _ } = self;
    }
}

impl Model for WireBuffer {
    ghost Value = { List ℕ };

    ghost view = { λ b. b.bytes.items };

    ghost invariant = { λ b. length b.bytes.items ≤ 16384 };
}

/// Why no more bytes came.
#[derive(Clone, Copy, Debug, PartialEq, Eq)]
pub(crate) enum FillError {
    Fault,
    Memory,
}

impl WireBuffer {
    /// A buffer that holds nothing.
    pub fn new(alloc: Global) -> WireBuffer
        ensures { result ≡ [] }
    {
        WireBuffer {
            bytes: Vec::new(alloc),
        }
    }

    pub(crate) fn as_slice(&self) -> &[u8]
        ensures value { result.now ≡ self.now }
        ensures within { length self.now ≤ 16384 }
    {
        let _ = &self.bytes;
        self.bytes.as_slice()
    }

    /// Drops the first n bytes.
    pub(crate) fn drop_front(&mut self, n: usize)
        requires { n ≤ length self.old }
        ensures { self.new ≡ drop n self.old }
    {
        let left = self.bytes.len() - n;
        self.bytes.copy_within(n.., 0);
        self.bytes.truncate(left);
    }
}

/// Reads once, by way of this piece. What came stands behind what was kept.
fn fill_by<I: Source>(
    input: &mut I,
    kept: &mut WireBuffer,
    piece: &mut [u8],
) -> Result<usize, FillError>
    requires room { length kept.old < 16384 }
    requires piece { 0 < length piece.old }
    ensures took { Took (I.left input.old) kept.old (I.left input.new) kept.new }
    ensures count { IfOk result (λ n. length kept.new ≡ length kept.old + n) }
    ensures end { IfOk result (λ n. n ≡ 0 → IsEnd (I.left input.new)) }
    ensures kept { OnErr result (kept.new ≡ kept.old) }
    ensures counted { I.faults input.old ≤ I.faults input.new }
    ensures cause { result ≡ Err FillError.Fault → Rises (I.faults input.old) (I.faults input.new) }
{
    if kept.bytes.reserve(piece.len()).is_err() {
        return Err(FillError::Memory);
    }
    let most = (HEAD_LIMIT - kept.bytes.len()).min(piece.len());
    let Ok(count) = input.read(&mut piece[..most]) else {
        return Err(FillError::Fault);
    };
    match kept.bytes.extend_from_slice(&piece[..count]) {
        Ok(()) => Ok(count),
        Err(_) => unreachable!(),
    }
}

/// Reads once. What came stands behind what was kept.
pub(crate) fn fill<I: Source>(input: &mut I, kept: &mut WireBuffer) -> Result<usize, FillError>
    requires { length kept.old < 16384 }
    ensures took { Took (I.left input.old) kept.old (I.left input.new) kept.new }
    ensures count { IfOk result (λ n. length kept.new ≡ length kept.old + n) }
    ensures end { IfOk result (λ n. n ≡ 0 → IsEnd (I.left input.new)) }
    ensures kept { OnErr result (kept.new ≡ kept.old) }
    ensures counted { I.faults input.old ≤ I.faults input.new }
    ensures cause { result ≡ Err FillError.Fault → Rises (I.faults input.old) (I.faults input.new) }
{
    if kept.bytes.is_empty() {
        fill_by(input, kept, &mut [0; FIRST])
    } else {
        fill_by(input, kept, &mut [0; CHUNK])
    }
}
