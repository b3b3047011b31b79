//! Bytes that came and did not go on yet, in room of a fixed size.
ghost use Rattle.std.specs.Prelude.{◌≡◌, ℕ, ◌+◌, ◌-◌, ◌<◌, ◌≤◌, List, [], ◌++◌, length, take, drop, true, false, IfOk, OnErr};
ghost use Rattle.hub_devices.specs.Streams.{IsEnd};
ghost use Rattle.hub_devices.specs.Faults.{Rises};
ghost use Rattle.http_wire.specs.Took.{Took};
ghost use Rattle.upstreams.specs.Upstream.{IsOpen, Moves, IsSpent};
ghost use Rattle.piece_window.specs.Window.{inside, IsInside, Came};

use http_wire::body::take_bytes;
use http_wire::buffer::WireBuffer;
use hub_devices::source::{Failed, Source};
use std::marker::Model;
use upstreams::upstream::Upstream;

/// How many bytes there is room for.
pub const ROOM: usize = 16384;

/// How much room a new one leaves in front, for a head that is longer when it goes on than when it came.
const MARGIN: usize = 64;

/// Bytes from `start` to `end`.
pub struct Window {
    bytes: [u8; 16384],
    start: usize,
    end: usize,
}

impl Drop for Window {
    fn drop(self) {
        let Window {
            bytes: _,
            start: _,
            end: _,
        } = self;
    }
}

impl Model for Window {
    ghost Value = { List ℕ };

    ghost view = { λ w. inside w.bytes w.start w.end };

    ghost invariant = { λ w. IsInside w.bytes w.start w.end };
}

impl Window {
    /// It holds nothing.
    pub fn new() -> Window
        ensures { result ≡ [] }
    {
        Window {
            bytes: [0; 16384],
            start: MARGIN,
            end: MARGIN,
        }
    }

    /// Drops all that is held, and leaves room in front as a new one does.
    pub fn clear(&mut self)
        ensures { self.new ≡ [] }
    {
        self.start = MARGIN;
        self.end = MARGIN;
    }

    pub fn as_slice(&self) -> &[u8]
        ensures value { result.now ≡ self.now }
        ensures within { length self.now ≤ 16384 }
    {
        &self.bytes[self.start..self.end]
    }

    /// Drops the first n bytes, and moves none.
    pub fn drop_front(&mut self, n: usize)
        requires { n ≤ length self.old }
        ensures { self.new ≡ drop n self.old }
    {
        self.start += n;
    }

    /// Puts a piece in front of what is held, where there is room before it. Whether there is isn't part of the value, so only the
    /// answer tells it. Mostly there is, once as many bytes were dropped.
    pub fn put_front(&mut self, piece: &[u8]) -> bool
        ensures put { result ≡ true → self.new ≡ piece.now ++ self.old }
        ensures kept { result ≡ false → self.new ≡ self.old }
    {
        if piece.len() > self.start {
            return false;
        }
        self.start = put_before(&mut self.bytes, self.start, piece);
        true
    }
}

/// Writes a piece over what stands before a place. Gives where the piece begins.
fn put_before(bytes: &mut [u8], end: usize, piece: &[u8]) -> usize
    requires fits { length piece.now ≤ end }
    requires within { end ≤ length bytes.old }
    ensures place { result + length piece.now ≡ end }
    ensures put { drop result bytes.new ≡ piece.now ++ drop end bytes.old }
    ensures size { length bytes.new ≡ length bytes.old }
{
    let start = end - piece.len();
    bytes[start..end].copy_from_slice(piece);
    start
}

/// Moves what is held to the front, if there is no room behind it. Gives where it stands.
fn settle(bytes: &mut [u8], start: usize, end: usize) -> (usize, usize)
    requires { IsInside bytes.old start end }
    ensures held { inside bytes.new result.0 result.1 ≡ inside bytes.old start end }
    ensures within { IsInside bytes.new result.0 result.1 }
    ensures room { end - start < 16384 → result.1 < 16384 }
{
    if end < ROOM {
        return (start, end);
    }
    bytes.copy_within(start..end, 0);
    (0, end - start)
}

/// Takes bytes of a client, behind the end.
fn take_behind<I: Source>(
    input: &mut I,
    kept: &mut WireBuffer,
    bytes: &mut [u8],
    end: usize,
) -> Result<usize, Failed>
    requires { end ≤ length bytes.old }
    ensures ok { IfOk result (λ n. (end + n ≤ length bytes.old)
        × Took (I.left input.old) kept.old (I.left input.new) (take n (drop end bytes.new) ++ kept.new)) }
    ensures front { take end bytes.new ≡ take end bytes.old }
    ensures size { length bytes.new ≡ length bytes.old }
    ensures end { IfOk result (λ n. n ≡ 0 → end < length bytes.old → IsEnd (I.left input.new) × (kept.new ≡ [])) }
    ensures err { OnErr result ((kept.old ≡ []) × (kept.new ≡ []) × (I.left input.new ≡ I.left input.old)) }
    ensures counted { I.faults input.old ≤ I.faults input.new }
    ensures cause { OnErr result (Rises (I.faults input.old) (I.faults input.new)) }
{
    match take_bytes(input, kept, &mut bytes[end..]) {
        Ok(count) => Ok(count),
        Err(_) => Err(Failed),
    }
}

/// Takes bytes of a client, those that are kept first, and reads where none are kept. What came stands behind what was held.
pub fn fill_window<I: Source>(
    input: &mut I,
    kept: &mut WireBuffer,
    window: &mut Window,
) -> Result<usize, Failed>
    requires { length window.old < 16384 }
    ensures took { Took (I.left input.old) (window.old ++ kept.old) (I.left input.new) (window.new ++ kept.new) }
    ensures count { IfOk result (λ n. length window.new ≡ length window.old + n) }
    ensures end { IfOk result (λ n. n ≡ 0 → IsEnd (I.left input.new) × (kept.new ≡ [])) }
    ensures same { IfOk result (λ n. n ≡ 0 → window.new ≡ window.old) }
    ensures err { OnErr result ((window.new ≡ window.old) × (kept.new ≡ [])) }
    ensures counted { I.faults input.old ≤ I.faults input.new }
    ensures cause { OnErr result (Rises (I.faults input.old) (I.faults input.new)) }
{
    let (start, end) = settle(&mut window.bytes, window.start, window.end);
    window.start = start;
    window.end = end;
    match take_behind(input, kept, &mut window.bytes, end) {
        Ok(count) => {
            window.end = end + count;
            Ok(count)
        }
        Err(_) => Err(Failed),
    }
}

/// Receives once, behind the end.
fn receive_behind<U: Upstream>(up: &mut U, bytes: &mut [u8], end: usize) -> Result<usize, Failed>
    requires within { end ≤ length bytes.old }
    requires open { IsOpen (U.told up.old) }
    ensures ok { IfOk result (λ n. (end + n ≤ length bytes.old)
        × Moves (U.told up.old) [] (take n (drop end bytes.new)) (U.told up.new)) }
    ensures front { take end bytes.new ≡ take end bytes.old }
    ensures size { length bytes.new ≡ length bytes.old }
    ensures end { IfOk result (λ n. n ≡ 0 → end < length bytes.old → IsSpent (U.told up.new)) }
    ensures err { OnErr result (U.told up.new ≡ U.told up.old) }
    ensures counted { U.faults up.old ≤ U.faults up.new }
    ensures cause { OnErr result (Rises (U.faults up.old) (U.faults up.new)) }
{
    match up.receive(&mut bytes[end..]) {
        Ok(count) => Ok(count),
        Err(_) => Err(Failed),
    }
}

/// Receives once, as much as there is room for. What came stands behind what was held.
pub fn receive_window<U: Upstream>(up: &mut U, window: &mut Window) -> Result<usize, Failed>
    requires room { length window.old < 16384 }
    requires open { IsOpen (U.told up.old) }
    ensures ok { IfOk result (λ n. Came window.old window.new (U.told up.old) (U.told up.new) n) }
    ensures end { IfOk result (λ n. n ≡ 0 → IsSpent (U.told up.new)) }
    ensures err { OnErr result ((window.new ≡ window.old) × (U.told up.new ≡ U.told up.old)) }
    ensures counted { U.faults up.old ≤ U.faults up.new }
    ensures cause { OnErr result (Rises (U.faults up.old) (U.faults up.new)) }
{
    let (start, end) = settle(&mut window.bytes, window.start, window.end);
    window.start = start;
    window.end = end;
    match receive_behind(up, &mut window.bytes, end) {
        Ok(count) => {
            window.end = end + count;
            Ok(count)
        }
        Err(_) => Err(Failed),
    }
}
