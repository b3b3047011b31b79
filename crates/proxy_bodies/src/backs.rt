//! The bodies of replies, passed back to a client. Nothing here takes memory.
ghost use Rattle.std.specs.Prelude.{◌≡◌, ◌≢◌, ◌<◌, ◌≤◌, ◌+◌, ◌-◌, ◌++◌, ℕ, List, [], length, min, take, drop};
ghost use Rattle.std.specs.Prelude.{Err, IfOk, IfErr, OnOk, OnErr};
ghost use Rattle.hub_devices.specs.Faults.{Rises};
ghost use Rattle.hub_devices.specs.Streams.{Appends};
ghost use Rattle.upstreams.specs.Upstream.{IsOpen, Moves, IsSpent};
ghost use Rattle.chunk_parts.specs.Parts.{IsAt, Stands};
ghost use Rattle.proxy_bodies.specs.Backs.{Leads, StopsBack, StopsSized, IsBehind, EndsBehind};

use crate::parts::{STEPS, more_in, next_in};
use chunk_parts::parts::{At, Part, is_done};
use http_wire::writes::write_all;
use hub_devices::sink::Sink;
use hub_devices::source::Failed;
use piece_window::window::{Window, receive_window};
use proxy_wire::framing::Framing;
use upstreams::upstream::Upstream;

/// The most bytes of a body that are passed back.
const BODY_LIMIT: u64 = 9_223_372_036_854_775_807;

/// What is left of a body behind its first bytes.
#[derive(Clone, Copy, Debug, PartialEq, Eq)]
pub enum Remainder {
    /// So many bytes, or fewer where the upstream ends.
    Bytes(u64),
    /// Chunks, from this place on.
    Parts(At),
}

/// Why a body, or a part of it, did not go back whole.
#[derive(Clone, Copy, Debug, PartialEq, Eq)]
pub(crate) enum BackEnd {
    /// The upstream has ended.
    Spent,
    ReceiveFault,
    WriteFault,
    /// The next bytes are no chunk, whatever follows.
    Bad,
}

/// Writes the first n bytes of the window.
pub fn write_first<O: Sink>(window: &mut Window, output: &mut O, n: usize) -> Result<(), Failed>
    requires { n ≤ length window.old }
    ensures ok { OnOk result ((window.new ≡ drop n window.old) × Appends (O.held output.old) (take n window.old) (O.held output.new)) }
    ensures kept { OnErr result (window.new ≡ window.old) }
    ensures err { OnErr result ((part rest : List ℕ) × (take n window.new ≡ part ++ rest)
        × Appends (O.held output.old) part (O.held output.new)) }
    ensures counted { O.faults output.old ≤ O.faults output.new }
    ensures cause { OnErr result (Rises (O.faults output.old) (O.faults output.new)) }
{
    match write_all(output, &window.as_slice()[..n]) {
        Ok(()) => {
            window.drop_front(n);
            Ok(())
        }
        Err(_) => Err(Failed),
    }
}

/// Writes as much of the window as there is, up to `most` bytes.
fn write_front<O: Sink>(window: &mut Window, output: &mut O, most: u64) -> Result<u64, Failed>
    ensures ok { IfOk result (λ n. (piece : List ℕ) × (window.old ≡ piece ++ window.new) × (length piece ≡ n)
        × (n ≡ min most (length window.old)) × Appends (O.held output.old) piece (O.held output.new)) }
    ensures kept { OnErr result (window.new ≡ window.old) }
    ensures err { OnErr result ((part more : List ℕ) × (window.new ≡ part ++ more)
        × (length part ≤ most) × Appends (O.held output.old) part (O.held output.new)) }
    ensures counted { O.faults output.old ≤ O.faults output.new }
    ensures cause { OnErr result (Rises (O.faults output.old) (O.faults output.new)) }
{
    let count = most.min(window.as_slice().len() as u64) as usize;
    match write_first(window, output, count) {
        Ok(()) => Ok(count as u64),
        Err(_) => Err(Failed),
    }
}

/// Sees to it that the window isn't empty.
fn ready_back<U: Upstream>(up: &mut U, window: &mut Window) -> Result<(), BackEnd>
    requires { IsOpen (U.told up.old) }
    ensures got { (got : List ℕ) × (window.old ++ got ≡ window.new) × Moves (U.told up.old) [] got (U.told up.new) }
    ensures ok { OnOk result (0 < length window.new) }
    ensures err { IfErr result (StopsSized (U.told up.new) window.new) }
    ensures counted { U.faults up.old ≤ U.faults up.new }
    ensures cause { result ≡ Err BackEnd.ReceiveFault → Rises (U.faults up.old) (U.faults up.new) }
    ensures other { result ≢ Err BackEnd.WriteFault }
{
    if !window.as_slice().is_empty() {
        return Ok(());
    }
    match receive_window(up, window) {
        Ok(0) => Err(BackEnd::Spent),
        Ok(_) => Ok(()),
        Err(_) => Err(BackEnd::ReceiveFault),
    }
}

/// Passes back the next `count` bytes of a reply, those that the window holds first.
fn back_length<U: Upstream, O: Sink>(
    up: &mut U,
    window: &mut Window,
    output: &mut O,
    count: u64,
) -> Result<(), BackEnd>
    requires { IsOpen (U.told up.old) }
    ensures ok { OnOk result ((body got tail : List ℕ) × (length body ≡ count) × (window.old ++ got ≡ body ++ tail)
        × Moves (U.told up.old) [] got (U.told up.new) × Appends (O.held output.old) body (O.held output.new)) }
    ensures err { IfErr result (λ e. (body got tail : List ℕ) × (length body ≤ count) × (window.old ++ got ≡ body ++ tail)
        × Moves (U.told up.old) [] got (U.told up.new) × Appends (O.held output.old) body (O.held output.new)
        × StopsSized (U.told up.new) tail e) }
    ensures receives { U.faults up.old ≤ U.faults up.new }
    ensures writes { O.faults output.old ≤ O.faults output.new }
    ensures receive_fault { result ≡ Err BackEnd.ReceiveFault → Rises (U.faults up.old) (U.faults up.new) }
    ensures write_fault { result ≡ Err BackEnd.WriteFault → Rises (O.faults output.old) (O.faults output.new) }
{
    let mut rest = count;
    'pieces: while rest > 0 {
        match ready_back(up, window) {
            Ok(()) => {}
            Err(e) => return Err(e),
        }
        match write_front(window, output, rest) {
            Ok(sent) => rest -= sent,
            Err(_) => return Err(BackEnd::WriteFault),
        }
    }
    Ok(())
}

/// How many of the bytes in the window go in one write with the head before them, and what is left of the body behind those: of chunks all
/// that are whole, and of other bodies as much as is there.
pub fn first_bytes(framing: Framing, window: &Window) -> (usize, Remainder)
    ensures within { result.0 ≤ length window.now }
    ensures short { result.0 ≤ 16384 }
    ensures behind { IsBehind framing (take result.0 window.now) result.1 }
{
    match framing {
        Framing::Length(count) => first_of(count.min(BODY_LIMIT), window),
        Framing::Chunked => {
            let (count, at) = more_in(At::Line, window, 0);
            (count, Remainder::Parts(at))
        }
        Framing::ToEnd => first_of(BODY_LIMIT, window),
    }
}

/// Of so many bytes those that are in the window, and how many are left.
fn first_of(most: u64, window: &Window) -> (usize, Remainder)
    ensures within { result.0 ≤ length window.now }
    ensures short { result.0 ≤ 16384 }
    ensures few { result.0 ≤ most }
    ensures left { result.1 ≡ Remainder.Bytes (most - result.0) }
{
    let count = most.min(window.as_slice().len() as u64);
    (count as usize, Remainder::Bytes(most - count))
}

/// Writes the next parts of a chunked body, as many as the window holds, or receives on towards the next one.
#[tactic(auto, using(crate::proofs::PartLemmas::leads_none))]
fn back_part<U: Upstream, O: Sink>(
    at: At,
    up: &mut U,
    window: &mut Window,
    output: &mut O,
) -> Result<At, BackEnd>
    requires sane { IsAt at }
    requires open { IsOpen (U.told up.old) }
    ensures ok { IfOk result (λ next. (piece got : List ℕ) × (window.old ++ got ≡ piece ++ window.new)
        × Moves (U.told up.old) [] got (U.told up.new) × Appends (O.held output.old) piece (O.held output.new)
        × Leads at piece next × (0 < length piece + length got)) }
    ensures err { IfErr result (λ e. (part got : List ℕ) × (window.old ++ got ≡ window.new)
        × Moves (U.told up.old) [] got (U.told up.new) × Appends (O.held output.old) part (O.held output.new)
        × StopsBack at (U.told up.new) window.new part e) }
    ensures receives { U.faults up.old ≤ U.faults up.new }
    ensures writes { O.faults output.old ≤ O.faults output.new }
    ensures receive_fault { result ≡ Err BackEnd.ReceiveFault → Rises (U.faults up.old) (U.faults up.new) }
    ensures write_fault { result ≡ Err BackEnd.WriteFault → Rises (O.faults output.old) (O.faults output.new) }
{
    match next_in(at, window) {
        Part::Whole(n, next) => {
            let (more, last) = more_in(next, window, n);
            match write_first(window, output, n + more) {
                Ok(()) => Ok(last),
                Err(_) => Err(BackEnd::WriteFault),
            }
        }
        Part::Open => match receive_window(up, window) {
            Ok(0) => Err(BackEnd::Spent),
            Ok(_) => Ok(at),
            Err(_) => Err(BackEnd::ReceiveFault),
        },
        Part::Bad => Err(BackEnd::Bad),
    }
}

/// Passes back the chunks of a reply that are left, or a part of them.
fn back_chunks<U: Upstream, O: Sink>(at: At, up: &mut U, window: &mut Window, output: &mut O)
    requires begun { (front : List ℕ) × Stands at front }
    requires open { IsOpen (U.told up.old) }
    ensures done { (body got tail : List ℕ) × (window.old ++ got ≡ body ++ tail)
        × Moves (U.told up.old) [] got (U.told up.new) × Appends (O.held output.old) body (O.held output.new)
        × EndsBehind (Remainder.Parts at) (U.told up.new) body tail
        (U.faults up.old) (U.faults up.new) (O.faults output.old) (O.faults output.new) }
    ensures receives { U.faults up.old ≤ U.faults up.new }
    ensures writes { O.faults output.old ≤ O.faults output.new }
{
    let mut at = at;
    let mut steps = STEPS;
    'parts: while !is_done(at) {
        if steps == 0 {
            return;
        }
        steps -= 1;
        match back_part(at, up, window, output) {
            Ok(next) => at = next,
            Err(_) => return,
        }
    }
}

/// Passes back so many bytes of a reply, or a part of them.
fn back_bytes<U: Upstream, O: Sink>(up: &mut U, window: &mut Window, output: &mut O, count: u64)
    requires { IsOpen (U.told up.old) }
    ensures done { (body got tail : List ℕ) × (window.old ++ got ≡ body ++ tail)
        × Moves (U.told up.old) [] got (U.told up.new) × Appends (O.held output.old) body (O.held output.new)
        × EndsBehind (Remainder.Bytes count) (U.told up.new) body tail
        (U.faults up.old) (U.faults up.new) (O.faults output.old) (O.faults output.new) }
    ensures receives { U.faults up.old ≤ U.faults up.new }
    ensures writes { O.faults output.old ≤ O.faults output.new }
{
    match back_length(up, window, output, count) {
        Ok(()) => {}
        Err(_) => {}
    }
}

/// Passes back what is left of a reply's body, whose next bytes the window holds. Where the upstream ends early or fails, all that came
/// goes back, in chunks but for the beginning of a part; bytes that are no chunk count as its early end. Nothing more goes where the sink
/// fails or 2^63 - 1 bytes of the body went back.
pub fn back_body<U: Upstream, O: Sink>(
    left: Remainder,
    up: &mut U,
    window: &mut Window,
    output: &mut O,
)
    requires begun { (f : Framing) × (front : List ℕ) × IsBehind f front left }
    requires open { IsOpen (U.told up.old) }
    ensures done { (body got tail : List ℕ) × (window.old ++ got ≡ body ++ tail)
        × Moves (U.told up.old) [] got (U.told up.new) × Appends (O.held output.old) body (O.held output.new)
        × EndsBehind left (U.told up.new) body tail
        (U.faults up.old) (U.faults up.new) (O.faults output.old) (O.faults output.new) }
    ensures receives { U.faults up.old ≤ U.faults up.new }
    ensures writes { O.faults output.old ≤ O.faults output.new }
{
    match left {
        Remainder::Bytes(count) => back_bytes(up, window, output, count),
        Remainder::Parts(at) => back_chunks(at, up, window, output),
    }
}
