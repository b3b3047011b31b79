//! The heads of a source's requests.
ghost use Rattle.std.specs.Prelude.{◌≡◌, ◌≤◌, ◌<◌, ◌++◌, ◌*◌, ◌/◌, ◌+◌, ℕ, List, length, drop, Some, IfOk, IfErr, OnOk, IfSome, IfNone};
ghost use Rattle.httparse.specs.Grammar.{RequestHead, print_request};
ghost use Rattle.httparse.specs.Spans.{IsRequestWithin, IsRequestOf};
ghost use Rattle.hub_devices.specs.Streams.{Takes, IsEnd};
ghost use Rattle.hub_devices.specs.Faults.{Rises};
ghost use Rattle.http_wire.specs.Head.{head_of};
ghost use Rattle.http_wire.specs.Next.{RefusedAt, HeadRefused};
ghost use Rattle.http_wire.specs.Stream.{HeadNext};
ghost use Rattle.http_wire.specs.Told.{IsDecided};
ghost use Rattle.http_wire.specs.Took.{Took};
ghost use Rattle.http_wire.specs.Wire.{IsServedHead, IsOpen};

use crate::buffer::{FillError, HEAD_LIMIT, WireBuffer, fill};
use crate::error::WireError;
use crate::front::{Front, find_front};
use crate::head::{Head, head_of};
use httparse::spans::{EMPTY_HEADER_SPAN, HeaderSpan, RequestSpans};
use hub_devices::source::Source;
use std::alloc::Global;

/// How many headers a head may have.
pub const HEADER_LIMIT: usize = 64;

/// Takes the head that stands in front, unless its target or the number of its headers is refused.
fn take_head(
    alloc: Global,
    kept: &mut WireBuffer,
    spans: &[HeaderSpan],
    r: RequestSpans,
) -> Result<Head, WireError>
    requires within { IsRequestWithin kept.old spans.now r }
    requires head { IsRequestOf kept.old spans.now r }
    requires short { length kept.old ≤ 16384 }
    ensures ok { IfOk result (λ head. (h : RequestHead) × IsServedHead h × (head ≡ head_of h)
        × (kept.old ≡ print_request h ++ kept.new)) }
    ensures err { IfErr result (λ e. (kept.new ≡ kept.old) × HeadRefused kept.new e) }
{
    let bytes = kept.as_slice();
    if r.path.of(bytes)[0] != b'/' {
        return Err(WireError::BadHead);
    }
    if r.headers > HEADER_LIMIT {
        return Err(WireError::TooLarge(r.headers as u64));
    }
    let Ok(head) = head_of(alloc, bytes, spans, r) else {
        return Err(WireError::Memory);
    };
    kept.drop_front(r.len);
    Ok(head)
}

/// What stands in front of bytes that have more headers than are allowed, or have no head yet: with room for a third of
/// the bytes, since each header line has three of them, all are counted.
fn look_at_many(alloc: Global, kept: &mut WireBuffer) -> Result<Option<Head>, WireError>
    ensures some { IfOk result (λ found. IfSome found (λ head. (h : RequestHead) × IsServedHead h × (head ≡ head_of h)
        × (kept.old ≡ print_request h ++ kept.new))) }
    ensures none { IfOk result (λ found. IfNone found ((kept.new ≡ kept.old) × IsOpen kept.new
        × (length kept.new < 16384))) }
    ensures err { IfErr result (λ e. (kept.new ≡ kept.old) × HeadRefused kept.new e) }
{
    let room = kept.as_slice().len() / 3 + 1;
    let Ok(mut spans) = Vec::from_elem(alloc, EMPTY_HEADER_SPAN, room) else {
        return Err(WireError::Memory);
    };
    match find_front(kept.as_slice(), &mut spans) {
        Front::Whole(r) => Ok(Some(take_head(alloc, kept, &spans, r)?)),
        Front::Bad => Err(WireError::BadHead),
        Front::Open if kept.as_slice().len() == HEAD_LIMIT => Err(WireError::TooLarge(16385)),
        Front::Open => Ok(None),
        Front::Crowded => unreachable!(),
    }
}

/// Takes the head that stands in front, if it is whole. `None` says that it may become one.
fn look(alloc: Global, kept: &mut WireBuffer) -> Result<Option<Head>, WireError>
    ensures some { IfOk result (λ found. IfSome found (λ head. (h : RequestHead) × IsServedHead h × (head ≡ head_of h)
        × (kept.old ≡ print_request h ++ kept.new))) }
    ensures none { IfOk result (λ found. IfNone found ((kept.new ≡ kept.old) × IsOpen kept.new
        × (length kept.new < 16384))) }
    ensures err { IfErr result (λ e. (kept.new ≡ kept.old) × HeadRefused kept.new e) }
{
    let mut spans = [EMPTY_HEADER_SPAN; HEADER_LIMIT];
    match find_front(kept.as_slice(), &mut spans) {
        Front::Whole(r) => Ok(Some(take_head(alloc, kept, &spans, r)?)),
        Front::Bad => Err(WireError::BadHead),
        Front::Open if kept.as_slice().len() == HEAD_LIMIT => Err(WireError::TooLarge(16385)),
        Front::Open => Ok(None),
        Front::Crowded => look_at_many(alloc, kept),
    }
}

/// Reads once where no head is whole yet. An error says why nothing came.
fn read_more<I: Source>(input: &mut I, kept: &mut WireBuffer) -> Result<(), WireError>
    requires open { IsOpen kept.old }
    requires short { length kept.old < 16384 }
    ensures took { Took (I.left input.old) kept.old (I.left input.new) kept.new }
    ensures longer { OnOk result (length kept.old < length kept.new) }
    ensures err { IfErr result (λ e. RefusedAt (I.left input.new) kept.new e) }
    ensures counted { I.faults input.old ≤ I.faults input.new }
    ensures cause { result ≡ Err WireError.ReadFault → Rises (I.faults input.old) (I.faults input.new) }
{
    match fill(input, kept) {
        Ok(0) if kept.as_slice().is_empty() => Err(WireError::Ended),
        Ok(0) => Err(WireError::Cut),
        Ok(_) => Ok(()),
        Err(FillError::Fault) => Err(WireError::ReadFault),
        Err(FillError::Memory) => Err(WireError::Memory),
    }
}

/// Reads until a head is whole.
fn read_until_head<I: Source>(
    alloc: Global,
    input: &mut I,
    kept: &mut WireBuffer,
) -> Result<Head, WireError>
    ensures ok { IfOk result (λ head. (h : RequestHead) × IsServedHead h × (head ≡ head_of h)
        × Took (I.left input.old) kept.old (I.left input.new) (print_request h ++ kept.new)) }
    ensures err { IfErr result (λ e. Took (I.left input.old) kept.old (I.left input.new) kept.new
        × RefusedAt (I.left input.new) kept.new e) }
    ensures counted { I.faults input.old ≤ I.faults input.new }
    ensures cause { result ≡ Err WireError.ReadFault → Rises (I.faults input.old) (I.faults input.new) }
{
    'reads: loop {
        match look(alloc, kept)? {
            Some(head) => return Ok(head),
            None => {}
        }
        match read_more(input, kept) {
            Ok(()) => {}
            Err(e) => return Err(e),
        }
    }
}

/// Reads the next request's head, and looks at no header's value. After an error the buffer has all that came and was
/// not taken. Of a source that tells its bytes, the answer is what stands next on them (`told`), and only one thing can:
/// `next_head_is_one`.
pub fn read_head<I: Source>(
    alloc: Global,
    input: &mut I,
    kept: &mut WireBuffer,
) -> Result<Head, WireError>
    ensures ok { IfOk result (λ head. (h : RequestHead) × IsServedHead h × (head ≡ head_of h)
        × Took (I.left input.old) kept.old (I.left input.new) (print_request h ++ kept.new)) }
    ensures err { IfErr result (λ e. Took (I.left input.old) kept.old (I.left input.new) kept.new
        × RefusedAt (I.left input.new) kept.new e) }
    ensures short { length kept.new ≤ 16384 }
    ensures told { (left : List ℕ) → I.left input.old ≡ Some left → IsDecided result → HeadNext (kept.old ++ left) result }
    ensures counted { I.faults input.old ≤ I.faults input.new }
    ensures cause { result ≡ Err WireError.ReadFault → Rises (I.faults input.old) (I.faults input.new) }
{
    let outcome = read_until_head(alloc, input, kept);
    let _ = kept.as_slice();
    outcome
}
