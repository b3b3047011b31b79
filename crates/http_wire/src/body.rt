//! The bytes of a body.
ghost use Rattle.std.specs.Prelude.{◌≡◌, ◌<◌, ◌≤◌, ◌++◌, ◌^◌, ℕ, List, [], length, take, IfOk, OnOk, IfErr, OnErr};
ghost use Rattle.hub_devices.specs.Streams.{IsEnd};
ghost use Rattle.hub_devices.specs.Faults.{Rises};
ghost use Rattle.http_wire.specs.Took.{Took};
ghost use Rattle.http_wire.specs.Body.{IsShort};

use crate::buffer::WireBuffer;
use crate::error::WireError;
use hub_devices::source::Source;
use hub_kit::bytes::Bytes;
use std::alloc::Global;

/// Takes the next bytes: those that are kept, or where none are, what one read gives. 0 for a buffer that isn't empty
/// says that the input has ended. `ReadFault` is its one refusal.
pub fn take_bytes<I: Source>(
    input: &mut I,
    kept: &mut WireBuffer,
    into: &mut [u8],
) -> Result<usize, WireError>
    ensures fits { IfOk result (λ n. n ≤ length into.new) }
    ensures took { IfOk result (λ n. Took (I.left input.old) kept.old (I.left input.new) (take n into.new ++ kept.new)) }
    ensures end { IfOk result (λ n. n ≡ 0 → 0 < length into.new → IsEnd (I.left input.new) × (kept.new ≡ [])) }
    ensures err { IfErr result (λ e. (e ≡ WireError.ReadFault) × (kept.old ≡ []) × (kept.new ≡ [])
        × (I.left input.new ≡ I.left input.old)) }
    ensures counted { I.faults input.old ≤ I.faults input.new }
    ensures cause { OnErr result (Rises (I.faults input.old) (I.faults input.new)) }
{
    if kept.as_slice().is_empty() {
        return match input.read(into) {
            Ok(count) => Ok(count),
            Err(_) => Err(WireError::ReadFault),
        };
    }
    let count = kept.as_slice().len().min(into.len());
    into[..count].copy_from_slice(&kept.as_slice()[..count]);
    kept.drop_front(count);
    Ok(count)
}

/// Takes as many bytes as there is room for.
fn fill_body<I: Source>(
    input: &mut I,
    kept: &mut WireBuffer,
    body: &mut [u8],
) -> Result<(), WireError>
    ensures ok { OnOk result (Took (I.left input.old) kept.old (I.left input.new) (body.new ++ kept.new)) }
    ensures err { IfErr result (λ e. (part : List ℕ) × Took (I.left input.old) kept.old (I.left input.new) part
        × (kept.new ≡ []) × (length part < length body.new) × IsShort (length body.new) (I.left input.new) part e) }
    ensures counted { I.faults input.old ≤ I.faults input.new }
    ensures cause { result ≡ Err WireError.ReadFault → Rises (I.faults input.old) (I.faults input.new) }
{
    let mut at = 0;
    'fills: while at < body.len() {
        match take_bytes(input, kept, &mut body[at..]) {
            Ok(0) => return Err(WireError::Cut),
            Ok(count) => at += count,
            Err(_) => return Err(WireError::ReadFault),
        }
    }
    Ok(())
}

/// Takes a body of so many bytes.
pub(crate) fn read_body<I: Source>(
    alloc: Global,
    input: &mut I,
    kept: &mut WireBuffer,
    count: usize,
) -> Result<Bytes, WireError>
    ensures ok { IfOk result (λ body. (length body ≡ count)
        × Took (I.left input.old) kept.old (I.left input.new) (body ++ kept.new)) }
    ensures err { IfErr result (λ e. (part : List ℕ) × Took (I.left input.old) kept.old (I.left input.new) (part ++ kept.new)
        × (length part ≤ count) × IsShort count (I.left input.new) (part ++ kept.new) e) }
    ensures counted { I.faults input.old ≤ I.faults input.new }
    ensures cause { result ≡ Err WireError.ReadFault → Rises (I.faults input.old) (I.faults input.new) }
{
    let Ok(mut body) = Vec::from_elem(alloc, 0, count) else {
        return Err(WireError::Memory);
    };
    match fill_body(input, kept, &mut body) {
        Ok(()) => Ok(Bytes::from_vec(body)),
        Err(e) => Err(e),
    }
}
