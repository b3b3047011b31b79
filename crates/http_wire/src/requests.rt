//! The requests of a source.
ghost use Rattle.std.specs.Prelude.{◌≡◌, ◌≤◌, ◌++◌, ℕ, List, length, Some, IfOk, IfErr};
ghost use Rattle.hub_devices.specs.Faults.{Rises};
ghost use Rattle.http_wire.specs.Request.{IsRequestText};
ghost use Rattle.http_wire.specs.Requests.{RequestNext};
ghost use Rattle.http_wire.specs.Body.{RequestRefusedAt, WithinRequest};
ghost use Rattle.http_wire.specs.Told.{IsDecided};
ghost use Rattle.http_wire.specs.Took.{Took};

use crate::body::read_body;
use crate::buffer::WireBuffer;
use crate::due::body_due;
use crate::error::WireError;
use crate::heads::read_head;
use crate::request::{Request, request_of};
use hub_devices::source::Source;
use std::alloc::Global;

/// Takes a head, and then its body.
fn take_request<I: Source>(
    alloc: Global,
    input: &mut I,
    kept: &mut WireBuffer,
) -> Result<Request, WireError>
    ensures ok { IfOk result (λ request. (text : List ℕ) × IsRequestText request text
        × Took (I.left input.old) kept.old (I.left input.new) (text ++ kept.new)) }
    ensures err { IfErr result (λ e. (gone : List ℕ) × WithinRequest gone
        × Took (I.left input.old) kept.old (I.left input.new) (gone ++ kept.new)
        × RequestRefusedAt (I.left input.new) (gone ++ kept.new) e) }
    ensures counted { I.faults input.old ≤ I.faults input.new }
    ensures cause { result ≡ Err WireError.ReadFault → Rises (I.faults input.old) (I.faults input.new) }
{
    let head = match read_head(alloc, input, kept) {
        Ok(head) => head,
        Err(e) => return Err(e),
    };
    let count = match body_due(&head) {
        Ok(count) => count,
        Err(e) => return Err(e),
    };
    let body = match read_body(alloc, input, kept, count as usize) {
        Ok(body) => body,
        Err(e) => return Err(e),
    };
    match request_of(alloc, head, body) {
        Ok(request) => Ok(request),
        Err(_) => Err(WireError::Memory),
    }
}

/// Reads the next request: a head and the body that its `Content-Length` says. `ok` says that what was kept and taken is
/// a text of the request and what is kept now. `err` says that all that came is the part that is gone, no more than one
/// request, and what is kept now, and why that is no request. Of a source that tells its bytes, the answer is what stands
/// next on them (`told`), and only one thing can: `next_request_is_one`.
pub fn read_request<I: Source>(
    alloc: Global,
    input: &mut I,
    kept: &mut WireBuffer,
) -> Result<Request, WireError>
    ensures ok { IfOk result (λ request. (text : List ℕ) × IsRequestText request text
        × Took (I.left input.old) kept.old (I.left input.new) (text ++ kept.new)) }
    ensures err { IfErr result (λ e. (gone : List ℕ) × WithinRequest gone
        × Took (I.left input.old) kept.old (I.left input.new) (gone ++ kept.new)
        × RequestRefusedAt (I.left input.new) (gone ++ kept.new) e) }
    ensures short { length kept.new ≤ 16384 }
    ensures told { (left : List ℕ) → I.left input.old ≡ Some left → IsDecided result
        → RequestNext (kept.old ++ left) result }
    ensures counted { I.faults input.old ≤ I.faults input.new }
    ensures cause { result ≡ Err WireError.ReadFault → Rises (I.faults input.old) (I.faults input.new) }
{
    let outcome = take_request(alloc, input, kept);
    let _ = kept.as_slice();
    outcome
}
