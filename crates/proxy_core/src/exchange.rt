//! A request that is sent, and the head of its reply.
ghost use Rattle.std.specs.Prelude.{◌≡◌, ◌≢◌, ◌++◌, ◌≤◌, ℕ, List, [], false, None, IfSome, IfOk, IfErr};
ghost use Rattle.httparse.specs.Grammar.{ResponseHead};
ghost use Rattle.http_wire.specs.Took.{Took};
ghost use Rattle.upstreams.specs.Upstream.{IsOpen, Moves};
ghost use Rattle.proxy_wire.specs.Heads.{reply_passed};
ghost use Rattle.proxy_wire.specs.Replies.{BeginsReply};
ghost use Rattle.proxy_core.specs.Passes.{WentOn, IsStop, plain};
ghost use Rattle.proxy_core.specs.Passes as spec;

use crate::refusals::Refusal;
use http_wire::buffer::WireBuffer;
use hub_devices::source::Source;
use piece_window::window::Window;
use proxy_bodies::sends::{BodyEnd, send_request};
use proxy_wire::framing::Framing;
use proxy_wire::replies::{Reply, ReplyError, read_reply};
use std::alloc::Global;
use upstreams::upstream::Upstream;

/// Why there is no reply to pass back.
#[derive(Clone, Copy, Debug, PartialEq, Eq)]
pub(crate) enum Stop {
    Cut,
    ReadFault,
    Refused(Refusal),
}

fn stop_of(end: BodyEnd) -> Stop
    ensures { result ≡ spec.stop_of end }
{
    match end {
        BodyEnd::Cut => Stop::Cut,
        BodyEnd::ReadFault => Stop::ReadFault,
        BodyEnd::SendFault => Stop::Refused(Refusal::Link),
        BodyEnd::Memory => Stop::Refused(Refusal::Memory),
        BodyEnd::Bad => Stop::Refused(Refusal::BadChunk),
    }
}

pub fn refusal_of(error: ReplyError) -> Refusal
    ensures { result ≡ spec.refusal_of error }
{
    match error {
        ReplyError::Bad => Refusal::BadUpstream,
        ReplyError::Fault => Refusal::Link,
        ReplyError::Memory => Refusal::Memory,
    }
}

/// The reply of an upstream that took no more of a request, if what it said before is one: an upstream that refuses a long body says so and
/// ends the connection (RFC 9112, 9.5).
fn early_reply<U: Upstream>(
    alloc: Global,
    method: &[u8],
    up: &mut U,
    back: &mut Window,
) -> Option<Reply>
    requires empty { back.old ≡ [] }
    requires open { IsOpen (U.told up.old) }
    ensures some { IfSome result (λ reply. (got : List ℕ) × (r : ResponseHead) × Moves (U.told up.old) [] got (U.told up.new)
        × (reply.text ≡ reply_passed r) × BeginsReply false method.now got r reply.framing back.new) }
    ensures none { result ≡ None → (got : List ℕ) × Moves (U.told up.old) [] got (U.told up.new) }
    ensures links { U.faults up.old ≤ U.faults up.new }
{
    match read_reply(alloc, false, method, up, back) {
        Ok(reply) => Some(reply),
        Err(_) => None,
    }
}

/// Sends a request that is no upgrade to an upstream that is connected, and reads the head of its reply. What came behind that head stands
/// in `back`.
pub(crate) fn exchange<I: Source, U: Upstream>(
    alloc: Global,
    method: &[u8],
    text: &[u8],
    framing: Framing,
    input: &mut I,
    kept: &mut WireBuffer,
    window: &mut Window,
    up: &mut U,
    back: &mut Window,
) -> Result<Reply, Stop>
    requires empty { back.old ≡ [] }
    requires sized { framing ≢ Framing.ToEnd }
    requires open { IsOpen (U.told up.old) }
    ensures ok { IfOk result (λ reply. (body given got : List ℕ) × (r : ResponseHead)
        × Took (I.left input.old) (window.old ++ kept.old) (I.left input.new) (body ++ (window.new ++ kept.new))
        × Moves (U.told up.old) given got (U.told up.new)
        × WentOn (plain method.now text.now framing)
        (window.new ++ kept.new) body given (U.faults up.old) (U.faults up.new)
        × (reply.text ≡ reply_passed r) × BeginsReply false method.now got r reply.framing back.new) }
    ensures err { IfErr result (λ e. (body given got : List ℕ)
        × Took (I.left input.old) (window.old ++ kept.old) (I.left input.new) (body ++ (window.new ++ kept.new))
        × Moves (U.told up.old) given got (U.told up.new)
        × IsStop (plain method.now text.now framing)
        (I.left input.new) (window.new ++ kept.new) (U.told up.new) (I.faults input.old) (I.faults input.new)
        (U.faults up.old) (U.faults up.new) body given got e) }
    ensures reads { I.faults input.old ≤ I.faults input.new }
    ensures links { U.faults up.old ≤ U.faults up.new }
{
    match send_request(text, framing, input, kept, window, up) {
        Ok(()) => {}
        Err(BodyEnd::SendFault) => {
            return match early_reply(alloc, method, up, back) {
                Some(reply) => Ok(reply),
                None => Err(Stop::Refused(Refusal::Link)),
            };
        }
        Err(e) => return Err(stop_of(e)),
    }
    match read_reply(alloc, false, method, up, back) {
        Ok(reply) => Ok(reply),
        Err(e) => Err(Stop::Refused(refusal_of(e))),
    }
}
