//! The head of an upstream's reply.
ghost use Rattle.std.specs.Prelude.{◌≡◌, ◌≤◌, [], ℕ, List, length, drop, Err, IfOk, IfErr};
ghost use Rattle.httparse.specs.Grammar.{ResponseHead, status_code};
ghost use Rattle.httparse.specs.Spans.{IsResponseWithin, IsResponseOf};
ghost use Rattle.hub_devices.specs.Faults.{Rises};
ghost use Rattle.upstreams.specs.Upstream.{IsOpen, Moves};
ghost use Rattle.proxy_wire.specs.Heads.{reply_passed, is_switched};
ghost use Rattle.proxy_wire.specs.Replies.{BeginsReply, IsReplyFront, IsStep, IsKind, IsNoReply};

use crate::framing::{Framing, framing_at};
use crate::heads::{is_switched, reply_text};
use httparse::Status;
use httparse::spans::{EMPTY_HEADER_SPAN, HeaderSpan, ResponseSpans, parse_response};
use hub_kit::bytes::Bytes;
use piece_window::window::{ROOM, Window, receive_window};
use std::alloc::{AllocError, Global};
use upstreams::upstream::Upstream;

/// A whole head, the beginning of one, or neither.
#[derive(Clone, Copy)]
pub(crate) enum Front {
    Whole(ResponseSpans),
    Open,
    Bad,
}

/// A reply whose body is still to come: its head as it is passed back, how long its body is, and whether the connection is switched
/// over to another protocol, so that no body comes.
pub struct Reply {
    pub text: Bytes,
    pub framing: Framing,
    pub switched: bool,
}

impl Drop for Reply {
    fn drop(self) {
        let Reply {
            text: _,
            framing: _,
            switched: _,
        } = self;
    }
}

/// What stands behind the heads that were skipped.
#[derive(Drop)]
pub(crate) enum Step {
    Interim(usize),
    Final(Reply, usize),
    Open,
    Bad,
    Unframed,
}

/// What a head is, by its status.
#[derive(Clone, Copy, Debug, PartialEq, Eq)]
pub(crate) enum Kind {
    Skipped,
    Final,
    Neither,
}

/// Why there is no reply.
#[derive(Clone, Copy, Debug, PartialEq, Eq)]
pub enum ReplyError {
    /// What came begins with no reply, whatever follows.
    Bad,
    /// The upstream failed.
    Fault,
    Memory,
}

/// Looks for a head with at most 64 headers.
fn find_reply(bytes: &[u8], spans: &mut [HeaderSpan]) -> Front
    requires { length spans.old ≡ 64 }
    ensures front { IsReplyFront bytes.now spans.new result }
    ensures room { length spans.new ≡ 64 }
{
    match parse_response(bytes, spans) {
        Ok(Status::Complete(head)) => Front::Whole(head),
        Ok(Status::Partial) => Front::Open,
        Err(_) => Front::Bad,
    }
}

fn status_kind(upgrade: bool, status: u16) -> Kind
    ensures { IsKind upgrade status result }
{
    match status {
        100 | 102..=199 => Kind::Skipped,
        101 if !upgrade => Kind::Neither,
        _ => Kind::Final,
    }
}

/// The reply of a head that is no interim one.
fn final_step(
    alloc: Global,
    upgrade: bool,
    method: &[u8],
    bytes: &[u8],
    spans: &[HeaderSpan],
    r: ResponseSpans,
) -> Result<Step, AllocError>
    requires within { IsResponseWithin bytes.now spans.now r }
    requires head { IsResponseOf bytes.now spans.now r }
    requires room { length spans.now ≡ 64 }
    requires kind { IsKind upgrade r.code Kind.Final }
    ensures { IfOk result (IsStep upgrade method.now bytes.now) }
{
    match framing_at(method, bytes, spans, r) {
        Some(framing) => {
            let text = reply_text(alloc, bytes, spans, r)?;
            let switched = is_switched(r.code);
            let reply = Reply {
                text,
                framing,
                switched,
            };
            Ok(Step::Final(reply, r.len))
        }
        None => Ok(Step::Unframed),
    }
}

/// By its status, what a head is.
fn take_step(
    alloc: Global,
    upgrade: bool,
    method: &[u8],
    bytes: &[u8],
    spans: &[HeaderSpan],
    r: ResponseSpans,
) -> Result<Step, AllocError>
    requires within { IsResponseWithin bytes.now spans.now r }
    requires head { IsResponseOf bytes.now spans.now r }
    requires room { length spans.now ≡ 64 }
    ensures { IfOk result (IsStep upgrade method.now bytes.now) }
{
    match status_kind(upgrade, r.code) {
        Kind::Skipped => Ok(Step::Interim(r.len)),
        Kind::Final => final_step(alloc, upgrade, method, bytes, spans, r),
        Kind::Neither => Ok(Step::Bad),
    }
}

fn next_step(alloc: Global, upgrade: bool, method: &[u8], bytes: &[u8]) -> Result<Step, AllocError>
    ensures { IfOk result (IsStep upgrade method.now bytes.now) }
{
    let mut spans = [EMPTY_HEADER_SPAN; 64];
    match find_reply(bytes, &mut spans) {
        Front::Whole(r) => take_step(alloc, upgrade, method, bytes, &spans, r),
        Front::Open => Ok(Step::Open),
        Front::Bad => Ok(Step::Bad),
    }
}

/// What stands at a place of the window.
fn step_at(
    alloc: Global,
    upgrade: bool,
    method: &[u8],
    window: &Window,
    at: usize,
) -> Result<Step, AllocError>
    requires { at ≤ length window.now }
    ensures step { IfOk result (IsStep upgrade method.now (drop at window.now)) }
    ensures short { length window.now ≤ 16384 }
{
    next_step(alloc, upgrade, method, &window.as_slice()[at..])
}

/// Reads the head of a reply to a request of that method, and skips the interim heads before it. What came behind it stands in
/// the window. `Bad` says that what the upstream gives begins with no reply: no head of the grammar, one of status 101 where the
/// request is no upgrade, more than 64 headers in a head, more than 16,384 bytes of heads, or a head that says no one length.
pub fn read_reply<U: Upstream>(
    alloc: Global,
    upgrade: bool,
    method: &[u8],
    up: &mut U,
    window: &mut Window,
) -> Result<Reply, ReplyError>
    requires empty { window.old ≡ [] }
    requires open { IsOpen (U.told up.old) }
    ensures ok { IfOk result (λ reply. (r : ResponseHead) × (got : List ℕ) × (reply.text ≡ reply_passed r)
        × (reply.switched ≡ is_switched (status_code r)) × BeginsReply upgrade method.now got r reply.framing window.new
        × Moves (U.told up.old) [] got (U.told up.new)) }
    ensures err { IfErr result (λ e. (got : List ℕ) × IsNoReply upgrade method.now (U.told up.new) got e
        × Moves (U.told up.old) [] got (U.told up.new)) }
    ensures counted { U.faults up.old ≤ U.faults up.new }
    ensures cause { result ≡ Err ReplyError.Fault → Rises (U.faults up.old) (U.faults up.new) }
{
    let mut at = 0;
    'heads: loop {
        let Ok(step) = step_at(alloc, upgrade, method, window, at) else {
            return Err(ReplyError::Memory);
        };
        match step {
            Step::Interim(len) => at += len,
            Step::Final(reply, len) => {
                window.drop_front(at + len);
                return Ok(reply);
            }
            Step::Bad => return Err(ReplyError::Bad),
            Step::Unframed => return Err(ReplyError::Bad),
            Step::Open => {
                if window.as_slice().len() == ROOM {
                    return Err(ReplyError::Bad);
                }
                match receive_window(up, window) {
                    Ok(0) => return Err(ReplyError::Bad),
                    Ok(_) => {}
                    Err(_) => return Err(ReplyError::Fault),
                }
            }
        }
    }
}
