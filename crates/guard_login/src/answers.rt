//! The answers of a guard that lets browsers sign in.
ghost use Rattle.std.specs.Prelude.{◌≡◌, ◌≤◌, IfOk};
ghost use Rattle.hex.specs.Hex.{encode_lower};
ghost use Rattle.guard_login.specs.Answers.{as_signed, signing, carrying, Wants, Denies, Writes, WritesAnswer};
ghost use Rattle.guard_login.specs.Nexts.{base_of, next_of};
ghost use Rattle.guard_login.specs.Signed.{gives};
ghost use Rattle.guard_login.specs.Texts.{sends_text};

use crate::door::Door;
use crate::nexts::{base_of, next_of};
use crate::texts::{gives_text, sends_text};
use guard::denials::Denial;
use http_wire::error::SessionFault;
use http_wire::head::Head;
use http_wire::writes::write_all;
use hub_devices::sink::Sink;
use hub_kit::bytes::Bytes;
use hub_kit::text::Text;
use proxy_core::refusals::{Forwarded, Refusal, refuse};
use std::alloc::{AllocError, Global};

/// How a request ended.
#[derive(Clone, Copy, Debug, PartialEq, Eq)]
pub enum Signed {
    /// It was passed on, and that ended so.
    Carried(Forwarded),
    /// The browser was sent to sign in.
    Sent,
    /// The browser got its token and was sent on.
    GaveCookie,
    /// A refusal of this status was written.
    Refused(u16),
    /// The input ended before the request.
    Ended,
    /// The input ended inside the request's head.
    Cut,
}

fn as_signed(forwarded: Forwarded) -> Signed
    ensures { result ≡ as_signed forwarded }
{
    match forwarded {
        Forwarded::Passed => Signed::Carried(Forwarded::Passed),
        Forwarded::Refused(status) => Signed::Refused(status),
        Forwarded::Ended => Signed::Ended,
        Forwarded::Cut => Signed::Cut,
    }
}

/// How an answer that was written here, or a head that didn't come, ends the request.
pub fn signing(outcome: Result<Forwarded, SessionFault>) -> Result<Signed, SessionFault>
    ensures { result ≡ signing outcome }
{
    match outcome {
        Ok(forwarded) => Ok(as_signed(forwarded)),
        Err(fault) => Err(fault),
    }
}

/// How a request that was passed on ends.
pub fn carrying(outcome: Result<Forwarded, SessionFault>) -> Result<Signed, SessionFault>
    ensures { result ≡ carrying outcome }
{
    match outcome {
        Ok(forwarded) => Ok(Signed::Carried(forwarded)),
        Err(fault) => Err(fault),
    }
}

/// Answers that there is no memory.
pub fn want<O: Sink>(output: &mut O) -> Result<Signed, SessionFault>
    ensures written { Wants (O.held output.old) (O.held output.new) (O.faults output.old) (O.faults output.new) result }
    ensures counted { O.faults output.old ≤ O.faults output.new }
{
    signing(refuse(output, Refusal::Memory))
}

/// Writes a text, and answers this.
pub fn write<O: Sink>(output: &mut O, text: &[u8], answer: Signed) -> Result<Signed, SessionFault>
    ensures written { Writes text.now answer (O.held output.old) (O.held output.new) (O.faults output.old) (O.faults output.new) result }
    ensures counted { O.faults output.old ≤ O.faults output.new }
{
    match write_all(output, text) {
        Ok(()) => Ok(answer),
        Err(_) => Err(SessionFault::WriteFault(0)),
    }
}

/// Writes a refusal.
pub fn deny<O: Sink>(output: &mut O, denial: Denial) -> Result<Signed, SessionFault>
    ensures written { Denies denial (O.held output.old) (O.held output.new) (O.faults output.old) (O.faults output.new) result }
    ensures counted { O.faults output.old ≤ O.faults output.new }
{
    signing(guard::denials::deny(output, denial))
}

/// Sends a browser back with its token.
pub fn give<O: Sink>(
    alloc: Global,
    door: &Door,
    token: &Bytes,
    next: &Bytes,
    output: &mut O,
) -> Result<Signed, SessionFault>
    ensures gives { WritesAnswer door.now (gives token.now next.now) (O.held output.old) (O.held output.new)
        (O.faults output.old) (O.faults output.new) result }
    ensures counted { O.faults output.old ≤ O.faults output.new }
{
    match gives_text(alloc, door, token, next) {
        Ok(text) => write(output, text.as_slice(), Signed::GaveCookie),
        Err(_) => want(output),
    }
}

/// Bytes as hex.
fn hex_of(alloc: Global, bytes: &[u8]) -> Result<Text, AllocError>
    ensures { IfOk result (λ text. text ≡ encode_lower bytes.now) }
{
    Ok(Text::from_string(hex::encode(alloc, bytes)?))
}

/// The text that sends a browser to sign in, for a draw.
pub fn start_text(alloc: Global, door: &Door, head: &Head, draw: &[u8]) -> Result<Bytes, AllocError>
    ensures { IfOk result (λ text. text ≡ sends_text door.now (encode_lower draw.now)
        (encode_lower (next_of (base_of door.now.key) head.now.target))) }
{
    let base = base_of(alloc, &door.key)?;
    let state = hex_of(alloc, draw)?;
    let next = hex_of(alloc, next_of(base.as_bytes(), head.target.as_slice()))?;
    sends_text(alloc, door, &state, &next)
}
