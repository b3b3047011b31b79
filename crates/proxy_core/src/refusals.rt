//! How a call on one request ends, and the refusals that it writes.
ghost use Rattle.std.specs.Prelude.{◌≡◌, ◌≤◌};
ghost use Rattle.proxy_core.specs.Refusals.{IsWritten};
ghost use Rattle.proxy_core.specs.Refusals as spec;

use http_wire::error::{SessionFault, WireError};
use http_wire::writes::write_all;
use hub_devices::sink::Sink;

/// How a request ended.
#[derive(Clone, Copy, Debug, PartialEq, Eq)]
pub enum Forwarded {
    /// The reply's head was passed back.
    Passed,
    /// A refusal of this status was written.
    Refused(u16),
    /// The input ended before the request.
    Ended,
    /// The input ended inside the request.
    Cut,
}

/// Why a request is refused.
#[derive(Clone, Copy, Debug, PartialEq, Eq)]
pub enum Refusal {
    BadHead,
    BadChunk,
    BadPath,
    NotFound,
    TooLarge,
    Coding,
    BadUpstream,
    Link,
    Memory,
}

const BAD_HEAD: &[u8] = b"HTTP/1.1 400 Bad Request\r\n\
    Content-Type: application/json\r\nContent-Length: 35\r\nConnection: close\r\n\r\n\
    {\"message\":\"bad head\",\"status\":400}";

const BAD_CHUNK: &[u8] = b"HTTP/1.1 400 Bad Request\r\n\
    Content-Type: application/json\r\nContent-Length: 36\r\nConnection: close\r\n\r\n\
    {\"message\":\"bad chunk\",\"status\":400}";

const BAD_PATH: &[u8] = b"HTTP/1.1 400 Bad Request\r\n\
    Content-Type: application/json\r\nContent-Length: 35\r\nConnection: close\r\n\r\n\
    {\"message\":\"bad path\",\"status\":400}";

const NOT_FOUND: &[u8] = b"HTTP/1.1 404 Not Found\r\n\
    Content-Type: application/json\r\nContent-Length: 36\r\nConnection: close\r\n\r\n\
    {\"message\":\"not found\",\"status\":404}";

const TOO_LARGE: &[u8] = b"HTTP/1.1 413 Payload Too Large\r\n\
    Content-Type: application/json\r\nContent-Length: 36\r\nConnection: close\r\n\r\n\
    {\"message\":\"too large\",\"status\":413}";

const CODING: &[u8] = b"HTTP/1.1 501 Not Implemented\r\n\
    Content-Type: application/json\r\nContent-Length: 47\r\nConnection: close\r\n\r\n\
    {\"message\":\"coding not supported\",\"status\":501}";

const BAD_UPSTREAM: &[u8] = b"HTTP/1.1 502 Bad Gateway\r\n\
    Content-Type: application/json\r\nContent-Length: 39\r\nConnection: close\r\n\r\n\
    {\"message\":\"bad upstream\",\"status\":502}";

const LINK: &[u8] = b"HTTP/1.1 503 Service Unavailable\r\n\
    Content-Type: application/json\r\nContent-Length: 35\r\nConnection: close\r\n\r\n\
    {\"message\":\"upstream\",\"status\":503}";

const MEMORY: &[u8] =
    b"HTTP/1.1 507 Insufficient Storage\r\nContent-Length: 0\r\nConnection: close\r\n\r\n";

fn status_of(refusal: Refusal) -> u16
    ensures { result ≡ spec.status_of refusal }
{
    match refusal {
        Refusal::BadHead => 400,
        Refusal::BadChunk => 400,
        Refusal::BadPath => 400,
        Refusal::NotFound => 404,
        Refusal::TooLarge => 413,
        Refusal::Coding => 501,
        Refusal::BadUpstream => 502,
        Refusal::Link => 503,
        Refusal::Memory => 507,
    }
}

fn refusal_text(refusal: Refusal) -> &'static [u8]
    ensures { result.now ≡ spec.refusal_text refusal }
{
    match refusal {
        Refusal::BadHead => BAD_HEAD,
        Refusal::BadChunk => BAD_CHUNK,
        Refusal::BadPath => BAD_PATH,
        Refusal::NotFound => NOT_FOUND,
        Refusal::TooLarge => TOO_LARGE,
        Refusal::Coding => CODING,
        Refusal::BadUpstream => BAD_UPSTREAM,
        Refusal::Link => LINK,
        Refusal::Memory => MEMORY,
    }
}

/// Writes a refusal.
pub fn refuse<O: Sink>(output: &mut O, refusal: Refusal) -> Result<Forwarded, SessionFault>
    ensures written { IsWritten refusal (O.held output.old) (O.held output.new) (O.faults output.old) (O.faults output.new) result }
    ensures counted { O.faults output.old ≤ O.faults output.new }
{
    match write_all(output, refusal_text(refusal)) {
        Ok(()) => Ok(Forwarded::Refused(status_of(refusal))),
        Err(_) => Err(SessionFault::WriteFault(0)),
    }
}

/// What a refusal of the wire is to the client.
pub fn wire_refusal(error: WireError) -> Refusal
    ensures { result ≡ spec.wire_refusal error }
{
    match error {
        WireError::BadHead => Refusal::BadHead,
        WireError::TooLarge(_) => Refusal::TooLarge,
        WireError::Coding => Refusal::Coding,
        WireError::Ended => Refusal::Memory,
        WireError::Cut => Refusal::Memory,
        WireError::ReadFault => Refusal::Memory,
        WireError::Memory => Refusal::Memory,
    }
}
