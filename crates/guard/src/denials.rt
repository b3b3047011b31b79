//! The refusals that a guard itself writes.
ghost use Rattle.std.specs.Prelude.{◌≡◌, ◌≤◌};
ghost use Rattle.guard.specs.Denials.{IsDenied};
ghost use Rattle.guard.specs.Denials as spec;

use http_wire::error::SessionFault;
use http_wire::writes::write_all;
use hub_devices::sink::Sink;
use proxy_core::refusals::Forwarded;

/// Why a guard refuses a request. The last five are those of a browser's sign-in.
#[derive(Clone, Copy, Debug, PartialEq, Eq)]
pub enum Denial {
    NoToken,
    NoAccess,
    /// What the hub said is no answer to what it was asked.
    BadHub,
    /// The hub couldn't be asked.
    Hub,
    BadQuery,
    BadState,
    BadNext,
    SignIn,
    Random,
}

const NO_TOKEN: &[u8] = b"HTTP/1.1 403 Forbidden\r\n\
    Content-Type: application/json\r\nContent-Length: 41\r\nConnection: close\r\n\r\n\
    {\"message\":\"no valid token\",\"status\":403}";

const NO_ACCESS: &[u8] = b"HTTP/1.1 403 Forbidden\r\n\
    Content-Type: application/json\r\nContent-Length: 36\r\nConnection: close\r\n\r\n\
    {\"message\":\"no access\",\"status\":403}";

const BAD_HUB: &[u8] = b"HTTP/1.1 502 Bad Gateway\r\n\
    Content-Type: application/json\r\nContent-Length: 34\r\nConnection: close\r\n\r\n\
    {\"message\":\"bad hub\",\"status\":502}";

const HUB: &[u8] = b"HTTP/1.1 503 Service Unavailable\r\n\
    Content-Type: application/json\r\nContent-Length: 30\r\nConnection: close\r\n\r\n\
    {\"message\":\"hub\",\"status\":503}";

const BAD_QUERY: &[u8] = b"HTTP/1.1 400 Bad Request\r\n\
    Content-Type: application/json\r\nContent-Length: 36\r\nConnection: close\r\n\r\n\
    {\"message\":\"bad query\",\"status\":400}";

const BAD_STATE: &[u8] = b"HTTP/1.1 403 Forbidden\r\n\
    Content-Type: application/json\r\nContent-Length: 36\r\nConnection: close\r\n\r\n\
    {\"message\":\"bad state\",\"status\":403}";

const BAD_NEXT: &[u8] = b"HTTP/1.1 400 Bad Request\r\n\
    Content-Type: application/json\r\nContent-Length: 35\r\nConnection: close\r\n\r\n\
    {\"message\":\"bad next\",\"status\":400}";

const SIGN_IN: &[u8] = b"HTTP/1.1 403 Forbidden\r\n\
    Content-Type: application/json\r\nContent-Length: 42\r\nConnection: close\r\n\r\n\
    {\"message\":\"sign-in refused\",\"status\":403}";

const RANDOM: &[u8] = b"HTTP/1.1 503 Service Unavailable\r\n\
    Content-Type: application/json\r\nContent-Length: 33\r\nConnection: close\r\n\r\n\
    {\"message\":\"random\",\"status\":503}";

fn denial_status(denial: Denial) -> u16
    ensures { result ≡ spec.denial_status denial }
{
    match denial {
        Denial::NoToken => 403,
        Denial::NoAccess => 403,
        Denial::BadHub => 502,
        Denial::Hub => 503,
        Denial::BadQuery => 400,
        Denial::BadState => 403,
        Denial::BadNext => 400,
        Denial::SignIn => 403,
        Denial::Random => 503,
    }
}

fn denial_text(denial: Denial) -> &'static [u8]
    ensures { result.now ≡ spec.denial_text denial }
{
    match denial {
        Denial::NoToken => NO_TOKEN,
        Denial::NoAccess => NO_ACCESS,
        Denial::BadHub => BAD_HUB,
        Denial::Hub => HUB,
        Denial::BadQuery => BAD_QUERY,
        Denial::BadState => BAD_STATE,
        Denial::BadNext => BAD_NEXT,
        Denial::SignIn => SIGN_IN,
        Denial::Random => RANDOM,
    }
}

/// Writes a refusal.
pub fn deny<O: Sink>(output: &mut O, denial: Denial) -> Result<Forwarded, SessionFault>
    ensures written { IsDenied denial (O.held output.old) (O.held output.new) (O.faults output.old) (O.faults output.new) result }
    ensures counted { O.faults output.old ≤ O.faults output.new }
{
    match write_all(output, denial_text(denial)) {
        Ok(()) => Ok(Forwarded::Refused(denial_status(denial))),
        Err(_) => Err(SessionFault::WriteFault(0)),
    }
}
