//! A proxy behind a socket, which tells why it can't be used.
ghost use Rattle.std.specs.Prelude.{◌≡◌, ℕ, None, ⊤};

use crate::hub::SocketHub;
use hub_devices::link_error::LinkError;
use hub_edge::output::moment_now;
use hub_kit::bytes::Bytes;
use hub_kit::target::Target;
use hub_link::link::HubLink;
use hub_link::replies::read_reply;
use std::fmt::{self, Display, Formatter};
use std::io::ErrorKind;
use std::time::Duration;

/// Why a proxy can't be used.
#[derive(Clone, Copy, Debug, PartialEq, Eq)]
pub enum ProxyFault {
    /// Nobody listens at its address.
    Away,
    Late,
    /// What came is no reply.
    Unread,
    /// It refuses the secret, with this status.
    Secret(u16),
    /// Another status than those of a proxy's interface.
    Status(u16),
    /// The system's error.
    System(ErrorKind),
}

impl Display for ProxyFault {
    fn fmt<W: fmt::Write>(&self, f: &mut Formatter<W>) -> fmt::Result {
        match self {
            ProxyFault::Away => f.write_str(
                "nobody listens there: start it, or set `proxy_api` to where its interface listens",
            ),
            ProxyFault::Late => f.write_str("it did not answer in time: see whether it hangs"),
            ProxyFault::Unread => f.write_str(
                "what came is no reply: set `proxy_api` to where the interface of a proxy listens",
            ),
            ProxyFault::Secret(status) => write!(
                f,
                "it answered {status}: `proxy_secret` has to be the secret that it was started with"
            ),
            ProxyFault::Status(status) => write!(
                f,
                "it answered {status}: see its log, and whether `proxy_api` is a proxy's interface"
            ),
            ProxyFault::System(kind) => write!(
                f,
                "{kind:?}: see whether its address is right and reached from here"
            ),
        }
    }
}

/// What an error of the system says of a proxy.
fn fault_of(kind: ErrorKind) -> ProxyFault {
    match kind {
        ErrorKind::ConnectionRefused => ProxyFault::Away,
        ErrorKind::TimedOut | ErrorKind::WouldBlock => ProxyFault::Late,
        ErrorKind::InvalidData => ProxyFault::Unread,
        other => ProxyFault::System(other),
    }
}

/// Whether a request may have this status. A route that isn't there is as good as deleted, and so is one that was added later.
fn is_usual(request: &[u8], status: u16) -> bool {
    if request.starts_with(b"DELETE ") {
        return matches!(status, 204 | 404 | 409);
    }
    if request.starts_with(b"POST ") {
        return status == 201;
    }
    status == 200
}

/// Why the reply to a request is of no use, if it isn't.
fn fault_in(request: &[u8], reply: &[u8]) -> Option<ProxyFault> {
    let Some((status, _)) = read_reply(reply) else {
        return Some(ProxyFault::Unread);
    };
    if is_usual(request, status) {
        return None;
    }
    match status {
        401 | 403 => Some(ProxyFault::Secret(status)),
        other => Some(ProxyFault::Status(other)),
    }
}

/// Asks the proxy at a target as `SocketHub` asks a hub, and says on standard error why it can't be used, in one line without its secret.
/// Where that can't be said nothing is.
pub struct SocketProxy {
    rt: HostRuntime,
    link: SocketHub,
}

impl Drop for SocketProxy {
    fn drop(self) {
        let SocketProxy { rt: _, link: _ } = self;
    }
}

impl SocketProxy {
    /// Asks nothing yet. A reply may take so long to its end, from its request on.
    pub fn new(rt: HostRuntime, target: Target, limit: Duration) -> SocketProxy {
        SocketProxy {
            rt,
            link: SocketHub::new(rt, target, limit),
        }
    }

    fn say(&self, fault: ProxyFault) {
        let target = self.link.target().as_text().as_str();
        let moment = moment_now(&self.rt);
        let at = moment.as_str();
        let _ = eprintln!(self.rt; "{at} hub: the proxy at {target} can't be used: {fault}");
    }
}

impl HubLink for SocketProxy {
    ghost asked = { λ _. None };

    ghost faults = { λ l. l.link.faults };

    ghost does = { λ before request given after. ⊤ };

    fn ask(&mut self, request: &Bytes) -> Result<Bytes, LinkError> {
        let reply = self.link.exchange(request);
        match &reply {
            Ok(bytes) => {
                if let Some(fault) = fault_in(request.as_slice(), bytes.as_slice()) {
                    self.say(fault);
                }
            }
            Err(error) => self.say(fault_of(error.kind())),
        }
        self.link.told(reply)
    }
}
