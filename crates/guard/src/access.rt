//! Whether a hub admits a token.
ghost use Rattle.std.specs.Prelude.{◌≡◌, ◌≤◌, List, IfOk, IfErr};
ghost use Rattle.hub_devices.specs.Faults.{Rises};
ghost use Rattle.hub_devices.specs.declared.link_error.LinkError.TheVariants as Link;
ghost use Rattle.hub_link.specs.Links.{Exchange, Asks};
ghost use Rattle.guard.specs.Access.{IsAnswered, IsUnanswered};
ghost use Rattle.guard.specs.Access as spec;

use hub_devices::link_error::LinkError;
use hub_kit::bytes::Bytes;
use hub_kit::names::ServerKey;
use hub_link::link::HubLink;
use hub_link::replies::read_reply;
use request_parts::truth::truth_in;
use std::alloc::{AllocError, Global};

/// How many bytes nearly all of these requests have at most.
const ASK_ROOM: usize = 256;

const ASK_FRONT: &[u8] = b"GET /hub/api/user?for=";

const ASK_MIDDLE: &[u8] = b" HTTP/1.1\r\nHost: hub\r\nAuthorization: token ";

const ASK_END: &[u8] = b"\r\nConnection: close\r\n\r\n";

/// What a hub says of a token and a server.
#[derive(Clone, Copy, Debug, PartialEq, Eq)]
pub enum Access {
    Yes,
    No,
    /// The hub knows no such token.
    NoToken,
    /// What the hub said is none of these.
    BadReply,
}

/// The request that asks whether a token admits to a server.
#[tactic(auto, unfolding(crate::specs::Access::access_request))]
fn access_request(alloc: Global, key: &ServerKey, token: &[u8]) -> Result<Bytes, AllocError>
    ensures { IfOk result (λ text. text ≡ spec.access_request key.now token.now) }
{
    let mut text = Bytes::from_vec(Vec::with_capacity(alloc, ASK_ROOM)?);
    text.push_all(ASK_FRONT)?;
    text.push_all(key.user.as_bytes())?;
    text.push_all(b"/")?;
    text.push_all(key.server.as_bytes())?;
    text.push_all(ASK_MIDDLE)?;
    text.push_all(token)?;
    text.push_all(ASK_END)?;
    Ok(text)
}

fn access_said(value: Option<bool>) -> Access
    ensures { result ≡ spec.access_said value }
{
    match value {
        None => Access::BadReply,
        Some(true) => Access::Yes,
        Some(false) => Access::No,
    }
}

/// The truth value at `access` in a body, if one is there.
fn access_in(alloc: Global, body: &[u8]) -> Result<Option<bool>, AllocError>
    ensures { IfOk result (λ value. value ≡ spec.access_in body.now) }
{
    truth_in(alloc, body, "access")
}

/// What a reply with this status and this body says.
fn access_by(alloc: Global, status: u16, body: &[u8]) -> Result<Access, AllocError>
    ensures { IfOk result (λ access. access ≡ spec.access_by status body.now) }
{
    if status == 200 {
        return Ok(access_said(access_in(alloc, body)?));
    }
    if status == 403 {
        return Ok(Access::NoToken);
    }
    Ok(Access::BadReply)
}

/// What the bytes of a reply say.
fn access_of(alloc: Global, reply: &[u8]) -> Result<Access, AllocError>
    ensures { IfOk result (λ access. spec.IsAccessOf reply.now access) }
{
    match read_reply(reply) {
        Some((status, body)) => access_by(alloc, status, body),
        None => Ok(Access::BadReply),
    }
}

/// Asks the hub once whether a token admits to a server. The reply to this one ask decides.
pub fn ask_access<H: HubLink>(
    alloc: Global,
    key: &ServerKey,
    token: &[u8],
    link: &mut H,
) -> Result<Access, LinkError>
    ensures ok { IfOk result (λ access. (asks : List Exchange) × Asks H.asked H.does link.old asks link.new
        × IsAnswered (spec.access_request key.now token.now) asks access) }
    ensures err { IfErr result (λ e. (asks : List Exchange) × Asks H.asked H.does link.old asks link.new
        × IsUnanswered (spec.access_request key.now token.now) asks e) }
    ensures counted { H.faults link.old ≤ H.faults link.new }
    ensures cause { IfErr result (λ e. e ≡ Link.Failed → Rises (H.faults link.old) (H.faults link.new)) }
{
    let Ok(request) = access_request(alloc, key, token) else {
        return Err(LinkError::Memory);
    };
    let reply = match link.ask(&request) {
        Ok(reply) => reply,
        Err(error) => return Err(error),
    };
    match access_of(alloc, reply.as_slice()) {
        Ok(access) => Ok(access),
        Err(_) => Err(LinkError::Memory),
    }
}
