//! The deletions of a round.
ghost use Rattle.std.specs.Prelude.{◌≡◌, ◌≤◌, ◌<◌, ◌+◌, ◌-◌, ◌^◌, ℕ, List, Bool, true, if◌then◌else◌, [], ◌∷◌, Ok, IfOk, IfErr, OnOk};
ghost use Rattle.std.specs.Prelude.{Result};
ghost use Rattle.std.specs.Prelude as prelude;
ghost use Rattle.hub_devices.specs.declared.link_error.LinkError.{LinkError};
ghost use Rattle.hub_devices.specs.Faults.{Rises};
ghost use Rattle.hub_link.specs.Links.{Exchange, Asks};
ghost use Rattle.idle_culler.specs.Deletions.{HasStatus, Deletes, DeletesAll, BeginsDeletion, BeginsDeletions, Removes, IsLinkFault};
ghost use Rattle.idle_culler.specs.Deletions.{culled_count, refused_count};
ghost use Rattle.idle_culler.specs.Deletions as spec;
ghost use Rattle.idle_culler.specs.Requests as requests;

use crate::pages::CullFault;
use crate::requests::{deletion_request, removal_request};
use crate::rules::Cull;
use hub_devices::link_error::LinkError;
use hub_kit::bytes::Bytes;
use hub_kit::text::Text;
use hub_link::link::HubLink;
use hub_link::replies::read_reply;
use std::alloc::Global;

/// How many entries a hub has accepted, and how many it refused.
#[derive(Clone, Copy, Debug, PartialEq, Eq)]
pub struct Counts {
    pub culled: u64,
    pub refused: u64,
}

/// The status of a reply, if the bytes are one.
fn status_in(bytes: &[u8]) -> Option<u16>
    ensures { HasStatus bytes.now result }
{
    let (status, _) = read_reply(bytes)?;
    Some(status)
}

/// Asks once, and gives the status of the reply, if the bytes that came are one.
fn ask_status<H: HubLink>(link: &mut H, request: &Bytes) -> Result<Option<u16>, CullFault>
    ensures ok { IfOk result (λ status. (bytes : List ℕ) × Asks H.asked H.does link.old ((request.now, Ok bytes) ∷ []) link.new
        × HasStatus bytes status) }
    ensures err { IfErr result (λ e. (given : Result (List ℕ) LinkError)
        × Asks H.asked H.does link.old ((request.now, given) ∷ []) link.new × IsLinkFault ((request.now, given) ∷ []) e) }
    ensures counted { H.faults link.old ≤ H.faults link.new }
    ensures cause { result ≡ prelude.Err CullFault.LinkFault → Rises (H.faults link.old) (H.faults link.new) }
{
    match link.ask(request) {
        Ok(bytes) => Ok(status_in(bytes.as_slice())),
        Err(LinkError::Failed) => Err(CullFault::LinkFault),
        Err(LinkError::Memory) => Err(CullFault::Memory),
    }
}

/// Whether the hub has accepted a deletion.
fn is_done(status: Option<u16>) -> bool
    ensures { result ≡ spec.is_done status }
{
    status == Some(202) || status == Some(204)
}

fn is_named_server(cull: &Cull) -> bool
    ensures { result ≡ spec.is_named_server cull.now }
{
    match cull {
        Cull::Server(key) => !key.server.as_bytes().is_empty(),
        Cull::User(_) => false,
    }
}

/// Whether the server is to be removed, now that its stop has this status.
fn is_removed(remove: bool, cull: &Cull, status: Option<u16>) -> bool
    ensures { result ≡ spec.is_removed remove cull.now status }
{
    remove && is_named_server(cull) && status == Some(204)
}

/// Asks for the first deletion.
fn ask_deletion<H: HubLink>(
    alloc: Global,
    link: &mut H,
    token: &Text,
    cull: &Cull,
) -> Result<Option<u16>, CullFault>
    ensures ok { IfOk result (λ status. (bytes : List ℕ)
        × Asks H.asked H.does link.old ((requests.deletion_request token.now cull.now, Ok bytes) ∷ []) link.new × HasStatus bytes status) }
    ensures err { IfErr result (λ e. (asks : List Exchange) × Asks H.asked H.does link.old asks link.new
        × spec.IsAtMost (requests.deletion_request token.now cull.now) asks × IsLinkFault asks e) }
    ensures counted { H.faults link.old ≤ H.faults link.new }
    ensures cause { result ≡ prelude.Err CullFault.LinkFault → Rises (H.faults link.old) (H.faults link.new) }
{
    let Ok(request) = deletion_request(alloc, token, cull) else {
        return Err(CullFault::Memory);
    };
    ask_status(link, &request)
}

/// Asks for the removal of a stopped server, where it is due. What the hub says of it counts for nothing.
fn ask_removal<H: HubLink>(
    alloc: Global,
    link: &mut H,
    token: &Text,
    cull: &Cull,
    due: bool,
) -> Result<(), CullFault>
    ensures ok { OnOk result ((asks : List Exchange) × Asks H.asked H.does link.old asks link.new × Removes token.now cull.now due asks) }
    ensures err { IfErr result (λ e. (asks : List Exchange) × Asks H.asked H.does link.old asks link.new
        × (due ≡ true) × spec.IsAtMost (requests.removal_request token.now cull.now) asks × IsLinkFault asks e) }
    ensures counted { H.faults link.old ≤ H.faults link.new }
    ensures cause { result ≡ prelude.Err CullFault.LinkFault → Rises (H.faults link.old) (H.faults link.new) }
{
    if !due {
        return Ok(());
    }
    let Ok(request) = removal_request(alloc, token, cull) else {
        return Err(CullFault::Memory);
    };
    match ask_status(link, &request) {
        Ok(_) => Ok(()),
        Err(fault) => Err(fault),
    }
}

/// Asks for all that is due of one entry. Tells whether the hub has accepted the first deletion.
fn delete_one<H: HubLink>(
    alloc: Global,
    link: &mut H,
    token: &Text,
    remove: bool,
    cull: &Cull,
) -> Result<bool, CullFault>
    ensures ok { IfOk result (λ done. (asks : List Exchange) × Asks H.asked H.does link.old asks link.new
        × Deletes token.now remove cull.now asks done) }
    ensures err { IfErr result (λ e. (asks : List Exchange) × Asks H.asked H.does link.old asks link.new
        × BeginsDeletion token.now remove cull.now asks × IsLinkFault asks e) }
    ensures counted { H.faults link.old ≤ H.faults link.new }
    ensures cause { result ≡ prelude.Err CullFault.LinkFault → Rises (H.faults link.old) (H.faults link.new) }
{
    let status = match ask_deletion(alloc, link, token, cull) {
        Ok(status) => status,
        Err(fault) => return Err(fault),
    };
    match ask_removal(alloc, link, token, cull, is_removed(remove, cull, status)) {
        Ok(()) => Ok(is_done(status)),
        Err(fault) => Err(fault),
    }
}

/// With one entry more.
fn count_one(counts: Counts, done: bool) -> Counts
    requires { counts.culled + counts.refused < 2 ^ 64 - 1 }
    ensures culled { result.culled ≡ (if done then counts.culled + 1 else counts.culled) }
    ensures refused { result.refused ≡ (if done then counts.refused else counts.refused + 1) }
    ensures sum { result.culled + result.refused ≡ counts.culled + counts.refused + 1 }
{
    if done {
        Counts {
            culled: counts.culled + 1,
            refused: counts.refused,
        }
    } else {
        Counts {
            culled: counts.culled,
            refused: counts.refused + 1,
        }
    }
}

/// Asks for all entries, one after the other.
pub fn delete_all<H: HubLink>(
    alloc: Global,
    link: &mut H,
    token: &Text,
    remove: bool,
    culls: &[Cull],
) -> Result<Counts, CullFault>
    ensures ok { IfOk result (λ counts. (asks : List Exchange) × (outcomes : List Bool) × Asks H.asked H.does link.old asks link.new
        × DeletesAll token.now remove culls.now asks outcomes
        × (counts ≡ record { culled = culled_count outcomes; refused = refused_count outcomes })) }
    ensures err { IfErr result (λ e. (asks : List Exchange) × Asks H.asked H.does link.old asks link.new
        × BeginsDeletions token.now remove culls.now asks × IsLinkFault asks e) }
    ensures counted { H.faults link.old ≤ H.faults link.new }
    ensures cause { result ≡ prelude.Err CullFault.LinkFault → Rises (H.faults link.old) (H.faults link.new) }
{
    let mut counts = Counts {
        culled: 0,
        refused: 0,
    };
    'all: for cull in culls {
        match delete_one(alloc, link, token, remove, cull) {
            Ok(done) => counts = count_one(counts, done),
            Err(fault) => return Err(fault),
        }
    }
    Ok(counts)
}
