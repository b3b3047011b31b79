//! What is asked of a proxy: one request for each change of a route and for the list.
ghost use Rattle.std.specs.Prelude.{◌≡◌, ◌≤◌, ℕ, List, [], ◌∷◌, Ok, IfOk, IfErr};
ghost use Rattle.std.specs.Prelude as prelude;
ghost use Rattle.hub_devices.specs.Faults.{Rises};
ghost use Rattle.hub_devices.specs.declared.link_error.LinkError.TheVariants as Link;
ghost use Rattle.hub_link.specs.Links.{Exchange, Asks};
ghost use Rattle.proxy_link.specs.Asks.{HasStatus, Changes, Fails, Lists};
ghost use Rattle.proxy_link.specs.Asks as spec;
ghost use Rattle.proxy_link.specs.Requests as requests;

use crate::readings::read_routes;
use crate::requests::{add_request, delete_request, is_path, list_request};
use hub_devices::calls::ListedRoute;
use hub_devices::link_error::LinkError;
use hub_kit::bytes::Bytes;
use hub_kit::list;
use hub_kit::target::Target;
use hub_kit::text::Text;
use hub_link::link::HubLink;
use hub_link::replies::read_reply;
use std::alloc::Global;

/// The status of a reply, if the bytes are one.
fn status_in(bytes: &[u8]) -> Option<u16>
    ensures { HasStatus bytes.now result }
{
    let (status, _) = read_reply(bytes)?;
    Some(status)
}

fn is_added(status: Option<u16>) -> bool
    ensures { result ≡ spec.is_added status }
{
    status == Some(201)
}

fn is_deleted(status: Option<u16>) -> bool
    ensures { result ≡ spec.is_deleted status }
{
    status == Some(204) || status == Some(404) || status == Some(409)
}

/// Asks once, and gives the status of the reply, if the bytes that came are one.
fn ask_status<L: HubLink>(link: &mut L, request: &Bytes) -> Result<Option<u16>, LinkError>
    ensures ok { IfOk result (λ status. (bytes : List ℕ) × Asks L.asked L.does link.old ((request.now, Ok bytes) ∷ []) link.new
        × HasStatus bytes status) }
    ensures err { IfErr result (λ e. (asks : List Exchange) × Asks L.asked L.does link.old asks link.new × Fails request.now asks e) }
    ensures counted { L.faults link.old ≤ L.faults link.new }
    ensures cause { result ≡ prelude.Err Link.Failed → Rises (L.faults link.old) (L.faults link.new) }
{
    match link.ask(request) {
        Ok(bytes) => Ok(status_in(bytes.as_slice())),
        Err(LinkError::Failed) => Err(LinkError::Failed),
        Err(LinkError::Memory) => Err(LinkError::Memory),
    }
}

/// Asks a proxy once to add the route of a path, or to replace it, and tells whether it has. A text that is no path is asked of nobody, and
/// isn't added.
pub fn add_route<L: HubLink>(
    alloc: Global,
    link: &mut L,
    secret: &Text,
    path: &Text,
    target: &Target,
    serial: Option<u64>,
) -> Result<bool, LinkError>
    ensures ok { IfOk result (λ done. (asks : List Exchange) × Asks L.asked L.does link.old asks link.new
        × Changes (requests.is_path path.now) spec.is_added (requests.add_request secret.now path.now target.now serial) asks done) }
    ensures err { IfErr result (λ e. (asks : List Exchange) × Asks L.asked L.does link.old asks link.new
        × Fails (requests.add_request secret.now path.now target.now serial) asks e) }
    ensures counted { L.faults link.old ≤ L.faults link.new }
    ensures cause { result ≡ prelude.Err Link.Failed → Rises (L.faults link.old) (L.faults link.new) }
{
    if !is_path(path) {
        return Ok(false);
    }
    let Ok(request) = add_request(alloc, secret, path, target, serial) else {
        return Err(LinkError::Memory);
    };
    match ask_status(link, &request) {
        Ok(status) => Ok(is_added(status)),
        Err(error) => Err(error),
    }
}

/// Asks a proxy once to delete the route of a path, and tells whether it is done: deleted, not there, or added later than the serial says.
/// A text that is no path is asked of nobody, and isn't done.
pub fn delete_route<L: HubLink>(
    alloc: Global,
    link: &mut L,
    secret: &Text,
    path: &Text,
    serial: u64,
) -> Result<bool, LinkError>
    ensures ok { IfOk result (λ done. (asks : List Exchange) × Asks L.asked L.does link.old asks link.new
        × Changes (requests.is_path path.now) spec.is_deleted (requests.delete_request secret.now path.now serial) asks done) }
    ensures err { IfErr result (λ e. (asks : List Exchange) × Asks L.asked L.does link.old asks link.new
        × Fails (requests.delete_request secret.now path.now serial) asks e) }
    ensures counted { L.faults link.old ≤ L.faults link.new }
    ensures cause { result ≡ prelude.Err Link.Failed → Rises (L.faults link.old) (L.faults link.new) }
{
    if !is_path(path) {
        return Ok(false);
    }
    let Ok(request) = delete_request(alloc, secret, path, serial) else {
        return Err(LinkError::Memory);
    };
    match ask_status(link, &request) {
        Ok(status) => Ok(is_deleted(status)),
        Err(error) => Err(error),
    }
}

/// Asks a proxy once for its routes: nothing where the reply lists none.
pub fn list_routes<L: HubLink>(
    alloc: Global,
    link: &mut L,
    secret: &Text,
) -> Result<Option<list::List<ListedRoute>>, LinkError>
    ensures ok { IfOk result (λ routes. (asks : List Exchange) × Asks L.asked L.does link.old asks link.new
        × Lists (requests.list_request secret.now) asks routes) }
    ensures err { IfErr result (λ e. (asks : List Exchange) × Asks L.asked L.does link.old asks link.new
        × Fails (requests.list_request secret.now) asks e) }
    ensures counted { L.faults link.old ≤ L.faults link.new }
    ensures cause { result ≡ prelude.Err Link.Failed → Rises (L.faults link.old) (L.faults link.new) }
{
    let Ok(request) = list_request(alloc, secret) else {
        return Err(LinkError::Memory);
    };
    match link.ask(&request) {
        Ok(bytes) => match read_routes(alloc, bytes.as_slice()) {
            Ok(routes) => Ok(routes),
            Err(_) => Err(LinkError::Memory),
        },
        Err(LinkError::Failed) => Err(LinkError::Failed),
        Err(LinkError::Memory) => Err(LinkError::Memory),
    }
}
