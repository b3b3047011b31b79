//! One request of the API, from its bytes to those of its reply.
ghost use Rattle.std.specs.Prelude.{◌≡◌, ◌≤◌, ℕ, List, [], ◌++◌};
ghost use Rattle.proxy_api.specs.Api.{IsListed, IsAdded, IsDeleted, IsAnswered, IsStopped, ApiEnds};
ghost use Rattle.proxy_api.specs.Api as spec;
ghost use Rattle.proxy_api.specs.Calls.{route_path};

use crate::calls::{ApiRefusal, Call, call_of, route_path};
use crate::entries::read_entry;
use crate::listings::listing_text;
use crate::queries::{serial_given, since_asked};
use crate::service::RouteService;
use crate::texts::{ApiReply, write_reply};
use http_wire::buffer::WireBuffer;
use http_wire::error::{SessionFault, WireError};
use http_wire::request::Request;
use http_wire::requests::read_request;
use hub_devices::sink::Sink;
use hub_devices::source::Source;
use hub_kit::moment::Moment;
use hub_kit::text::Text;
use route_table::route::RouteRefusal;
use route_table::routes::Routes;
use std::alloc::Global;

/// Whether the request's token is the secret.
fn has_token(secret: &Text, request: &Request) -> bool
    ensures { result ≡ spec.is_token secret.now request.now.token }
{
    match &request.token {
        Some(token) => token.as_str() == secret.as_str(),
        None => false,
    }
}

/// The call of a request, or why it is refused: the token first, then the place and the method.
fn judge(secret: &Text, request: &Request) -> Result<Call, ApiRefusal>
    ensures { result ≡ spec.judged secret.now request.now }
{
    if !has_token(secret, request) {
        return Err(ApiRefusal::NoToken);
    }
    call_of(
        request.method.as_bytes(),
        route_path(request.path.as_bytes()),
    )
}

/// What a refusal of the table is to the client.
fn table_refusal(refusal: RouteRefusal) -> ApiRefusal
    ensures { result ≡ spec.table_refusal refusal }
{
    match refusal {
        RouteRefusal::Memory => ApiRefusal::Memory,
        _ => ApiRefusal::Table(refusal),
    }
}

fn list_routes(alloc: Global, routes: &Routes, query: &str) -> ApiReply
    ensures { IsListed routes.now query.now result }
{
    let since = match since_asked(alloc, query) {
        Ok(since) => since,
        Err(refusal) => return ApiReply::Refused(refusal),
    };
    let Ok(listed) = routes.list(since) else {
        return ApiReply::Refused(ApiRefusal::Memory);
    };
    match listing_text(alloc, listed.as_slice()) {
        Ok(text) => ApiReply::Listed(text),
        Err(_) => ApiReply::Refused(ApiRefusal::Memory),
    }
}

fn add_route(alloc: Global, routes: &mut Routes, path: &[u8], body: &[u8], now: Moment) -> ApiReply
    ensures { IsAdded routes.old path.now body.now now result routes.new }
{
    let entry = match read_entry(alloc, body) {
        Ok(entry) => entry,
        Err(refusal) => return ApiReply::Refused(refusal),
    };
    match routes.add(path, entry, now) {
        Ok(()) => ApiReply::Added,
        Err(refusal) => ApiReply::Refused(table_refusal(refusal)),
    }
}

fn delete_route(alloc: Global, routes: &mut Routes, path: &[u8], query: &str) -> ApiReply
    ensures { IsDeleted routes.old path.now query.now result routes.new }
{
    let serial = match serial_given(alloc, query) {
        Ok(serial) => serial,
        Err(refusal) => return ApiReply::Refused(refusal),
    };
    match routes.delete(path, serial) {
        Ok(()) => ApiReply::Deleted,
        Err(refusal) => ApiReply::Refused(table_refusal(refusal)),
    }
}

/// The path of the route that a request names, or `/`.
fn path_in(request: &Request) -> &[u8]
    ensures { result.now ≡ spec.path_of (route_path request.now.path) }
{
    match route_path(request.path.as_bytes()) {
        Some(path) => path,
        None => b"/",
    }
}

/// Makes the call of a request.
fn answer_of(
    alloc: Global,
    routes: &mut Routes,
    secret: &Text,
    now: Moment,
    request: &Request,
) -> ApiReply
    ensures { IsAnswered (spec.judged secret.now request.now) routes.old now request.now result routes.new }
{
    let path = path_in(request);
    match judge(secret, request) {
        Ok(Call::List) => list_routes(alloc, routes, request.query.as_str()),
        Ok(Call::Add) => add_route(alloc, routes, path, request.body.as_slice(), now),
        Ok(Call::Delete) => delete_route(alloc, routes, path, request.query.as_str()),
        Err(refusal) => ApiReply::Refused(refusal),
    }
}

impl RouteService for Routes {
    ghost gave = { λ t secret now request reply t'. IsAnswered (spec.judged secret request) t now request reply t' };

    fn answer(&mut self, alloc: Global, secret: &Text, now: Moment, request: &Request) -> ApiReply {
        answer_of(alloc, self, secret, now, request)
    }
}

/// Answers where there is no request.
fn stopped<O: Sink>(alloc: Global, output: &mut O, error: WireError) -> Result<u16, SessionFault>
    ensures stopped { IsStopped error (O.held output.old) (O.held output.new) (O.faults output.old) (O.faults output.new) result }
    ensures counted { O.faults output.old ≤ O.faults output.new }
{
    match error {
        WireError::BadHead => write_reply(alloc, output, &ApiReply::Refused(ApiRefusal::BadHead)),
        WireError::TooLarge(_) => write_reply(
            alloc,
            output,
            &ApiReply::Refused(ApiRefusal::TooLarge),
        ),
        WireError::Coding => write_reply(alloc, output, &ApiReply::Refused(ApiRefusal::Coding)),
        WireError::Memory => write_reply(alloc, output, &ApiReply::Refused(ApiRefusal::Memory)),
        WireError::Ended => Ok(0),
        WireError::Cut => Ok(0),
        WireError::ReadFault => Err(SessionFault::ReadFault(0)),
    }
}

/// The same as `api_one`, with a buffer that is handed in and holds nothing.
fn api_kept<A: RouteService, I: Source, O: Sink>(
    alloc: Global,
    routes: &mut A,
    secret: &Text,
    now: Moment,
    input: &mut I,
    kept: &mut WireBuffer,
    output: &mut O,
) -> Result<u16, SessionFault>
    requires { kept.old ≡ [] }
    ensures ends { ApiEnds A.gave secret.now now
        (record {
          left = I.left input.old;
          held = O.held output.old;
          reads = I.faults input.old;
          writes = O.faults output.old;
        })
        (record {
          left = I.left input.new;
          held = O.held output.new;
          reads = I.faults input.new;
          writes = O.faults output.new;
        })
        routes.old routes.new result }
    ensures reads { I.faults input.old ≤ I.faults input.new }
    ensures writes { O.faults output.old ≤ O.faults output.new }
{
    let request = match read_request(alloc, input, kept) {
        Ok(request) => request,
        Err(e) => return stopped(alloc, output, e),
    };
    let reply = routes.answer(alloc, secret, now, &request);
    write_reply(alloc, output, &reply)
}

/// Answers one request of the API, and gives the status that was written, or 0 where the input ended before or inside the
/// request: the refusals of the wire first, then those of the token, the place, the method, the query or the body, and of the
/// table.
pub fn api_one<A: RouteService, I: Source, O: Sink>(
    alloc: Global,
    routes: &mut A,
    secret: &Text,
    now: Moment,
    input: &mut I,
    output: &mut O,
) -> Result<u16, SessionFault>
    ensures ends { ApiEnds A.gave secret.now now
        (record {
          left = I.left input.old;
          held = O.held output.old;
          reads = I.faults input.old;
          writes = O.faults output.old;
        })
        (record {
          left = I.left input.new;
          held = O.held output.new;
          reads = I.faults input.new;
          writes = O.faults output.new;
        })
        routes.old routes.new result }
    ensures reads { I.faults input.old ≤ I.faults input.new }
    ensures writes { O.faults output.old ≤ O.faults output.new }
{
    let mut kept = WireBuffer::new(alloc);
    api_kept(alloc, routes, secret, now, input, &mut kept, output)
}
