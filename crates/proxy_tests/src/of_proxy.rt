//! A proxy's routes over a link in memory: the requests to their bytes, and what the replies come to.
use crate::check::{check, text};
use hub_devices::calls::ListedRoute;
use hub_devices::link_error::LinkError;
use hub_devices::route_link::RouteLink;
use hub_kit::bytes::Bytes;
use hub_kit::target::Target;
use hub_kit::targets::read_target;
use hub_link::mem_link::MemHubLink;
use proxy_link::asks::{add_route, delete_route, list_routes};
use proxy_link::proxy_link::ProxyLink;
use std::alloc::Global;
use std::process::Abort;

const ADDITION: &[u8] = b"POST /api/routes/user/ann HTTP/1.1\r\nHost: proxy\r\n\
Authorization: token secret-of-the-proxy\r\nContent-Type: application/json\r\nContent-Length: 45\r\nConnection: close\r\n\r\n\
{\"serial\":8,\"target\":\"http://127.0.0.1:9001\"}";

const OWN_ADDITION: &[u8] =
    b"POST /api/routes/ HTTP/1.1\r\nHost: proxy\r\nAuthorization: token secret-of-the-proxy\r\n\
Content-Type: application/json\r\nContent-Length: 34\r\nConnection: close\r\n\r\n{\"target\":\"http://127.0.0.1:9001\"}";

const DELETION: &[u8] = b"DELETE /api/routes/user/ann/lab?serial=9 HTTP/1.1\r\nHost: proxy\r\n\
Authorization: token secret-of-the-proxy\r\nConnection: close\r\n\r\n";

const LISTING: &[u8] =
    b"GET /api/routes HTTP/1.1\r\nHost: proxy\r\nAuthorization: token secret-of-the-proxy\r\nConnection: close\r\n\r\n";

const ADDED: &[u8] = b"HTTP/1.1 201 Created\r\nContent-Length: 0\r\nConnection: close\r\n\r\n";

const DELETED: &[u8] = b"HTTP/1.1 204 No Content\r\nConnection: close\r\n\r\n";

const ABSENT: &[u8] = b"HTTP/1.1 404 Not Found\r\nContent-Length: 0\r\n\r\n";

const STALE: &[u8] = b"HTTP/1.1 409 Conflict\r\nContent-Length: 0\r\n\r\n";

const REFUSED: &[u8] = b"HTTP/1.1 403 Forbidden\r\nContent-Length: 0\r\n\r\n";

const LISTED: &[u8] =
    b"HTTP/1.1 200 OK\r\nContent-Type: application/json\r\nContent-Length: 109\r\n\r\n\
{\"/\":{\"target\":\"http://127.0.0.1:8081\"},\"/user/ann\":{\"note\":[1],\"serial\":8,\"target\":\"http://127.0.0.1:9001\"}}";

/// One route of the list has no target.
const HALF_LISTED: &[u8] = b"HTTP/1.1 200 OK\r\nContent-Length: 16\r\n\r\n{\"/\":{},\"/a\":{}}";

fn link(rt: &impl Abort, alloc: Global, replies: &[&[u8]]) -> MemHubLink {
    let mut list = Vec::new(alloc);
    for reply in replies {
        let bytes = Bytes::from_slice(alloc, reply).expect(rt, "there is memory");
        list.push(bytes).expect(rt, "there is memory");
    }
    MemHubLink::new(alloc, list, Vec::new(alloc))
}

fn target(rt: &impl Abort, alloc: Global) -> Target {
    read_target(alloc, b"http://127.0.0.1:9001").expect(rt, "it is a target")
}

/// Whether the link was asked these requests, in this order.
fn was_asked(link: &MemHubLink, requests: &[&[u8]]) -> bool {
    let Some(asked) = link.asked() else {
        return false;
    };
    if asked.len() != requests.len() {
        return false;
    }
    for i in 0..asked.len() {
        if asked[i].0.as_slice() != requests[i] {
            return false;
        }
    }
    true
}

/// What the addition of a path comes to.
fn added(
    rt: &impl Abort,
    alloc: Global,
    link: &mut MemHubLink,
    path: &str,
    serial: Option<u64>,
) -> Option<bool> {
    let secret = text(rt, alloc, "secret-of-the-proxy");
    let target = target(rt, alloc);
    let path = text(rt, alloc, path);
    let told = add_route(alloc, link, &secret, &path, &target, serial);
    drop(secret);
    drop(target);
    drop(path);
    told.ok()
}

#[test]
fn additions(rt: HostRuntime) {
    let alloc = rt.alloc();
    let mut link = link(&rt, alloc, &[ADDED, ADDED, REFUSED]);
    let told = added(&rt, alloc, &mut link, "/user/ann", Some(8));
    check(&rt, told == Some(true), "201 is done");
    let told = added(&rt, alloc, &mut link, "/", None);
    check(&rt, told == Some(true), "201 is done without a serial");
    let told = added(&rt, alloc, &mut link, "/", None);
    check(&rt, told == Some(false), "403 is not");
    let told = added(&rt, alloc, &mut link, "/user/a b", None);
    check(&rt, told == Some(false), "no path");
    let asked = was_asked(&link, &[ADDITION, OWN_ADDITION, OWN_ADDITION]);
    drop(link);
    check(&rt, asked, "the requests of the additions");
}

/// What the deletion of ann's server lab comes to.
fn deleted(rt: &impl Abort, alloc: Global, link: &mut MemHubLink) -> Option<bool> {
    let secret = text(rt, alloc, "secret-of-the-proxy");
    let path = text(rt, alloc, "/user/ann/lab");
    let told = delete_route(alloc, link, &secret, &path, 9);
    drop(secret);
    drop(path);
    told.ok()
}

/// 204, 404, 409 and 403.
const DONE: [bool; 4] = [true, true, true, false];

#[test]
fn deletions(rt: HostRuntime) {
    let alloc = rt.alloc();
    let mut link = link(&rt, alloc, &[DELETED, ABSENT, STALE, REFUSED]);
    for done in &DONE {
        let told = deleted(&rt, alloc, &mut link);
        check(&rt, told == Some(*done), "204, 404, 409 and 403");
    }
    let asked = was_asked(&link, &[DELETION, DELETION, DELETION, DELETION]);
    drop(link);
    check(&rt, asked, "the requests of the deletions");
}

/// Whether the routes are the hub's own and ann's.
fn are_listed(routes: &[ListedRoute]) -> bool {
    match routes {
        [own, ann] => {
            (own.path.as_str() == "/")
                & own.serial.is_none()
                & (ann.path.as_str() == "/user/ann")
                & (ann.serial == Some(8))
                & (ann.target.as_str() == "http://127.0.0.1:9001")
        }
        _ => false,
    }
}

/// What the list comes to: whether it is of those routes, or nothing where no list is given.
fn listed(rt: &impl Abort, alloc: Global, link: &mut MemHubLink) -> Option<bool> {
    let secret = text(rt, alloc, "secret-of-the-proxy");
    let listed = list_routes(alloc, link, &secret)
        .ok()
        .expect(rt, "there is memory");
    drop(secret);
    match listed {
        Some(routes) => {
            let holds = are_listed(routes.as_slice());
            drop(routes);
            Some(holds)
        }
        None => None,
    }
}

#[test]
fn lists(rt: HostRuntime) {
    let alloc = rt.alloc();
    let mut link = link(&rt, alloc, &[LISTED, HALF_LISTED, REFUSED]);
    let routes = listed(&rt, alloc, &mut link);
    check(&rt, routes == Some(true), "two routes");
    let half = listed(&rt, alloc, &mut link);
    check(&rt, half.is_none(), "a route without a target");
    let refused = listed(&rt, alloc, &mut link);
    check(&rt, refused.is_none(), "403");
    let asked = was_asked(&link, &[LISTING, LISTING, LISTING]);
    drop(link);
    check(&rt, asked, "the requests");
}

/// Whether an addition and a deletion are done, and the next addition and the list fail.
fn two_are_done(rt: &impl Abort, alloc: Global, routes: &mut ProxyLink<MemHubLink>) -> bool {
    let target = target(rt, alloc);
    let path = text(rt, alloc, "/user/ann");
    let holds = routes.add(&path, &target, Some(8)).is_ok()
        & routes.delete(&path, 9).is_ok()
        & routes.add(&path, &target, Some(8)).is_err()
        & matches!(routes.list().err(), Some(LinkError::Failed));
    drop(target);
    drop(path);
    holds
}

#[test]
fn a_route_link(rt: HostRuntime) {
    let alloc = rt.alloc();
    let link = link(&rt, alloc, &[ADDED, STALE, REFUSED, REFUSED]);
    let mut routes = ProxyLink::new(alloc, text(&rt, alloc, "secret-of-the-proxy"), link);
    let holds = two_are_done(&rt, alloc, &mut routes);
    drop(routes);
    check(&rt, holds, "201 and 409 are done, 403 is not");
}
