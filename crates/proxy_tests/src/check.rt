//! What the tests share.
use hub_kit::bytes::Bytes;
use hub_kit::moment::Moment;
use hub_kit::target::Target;
use hub_kit::targets::read_target;
use hub_kit::text::Text;
use route_table::extra::Extra;
use route_table::route::RouteEntry;
use route_table::routes::Routes;
use std::alloc::Global;
use std::process::Abort;

/// Stops the test unless what its row says holds.
pub fn check(rt: &impl Abort, holds: bool, row: &str) {
    assert!(rt; holds, "{row}");
}

pub fn bytes(rt: &impl Abort, alloc: Global, bytes: &[u8]) -> Bytes {
    Bytes::from_slice(alloc, bytes).expect(rt, "there is memory")
}

pub fn text(rt: &impl Abort, alloc: Global, text: &str) -> Text {
    Text::from_str(alloc, text).expect(rt, "there is memory")
}

pub fn target(rt: &impl Abort, alloc: Global, url: &[u8]) -> Target {
    read_target(alloc, url).expect(rt, "it is a target")
}

/// A table with one route, `/user/ann`.
pub fn table(rt: &impl Abort, alloc: Global) -> Routes {
    let mut routes = Routes::new(alloc, 10);
    let entry = RouteEntry {
        target: target(rt, alloc, b"http://127.0.0.1:9001"),
        serial: None,
        extra: Extra::new(),
    };
    let added = routes.add(b"/user/ann", entry, Moment::zero());
    added.expect(rt, "there is memory");
    routes
}
