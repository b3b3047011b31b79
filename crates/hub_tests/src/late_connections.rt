//! Connections of the tests of what fails or is late: one is served to its end, and what was written is compared.
ghost use Rattle.std.specs.Prelude.{◌≡◌};

use crate::hubs::{BookOver, NEVER, open_desk};
use crate::late_hubs::{DRAWS, LateKit, late_kit, late_routes};
use desk::{Desk, Pass};
use http_wire::error::SessionFault;
use hub_devices::mem_bytes::{MemSink, MemSource};
use hub_run::{Served, serve_connection};
use keeper::keeper::Keeper;
use std::alloc::Global;
use std::process::Abort;
use std::sync::Wait;

/// How a connection ends that is asked this, and what is written stands in the sink then.
pub fn served<R: Abort + Wait, K: Keeper>(
    rt: &R,
    alloc: Global,
    desk: &Desk<BookOver<K>>,
    pass: &mut Pass<BookOver<K>>,
    kit: &mut LateKit,
    source: MemSource,
    sink: &mut MemSink,
) -> Result<Served, SessionFault>
    requires { pass.old.of ≡ desk.now }
    ensures { pass.new.of ≡ desk.now }
{
    let mut source = source;
    let end = serve_connection(rt, alloc, desk, pass, &mut source, sink, kit);
    drop(source);
    end
}

/// How a connection ends that is asked this of the hub with this book, and the book as it is then.
pub fn served_over<R: Abort + Wait, K: Keeper>(
    rt: &R,
    alloc: Global,
    book: BookOver<K>,
    kit: &mut LateKit,
    source: MemSource,
    sink: &mut MemSink,
) -> (Result<Served, SessionFault>, BookOver<K>) {
    let (desk, mut pass) = open_desk(rt, alloc, book);
    let end = served(rt, alloc, &desk, &mut pass, kit, source, sink);
    (end, desk.close(rt, pass))
}

/// The same where the hub's devices are new and do all that is asked.
pub fn end_over<R: Abort + Wait, K: Keeper>(
    rt: &R,
    alloc: Global,
    book: BookOver<K>,
    source: MemSource,
    sink: &mut MemSink,
) -> (Result<Served, SessionFault>, BookOver<K>) {
    let routes = late_routes(rt, alloc, &[]);
    let mut kit = late_kit(rt, alloc, routes, NEVER, &DRAWS);
    let ended = served_over(rt, alloc, book, &mut kit, source, sink);
    drop(kit);
    ended
}

/// Whether the replies on the wire have these statuses.
pub fn are_statuses(output: &[u8], statuses: &[&str]) -> bool {
    let mut found = 0;
    for at in 0..output.len() {
        let rest = &output[at..];
        if rest.starts_with(b"HTTP/1.1 ") {
            let Some(status) = statuses.get(found) else {
                return false;
            };
            if !rest[9..].starts_with(status.as_bytes()) {
                return false;
            }
            found += 1;
        }
    }
    found == statuses.len()
}
