//! The link.
ghost use Rattle.std.specs.Prelude.{◌≡◌, ℕ, List, Some, None};
ghost use Rattle.hub_run.specs.Turns.{view_of};
ghost use Rattle.direct_link.specs.Direct.{Direct, Replies};

use desk::{Desk, Pass};
use http_wire::error::SessionFault;
use hub_core::book::Book;
use hub_devices::clock::Clock;
use hub_devices::link_error::LinkError;
use hub_devices::mem_bytes::{MemSink, MemSource};
use hub_devices::random::Random;
use hub_devices::route_link::RouteLink;
use hub_devices::sink::Sink;
use hub_devices::spawner::Spawner;
use hub_kit::bytes::Bytes;
use hub_link::link::HubLink;
use hub_machine::change::Change;
use hub_run::{HubKit, Served, serve_connection};
use keeper::keeper::Keeper;
use keeper::trail::Trail;
use reply_texts::no_memory;
use std::alloc::Global;
use std::sync::Wait;

/// How many bytes of a request are read at once.
const PIECE: usize = 16384;

/// Asks a hub by a connection over memory for each request, with a pass and devices that it was lent.
#[derive(Drop)]
pub struct DirectLink<
    'a,
    K: Keeper,
    T: Trail<Entry = Change>,
    S: Spawner,
    P: RouteLink,
    C: Clock,
    R: Random,
    W: Wait,
> {
    rt: &'a W,
    alloc: Global,
    pub desk: &'a Desk<Book<K, T>>,
    pub pass: &'a mut Pass<Book<K, T>>,
    pub kit: &'a mut HubKit<S, P, C, R>,
    pub ghost of: { pass.now.of ≡ desk.now },
}

impl<
    'a,
    K: Keeper,
    T: Trail<Entry = Change>,
    S: Spawner,
    P: RouteLink,
    C: Clock,
    R: Random,
    W: Wait,
> DirectLink<'a, K, T, S, P, C, R, W> {
    /// A link by this pass of the desk.
    pub fn new(
        rt: &'a W,
        alloc: Global,
        desk: &'a Desk<Book<K, T>>,
        pass: &'a mut Pass<Book<K, T>>,
        kit: &'a mut HubKit<S, P, C, R>,
    ) -> DirectLink<'a, K, T, S, P, C, R, W>
        requires { pass.old.of ≡ desk.now }
        ensures same_pass { result.pass.ghost_name ≡ pass.entry.ghost_name }
        ensures same_kit { result.kit.ghost_name ≡ kit.entry.ghost_name }
        ensures pass { result.pass.now ≡ pass.old }
        ensures kit { result.kit.now ≡ kit.old }
    {
        DirectLink {
            rt,
            alloc,
            desk,
            pass,
            kit,
        }
    }
}

/// What a connection wrote, as the reply to its one request: a fault, or a 507, is want of memory.
fn reply_of(
    alloc: Global,
    served: Result<Served, SessionFault>,
    output: &MemSink,
) -> Result<Bytes, LinkError>
    ensures { (said : List ℕ) → ⟦<MemSink as Sink>⟧.held output.now ≡ Some said → Replies result served said }
{
    match served {
        Ok(_) => {}
        Err(_) => return Err(LinkError::Memory),
    }
    if output.as_slice() == no_memory() {
        return Err(LinkError::Memory);
    }
    match Bytes::from_slice(alloc, output.as_slice()) {
        Ok(reply) => Ok(reply),
        Err(_) => Err(LinkError::Memory),
    }
}

impl<
    'a,
    K: Keeper,
    T: Trail<Entry = Change>,
    S: Spawner,
    P: RouteLink,
    C: Clock,
    R: Random,
    W: Wait,
> HubLink for DirectLink<'a, K, T, S, P, C, R, W> {
    // it keeps no requests
    ghost asked = { λ l. None };

    ghost faults = { λ l. 0 };

    ghost does = { λ before request given after. (after.pass.ghost_name ≡ before.pass.ghost_name)
        × (after.kit.ghost_name ≡ before.kit.ghost_name)
        × Direct (view_of C.to_come R.left S.calls P.calls R.faults S.faults P.faults before.pass.now before.kit.now) request given
        (view_of C.to_come R.left S.calls P.calls R.faults S.faults P.faults after.pass.now after.kit.now) };

    fn ask(&mut self, request: &Bytes) -> Result<Bytes, LinkError> {
        let alloc = self.alloc;
        let Ok(request) = Bytes::from_slice(alloc, request.as_slice()) else {
            return Err(LinkError::Memory);
        };
        let mut input = MemSource::new(request, PIECE, Vec::new(alloc));
        let mut output = MemSink::new(alloc, Vec::new(alloc));
        let served = serve_connection(
            self.rt,
            alloc,
            self.desk,
            self.pass,
            &mut input,
            &mut output,
            self.kit,
        );
        drop(input);
        let reply = reply_of(alloc, served, &output);
        drop(output);
        reply
    }
}
