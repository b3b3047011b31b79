//! An upgrade, to an upstream that is connected.
ghost use Rattle.std.specs.Prelude.{◌≡◌, ◌≤◌, ◌++◌, [], true};
ghost use Rattle.upstreams.specs.Upstream.{IsOpen};
ghost use Rattle.carries.specs.Carries.{LinkEnds, upgrade_of};
ghost use Rattle.proxy_core.specs.Telling.{place_of};
ghost use Rattle.carries.specs.Telling.{sides_of};

use crate::asking::ask_switch;
use crate::carried::{Carried, one_of};
use crate::opening::open;
use http_wire::error::SessionFault;
use hub_devices::source::Source;
use piece_window::window::Window;
use proxy_core::passes::give_back;
use proxy_core::refusals::refuse;
use std::alloc::Global;
use std::thread::Threads;
use tunnel::shuts::Shuts;
use upstreams::tunnelled::Tunnelled;

/// Sends an upgrade on, whose client has sent `first` behind its head, and opens a tunnel, or passes back what else comes. What
/// `back` held before is dropped.
pub(crate) fn carry_linked<R: Threads, I: Source + Send, O: Shuts, U: Tunnelled<Writes: Send>>(
    rt: &R,
    alloc: Global,
    method: &[u8],
    text: &[u8],
    first: &[u8],
    input: &mut I,
    back: &mut Window,
    output: &mut O,
    up: &mut U,
) -> Result<Carried<U::Reads, U::Writes>, SessionFault>
    requires open { IsOpen (U.told up.old) }
    ensures ends { let place = place_of I.Source O.Sink U.Upstream in
        let sides = sides_of U.Reads.Source U.Writes.Sink (O.closed output.new) in
        LinkEnds sides (upgrade_of method.now text.now) (place input.old first.now output.old up.old)
        (place input.new first.now output.new up.new) result }
    ensures reads { I.faults input.old ≤ I.faults input.new }
    ensures links { U.faults up.old ≤ U.faults up.new }
    ensures writes { O.faults output.old ≤ O.faults output.new }
{
    back.clear();
    let reply = match ask_switch(alloc, method, text, up, back) {
        Ok(reply) => reply,
        Err(refusal) => return one_of(refuse(output, refusal)),
    };
    if reply.switched {
        return open(
            rt,
            first,
            reply.text.as_slice(),
            back.as_slice(),
            input,
            output,
            up,
        );
    }
    one_of(give_back(&reply, back, output, up))
}
