//! An upgrade whose head was read.
ghost use Rattle.std.specs.Prelude.{◌≡◌, ◌≤◌, ◌++◌, ℕ, List, true};
ghost use Rattle.carries.specs.Carries.{CarriesOn, upgrading};
ghost use Rattle.proxy_core.specs.Telling.{place_of};
ghost use Rattle.carries.specs.Telling.{sides_of};

use crate::carried::{Carried, one_of};
use crate::early::take_kept;
use crate::linked::carry_linked;
use http_wire::error::SessionFault;
use http_wire::head::Head;
use hub_devices::source::Source;
use hub_kit::target::Target;
use piece_window::rooms::Rooms;
use proxy_core::refusals::{Refusal, refuse};
use proxy_wire::heads::request_text;
use std::alloc::Global;
use std::thread::Threads;
use tunnel::shuts::Shuts;
use upstreams::tunnelled::Tunnelled;

/// Carries an upgrade whose head was read to a target, over one connection to it, which is asked for once. Where no tunnel opens, what the
/// client sent behind its head is lost (`rest`), since a connection takes one request.
pub(crate) fn carry_upgrade<R: Threads, I: Source + Send, O: Shuts, U: Tunnelled<Writes: Send>>(
    rt: &R,
    alloc: Global,
    head: &Head,
    target: &Target,
    input: &mut I,
    rooms: &mut Rooms,
    output: &mut O,
    up: &mut U,
) -> Result<Carried<U::Reads, U::Writes>, SessionFault>
    requires minor { head.now.minor ≤ 1 }
    ensures ends { let place = place_of I.Source O.Sink U.Upstream in
        let sides = sides_of U.Reads.Source U.Writes.Sink (O.closed output.new) in
        CarriesOn sides (upgrading head.now) target.now (place input.old rooms.old.kept output.old up.old)
        (place input.new rooms.new.kept output.new up.new) result }
    ensures reads { I.faults input.old ≤ I.faults input.new }
    ensures links { U.faults up.old ≤ U.faults up.new }
    ensures writes { O.faults output.old ≤ O.faults output.new }
{
    let Ok(text) = request_text(alloc, true, head) else {
        return one_of(refuse(output, Refusal::Memory));
    };
    let Ok(first) = take_kept(alloc, &mut rooms.kept) else {
        return one_of(refuse(output, Refusal::Memory));
    };
    match up.connect(target) {
        Ok(()) => {}
        Err(_) => return one_of(refuse(output, Refusal::Link)),
    }
    let outcome = carry_linked(
        rt,
        alloc,
        head.method.as_bytes(),
        text.as_slice(),
        first.as_slice(),
        input,
        &mut rooms.back,
        output,
        up,
    );
    up.finish();
    outcome
}
