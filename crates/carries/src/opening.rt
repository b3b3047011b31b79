//! A tunnel, behind a reply that switches over.
ghost use Rattle.std.specs.Prelude.{◌≡◌, ◌≤◌};
ghost use Rattle.upstreams.specs.Upstream.{IsOpen};
ghost use Rattle.carries.specs.Carries.{OpenEnds};
ghost use Rattle.proxy_core.specs.Telling.{place_of};
ghost use Rattle.carries.specs.Telling.{sides_of};

use crate::carried::{Carried, one_of};
use http_wire::error::SessionFault;
use http_wire::writes::write_all;
use hub_devices::source::Source;
use proxy_core::refusals::{Refusal, refuse};
use std::thread::Threads;
use tunnel::relays::relay;
use tunnel::shuts::Shuts;
use upstreams::tunnelled::Tunnelled;

/// The most bytes that go one way.
pub(crate) const BUDGET: u64 = 9_223_372_036_854_775_807;

/// Takes the upstream's sides, passes the reply's head back, and then all bytes both ways: those first that came behind either head.
pub(crate) fn open<R: Threads, I: Source + Send, O: Shuts, U: Tunnelled<Writes: Send>>(
    rt: &R,
    first: &[u8],
    text: &[u8],
    behind: &[u8],
    input: &mut I,
    output: &mut O,
    up: &mut U,
) -> Result<Carried<U::Reads, U::Writes>, SessionFault>
    requires open { IsOpen (U.told up.old) }
    ensures ends { let place = place_of I.Source O.Sink U.Upstream in
        let sides = sides_of U.Reads.Source U.Writes.Sink (O.closed output.new) in
        OpenEnds sides (place input.old first.now output.old up.old)
        (place input.new first.now output.new up.new) first.now text.now behind.now result }
    ensures told { U.told up.new ≡ U.told up.old }
    ensures reads { I.faults input.old ≤ I.faults input.new }
    ensures links { U.faults up.old ≤ U.faults up.new }
    ensures writes { O.faults output.old ≤ O.faults output.new }
{
    let Ok((mut reads, mut writes)) = up.halves() else {
        return one_of(refuse(output, Refusal::Link));
    };
    match write_all(output, text) {
        Ok(()) => {}
        Err(_) => return Err(SessionFault::WriteFault(0)),
    }
    let (upward, downward) = relay(
        rt,
        first,
        input,
        output,
        behind,
        &mut reads,
        &mut writes,
        BUDGET,
    );
    Ok(Carried::Tunnel {
        up: upward,
        down: downward,
        reads,
        writes,
    })
}
