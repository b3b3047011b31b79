//! Both directions at once.
ghost use Rattle.std.specs.Prelude.{◌≡◌, ◌≤◌, true};
ghost use Rattle.tunnel.specs.Pumped.{Pumped, PumpedOver, Caused};

use crate::ends::Pump;
use crate::pumps::pump;
use crate::shuts::Shuts;
use hub_devices::source::Source;
use std::thread::{Threads, join_mut};

/// Carries the client's bytes up and the upstream's bytes down, both at once: the numbers of `up` and of `down`.
pub fn relay<R: Threads, A: Source + Send, B: Shuts, C: Source, D: Shuts + Send>(
    rt: &R,
    client_first: &[u8],
    client_in: &mut A,
    client_out: &mut B,
    up_first: &[u8],
    up_in: &mut C,
    up_out: &mut D,
    most: u64,
) -> (Pump, Pump)
    ensures up { Pumped (A.left client_in.old) (D.held up_out.old) (A.left client_in.new) (D.held up_out.new)
        client_first.now most result.0 }
    ensures up_over { PumpedOver (A.left client_in.old) (D.held up_out.old) (D.held up_out.new) client_first.now most result.0 }
    ensures up_reads { A.faults client_in.old ≤ A.faults client_in.new }
    ensures up_writes { D.faults up_out.old ≤ D.faults up_out.new }
    ensures up_shut { D.closed up_out.new ≡ true }
    ensures up_cause { Caused result.0.end (A.faults client_in.old) (A.faults client_in.new) (D.faults up_out.old) (D.faults up_out.new) }
    ensures down { Pumped (C.left up_in.old) (B.held client_out.old) (C.left up_in.new) (B.held client_out.new) up_first.now most result.1 }
    ensures down_over { PumpedOver (C.left up_in.old) (B.held client_out.old) (B.held client_out.new) up_first.now most result.1 }
    ensures down_reads { C.faults up_in.old ≤ C.faults up_in.new }
    ensures down_writes { B.faults client_out.old ≤ B.faults client_out.new }
    ensures down_shut { B.closed client_out.new ≡ true }
    ensures down_cause { Caused result.1.end (C.faults up_in.old) (C.faults up_in.new) (B.faults client_out.old) (B.faults client_out.new) }
{
    join_mut(
        rt,
        &mut || pump(client_first, client_in, up_out, most),
        &mut || pump(up_first, up_in, client_out, most),
    )
}
