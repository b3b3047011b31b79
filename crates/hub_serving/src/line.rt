//! The line that tells how many connections were served.
ghost use Rattle.std.specs.Prelude.{◌≡◌, ◌≤◌, false, not, is_ok, Err, IfOk, IfErr};
ghost use Rattle.std.specs.String.{string_bytes};
ghost use Rattle.hub_serving.specs.Ends as spec;

use crate::end::{End, Ended, Line, NotServed};
use http_wire::writes::write_all;
use hub_devices::sink::Sink;
use hub_main::cause::Cause;
use hub_serve::ServeFault;
use std::alloc::{AllocError, Global};

fn line_of(alloc: Global, count: u64) -> Result<String, AllocError>
    ensures { IfOk result (λ line. string_bytes line ≡ spec.served_line count) }
{
    format!(in alloc; "served {count}\n")
}

/// Writes `served N`.
fn write_line<O: Sink>(alloc: Global, output: &mut O, count: u64) -> Line
    ensures written { spec.IsWritten (spec.served_line count) (spec.stream_told O.held O.faults output.old)
        (spec.stream_told O.held O.faults output.new) result }
    ensures counted { O.faults output.old ≤ O.faults output.new }
{
    match line_of(alloc, count) {
        Ok(line) => match write_all(output, line.as_bytes()) {
            Ok(()) => Line::Written,
            Err(_) => Line::Failed,
        },
        Err(_) => Line::NoMemory,
    }
}

/// How it ended after so many connections. The line is written unless memory was wanting before the first.
pub(crate) fn end_of<O: Sink>(
    alloc: Global,
    output: &mut O,
    count: u64,
    served: Result<(), ServeFault>,
) -> End
    ensures ok { IfOk result (λ e. (e.count ≡ count) × (e.failed ≡ not (is_ok served))
        × spec.IsWritten (spec.served_line count) (spec.stream_told O.held O.faults output.old)
        (spec.stream_told O.held O.faults output.new) e.line) }
    ensures err { IfErr result (λ why. (why ≡ NotServed.Because Cause.Memory) × (served ≡ Err ServeFault.Memory)
        × (output.new ≡ output.old)) }
    ensures counted { O.faults output.old ≤ O.faults output.new }
    ensures begun { served ≡ Err ServeFault.Memory → is_ok result ≡ false }
{
    let failed = match served {
        Ok(()) => false,
        Err(ServeFault::Listener(_)) => true,
        Err(ServeFault::Memory) => return Err(NotServed::Because(Cause::Memory)),
    };
    let line = write_line(alloc, output, count);
    Ok(Ended {
        count,
        failed,
        line,
    })
}
