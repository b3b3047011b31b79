//! One direction.
ghost use Rattle.std.specs.Prelude.{◌≡◌, ℕ, ◌<◌, ◌≤◌, length, take, true, OnOk, OnErr, IfErr};
ghost use Rattle.hub_devices.specs.Faults.{Rises};
ghost use Rattle.hub_devices.specs.Streams.{Appends};
ghost use Rattle.tunnel.specs.Pumped.{Pumped, PumpedOver, Caused};

use crate::ends::{Pump, PumpEnd};
use crate::shuts::Shuts;
use hub_devices::sink::Sink;
use hub_devices::source::Source;

const ROOM: u64 = 8192;

/// Writes all the bytes. After a failure it says how many were written.
fn send<O: Sink>(output: &mut O, bytes: &[u8]) -> Result<(), usize>
    ensures ok { OnOk result (Appends (O.held output.old) bytes.now (O.held output.new)) }
    ensures part { IfErr result (λ n. (n < length bytes.now) × Appends (O.held output.old) (take n bytes.now) (O.held output.new)) }
    ensures counted { O.faults output.old ≤ O.faults output.new }
    ensures cause { OnErr result (Rises (O.faults output.old) (O.faults output.new)) }
{
    let mut at = 0;
    'writes: while at < bytes.len() {
        match output.write(&bytes[at..]) {
            Ok(count) => at += count,
            Err(_) => return Err(at),
        }
    }
    Ok(())
}

/// Passes the bytes on, and leaves the output open.
fn carry<I: Source, O: Sink>(first: &[u8], input: &mut I, output: &mut O, most: u64) -> Pump
    ensures passed { Pumped (I.left input.old) (O.held output.old) (I.left input.new) (O.held output.new) first.now most result }
    ensures reads { I.faults input.old ≤ I.faults input.new }
    ensures writes { O.faults output.old ≤ O.faults output.new }
    ensures cause { Caused result.end (I.faults input.old) (I.faults input.new) (O.faults output.old) (O.faults output.new) }
{
    let front = &first[..first.len().min(most as usize)];
    if let Err(count) = send(output, front) {
        return Pump {
            bytes: count as u64,
            end: PumpEnd::WriteFault,
        };
    }
    let mut buffer = [0u8; 8192];
    let mut passed = front.len() as u64;
    'turns: while passed < most {
        let room = (most - passed).min(ROOM) as usize;
        match input.read(&mut buffer[..room]) {
            Ok(count) => {
                if count == 0 {
                    return Pump {
                        bytes: passed,
                        end: PumpEnd::Ended,
                    };
                }
                match send(output, &buffer[..count]) {
                    Ok(()) => passed += count as u64,
                    Err(part) => {
                        return Pump {
                            bytes: passed + part as u64,
                            end: PumpEnd::WriteFault,
                        };
                    }
                }
            }
            Err(_) => {
                return Pump {
                    bytes: passed,
                    end: PumpEnd::ReadFault,
                };
            }
        }
    }
    Pump {
        bytes: passed,
        end: PumpEnd::Budget,
    }
}

/// Passes on the bytes given, then those of the source, at most as many as the budget says, and shuts the output.
pub fn pump<I: Source, O: Shuts>(first: &[u8], input: &mut I, output: &mut O, most: u64) -> Pump
    ensures passed { Pumped (I.left input.old) (O.held output.old) (I.left input.new) (O.held output.new) first.now most result }
    ensures over { PumpedOver (I.left input.old) (O.held output.old) (O.held output.new) first.now most result }
    ensures shut { O.closed output.new ≡ true }
    ensures reads { I.faults input.old ≤ I.faults input.new }
    ensures writes { O.faults output.old ≤ O.faults output.new }
    ensures cause { Caused result.end (I.faults input.old) (I.faults input.new) (O.faults output.old) (O.faults output.new) }
{
    let done = carry(first, input, output, most);
    output.shut();
    done
}
