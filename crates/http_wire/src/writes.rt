//! Writing all of some bytes.
ghost use Rattle.std.specs.Prelude.{◌≡◌, ◌<◌, ◌≤◌, ◌++◌, ℕ, List, length, false, OnOk, OnErr};
ghost use Rattle.hub_devices.specs.Streams.{Appends};
ghost use Rattle.hub_devices.specs.Faults.{Rises};

use crate::error::WriteError;
use hub_devices::sink::Sink;

/// Writes all the bytes. After an error the sink holds what it held and a prefix of them. Takes no memory.
pub fn write_all<O: Sink>(output: &mut O, bytes: &[u8]) -> Result<(), WriteError>
    ensures ok { OnOk result (Appends (O.held output.old) bytes.now (O.held output.new)) }
    ensures err { OnErr result ((part : List ℕ) × (more : List ℕ) × (bytes.now ≡ part ++ more)
        × Appends (O.held output.old) part (O.held output.new)) }
    ensures open { OnOk result (0 < length bytes.now → O.closed output.old ≡ false) }
    ensures stays { O.closed output.new ≡ O.closed output.old }
    ensures counted { O.faults output.old ≤ O.faults output.new }
    ensures cause { OnErr result (Rises (O.faults output.old) (O.faults output.new)) }
{
    let mut at = 0;
    'writes: while at < bytes.len() {
        match output.write(&bytes[at..]) {
            Ok(count) => at += count,
            Err(_) => return Err(WriteError::WriteFault),
        }
    }
    Ok(())
}
