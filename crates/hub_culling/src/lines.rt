//! The line of a round.
ghost use Rattle.std.specs.Prelude.{◌≡◌, ◌≢◌, ◌≤◌, Err, IfOk, IfErr, OnOk};
ghost use Rattle.hub_devices.specs.Faults.{Rises};
ghost use Rattle.hub_devices.specs.Streams.{Appends};
ghost use Rattle.hub_culling.specs.Turns as spec;

use crate::cause::Cause;
use http_wire::writes::write_all;
use hub_devices::sink::Sink;
use hub_kit::text::Text;
use idle_culler::rounds::Round;
use std::alloc::{AllocError, Global};

/// The line of a round.
fn line_of(alloc: Global, round: Round) -> Result<Text, AllocError>
    ensures { IfOk result (λ text. text ≡ spec.line round) }
{
    let users = round.users;
    let culled = round.culled;
    let refused = round.refused;
    let text = format!(in alloc; "users {users} culled {culled} refused {refused}\n")?;
    Ok(Text::from_string(text))
}

/// Writes the line of a round.
pub(crate) fn write_line<O: Sink>(alloc: Global, output: &mut O, round: Round) -> Result<(), Cause>
    ensures ok { OnOk result (Appends (O.held output.old) (spec.line round) (O.held output.new)) }
    ensures err { IfErr result (λ cause. spec.LineFails (O.held output.old) (spec.line round) cause (O.held output.new)) }
    ensures counted { O.faults output.old ≤ O.faults output.new }
    ensures cause { result ≡ Err Cause.Output → Rises (O.faults output.old) (O.faults output.new) }
    ensures link { result ≢ Err Cause.Link }
{
    let Ok(line) = line_of(alloc, round) else {
        return Err(Cause::Memory);
    };
    match write_all(output, line.as_bytes()) {
        Ok(()) => Ok(()),
        Err(_) => Err(Cause::Output),
    }
}
