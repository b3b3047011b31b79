//! Messages that arrive.
ghost use Rattle.std.specs.Prelude.{◌≡◌, ◌<◌, ◌≤◌, ◌+◌, length, slice_get, MatchOption, IfOk, OnOk, OnErr, [], Some, ℕ};
ghost use Rattle.late_routes.specs.Plans.{is_due};
ghost use Rattle.late_routes.specs.Arrivals.{Arrives, Arrived, IsFirst, NoneDue};
ghost use Rattle.late_routes.specs.declared.plan.Outstanding.{Outstanding};
ghost use Rattle.std.specs.List.{remove};
ghost use Rattle.world_law.specs.Answers.{Reply, is_done};

use crate::plan::{Outstanding, is_due};
use hub_devices::calls::Routing;
use hub_kit::moment::Moment;
use hub_kit::target::Target;
use hub_kit::text::Text;
use route_table::extra::Extra;
use route_table::route::{RouteEntry, RouteRefusal};
use route_table::routes::Routes;
use std::alloc::{AllocError, Global};

type Answer = Result<(), RouteRefusal>;

/// An addition with nothing else on it.
fn entry(alloc: Global, target: &Target, serial: Option<u64>) -> Result<RouteEntry, AllocError>
    ensures { IfOk result (λ entry. entry ≡ record { target = target.now; serial = serial; extra = [] }) }
{
    Ok(RouteEntry {
        target: target.copy(alloc)?,
        serial,
        extra: Extra::of(alloc, &Text::new(alloc))?,
    })
}

/// The message of a call arrives, and the table answers it.
pub(crate) fn arrive(
    alloc: Global,
    table: &mut Routes,
    call: &Routing,
    now: Moment,
) -> Result<Answer, AllocError>
    ensures ok { IfOk result (λ reply. Arrives table.old call.now now reply table.new) }
    ensures err { OnErr result (table.new ≡ table.old) }
{
    let answer = match call {
        Routing::Add(path, target, serial) => {
            let entry = entry(alloc, target, *serial)?;
            table.add(path.as_bytes(), entry, now)
        }
        Routing::Delete(path, serial) => table.delete(path.as_bytes(), Some(*serial)),
        Routing::List => Ok(()),
    };
    match answer {
        Err(RouteRefusal::Memory) => Err(AllocError),
        answer => Ok(answer),
    }
}

/// Whether the table did what a call asked: a deletion is done too where there is no such route, or a later serial was seen.
pub(crate) fn is_done(call: &Routing, answer: &Answer) -> bool
    ensures { result ≡ is_done call.now answer.now }
{
    match (call, answer) {
        (Routing::Add(_, _, _), Ok(())) => true,
        (Routing::Delete(_, _), Ok(())) => true,
        (Routing::Delete(_, _), Err(RouteRefusal::NotFound)) => true,
        (Routing::Delete(_, _), Err(RouteRefusal::Stale { .. })) => true,
        _ => false,
    }
}

/// The place of the first message that is due before the call with this number.
fn first_due(messages: &[Outstanding], number: u64) -> Option<usize>
    ensures { MatchOption result (NoneDue (is_due number) messages.now)
        (λ at. (m : Outstanding) × IsFirst (is_due number) messages.now at m) }
{
    'messages: for at in 0..messages.len() {
        if is_due(&messages[at], number) {
            return Some(at);
        }
    }
    None
}

/// The message at this place arrives, and is on its way no more. Where memory is wanting, all is as it was.
pub(crate) fn arrive_at(
    alloc: Global,
    table: &mut Routes,
    messages: &mut Vec<Outstanding>,
    at: usize,
    now: Moment,
) -> Result<(), AllocError>
    requires { at < length messages.old.items }
    ensures ok { OnOk result ((m : Outstanding) × (reply : Reply) × (slice_get messages.old.items at ≡ Some m)
        × Arrives table.old m.call now reply table.new × (messages.new.items ≡ remove messages.old.items at)) }
    ensures fewer { OnOk result (length messages.new.items + 1 ≡ length messages.old.items) }
    ensures table { OnErr result (table.new ≡ table.old) }
    ensures messages { OnErr result (messages.new.items ≡ messages.old.items) }
{
    let _answer = arrive(alloc, table, &messages[at].call, now)?;
    let message = messages.remove(at);
    drop(message);
    Ok(())
}

/// The messages that are due before the call with this number arrive in their order.
pub(crate) fn arrive_due(
    alloc: Global,
    table: &mut Routes,
    messages: &mut Vec<Outstanding>,
    number: u64,
) -> Result<(), AllocError>
    ensures arrived { Arrived (is_due number) 0 table.old messages.old.items table.new messages.new.items }
    ensures all { OnOk result (NoneDue (is_due number) messages.new.items) }
    ensures fewer { length messages.new.items ≤ length messages.old.items }
{
    'due: while let Some(at) = first_due(messages.as_slice(), number) {
        arrive_at(alloc, table, messages, at, Moment::zero())?;
    }
    Ok(())
}
