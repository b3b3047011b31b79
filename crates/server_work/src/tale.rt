//! What is told of a chain of calls.
ghost use Rattle.std.specs.Prelude.{◌≡◌};
ghost use Rattle.server_work.specs.Tales.{new_tale, tale_with, first_of, is_ready, is_stopped};
ghost use Rattle.server_work.specs.Outcomes.{device_of};

use crate::book::Lived;
use crate::work::{Device, Kept};
use server_life::{LifeEvent, Todo};

/// A chain so far: whose call failed first, whether the last outcome made the server ready or ended it, whether that end was kept, and
/// the length of the history with the entry of that outcome.
#[derive(Clone, Copy)]
pub struct Tale {
    pub failed: Option<Device>,
    pub ready: bool,
    pub stopped: bool,
    pub kept: Kept,
    pub length: u64,
}

impl Tale {
    /// Of a chain without an outcome.
    pub fn new() -> Tale
        ensures { result ≡ new_tale }
    {
        Tale {
            failed: None,
            ready: false,
            stopped: false,
            kept: Kept::NotAsked,
            length: 0,
        }
    }

    /// After one outcome more.
    pub fn with(self, outcome: LifeEvent, lived: Lived) -> Tale
        ensures { result ≡ tale_with self outcome lived.todo lived.kept lived.length }
    {
        Tale {
            failed: first_of(self.failed, device_of(outcome)),
            ready: is_ready(outcome, lived.todo),
            stopped: is_stopped(outcome, lived.kept),
            kept: lived.kept,
            length: lived.length,
        }
    }
}

fn first_of(one: Option<Device>, other: Option<Device>) -> Option<Device>
    ensures { result ≡ first_of one other }
{
    match one {
        Some(device) => Some(device),
        None => other,
    }
}

/// Whose call failed.
fn device_of(outcome: LifeEvent) -> Option<Device>
    ensures { result ≡ device_of outcome }
{
    match outcome {
        LifeEvent::SpawnFailed | LifeEvent::StopFailed | LifeEvent::PollFailed => {
            Some(Device::Spawner)
        }
        LifeEvent::RouteFailed | LifeEvent::UnrouteFailed => Some(Device::Proxy),
        _ => None,
    }
}

fn is_ready(outcome: LifeEvent, owes: Todo) -> bool
    ensures { result ≡ is_ready outcome owes }
{
    matches!((outcome, owes), (LifeEvent::Routed, Todo::Nothing))
}

fn is_stopped(outcome: LifeEvent, kept: Kept) -> bool
    ensures { result ≡ is_stopped outcome kept }
{
    matches!(
        (outcome, kept),
        (LifeEvent::Ended | LifeEvent::SpawnFailed, Kept::Kept)
    )
}
