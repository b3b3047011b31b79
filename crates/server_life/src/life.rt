//! One step of the life of a server.
ghost use Rattle.std.specs.Prelude.{◌≡◌};
ghost use Rattle.server_life.specs.LifeTable.{life_after, row, begin_refusal, stop_refusal, generation_of, is_generation};
ghost use Rattle.server_life.specs.Owed.{owed};

use LifeEvent::{
    Alive, AskStop, Begin, Dead, EndUnkept, Ended, PollFailed, RouteFailed, Routed, SpawnFailed,
    Spawned, StopFailed, UnrouteFailed, Unrouted,
};
use Phase::{Adopting, Parked, Ready, Routing, Spawning, Stopped, Stopping, Unrouting};
use Todo::{AddRoute, DeleteRoute, Nothing, Start, StopProgram};

/// What has to be done before a parked server is gone: the deletion of its route first, or the stop of its program.
#[derive(Clone, Copy, PartialEq, Eq)]
pub enum ParkedAt {
    Unroute,
    Stop,
}

/// Where a server stands. Each phase but `Stopped` has the generation of the start that it came from.
#[derive(Clone, Copy, PartialEq, Eq)]
pub enum Phase {
    Stopped,
    /// An earlier hub started it; a poll tells whether it still runs.
    Adopting(u64),
    /// Its program is being started.
    Spawning(u64),
    /// Its program runs, and its route is being added.
    Routing(u64),
    /// Its program runs and its route is in the proxy's table.
    Ready(u64),
    /// Its route is being deleted.
    Unrouting(u64),
    /// Its program is being stopped.
    Stopping(u64),
    /// A call of its end failed; a further stop tries again.
    Parked(u64, ParkedAt),
}

/// A phase, and whether a stop has been asked since the start.
#[derive(Clone, Copy)]
pub struct Life {
    pub phase: Phase,
    pub stop_asked: bool,
}

/// A wish (`Begin`, `AskStop`), or what came of the call that was owed.
#[derive(Clone, Copy)]
pub enum LifeEvent {
    Begin,
    AskStop,
    Spawned,
    SpawnFailed,
    Routed,
    RouteFailed,
    Unrouted,
    UnrouteFailed,
    Ended,
    StopFailed,
    /// The program ended, and the keeper refused the commit of this end.
    EndUnkept,
    Alive,
    Dead,
    PollFailed,
}

/// The call that is owed. `Poll` is what an adopted life owes from the beginning, so no step answers it.
#[derive(Clone, Copy, PartialEq, Eq)]
pub enum Todo {
    Nothing,
    Start,
    AddRoute,
    DeleteRoute,
    StopProgram,
    Poll,
}

/// Why a step isn't taken.
#[derive(Clone, Copy)]
pub enum LifeRefusal {
    /// It is `Ready`.
    Running,
    /// It is starting and no stop is asked.
    PendingSpawn,
    /// It is ending, or a stop is asked.
    PendingStop,
    /// The outcome is of this generation, and the phase has another one or none.
    OldGeneration(u64),
    /// The life table has no such line.
    NotNow,
}

/// What an event makes of a life, and the call that is then owed; or why the event is refused. Takes no memory.
///
/// `Begin` starts generation `g`. `AskStop` doesn't look at `g`. Everything else is what came of a call of generation `g`.
pub fn life_step(life: Life, g: u64, event: LifeEvent) -> Result<(Life, Todo), LifeRefusal>
    ensures { result ≡ life_after life g event }
{
    match event {
        Begin => row(life, g, event).ok_or(begin_refusal(life)),
        AskStop => row(life, g, event).ok_or(stop_refusal(life.phase)),
        _ => {
            if is_generation(g, life.phase) {
                row(life, g, event).ok_or(LifeRefusal::NotNow)
            } else {
                Err(LifeRefusal::OldGeneration(g))
            }
        }
    }
}

/// The line of the life table, if there is one.
fn row(life: Life, g: u64, event: LifeEvent) -> Option<(Life, Todo)>
    ensures { result ≡ row g life.phase event life.stop_asked }
{
    let asked = life.stop_asked;
    let (phase, stop_asked, todo) = match (life.phase, event) {
        (Stopped, Begin) => (Spawning(g), false, Start),
        (Adopting(_) | Spawning(_) | Routing(_), AskStop) if !asked => (life.phase, true, Nothing),
        (Ready(h) | Parked(h, _), AskStop) => (Unrouting(h), true, DeleteRoute),
        (Adopting(h), Alive) if !asked => (Routing(h), false, AddRoute),
        (Adopting(h), Alive) => (Unrouting(h), true, DeleteRoute),
        (Adopting(h), Dead) => (Unrouting(h), asked, DeleteRoute),
        (Adopting(h), PollFailed) => (Parked(h, ParkedAt::Unroute), asked, Nothing),
        (Spawning(h), Spawned) if !asked => (Routing(h), false, AddRoute),
        (Spawning(h), Spawned) => (Stopping(h), true, StopProgram),
        (Spawning(_), SpawnFailed) => (Stopped, false, Nothing),
        (Spawning(h), EndUnkept) => (Parked(h, ParkedAt::Stop), asked, Nothing),
        (Routing(h), Routed) if !asked => (Ready(h), false, Nothing),
        (Routing(h), Routed) => (Unrouting(h), true, DeleteRoute),
        (Routing(h), RouteFailed) => (Unrouting(h), asked, DeleteRoute),
        (Unrouting(h), Unrouted) => (Stopping(h), asked, StopProgram),
        (Unrouting(h), UnrouteFailed) => (Parked(h, ParkedAt::Unroute), asked, Nothing),
        (Stopping(_), Ended) => (Stopped, false, Nothing),
        (Stopping(h), StopFailed | EndUnkept) => (Parked(h, ParkedAt::Stop), asked, Nothing),
        _ => return None,
    };
    Some((Life { phase, stop_asked }, todo))
}

/// Why a server isn't started where the table has no line for it.
fn begin_refusal(life: Life) -> LifeRefusal
    ensures { result ≡ begin_refusal life.phase life.stop_asked }
{
    match life.phase {
        Ready(_) => LifeRefusal::Running,
        Adopting(_) | Spawning(_) | Routing(_) if !life.stop_asked => LifeRefusal::PendingSpawn,
        _ => LifeRefusal::PendingStop,
    }
}

/// Why a server isn't stopped where the table has no line for it.
fn stop_refusal(phase: Phase) -> LifeRefusal
    ensures { result ≡ stop_refusal phase }
{
    match phase {
        Stopped => LifeRefusal::NotNow,
        _ => LifeRefusal::PendingStop,
    }
}

/// Whether a phase has this generation.
fn is_generation(g: u64, phase: Phase) -> bool
    ensures { result ≡ is_generation g (generation_of phase) }
{
    match phase {
        Stopped => false,
        Adopting(h)
        | Spawning(h)
        | Routing(h)
        | Ready(h)
        | Unrouting(h)
        | Stopping(h)
        | Parked(h, _) => h == g,
    }
}

/// The most outcomes that may still come in a phase, and so the entries of the history that are kept free for it.
pub fn entries_owed(phase: Phase) -> u64
    ensures { result ≡ owed phase }
{
    match phase {
        Adopting(_) | Spawning(_) => 4,
        Routing(_) => 3,
        Unrouting(_) => 2,
        Stopping(_) => 1,
        Stopped | Ready(_) | Parked(_, _) => 0,
    }
}
