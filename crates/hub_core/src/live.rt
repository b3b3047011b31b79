//! The live servers of a phase.
ghost use Rattle.std.specs.Prelude.{◌≡◌, ◌++◌, IfOk, OnOk, option_to_list};
ghost use Rattle.hub_core.specs.Live.{adopting_in, adopting_servers, as_live, ready_in, ready_servers};

use hub_kit::names::ServerKey;
use hub_kit::target::Target;
use hub_lives::{Leased, Lives};
use server_life::Phase;
use std::alloc::{AllocError, Global};

/// A live server with its generation and the target that it holds.
pub struct LiveServer {
    pub server: ServerKey,
    pub generation: u64,
    pub target: Target,
}

impl Drop for LiveServer {
    fn drop(self) {
        let LiveServer {
            server: _,
            generation: _,
            target: _,
        } = self;
    }
}

/// The generation of a server that is ready.
fn ready_in(phase: Phase) -> Option<u64>
    ensures { result ≡ ready_in phase }
{
    match phase {
        Phase::Ready(generation) => Some(generation),
        _ => None,
    }
}

/// The generation of a server that is being adopted.
fn adopting_in(phase: Phase) -> Option<u64>
    ensures { result ≡ adopting_in phase }
{
    match phase {
        Phase::Adopting(generation) => Some(generation),
        _ => None,
    }
}

/// Appends the server of a lease with its generation, if there is one.
fn push_live(
    alloc: Global,
    servers: &mut Vec<LiveServer>,
    lease: &Leased,
    generation: Option<u64>,
) -> Result<(), AllocError>
    ensures { OnOk result (servers.new.items ≡ servers.old.items ++ option_to_list (as_live lease.now generation)) }
{
    let Some(generation) = generation else {
        return Ok(());
    };
    let target = lease.target.copy(alloc)?;
    servers.push(LiveServer {
        server: lease.server,
        generation,
        target,
    })?;
    Ok(())
}

/// The servers that are ready.
pub(crate) fn ready_servers(alloc: Global, lives: &Lives) -> Result<Vec<LiveServer>, AllocError>
    ensures { IfOk result (λ servers. servers.items ≡ ready_servers lives.now.lives) }
{
    let mut servers = Vec::new(alloc);
    for lease in lives.leases() {
        push_live(alloc, &mut servers, lease, ready_in(lease.life.phase))?;
    }
    Ok(servers)
}

/// The servers that are being adopted.
pub(crate) fn adopting_servers(alloc: Global, lives: &Lives) -> Result<Vec<LiveServer>, AllocError>
    ensures { IfOk result (λ servers. servers.items ≡ adopting_servers lives.now.lives) }
{
    let mut servers = Vec::new(alloc);
    for lease in lives.leases() {
        push_live(alloc, &mut servers, lease, adopting_in(lease.life.phase))?;
    }
    Ok(servers)
}
