//! The works of the servers that are adopted.
ghost use Rattle.std.specs.Prelude.{◌≡◌, IfOk, map};
ghost use Rattle.hub_adopt.specs.Adopting.{work_of};

use hub_core::live::LiveServer;
use server_work::route::route_path;
use server_work::work::Work;
use std::alloc::{AllocError, Global};

/// The work of one server. It needs no secret, since nothing is started.
fn work_for(alloc: Global, live: &LiveServer) -> Result<Work, AllocError>
    ensures { IfOk result (λ work. work ≡ work_of live.now) }
{
    let path = route_path(alloc, &live.server)?;
    let target = live.target.copy(alloc)?;
    Ok(Work {
        generation: live.generation,
        server: live.server,
        path,
        target,
        secret: None,
    })
}

/// The works of these servers, in their order.
pub(crate) fn works_for(alloc: Global, servers: &[LiveServer]) -> Result<Vec<Work>, AllocError>
    ensures { IfOk result (λ works. works.items ≡ map work_of servers.now) }
{
    let mut works = Vec::new(alloc);
    for live in servers {
        works.push(work_for(alloc, live)?)?;
    }
    Ok(works)
}
