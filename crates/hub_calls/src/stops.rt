//! The stop of a server, and its deletion.
ghost use Rattle.std.specs.Prelude.{◌≡◌, IfOk};
ghost use Rattle.hub_machine.specs.Answers.{answer_view};
ghost use Rattle.hub_calls.specs.Stops as spec;

use crate::ruled::carried;
use admin_rules::servers;
use hub_kit::names::ServerKey;
use hub_lives::lives::Leased;
use hub_machine::answer::{Answer, gives, plain};
use hub_machine::machine::Machine;
use hub_machine::planned::Planned;
use hub_machine::refusal::worded;
use hub_machine::work::Work;
use hub_view::Body;
use server_life::{LifeEvent, Todo, life_step};
use std::alloc::{AllocError, Global};

/// `DELETE /users/{user}/server` and `DELETE /users/{user}/servers/{server}`: the server stops, and a named one at rest goes if
/// `remove` says so.
pub fn delete_server(
    alloc: Global,
    hub: &Machine,
    server: &ServerKey,
    remove: bool,
) -> Result<Answer, AllocError>
    ensures { IfOk result (λ answer. answer_view answer ≡ spec.delete_server hub.now server.now remove) }
{
    if remove && server.server.as_bytes().is_empty() {
        return Ok(Answer::Refuses(worded(alloc, "default server", "")?));
    }
    match hub.lives().lease_of(server) {
        Some((generation, lease)) => on_stop(alloc, server, generation, lease),
        None => at_rest(alloc, hub, server, remove),
    }
}

/// The answer for a live server.
fn on_stop(
    alloc: Global,
    server: &ServerKey,
    generation: u64,
    lease: &Leased,
) -> Result<Answer, AllocError>
    ensures { IfOk result (λ answer. answer_view answer ≡ spec.on_lease_of server.now generation lease.now) }
{
    match life_step(lease.life, generation, LifeEvent::AskStop) {
        Ok((_, todo)) => goes_on(alloc, server, generation, lease, todo),
        Err(_) => Ok(gives(202, Body::Nothing)),
    }
}

/// The answer to a stop that the life of the server allows, after which this call is owed.
fn goes_on(
    alloc: Global,
    server: &ServerKey,
    generation: u64,
    lease: &Leased,
    todo: Todo,
) -> Result<Answer, AllocError>
    ensures { IfOk result (λ answer. answer_view answer ≡ spec.goes_on server.now generation lease.now todo) }
{
    let change = Planned::of_stop(generation);
    if todo == Todo::Nothing {
        return Ok(Answer::Changes {
            change,
            good: plain(202, Body::Nothing),
        });
    }
    let target = lease.target.copy(alloc)?;
    Ok(Answer::Works {
        change,
        work: Work {
            generation,
            server: *server,
            target,
            todo,
            secret: None,
        },
    })
}

/// The answer for a server at rest.
fn at_rest(
    alloc: Global,
    hub: &Machine,
    server: &ServerKey,
    remove: bool,
) -> Result<Answer, AllocError>
    ensures { IfOk result (λ answer. answer_view answer ≡ spec.at_rest hub.now server.now remove) }
{
    if remove {
        carried(alloc, servers::delete_server(alloc, hub.tables(), server))
    } else {
        Ok(gives(204, Body::Nothing))
    }
}
