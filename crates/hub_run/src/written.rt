//! What is written in a turn.
ghost use Rattle.std.specs.Prelude.{◌≡◌, true, IfOk};
ghost use Rattle.hub_api.specs.Refusals.{api_refusal, no_draw};
ghost use Rattle.hub_machine.specs.Answers.{reply_view};
ghost use Rattle.hub_run.specs.Steps.{Says, SaysTale, Refuses};
ghost use Rattle.hub_run.specs.Works as spec;
ghost use Rattle.hub_run.specs.Written.{written_bytes};

use http_wire::error::WireError;
use hub_api::{ApiRefusal, no_draw_reply, refusal_reply as api_refusal_reply, wire_refusal_reply};
use hub_kit::bytes::Bytes;
use hub_machine::answer::{good_reply, plain, refusal_reply};
use hub_machine::refusal::Refusal;
use hub_machine::reply::Reply;
use hub_view::Body;
use reply_texts::{no_memory, reply_text};
use server_life::Todo;
use server_work::tale::Tale;
use server_work::work::{Device, Kept};
use std::alloc::{AllocError, Global};

/// A reply's text, or what is sent where there is no memory for one.
#[derive(Drop)]
pub(crate) enum Written {
    Text(Bytes),
    NoMemory,
}

impl Written {
    pub(crate) fn as_slice(&self) -> &[u8]
        ensures { result.now ≡ written_bytes self.now }
    {
        match self {
            Written::Text(text) => text.as_slice(),
            Written::NoMemory => no_memory(),
        }
    }
}

/// The text of a reply, or the text for want of memory, after which the connection is closed.
pub(crate) fn text_of(alloc: Global, reply: &Reply, close: bool) -> (Written, bool)
    ensures says { Says (reply_view reply.now) close (written_bytes result.0) result.1 }
    ensures last { close ≡ true → result.1 ≡ true }
{
    match reply_text(alloc, reply, close) {
        Ok(text) => (Written::Text(text), close),
        Err(_) => (Written::NoMemory, true),
    }
}

/// The text where no draw came for a call that draws.
pub(crate) fn text_of_no_draw(alloc: Global, close: bool) -> (Written, bool)
    ensures says { Says no_draw close (written_bytes result.0) result.1 }
    ensures last { close ≡ true → result.1 ≡ true }
{
    match no_draw_reply(alloc) {
        Ok(reply) => {
            let text = text_of(alloc, &reply, close);
            drop(reply);
            text
        }
        Err(_) => (Written::NoMemory, true),
    }
}

/// The reply where all that was owed was done: a stop has stopped its server, and a start that isn't ready was stopped.
fn over_reply(alloc: Global, revision: u64, owed: Todo) -> Result<Reply, AllocError>
    ensures { IfOk result (λ reply. reply_view reply ≡ spec.over_reply revision owed) }
{
    match owed {
        Todo::Start => refusal_reply(alloc, revision, &Refusal::StoppedWhileStarting),
        _ => Ok(good_reply(revision, plain(204, Body::Nothing))),
    }
}

/// The reply of a chain, by what is told of it. No memory for its end is none for its reply.
fn tale_reply(alloc: Global, owed: Todo, tale: Tale) -> Result<Reply, AllocError>
    ensures { IfOk result (λ reply. spec.tale_reply owed tale ≡ Some (reply_view reply)) }
{
    let revision = tale.length;
    if tale.ready {
        return Ok(good_reply(revision, plain(201, Body::Nothing)));
    }
    match (tale.failed, tale.kept) {
        (Some(Device::Spawner), _) => refusal_reply(alloc, revision, &Refusal::SpawnerFault),
        (Some(Device::Proxy), _) => refusal_reply(alloc, revision, &Refusal::ProxyFault),
        (None, Kept::KeeperFault) => refusal_reply(alloc, revision, &Refusal::KeeperFault),
        (None, Kept::Memory) => Err(AllocError),
        (None, Kept::NotAsked | Kept::Kept) => over_reply(alloc, revision, owed),
    }
}

/// The text of what is told of a chain, which tells nothing where it broke.
pub(crate) fn text_of_tale(
    alloc: Global,
    owed: Todo,
    told: Option<Tale>,
    close: bool,
) -> (Written, bool)
    ensures says { SaysTale owed told close (written_bytes result.0) result.1 }
    ensures last { close ≡ true → result.1 ≡ true }
{
    let Some(tale) = told else {
        return (Written::NoMemory, true);
    };
    match tale_reply(alloc, owed, tale) {
        Ok(reply) => {
            let text = text_of(alloc, &reply, close);
            drop(reply);
            text
        }
        Err(_) => (Written::NoMemory, true),
    }
}

/// The text of the refusal of a request that asks no call.
pub(crate) fn text_of_refusal(alloc: Global, refusal: ApiRefusal, close: bool) -> (Written, bool)
    ensures says { Says (api_refusal refusal) close (written_bytes result.0) result.1 }
    ensures last { close ≡ true → result.1 ≡ true }
{
    match api_refusal_reply(alloc, refusal) {
        Ok(reply) => {
            let text = text_of(alloc, &reply, close);
            // in one call, since it has many parts
            drop(reply);
            text
        }
        Err(_) => (Written::NoMemory, true),
    }
}

/// The reply to bytes that are no request. The connection is closed after it.
pub(crate) fn text_of_wire(alloc: Global, error: WireError) -> Written
    ensures { Refuses error (written_bytes result) }
{
    match wire_refusal_reply(alloc, error) {
        Ok(Some(reply)) => {
            let (text, _) = text_of(alloc, &reply, true);
            drop(reply);
            text
        }
        _ => Written::NoMemory,
    }
}
