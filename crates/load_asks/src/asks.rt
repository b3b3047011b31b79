//! One ask, and the status of its reply.
ghost use Rattle.std.specs.Prelude.{◌≡◌, List, ℕ, [], ◌∷◌, Ok, IfSome};
ghost use Rattle.hub_link.specs.Links.{Asks};
ghost use Rattle.hub_link.specs.Replies.{IsReply};
ghost use Rattle.load_asks.specs.Posts.{Reached};

use hub_kit::bytes::Bytes;
use hub_link::link::HubLink;
use hub_link::replies::read_reply;

/// Asks a hub, and gives the status of what came, if it is a reply.
pub fn ask_status<H: HubLink>(link: &mut H, request: &Bytes) -> Option<u16>
    ensures reached { Reached H.asked H.does link.old link.new }
    ensures status { IfSome result (λ status. (bytes body : List ℕ)
        × Asks H.asked H.does link.old ((request.now, Ok bytes) ∷ []) link.new × IsReply bytes status body) }
{
    match link.ask(request) {
        Ok(reply) => status_in(&reply),
        Err(_) => None,
    }
}

/// The status of a reply, if the bytes are one.
fn status_in(reply: &Bytes) -> Option<u16>
    ensures { IfSome result (λ status. (body : List ℕ) × IsReply reply.now status body) }
{
    let (status, _) = read_reply(reply.as_slice())?;
    Some(status)
}
