//! The posts of a job.
ghost use Rattle.std.specs.Prelude.{◌≡◌, ◌≤◌, [], ◌∷◌, OnOk};
ghost use Rattle.load_asks.specs.Posts.{Accepted, Reached, posts};
ghost use Rattle.load_asks.specs.Requests as requests;

use crate::asks::ask_status;
use crate::requests::{token_request, user_request};
use hub_kit::bytes::Bytes;
use hub_link::link::HubLink;
use std::alloc::Global;

/// The hub didn't answer as it does to the requests of a job, or there was no memory to ask it.
#[derive(Clone, Copy, Debug, PartialEq, Eq)]
pub struct Unanswered;

/// Posts what the request has.
fn post<H: HubLink>(link: &mut H, request: &Bytes) -> Result<(), Unanswered>
    ensures reached { Reached H.asked H.does link.old link.new }
    ensures accepted { OnOk result (Accepted H.asked H.does link.old (request.now ∷ []) link.new) }
{
    match ask_status(link, request) {
        Some(201) => Ok(()),
        _ => Err(Unanswered),
    }
}

/// Posts a user and its token.
#[tactic(auto, using(crate::proofs::PostLemmas::reached_none))]
fn post_user<H: HubLink>(alloc: Global, link: &mut H, k: u32) -> Result<(), Unanswered>
    ensures reached { Reached H.asked H.does link.old link.new }
    ensures accepted { OnOk result (Accepted H.asked H.does link.old (requests.user_request k ∷ requests.token_request k ∷ []) link.new) }
{
    let Ok(request) = user_request(alloc, k) else {
        return Err(Unanswered);
    };
    post(link, &request)?;
    let Ok(request) = token_request(alloc, k) else {
        return Err(Unanswered);
    };
    post(link, &request)
}

/// Posts as many users, each with a token.
#[tactic(auto, using(crate::proofs::PostLemmas::reached_none))]
pub fn post_all<H: HubLink>(alloc: Global, link: &mut H, users: u32) -> Result<(), Unanswered>
    ensures reached { Reached H.asked H.does link.old link.new }
    ensures accepted { OnOk result (Accepted H.asked H.does link.old (posts users) link.new) }
{
    for k in 0..users {
        post_user(alloc, link, k)?;
    }
    Ok(())
}
