//! Answers, before they are carried out.
ghost use Rattle.std.specs.Prelude.{◌≡◌, List, length, IfOk};
ghost use Rattle.hub_view.specs.Body.{body_tokens, bodies};
ghost use Rattle.hub_view.specs.Json.{Json};
ghost use Rattle.hub_view.specs.Pages.{in_page, paged_list};
ghost use Rattle.hub_machine.specs.Answers.{answer_view, good_view, reply_view};
ghost use Rattle.hub_machine.specs.Replies as spec;

use crate::planned::Planned;
use crate::refusal::Refusal;
use crate::reply::Reply;
use crate::work::Work;
use hub_kit::text::Text;
use hub_rows::changes::RowChange;
use hub_view::{Body, Page, page_body};
use std::alloc::{AllocError, Global};

/// The Ok of a call.
#[derive(Drop)]
pub struct Good {
    pub status: u16,
    pub body: Body,
    pub location: Option<Text>,
    pub no_store: bool,
}

/// What the rules say of an asked call. The good of a change shows the state after it.
#[derive(Drop)]
pub enum Answer {
    Refuses(Refusal),
    /// The one refusal with a change: a used code is refused, and the token that it was traded for goes.
    RefusesWith { change: Planned, refusal: Refusal },
    Gives(Good),
    Changes { change: Planned, good: Good },
    /// A start or a stop: the call that is then owed.
    Works { change: Planned, work: Work },
}

/// The Ok with this status and body, and nothing else.
pub fn plain(status: u16, body: Body) -> Good
    ensures { good_view result ≡ spec.good status (body_tokens body) }
{
    Good {
        status,
        body,
        location: None,
        no_store: false,
    }
}

/// The answer of a call that changes nothing.
pub fn gives(status: u16, body: Body) -> Answer
    ensures { answer_view result ≡ spec.gives (spec.good status (body_tokens body)) }
{
    Answer::Gives(plain(status, body))
}

/// The answer with a page of a list that has so many objects, of which these stand in the page.
pub fn listed(
    alloc: Global,
    page: Page,
    total: usize,
    part: Vec<Body>,
    path: &str,
) -> Result<Answer, AllocError>
    ensures { IfOk result (λ answer. (shown : List Json) → bodies part.items ≡ in_page page shown → total ≡ length shown
        → answer_view answer ≡ spec.gives (spec.good 200 (paged_list path.now page shown))) }
{
    Ok(gives(200, page_body(alloc, path, page, total as u64, part)?))
}

/// The answer with a change of these rows, if there are any.
pub fn rows_then(rows: Vec<RowChange>, good: Good) -> Answer
    ensures { answer_view result ≡ spec.rows_then rows.items (good_view good) }
{
    if rows.is_empty() {
        return Answer::Gives(good);
    }
    Answer::Changes {
        change: Planned::of_rows(rows),
        good,
    }
}

/// The reply of a refusal, at a length of the history.
pub fn refusal_reply(alloc: Global, revision: u64, refusal: &Refusal) -> Result<Reply, AllocError>
    ensures { IfOk result (λ reply. reply_view reply ≡ spec.refusal_reply revision refusal.now) }
{
    Ok(Reply {
        status: refusal.status(),
        body: refusal.body(alloc)?,
        location: None,
        no_store: false,
        revision: Some(revision),
    })
}

/// The reply of an Ok, at a length of the history.
pub fn good_reply(revision: u64, good: Good) -> Reply
    ensures { reply_view result ≡ spec.good_reply revision (good_view good) }
{
    Reply {
        status: good.status,
        body: good.body,
        location: good.location,
        no_store: good.no_store,
        revision: Some(revision),
    }
}
