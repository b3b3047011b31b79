//! A page of a list of users, and the asking for one.
ghost use Rattle.std.specs.Prelude.{◌≡◌, ◌≤◌, ◌+◌, [], ◌∷◌, length, true, Ok, Some, IfOk, IfErr, IfSome};
ghost use Rattle.std.specs.Prelude as prelude;
ghost use Rattle.serde_json.specs.View.{view};
ghost use Rattle.hub_devices.specs.Faults.{Rises};
ghost use Rattle.hub_link.specs.Links.{Exchange, Asks};
ghost use Rattle.idle_culler.specs.Pages.{AnswersPage, IsPageFault, IsPageOf, IsReplyFault, FitsAt};
ghost use Rattle.idle_culler.specs.Pages as spec;

use crate::readings::read_users;
use crate::requests::page_request;
use crate::views::UserView;
use hub_devices::link_error::LinkError;
use hub_kit::list::List;
use hub_kit::text::Text;
use hub_link::link::HubLink;
use hub_link::replies::read_reply;
use request_parts::body::body_object;
use serde_json::Value;
use std::alloc::{AllocError, Global};

/// How many users a page is asked for.
pub const PAGE: u64 = 50;

/// The greatest offset of a page.
pub const LAST_OFFSET: u64 = 100_000;

/// The users of a page, and whether another page follows.
pub struct Page {
    pub users: List<UserView>,
    pub more: bool,
}

impl Drop for Page {
    fn drop(self) {
        let Page { users: _, more: _ } = self;
    }
}

/// Why a round broke off.
#[derive(Clone, Copy, Debug, PartialEq, Eq)]
pub enum CullFault {
    /// The link failed.
    LinkFault,
    /// The reply to the request for a page isn't one: its status, or 0 where the bytes are no reply.
    BadReply(u16),
    Memory,
}

/// Whether another page follows the one at an offset, by what stands at `next`.
fn more_in(value: &Value, offset: u64) -> Option<bool>
    requires { offset ≤ 100000 }
    ensures more { result ≡ spec.more_in offset (view value.now) }
    ensures within { result ≡ Some true → offset + 50 ≤ 100000 }
{
    if value.is_null() {
        return Some(false);
    }
    let next = value.get("offset")?.as_u64()?;
    if next == offset + PAGE && next <= LAST_OFFSET {
        Some(true)
    } else {
        None
    }
}

fn more_at(body: &Value, offset: u64) -> Option<bool>
    requires { offset ≤ 100000 }
    ensures more { result ≡ spec.more_at offset (view body.now) }
    ensures within { result ≡ Some true → offset + 50 ≤ 100000 }
{
    more_in(body.get("_pagination")?.get("next")?, offset)
}

fn users_at(alloc: Global, body: &Value) -> Result<Option<List<UserView>>, AllocError>
    ensures { IfOk result (λ users. users ≡ spec.users_at (view body.now)) }
{
    match body.get("items") {
        Some(value) => match value.as_array() {
            Some(items) => read_users(alloc, items.as_slice()),
            None => Ok(None),
        },
        None => Ok(None),
    }
}

/// A page of at most 50 users.
fn page_with(users: Option<List<UserView>>, more: Option<bool>) -> Option<Page>
    ensures page { result ≡ spec.page_with users more }
    ensures few { IfSome result (λ page. length page.users ≤ 50) }
    ensures more { IfSome result (λ page. more ≡ Some page.more) }
{
    let users = users?;
    let Some(more) = more else {
        drop(users);
        return None;
    };
    if users.len() as u64 > PAGE {
        drop(users);
        return None;
    }
    Some(Page { users, more })
}

fn page_in(alloc: Global, body: &Value, offset: u64) -> Result<Option<Page>, AllocError>
    requires { offset ≤ 100000 }
    ensures page { IfOk result (λ page. page ≡ spec.page_in offset (view body.now)) }
    ensures fits { IfOk result (λ page. IfSome page (FitsAt offset)) }
{
    let users = users_at(alloc, body)?;
    Ok(page_with(users, more_at(body, offset)))
}

/// The page that bytes are.
fn read_page(alloc: Global, bytes: &[u8], offset: u64) -> Result<Option<Page>, AllocError>
    requires { offset ≤ 100000 }
    ensures page { IfOk result (λ page. page ≡ spec.page_of offset bytes.now) }
    ensures fits { IfOk result (λ page. IfSome page (FitsAt offset)) }
{
    match body_object(alloc, bytes)? {
        Some(body) => {
            let page = page_in(alloc, &body, offset);
            drop(body);
            page
        }
        None => Ok(None),
    }
}

/// The page that a reply has, or the status of one that has none.
fn page_said(
    alloc: Global,
    status: u16,
    body: &[u8],
    offset: u64,
) -> Result<Result<Page, u16>, AllocError>
    requires { offset ≤ 100000 }
    ensures said { IfOk result (λ found. found ≡ spec.page_said offset (Some (status, body.now))) }
    ensures fits { IfOk result (λ found. IfOk found (FitsAt offset)) }
{
    if status != 200 {
        return Ok(Err(status));
    }
    match read_page(alloc, body, offset)? {
        Some(page) => Ok(Ok(page)),
        None => Ok(Err(200)),
    }
}

/// The page that the reply to a request for it has.
fn page_in_reply(alloc: Global, bytes: &[u8], offset: u64) -> Result<Page, CullFault>
    requires { offset ≤ 100000 }
    ensures ok { IfOk result (IsPageOf offset bytes.now) }
    ensures err { IfErr result (IsReplyFault offset bytes.now) }
    ensures fits { IfOk result (FitsAt offset) }
{
    let Some((status, body)) = read_reply(bytes) else {
        return Err(CullFault::BadReply(0));
    };
    match page_said(alloc, status, body, offset) {
        Ok(Ok(page)) => Ok(page),
        Ok(Err(status)) => Err(CullFault::BadReply(status)),
        Err(_) => Err(CullFault::Memory),
    }
}

/// Asks for the page at an offset.
pub fn ask_page<H: HubLink>(
    alloc: Global,
    link: &mut H,
    token: &Text,
    offset: u64,
) -> Result<Page, CullFault>
    requires { offset ≤ 100000 }
    ensures ok { IfOk result (λ page. (ask : Exchange) × Asks H.asked H.does link.old (ask ∷ []) link.new
        × AnswersPage token.now offset ask (Ok page)) }
    ensures fits { IfOk result (FitsAt offset) }
    ensures err { IfErr result (λ e. (asks : prelude.List Exchange) × Asks H.asked H.does link.old asks link.new
        × IsPageFault token.now offset asks e) }
    ensures counted { H.faults link.old ≤ H.faults link.new }
    ensures cause { result ≡ prelude.Err CullFault.LinkFault → Rises (H.faults link.old) (H.faults link.new) }
{
    let Ok(request) = page_request(alloc, token, offset) else {
        return Err(CullFault::Memory);
    };
    match link.ask(&request) {
        Ok(bytes) => page_in_reply(alloc, bytes.as_slice(), offset),
        Err(LinkError::Failed) => Err(CullFault::LinkFault),
        Err(LinkError::Memory) => Err(CullFault::Memory),
    }
}
