//! The calls on shares.
ghost use Rattle.std.specs.Prelude.{◌≡◌, ◌++◌, map as over, IfOk, OnOk};
ghost use Rattle.std.specs.FinMap as map;
ghost use Rattle.std.specs.Option.{option_copied};
ghost use Rattle.hub_view.specs.Body.{body_tokens, bodies};
ghost use Rattle.hub_machine.specs.Answers.{answer_view};
ghost use Rattle.shares.specs.Allowed.{Tells};
ghost use Rattle.access_calls.specs.ShareCalls as spec;

use crate::answers::{refused, told};
use hub_kit::moment::Moment;
use hub_kit::names::{ServerKey, key_text};
use hub_kit::text::Text;
use hub_machine::answer::{Answer, listed, plain, rows_then};
use hub_machine::machine::Machine;
use hub_machine::refusal::Refusal;
use hub_rows::changes::RowChange;
use hub_rows::keys::{Recipient, ShareKey};
use hub_rows::records::Share;
use hub_rows::rows::{Row, RowKey};
use hub_tables::tables::Tables;
use hub_view::{Body, Page, names_in_page, share_body};
use scope_filters::scope::RawScope;
use shares::allowed::ShareError;
use shares::granting::{grant_share, revoke_share};
use shares::lists::{SharesOf, shares_of};
use std::alloc::{AllocError, Global};

/// A kept share.
fn share_at(alloc: Global, hub: &Machine, key: &ShareKey) -> Result<Body, AllocError>
    ensures { IfOk result (λ body. body_tokens body ≡ spec.share_at hub.now key.now) }
{
    match hub.tables().share(&key.server, &key.to) {
        Some(share) => share_body(alloc, share),
        None => Ok(Body::Nothing),
    }
}

/// The bodies of some shares.
fn shares_at(alloc: Global, hub: &Machine, keys: &[ShareKey]) -> Result<Vec<Body>, AllocError>
    ensures { IfOk result (λ made. bodies made.items ≡ over (spec.share_at hub.now) keys.now) }
{
    let mut bodies = Vec::new(alloc);
    for key in keys {
        bodies.push(share_at(alloc, hub, key)?)?;
    }
    Ok(bodies)
}

/// The path of a list, behind `/hub/api`.
fn shares_path(alloc: Global, whose: &SharesOf) -> Result<Text, AllocError>
    ensures { IfOk result (λ text. text ≡ spec.shares_path whose.now) }
{
    match whose {
        SharesOf::Recipient(user) => text_of(alloc, "/users/", user.as_str(), "/shared"),
        SharesOf::Owner(owner) => text_of(alloc, "/shares/", owner.as_str(), ""),
        SharesOf::Server(server) => {
            let key = key_text(alloc, server)?;
            text_of(alloc, "/shares/", key.as_str(), "")
        }
    }
}

/// Three texts as one.
pub(crate) fn text_of(
    alloc: Global,
    front: &str,
    middle: &str,
    back: &str,
) -> Result<Text, AllocError>
    ensures { IfOk result (λ text. text ≡ front.now ++ (middle.now ++ back.now)) }
{
    let mut text = Text::from_str(alloc, front)?;
    text.push_str(middle)?;
    text.push_str(back)?;
    Ok(text)
}

/// `GET /users/{user}/shared`, `GET /shares/{owner}` and `GET /shares/{owner}/{server}`
pub fn get_shares(
    alloc: Global,
    hub: &Machine,
    whose: &SharesOf,
    page: Page,
) -> Result<Answer, AllocError>
    ensures { IfOk result (λ answer. answer_view answer ≡ spec.get_shares hub.now whose.now page) }
{
    let path = shares_path(alloc, whose)?;
    let keys = shares_of(alloc, hub.tables(), whose)?;
    let part = names_in_page(alloc, keys.as_slice(), page)?;
    let bodies = shares_at(alloc, hub, part.as_slice())?;
    listed(alloc, page, keys.len(), bodies, path.as_str())
}

/// `POST /shares/{owner}/{server}`
pub fn post_share(
    alloc: Global,
    hub: &Machine,
    now: Moment,
    server: &ServerKey,
    to: &Option<Recipient>,
    scopes: &[RawScope],
) -> Result<Answer, AllocError>
    ensures { IfOk result (λ answer. answer_view answer ≡ spec.post_share hub.now now server.now to.now scopes.now) }
{
    match grant_share(alloc, hub.tables(), server, *to, scopes, now) {
        Ok(share) => put_share(alloc, hub, &share),
        Err(refusal) => refused(alloc, refusal),
    }
}

/// The answer with a share that is put.
pub(crate) fn put_share(alloc: Global, hub: &Machine, share: &Share) -> Result<Answer, AllocError>
    ensures { IfOk result (λ answer. answer_view answer ≡ spec.put_share hub.now share.now) }
{
    let tables = hub.tables();
    if is_without_room(tables, share) {
        return Ok(Answer::Refuses(Refusal::Full {
            kind: 8,
            limit: tables.limits().shares,
        }));
    }
    let kept = tables.share(&share.key.server, &share.key.to);
    told(share_put(alloc, share, kept), 200, share_body(alloc, share))
}

/// Whether the share is new, and there is no room for it.
fn is_without_room(tables: &Tables, share: &Share) -> bool
    ensures { result ≡ spec.is_without_room tables.now share.now }
{
    tables.share(&share.key.server, &share.key.to).is_none()
        && tables.limits().shares as usize <= count_of_shares(tables)
}

fn count_of_shares(tables: &Tables) -> usize
    ensures { result ≡ map.len tables.now.shares }
{
    tables.shares().len()
}

/// The put of a share, unless it is as before.
fn share_put(
    alloc: Global,
    share: &Share,
    kept: Option<&Share>,
) -> Result<Vec<RowChange>, AllocError>
    ensures { IfOk result (λ rows. rows.items ≡ spec.share_put share.now (option_copied kept.entry)) }
{
    let mut rows = Vec::new(alloc);
    if !is_as_before(share, kept) {
        rows.push(RowChange::Put(Row::Share(share.copy(alloc)?)))?;
    }
    Ok(rows)
}

/// Whether a kept share has as many scopes.
fn is_as_before(share: &Share, kept: Option<&Share>) -> bool
    ensures { result ≡ spec.is_as_before share.now (option_copied kept.entry) }
{
    match kept {
        Some(kept) => kept.scopes.as_slice().len() == share.scopes.as_slice().len(),
        None => false,
    }
}

/// `PATCH /shares/{owner}/{server}`
pub fn patch_share(
    alloc: Global,
    hub: &Machine,
    server: &ServerKey,
    to: &Option<Recipient>,
    scopes: &[RawScope],
) -> Result<Answer, AllocError>
    ensures { IfOk result (λ answer. answer_view answer ≡ spec.patch_share hub.now server.now to.now scopes.now) }
{
    match revoke_share(alloc, hub.tables(), server, *to, scopes) {
        Ok(left) => {
            let kept = share_with(hub.tables(), server, to);
            told(left_rows(alloc, &left, kept), 200, left_body(alloc, &left))
        }
        Err(refusal) => refused(alloc, refusal),
    }
}

/// The kept share with the recipient who is named.
fn share_with<'a>(
    tables: &'a Tables,
    server: &ServerKey,
    to: &Option<Recipient>,
) -> Option<&'a Share>
    ensures { option_copied result ≡ spec.share_with tables.now server.now to.now }
{
    match to {
        Some(to) => tables.share(server, to),
        None => None,
    }
}

/// The rows of a share of which this is left.
fn left_rows(
    alloc: Global,
    left: &Option<Share>,
    kept: Option<&Share>,
) -> Result<Vec<RowChange>, AllocError>
    ensures { IfOk result (λ rows. rows.items ≡ spec.left_rows left.now (option_copied kept.entry)) }
{
    let Some(before) = kept else {
        return Ok(Vec::new(alloc));
    };
    match left {
        Some(share) => share_put(alloc, share, kept),
        None => removals(alloc, &[before.key]),
    }
}

/// What is left of a share.
fn left_body(alloc: Global, left: &Option<Share>) -> Result<Body, AllocError>
    ensures { IfOk result (λ body. body_tokens body ≡ spec.left_body left.now) }
{
    match left {
        Some(share) => share_body(alloc, share),
        None => Ok(Body::Pairs(Vec::new(alloc))),
    }
}

/// `DELETE /shares/{owner}/{server}`
pub fn delete_shares(alloc: Global, hub: &Machine, server: &ServerKey) -> Result<Answer, AllocError>
    ensures { IfOk result (λ answer. answer_view answer ≡ spec.delete_shares hub.now server.now) }
{
    let keys = shares_of(alloc, hub.tables(), &SharesOf::Server(*server))?;
    let rows = removals(alloc, keys.as_slice())?;
    Ok(rows_then(rows, plain(204, Body::Nothing)))
}

/// The removals of some shares.
fn removals(alloc: Global, keys: &[ShareKey]) -> Result<Vec<RowChange>, AllocError>
    ensures { IfOk result (λ rows. rows.items ≡ spec.removals keys.now) }
{
    let mut rows = Vec::new(alloc);
    for key in keys {
        rows.push(RowChange::Remove(RowKey::Share(*key)))?;
    }
    Ok(rows)
}
