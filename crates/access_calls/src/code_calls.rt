//! The calls on share codes.
ghost use Rattle.std.specs.Prelude.{◌≡◌, ◌<◌, ◌-◌, ◌^◌, ◌++◌, codes, map as over, IfOk, OnOk};
ghost use Rattle.std.specs.FinMap as map;
ghost use Rattle.hub_tables.specs.Lookups.{next_of};
ghost use Rattle.hub_view.specs.Body.{body_tokens, bodies};
ghost use Rattle.hub_machine.specs.Answers.{answer_view};
ghost use Rattle.hub_machine.specs.Replies.{first_refusal};
ghost use Rattle.access_calls.specs.CodeCalls as spec;

use crate::answers::{refused, told};
use crate::share_calls::{put_share, text_of};
use hub_kit::hashes::token_text;
use hub_kit::moment::Moment;
use hub_kit::names::{ServerKey, UserName, key_text};
use hub_kit::text::Text;
use hub_machine::answer::{Answer, listed, plain, rows_then};
use hub_machine::machine::Machine;
use hub_machine::refusal::Refusal;
use hub_rows::changes::RowChange;
use hub_rows::counter::Counter;
use hub_rows::records::{Next, ShareCode};
use hub_rows::rows::{Row, RowKey};
use hub_tables::tables::Tables;
use hub_view::{Body, Page, code_body, names_in_page, new_code_body};
use scope_filters::scope::RawScope;
use shares::codes::{accept_code as granted_by_code, expired_codes, make_code, next_code};
use shares::lists::{CodesOf, codes_of};
use std::alloc::{AllocError, Global};

/// A kept code.
fn code_at(alloc: Global, hub: &Machine, id: u64) -> Result<Body, AllocError>
    ensures { IfOk result (λ body. body_tokens body ≡ spec.code_at hub.now id) }
{
    match hub.tables().code(id) {
        Some(code) => code_body(alloc, code),
        None => Ok(Body::Nothing),
    }
}

/// The bodies of some codes.
fn codes_at(alloc: Global, hub: &Machine, ids: &[u64]) -> Result<Vec<Body>, AllocError>
    ensures { IfOk result (λ made. bodies made.items ≡ over (spec.code_at hub.now) ids.now) }
{
    let mut bodies = Vec::new(alloc);
    for id in ids {
        bodies.push(code_at(alloc, hub, *id)?)?;
    }
    Ok(bodies)
}

/// The path of a list, behind `/hub/api`.
fn codes_path(alloc: Global, whose: &CodesOf) -> Result<Text, AllocError>
    ensures { IfOk result (λ text. text ≡ spec.codes_path whose.now) }
{
    match whose {
        CodesOf::Owner(owner) => text_of(alloc, "/share-codes/", owner.as_str(), ""),
        CodesOf::Server(server) => {
            let key = key_text(alloc, server)?;
            text_of(alloc, "/share-codes/", key.as_str(), "")
        }
    }
}

/// `GET /share-codes/{owner}` and `GET /share-codes/{owner}/{server}`
pub fn get_codes(
    alloc: Global,
    hub: &Machine,
    whose: &CodesOf,
    page: Page,
) -> Result<Answer, AllocError>
    ensures { IfOk result (λ answer. answer_view answer ≡ spec.get_codes hub.now whose.now page) }
{
    let path = codes_path(alloc, whose)?;
    let ids = codes_of(alloc, hub.tables(), whose)?;
    let part = names_in_page(alloc, ids.as_slice(), page)?;
    let bodies = codes_at(alloc, hub, part.as_slice())?;
    listed(alloc, page, ids.len(), bodies, path.as_str())
}

/// `POST /users/{user}/shared`
pub fn accept_code(
    alloc: Global,
    hub: &Machine,
    now: Moment,
    user: &UserName,
    text: &Text,
) -> Result<Answer, AllocError>
    ensures { IfOk result (λ answer. answer_view answer ≡ spec.accept_code hub.now now user.now text.now) }
{
    match granted_by_code(alloc, hub.tables(), user, text, now) {
        Ok(share) => put_share(alloc, hub, &share),
        Err(refusal) => refused(alloc, refusal),
    }
}

/// `POST /share-codes/{owner}/{server}`, for which 16 bytes were drawn.
pub fn post_code(
    alloc: Global,
    hub: &Machine,
    now: Moment,
    draw: Option<[u8; 16]>,
    server: &ServerKey,
    scopes: &[RawScope],
    life: u32,
) -> Result<Answer, AllocError>
    ensures { IfOk result (λ answer. answer_view answer ≡ spec.post_code hub.now now draw server.now scopes.now life) }
{
    match draw {
        Some(draw) => {
            let text = token_text(alloc, draw)?;
            offer(alloc, hub, now, &text, server, scopes, life)
        }
        None => Ok(Answer::Refuses(Refusal::NoDraw)),
    }
}

/// The answer where the new code would have this text.
fn offer(
    alloc: Global,
    hub: &Machine,
    now: Moment,
    text: &Text,
    server: &ServerKey,
    scopes: &[RawScope],
    life: u32,
) -> Result<Answer, AllocError>
    ensures { IfOk result (λ answer. answer_view answer ≡ spec.offer hub.now now text.now server.now scopes.now life) }
{
    let id = next_code(alloc, hub.tables())?;
    let over = expired_codes(alloc, hub.tables(), server, now)?;
    match make_code(alloc, server, scopes, life, text, id, now) {
        Ok(code) => put_code(alloc, hub, over.as_slice(), text, &code),
        Err(refusal) => refused(alloc, refusal),
    }
}

/// The answer with a new code, which takes the place of those that are over.
fn put_code(
    alloc: Global,
    hub: &Machine,
    over: &[u64],
    text: &Text,
    code: &ShareCode,
) -> Result<Answer, AllocError>
    requires { code.now.id ≡ next_of hub.now.tables (codes "code") }
    ensures { IfOk result (λ answer. answer_view answer ≡ spec.put_code hub.now over.now text.now code.now) }
{
    match refusal(alloc, hub.tables(), over, code)? {
        Some(refusal) => Ok(Answer::Refuses(refusal)),
        None => made(alloc, code, over, text),
    }
}

/// The first rule that refuses the code.
fn refusal(
    alloc: Global,
    tables: &Tables,
    over: &[u64],
    code: &ShareCode,
) -> Result<Option<Refusal>, AllocError>
    ensures { IfOk result (λ r. r ≡ first_refusal (spec.code_rules tables.now over.now code.now)) }
{
    if tables.code_of_hash(&code.hash).is_some() {
        return Ok(Some(Refusal::Exists(Text::from_str(alloc, "code")?)));
    }
    if is_without_room(alloc, tables, over)? {
        return Ok(Some(Refusal::Full {
            kind: 9,
            limit: tables.limits().codes,
        }));
    }
    Ok(None)
}

/// Whether there is no room for a code more once those that are over have gone, or no number is left for it.
fn is_without_room(alloc: Global, tables: &Tables, over: &[u64]) -> Result<bool, AllocError>
    ensures { IfOk result (λ b. b ≡ spec.is_without_room tables.now over.now) }
{
    let next = next_code(alloc, tables)?;
    let kept = count_of_codes(tables).saturating_sub(over.len());
    Ok(tables.limits().codes as usize <= kept || next == u64::MAX)
}

fn count_of_codes(tables: &Tables) -> usize
    ensures { result ≡ map.len tables.now.codes }
{
    tables.codes().len()
}

/// The answer with this new code, which tells its text.
fn made(alloc: Global, code: &ShareCode, over: &[u64], text: &Text) -> Result<Answer, AllocError>
    requires { code.now.id < 2 ^ 64 - 1 }
    ensures { IfOk result (λ answer. answer_view answer ≡ spec.made code.now over.now text.now) }
{
    told(
        code_rows(alloc, code, over),
        201,
        new_code_body(alloc, code, text.as_str()),
    )
}

/// The rows of a new code.
fn code_rows(alloc: Global, code: &ShareCode, over: &[u64]) -> Result<Vec<RowChange>, AllocError>
    requires { code.now.id < 2 ^ 64 - 1 }
    ensures { IfOk result (λ rows. rows.items ≡ spec.code_rows code.now over.now) }
{
    let next = code.id + 1;
    let mut rows = Vec::new(alloc);
    rows.push(RowChange::Put(Row::ShareCode(code.copy(alloc)?)))?;
    let name = numbers(alloc)?;
    rows.push(RowChange::Put(Row::Next(Next { name, next })))?;
    push_removals(&mut rows, over)?;
    Ok(rows)
}

/// What numbers the codes.
fn numbers(alloc: Global) -> Result<Counter, AllocError>
    ensures { IfOk result (λ counter. counter ≡ codes "code") }
{
    match Counter::from_text(Text::from_str(alloc, "code")?) {
        Some(counter) => Ok(counter),
        None => unreachable!(),
    }
}

/// Adds the removals of some codes.
fn push_removals(rows: &mut Vec<RowChange>, ids: &[u64]) -> Result<(), AllocError>
    ensures { OnOk result (rows.new.items ≡ rows.old.items ++ spec.removals ids.now) }
{
    for id in ids {
        rows.push(RowChange::Remove(RowKey::ShareCode(*id)))?;
    }
    Ok(())
}

/// `DELETE /share-codes/{owner}/{server}`: the one code that is named, or all of the server.
pub fn delete_codes(
    alloc: Global,
    hub: &Machine,
    server: &ServerKey,
    id: Option<u64>,
) -> Result<Answer, AllocError>
    ensures { IfOk result (λ answer. answer_view answer ≡ spec.delete_codes hub.now server.now id) }
{
    let ids = named_codes(alloc, hub.tables(), server, id)?;
    let mut rows = Vec::new(alloc);
    push_removals(&mut rows, ids.as_slice())?;
    Ok(rows_then(rows, plain(204, Body::Nothing)))
}

/// The code that is named, or all of the server.
fn named_codes(
    alloc: Global,
    tables: &Tables,
    server: &ServerKey,
    id: Option<u64>,
) -> Result<Vec<u64>, AllocError>
    ensures { IfOk result (λ ids. ids.items ≡ spec.named_codes tables.now server.now id) }
{
    match id {
        Some(id) => Vec::from_slice(alloc, &[id]),
        None => codes_of(alloc, tables, &CodesOf::Server(*server)),
    }
}
