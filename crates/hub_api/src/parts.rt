//! What a request says, with the refusal where it isn't of its form: the names in its path, the values of its query, and the
//! members of its body.
ghost use Rattle.std.specs.Prelude.{◌≡◌, Some, ok_or};
ghost use Rattle.serde_json.specs.View.{view};
ghost use Rattle.request_parts.specs.Bodies.{optional_at};
ghost use Rattle.hub_api.specs.Refusals.{Gives, GivesView};
ghost use Rattle.hub_api.specs.Names.{read_at};
ghost use Rattle.hub_api.specs.Queries as spec_queries;
ghost use Rattle.hub_api.specs.Bodies as spec;

use crate::refusal::ApiRefusal;
use http_wire::request::Request;
use hub_kit::list::List;
use hub_kit::moment::Moment;
use hub_kit::names::{GroupName, ServerKey, ServerName, UserName, read_key};
use hub_kit::text::Text;
use hub_paths::Path;
use hub_rows::keys::Recipient;
use hub_view::Page;
use request_parts::activity::activity_at;
use request_parts::body::{
    body_object, list_at, number_at, number_or, optional_at, truth_at, truth_or,
};
use request_parts::from_text::FromText;
use request_parts::path::{read_in_path, segment_number};
use request_parts::query::{decimal_of, query_number, query_value};
use request_parts::scopes::read_scopes;
use scope_filters::scope::RawScope;
use serde_json::Value;
use std::alloc::Global;

/// What the segment is that stands where a name stands in the text of a path. `BadName` has its number where it isn't of the form.
#[tactic(auto, unfolding(crate::specs::Names::read_at))]
pub(crate) fn name_at<N: FromText>(
    alloc: Global,
    request: &Request,
    path: Path,
    name: &str,
) -> Result<N, ApiRefusal>
    ensures { Gives result (read_at N.reads path name.now request.now) }
{
    let n = segment_number(path.text(), name);
    match read_in_path(alloc, request.path.as_str(), n)? {
        Some(name) => Ok(name),
        None => Err(ApiRefusal::BadName(n)),
    }
}

/// The part of a list that the query asks, which has one object at least, and whether it is told as a page.
#[tactic(auto, unfolding(crate::specs::Queries::page_of))]
pub(crate) fn page_of(alloc: Global, request: &Request) -> Result<Page, ApiRefusal>
    ensures { Gives result (spec_queries.page_of request.now) }
{
    let offset = number_of(alloc, request, "offset", 0)?;
    let limit = number_of(alloc, request, "limit", 50)?;
    if limit == 0 {
        return Err(ApiRefusal::BadQuery);
    }
    Ok(Page {
        offset,
        limit,
        paged: request.paged,
    })
}

/// A number of the query, or a default where its key is absent.
#[tactic(auto, unfolding(crate::specs::Queries::number_of))]
fn number_of(alloc: Global, request: &Request, key: &str, default: u64) -> Result<u64, ApiRefusal>
    ensures { Gives result (spec_queries.number_of key.now default request.now) }
{
    match query_number(alloc, request.query.as_str(), key, default)? {
        Some(number) => Ok(number),
        None => Err(ApiRefusal::BadQuery),
    }
}

/// The server that the key `for` of the query names.
#[tactic(auto, unfolding(crate::specs::Queries::server_of))]
pub(crate) fn server_of(alloc: Global, request: &Request) -> Result<Option<ServerKey>, ApiRefusal>
    ensures { Gives result (spec_queries.server_of request.now) }
{
    match query_value(alloc, request.query.as_str(), "for")? {
        None => Ok(None),
        Some(text) => match read_key(text.as_bytes()) {
            Ok(key) => Ok(Some(key)),
            Err(_) => Err(ApiRefusal::BadQuery),
        },
    }
}

/// The number that the key `id` of the query is, where it is given.
#[tactic(auto, unfolding(crate::specs::Queries::id_of))]
pub(crate) fn id_of(alloc: Global, request: &Request) -> Result<Option<u64>, ApiRefusal>
    ensures { Gives result (spec_queries.id_of request.now) }
{
    match query_value(alloc, request.query.as_str(), "id")? {
        None => Ok(None),
        Some(text) => match decimal_of(text.as_bytes()) {
            Some(id) => Ok(Some(id)),
            None => Err(ApiRefusal::BadQuery),
        },
    }
}

/// The one JSON object that the body is.
#[tactic(auto, unfolding(crate::specs::Bodies::body_of))]
pub(crate) fn body_of(alloc: Global, request: &Request) -> Result<Value, ApiRefusal>
    ensures { GivesView result (spec.body_of request.now) }
{
    match body_object(alloc, request.body.as_slice())? {
        Some(body) => Ok(body),
        None => Err(ApiRefusal::BadBody),
    }
}

/// A truth value whose key has to stand in the body.
#[tactic(auto, unfolding(crate::specs::Bodies::needed_truth))]
pub(crate) fn needed_truth(body: &Value, key: &str) -> Result<bool, ApiRefusal>
    ensures { result ≡ spec.needed_truth key.now (view body.now) }
{
    match truth_at(body, key) {
        Some(value) => Ok(value),
        None => Err(ApiRefusal::BadBody),
    }
}

/// A truth value of the body that is false where its key is absent.
#[tactic(auto, unfolding(crate::specs::Bodies::truth))]
pub(crate) fn truth(body: &Value, key: &str) -> Result<bool, ApiRefusal>
    ensures { result ≡ spec.truth key.now (view body.now) }
{
    match truth_or(body, key, false) {
        Some(value) => Ok(value),
        None => Err(ApiRefusal::BadBody),
    }
}

/// A moment of the body, which may be absent.
#[tactic(auto, unfolding(crate::specs::Bodies::moment))]
pub(crate) fn moment(alloc: Global, body: &Value, key: &str) -> Result<Option<Moment>, ApiRefusal>
    ensures { Gives result (spec.moment key.now (view body.now)) }
{
    match optional_at(alloc, body, key)? {
        Some(moment) => Ok(moment),
        None => Err(ApiRefusal::BadBody),
    }
}

/// A text of the body of at most 256 bytes, which is empty where its key is absent.
#[tactic(auto, unfolding(crate::specs::Bodies::note))]
pub(crate) fn note(alloc: Global, body: &Value, key: &str) -> Result<Text, ApiRefusal>
    ensures { Gives result (spec.note key.now (view body.now)) }
{
    match optional_at(alloc, body, key)? {
        Some(text) => note_of(alloc, text),
        None => Err(ApiRefusal::BadBody),
    }
}

fn note_of(alloc: Global, text: Option<Text>) -> Result<Text, ApiRefusal>
    ensures { result ≡ spec.note_of text }
{
    match text {
        None => Ok(Text::new(alloc)),
        Some(text) => {
            if text.as_bytes().len() <= 256 {
                Ok(text)
            } else {
                Err(ApiRefusal::BadBody)
            }
        }
    }
}

/// 1 to 4,294,967,295 seconds of the body, or no end where their key is absent or null.
#[tactic(auto, unfolding(crate::specs::Bodies::seconds))]
pub(crate) fn seconds(body: &Value, key: &str) -> Result<Option<u32>, ApiRefusal>
    ensures { result ≡ spec.seconds key.now (view body.now) }
{
    match number_at(body, key) {
        Some(number) => seconds_of(number),
        None => Err(ApiRefusal::BadBody),
    }
}

fn seconds_of(number: Option<u64>) -> Result<Option<u32>, ApiRefusal>
    ensures { result ≡ spec.seconds_of number }
{
    match number {
        None => Ok(None),
        Some(n) => {
            if 1 <= n && n <= 4_294_967_295 {
                Ok(Some(n as u32))
            } else {
                Err(ApiRefusal::BadBody)
            }
        }
    }
}

/// At most 4,294,967,295 seconds of the body, which are a day where their key is absent.
#[tactic(auto, unfolding(crate::specs::Bodies::life))]
pub(crate) fn life(body: &Value, key: &str) -> Result<u32, ApiRefusal>
    ensures { result ≡ spec.life key.now (view body.now) }
{
    match number_or(body, key, 86_400) {
        Some(seconds) => {
            if seconds <= 4_294_967_295 {
                Ok(seconds as u32)
            } else {
                Err(ApiRefusal::BadBody)
            }
        }
        None => Err(ApiRefusal::BadBody),
    }
}

/// A text whose key has to stand in the body.
#[tactic(auto, unfolding(crate::specs::Bodies::needed_text))]
pub(crate) fn needed_text(alloc: Global, body: &Value, key: &str) -> Result<Text, ApiRefusal>
    ensures { Gives result (spec.needed_text key.now (view body.now)) }
{
    match optional_at(alloc, body, key)? {
        Some(Some(text)) => Ok(text),
        _ => Err(ApiRefusal::BadBody),
    }
}

/// The one whom the body names by `user` or `group`: nobody where it has neither or both.
#[tactic(auto, unfolding(crate::specs::Bodies::recipient))]
pub(crate) fn recipient(alloc: Global, body: &Value) -> Result<Option<Recipient>, ApiRefusal>
    ensures { Gives result (spec.recipient (view body.now)) }
{
    let user: Option<UserName> = name_or_none(alloc, body, "user")?;
    let group: Option<GroupName> = name_or_none(alloc, body, "group")?;
    Ok(one_of(user, group))
}

/// A name of the body, which may be absent.
fn name_or_none<N: FromText>(
    alloc: Global,
    body: &Value,
    key: &str,
) -> Result<Option<N>, ApiRefusal>
    ensures { Gives result (ok_or (optional_at N.reads key.now (view body.now)) ApiRefusal.BadBody) }
{
    match optional_at(alloc, body, key)? {
        Some(name) => Ok(name),
        None => Err(ApiRefusal::BadBody),
    }
}

fn one_of(user: Option<UserName>, group: Option<GroupName>) -> Option<Recipient>
    ensures { result ≡ spec.one_of user group }
{
    match (user, group) {
        (Some(user), None) => Some(Recipient::User(user)),
        (None, Some(group)) => Some(Recipient::Group(group)),
        _ => None,
    }
}

/// Of each of some servers its name, and when it was last active, if that is told.
#[tactic(auto, unfolding(crate::specs::Bodies::activity))]
pub(crate) fn activity_of(
    alloc: Global,
    body: &Value,
    key: &str,
) -> Result<List<(ServerName, Option<Moment>)>, ApiRefusal>
    ensures { Gives result (spec.activity key.now (view body.now)) }
{
    match activity_at(alloc, body, key)? {
        Some(servers) => Ok(servers),
        None => Err(ApiRefusal::BadBody),
    }
}

/// A list of texts of a form, which is empty where its key is absent.
#[tactic(auto, unfolding(crate::specs::Bodies::list))]
pub(crate) fn list<N: FromText>(
    alloc: Global,
    body: &Value,
    key: &str,
) -> Result<List<N>, ApiRefusal>
    ensures { Gives result (spec.list N.reads key.now (view body.now)) }
{
    match list_at(alloc, body, key)? {
        Some(items) => Ok(items),
        None => Err(ApiRefusal::BadBody),
    }
}

/// A list of 1 to 1,000 names.
#[tactic(auto, unfolding(crate::specs::Bodies::some_names))]
pub(crate) fn some_names(
    alloc: Global,
    body: &Value,
    key: &str,
) -> Result<List<UserName>, ApiRefusal>
    ensures { Gives result (spec.some_names key.now (view body.now)) }
{
    let names: List<UserName> = list(alloc, body, key)?;
    if 1 <= names.len() && names.len() <= 1000 {
        Ok(names)
    } else {
        Err(ApiRefusal::BadBody)
    }
}

/// A list of 1 to 1,000 distinct names.
#[tactic(auto, unfolding(crate::specs::Bodies::distinct_names))]
pub(crate) fn distinct_names(
    alloc: Global,
    body: &Value,
    key: &str,
) -> Result<List<UserName>, ApiRefusal>
    ensures { Gives result (spec.distinct_names key.now (view body.now)) }
{
    let names = some_names(alloc, body, key)?;
    if are_distinct(names.as_slice()) {
        Ok(names)
    } else {
        Err(ApiRefusal::BadBody)
    }
}

/// Whether no name stands twice in a list.
#[tactic(auto, using(crate::proofs::Distinct::twice, crate::proofs::Distinct::once))]
fn are_distinct(names: &[UserName]) -> bool
    ensures { result ≡ spec.are_distinct names.now }
{
    for i in 0..names.len() {
        if names[i + 1..].contains(&names[i]) {
            return false;
        }
    }
    true
}

/// At most 64 texts that are to be scopes.
#[tactic(auto, unfolding(crate::specs::Bodies::scope_texts))]
pub(crate) fn scope_texts(alloc: Global, body: &Value) -> Result<List<Text>, ApiRefusal>
    ensures { Gives result (spec.scope_texts (view body.now)) }
{
    let texts: List<Text> = list(alloc, body, "scopes")?;
    if texts.len() <= 64 {
        Ok(texts)
    } else {
        Err(ApiRefusal::BadBody)
    }
}

/// The scopes that the texts are. `BadScope` tells the first that is none.
#[tactic(auto, unfolding(crate::specs::Bodies::scopes))]
pub(crate) fn scopes(alloc: Global, texts: &List<Text>) -> Result<List<RawScope>, ApiRefusal>
    ensures { Gives result (spec.scopes texts.now) }
{
    match read_scopes(alloc, texts.as_slice())? {
        Ok(scopes) => Ok(scopes),
        Err(fault) => Err(ApiRefusal::BadScope {
            index: fault.index,
            error: fault.error,
        }),
    }
}
