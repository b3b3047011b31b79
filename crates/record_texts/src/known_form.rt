//! Users, tokens and servers, of which a store has the most rows, read by the form in which their texts are written, in one pass that makes
//! no tree of the JSON and writes nothing to compare. `of_row` reads the rows that this gives up on.
ghost use Rattle.std.specs.Prelude.{◌≡◌, [], ◌∷◌, ◌++◌, Some, codes, decimal, IfSome};
ghost use Rattle.std.specs.List.{AllByRecursion};
ghost use Rattle.std.specs.Option.{option_copied};
ghost use Rattle.serde_json.specs.Data.{string};
ghost use Rattle.serde_json.specs.Written.{compact_text};
ghost use Rattle.scope_filters.specs.Scopes.{scope_text};
ghost use Rattle.key_texts.specs.KeyTexts.{server_text, IsServer, IsScope};
ghost use Rattle.record_texts.specs.Fields.{whole, maybe, lines, IfThere, IsMoment};
ghost use Rattle.record_texts.specs.People.{user_object, IsUser};
ghost use Rattle.record_texts.specs.Servers.{server_object, IsServerRow};
ghost use Rattle.record_texts.specs.Tokens.{token_object, IsToken};
ghost use Rattle.record_texts.specs.Rows.{row_with};

use crate::cut::{
    after, cut_bool, cut_maybe_moment, cut_maybe_server, cut_maybe_string, cut_number, cut_owner,
    cut_scope, cut_string, key_of, moment_of, whole_number,
};
use crate::field::add;
use hub_kit::list::List;
use hub_kit::moment::Moment;
use hub_kit::names::{self, ServerKey};
use hub_kit::text::Text;
use hub_rows::records::{ServerRow, Token, User};
use keeper::keeper::Row;
use scope_filters::scope::RawScope;
use std::alloc::Global;

/// The user whose row this is, or nothing where that isn't seen at once.
pub fn user_of(row: &Row) -> Option<User>
    ensures { IfSome result (λ user. IsUser user × (row.now ≡ row_with 1 user.name (user_object user))) }
{
    if row.kind != 1 {
        return None;
    }
    let Ok(name) = names::read_user(row.key.as_bytes()) else {
        return None;
    };
    let text = after(row.text.as_bytes(), b"{\"admin\":")?;
    let Some((admin, text)) = cut_bool(text) else {
        return None;
    };
    let text = after(text, b",\"created\":")?;
    let (seconds, text) = cut_number(text)?;
    let created = moment_of(seconds)?;
    let text = after(text, b",\"last_activity\":")?;
    let Some((last_activity, text)) = cut_maybe_moment(text) else {
        return None;
    };
    let rest = after(text, b"}")?;
    if !rest.is_empty() {
        return None;
    }
    Some(User {
        name,
        admin,
        created,
        last_activity,
    })
}

/// The server whose row this is, or nothing where that isn't seen at once.
pub fn server_of(row: &Row) -> Option<ServerRow>
    ensures { IfSome result (λ server. IsServerRow server × (row.now ≡ row_with 6 (server_text server.key) (server_object server))) }
{
    if row.kind != 6 {
        return None;
    }
    let key = key_of(row.key.as_bytes())?;
    let text = after(row.text.as_bytes(), b"{\"created\":")?;
    let (seconds, text) = cut_number(text)?;
    let created = moment_of(seconds)?;
    let text = after(text, b",\"last_activity\":")?;
    let Some((last_activity, text)) = cut_maybe_moment(text) else {
        return None;
    };
    let text = after(text, b",\"started\":")?;
    let Some((started, text)) = cut_maybe_moment(text) else {
        return None;
    };
    let rest = after(text, b"}")?;
    if !rest.is_empty() {
        return None;
    }
    Some(ServerRow {
        key,
        created,
        last_activity,
        started,
    })
}

/// What stands first in a token's text: the client, and when the token was made and expires.
fn cut_front(text: &[u8]) -> Option<(Option<&str>, u64, Option<Moment>, &[u8])>
    ensures text { IfSome result (λ cut. text.now ≡ codes "{\"client\":"
        ++ (compact_text (maybe (λ text. string text) (option_copied cut.0))
        ++ (codes ",\"created\":" ++ (compact_text (whole cut.1)
        ++ (codes ",\"expires_at\":" ++ (compact_text (maybe whole cut.2) ++ cut.3.now)))))) }
    ensures valid { IfSome result (λ cut. IfThere IsMoment cut.2) }
{
    let text = after(text, b"{\"client\":")?;
    let Some((client, text)) = cut_maybe_string(text) else {
        return None;
    };
    let text = after(text, b",\"created\":")?;
    let (seconds, text) = cut_number(text)?;
    let text = after(text, b",\"expires_at\":")?;
    let Some((expires_at, rest)) = cut_maybe_moment(text) else {
        return None;
    };
    Some((client, seconds, expires_at, rest))
}

/// What stands next: the hash, the server that the token was given to, and the note.
fn cut_middle(text: &[u8]) -> Option<(&str, Option<ServerKey>, &str, &[u8])>
    ensures text { IfSome result (λ cut. text.now ≡ codes ",\"hash\":" ++ (compact_text (string cut.0.now)
        ++ (codes ",\"issued_for\":" ++ (compact_text (maybe (λ key. string (server_text key)) cut.1)
        ++ (codes ",\"note\":" ++ (compact_text (string cut.2.now) ++ cut.3.now)))))) }
    ensures valid { IfSome result (λ cut. IfThere IsServer cut.1) }
{
    let text = after(text, b",\"hash\":")?;
    let Some((hash, text)) = cut_string(text) else {
        return None;
    };
    let text = after(text, b",\"issued_for\":")?;
    let Some((issued_for, text)) = cut_maybe_server(text) else {
        return None;
    };
    let text = after(text, b",\"note\":")?;
    let Some((note, rest)) = cut_string(text) else {
        return None;
    };
    Some((hash, issued_for, note, rest))
}

/// The token whose row this is, or nothing where that isn't seen at once or memory is wanting.
pub fn token_of(alloc: Global, row: &Row) -> Option<Token>
    ensures { IfSome result (λ token. IsToken token × (row.now ≡ row_with 5 (decimal token.id) (token_object token))) }
{
    if row.kind != 5 {
        return None;
    }
    let id = whole_number(row.key.as_bytes())?;
    let Some((client, seconds, expires_at, text)) = cut_front(row.text.as_bytes()) else {
        return None;
    };
    let created = moment_of(seconds)?;
    let Some((hash, issued_for, note, text)) = cut_middle(text) else {
        return None;
    };
    let text = after(text, b",\"owner\":")?;
    let Some((owner, text)) = cut_owner(text) else {
        return None;
    };
    let text = after(text, b",\"scopes\":")?;
    let texts = both(
        copy_maybe(alloc, client),
        both(copy(alloc, hash), copy(alloc, note)),
    );
    let ((client, (hash, note)), scopes) = both(texts, last_scopes(alloc, text))?;
    Some(Token {
        id,
        client,
        created,
        expires_at,
        hash,
        issued_for,
        note,
        owner,
        scopes,
    })
}

/// Both, if each is there.
fn both<A: Drop, B: Drop>(first: Option<A>, second: Option<B>) -> Option<(A, B)>
    ensures { IfSome result (λ found. (first ≡ Some found.0) × (second ≡ Some found.1)) }
{
    match first {
        Some(first) => match second {
            Some(second) => Some((first, second)),
            None => None,
        },
        None => None,
    }
}

fn copy(alloc: Global, text: &str) -> Option<Text>
    ensures { IfSome result (λ copy. copy ≡ text.now) }
{
    match Text::from_str(alloc, text) {
        Ok(text) => Some(text),
        Err(_) => None,
    }
}

fn copy_maybe(alloc: Global, text: Option<&str>) -> Option<Option<Text>>
    ensures { IfSome result (λ copy. copy ≡ option_copied text.entry) }
{
    match text {
        Some(text) => match copy(alloc, text) {
            Some(text) => Some(Some(text)),
            None => None,
        },
        None => Some(None),
    }
}

/// The scopes of the list that is the last member of an object, whose end is the text's.
fn last_scopes(alloc: Global, text: &[u8]) -> Option<List<RawScope>>
    ensures { IfSome result (λ scopes. (text.now ≡ compact_text (lines scope_text scopes) ++ codes "}") × AllByRecursion IsScope scopes) }
{
    let mut rest = after(text, b"[")?;
    // room for one, which most tokens have: a list that grows takes room for four
    let Ok(mut scopes) = Vec::with_capacity(alloc, 1) else {
        return None;
    };
    let mut later = false;
    'scopes: while rest != b"]}".as_slice() {
        let Some((scope, behind)) = cut_scope(rest, later) else {
            return None;
        };
        let Ok(()) = add(&mut scopes, scope) else {
            return None;
        };
        rest = behind;
        later = true;
    }
    Some(List::from_vec(scopes))
}
