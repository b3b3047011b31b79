//! Tokens that are asked for.
ghost use Rattle.std.specs.Prelude.{◌≡◌, IfOk};
ghost use Rattle.token_store.specs.Issuing.{AreWithin, Checks, Issues, end_of, is_hash_kept, or_inherit};
ghost use Rattle.token_store.specs.Issuing as spec;

use hub_kit::hashes::hash_of;
use hub_kit::list::List;
use hub_kit::moment::Moment;
use hub_kit::names::UserName;
use hub_kit::text::Text;
use hub_rows::records::Token;
use hub_tables::tables::Tables;
use scope_expand::expand;
use scope_filters::filter::Filter;
use scope_filters::grant::Grant;
use scope_filters::holder::{Holder, Owner};
use scope_filters::known::unknown_scope;
use scope_filters::scope::{RawScope, scope_text};
use scope_meet::inside::{Inside, contained};
use scope_names::action::Action;
use std::alloc::{AllocError, Global};

/// A token as a user asks for it. Without scopes it has `inherit`, without `expires_in`, in seconds, it doesn't expire.
pub struct TokenAsk {
    pub owner: UserName,
    pub scopes: List<RawScope>,
    pub note: Text,
    pub expires_in: Option<u32>,
}

impl Drop for TokenAsk {
    fn drop(self) {
        let TokenAsk {
            owner: _,
            scopes: _,
            note: _,
            expires_in: _,
        } = self;
    }
}

/// The first rule that refuses a token.
#[derive(Drop)]
pub enum IssueError {
    /// The text of the first scope whose custom name isn't declared.
    UnknownScope(Text),
    /// The first row of what the scopes mean that the owner doesn't hold whole, by the texts of the action and then of the filter.
    NotHeld { action: Action, filter: Filter },
    /// A token of this hash is kept.
    HashKept,
    /// There was no memory.
    Memory,
}

impl From<AllocError> for IssueError {
    ghost use Rattle.std.specs.Prelude.{◌≡◌};
    ghost use Rattle.token_store.specs.declared.issuing.IssueError.TheVariants.{Memory};

    ghost from_gives = { λ _ e. e ≡ Memory };

    fn from(_: AllocError) -> IssueError {
        IssueError::Memory
    }
}

/// The token that is asked for, of this text and under this id. The refusals in their order: `UnknownScope`, `NotHeld`, `HashKept`. The
/// rights are those of the owner; no scope is narrowed to them.
pub fn issue(
    alloc: Global,
    tables: &Tables,
    rights: &Grant,
    ask: &TokenAsk,
    text: &Text,
    id: u64,
    now: Moment,
) -> Result<Token, IssueError>
    ensures { Issues tables.now rights.now ask.now text.now id now result }
{
    check(alloc, tables, rights, ask)?;
    let hash = hash_of(alloc, text.as_bytes())?;
    if is_hash_kept(tables, &hash) {
        return Err(IssueError::HashKept);
    }
    Ok(issued(alloc, ask, hash, id, now)?)
}

pub(crate) fn is_hash_kept(tables: &Tables, hash: &Text) -> bool
    ensures { result ≡ is_hash_kept tables.now hash.now }
{
    tables.token_of_hash(hash).is_some()
}

/// Refuses scopes that aren't declared, and those that the rights don't hold.
fn check(alloc: Global, tables: &Tables, rights: &Grant, ask: &TokenAsk) -> Result<(), IssueError>
    ensures { Checks tables.now rights.now ask.now result }
{
    if let Some(scope) = unknown_scope(tables.scope_table(), ask.scopes.as_slice()) {
        return Err(IssueError::UnknownScope(scope_text(alloc, scope)?));
    }
    let owner = Owner::User(ask.owner);
    match within(alloc, tables, rights, &owner, ask.scopes.as_slice())? {
        Inside::Yes => Ok(()),
        Inside::NotHeld { action, filter } => Err(IssueError::NotHeld { action, filter }),
    }
}

/// Whether all that the scopes mean for their owner lies within the rights; and where it doesn't, the first row that they don't hold whole.
pub fn within(
    alloc: Global,
    tables: &Tables,
    rights: &Grant,
    owner: &Owner,
    scopes: &[RawScope],
) -> Result<Inside, AllocError>
    ensures { IfOk result (λ inside. AreWithin tables.now rights.now owner.now scopes.now inside) }
{
    let holder = Holder {
        owner: *owner,
        issued_for: None,
    };
    let asked = expand(alloc, tables.scope_table(), scopes, &holder)?;
    Ok(contained(&asked, rights, tables))
}

/// The token of a hash, exactly as it was asked for, under this id.
pub fn issued(
    alloc: Global,
    ask: &TokenAsk,
    hash: Text,
    id: u64,
    now: Moment,
) -> Result<Token, AllocError>
    ensures { IfOk result (λ token. token ≡ spec.issued ask.now hash id now) }
{
    Ok(Token {
        id,
        client: None,
        created: now,
        expires_at: end_of(now, ask.expires_in),
        hash,
        issued_for: None,
        note: ask.note.copy(alloc)?,
        owner: Owner::User(ask.owner),
        scopes: or_inherit(alloc, ask.scopes.as_slice())?,
    })
}

/// The end of what lasts so many seconds from now.
fn end_of(now: Moment, seconds: Option<u32>) -> Option<Moment>
    ensures { result ≡ end_of now seconds }
{
    match seconds {
        None => None,
        Some(seconds) => Some(now.later(seconds as u64)),
    }
}

/// The scopes, or `inherit` where there are none.
fn or_inherit(alloc: Global, scopes: &[RawScope]) -> Result<List<RawScope>, AllocError>
    ensures { IfOk result (λ list. list ≡ or_inherit scopes.now) }
{
    if scopes.is_empty() {
        return Ok(List::from_vec(Vec::from_slice(alloc, &[RawScope::Inherit])?));
    }
    Ok(List::from_vec(Vec::from_slice(alloc, scopes)?))
}
