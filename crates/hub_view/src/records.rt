//! Tokens, roles, shares and share codes, which are shown with all their fields.
ghost use Rattle.std.specs.Prelude.{◌≡◌, ◌++◌, List, IfOk};
ghost use Rattle.hub_view.specs.Json.{Member};
ghost use Rattle.hub_view.specs.Body.{body_tokens};
ghost use Rattle.hub_view.specs.Made.{holds};
ghost use Rattle.hub_view.specs.Records as spec;

use crate::body::Body;
use crate::fields::Fields;
use crate::members::line;
use crate::parts::{digits, fixed, key_line, line_or_null, moment, moment_or_null, names, scopes};
use crate::word::Word;
use hub_rows::keys::Recipient;
use hub_rows::records::{Role, Share, ShareCode, Token};
use scope_filters::holder::Owner;
use std::alloc::{AllocError, Global};

/// All of a token but its hash and the server that it was issued for. `id` is a text, and `user` is null for a service's token.
pub fn token_body(alloc: Global, token: &Token) -> Result<Body, AllocError>
    ensures { IfOk result (λ body. body_tokens body ≡ spec.token_body token.now) }
{
    let mut fields = Fields::new(alloc, 8);
    add_token(alloc, &mut fields, token);
    fields.add(true, Word::User, user_of(alloc, &token.owner));
    fields.into_body()
}

/// The token that was just made, with its text.
pub fn new_token_body(alloc: Global, token: &Token, text: &str) -> Result<Body, AllocError>
    ensures { IfOk result (λ body. body_tokens body ≡ spec.new_token_body token.now text.now) }
{
    let mut fields = Fields::new(alloc, 9);
    add_token(alloc, &mut fields, token);
    fields.add(true, Word::Token, line(alloc, text));
    fields.add(true, Word::User, user_of(alloc, &token.owner));
    fields.into_body()
}

/// Adds the fields of a token up to the scopes.
fn add_token(alloc: Global, fields: &mut Fields, token: &Token)
    ensures { (before : List Member) → holds fields.old before → holds fields.new (before ++ spec.token_members token.now) }
{
    fields.add(true, Word::Created, Ok(moment(token.created)));
    fields.add(true, Word::ExpiresAt, Ok(moment_or_null(token.expires_at)));
    fields.add(true, Word::Id, digits(alloc, token.id));
    fields.add(true, Word::Kind, Ok(fixed(Word::ApiToken)));
    fields.add(true, Word::Note, line(alloc, token.note.as_str()));
    fields.add(true, Word::OauthClient, line_or_null(alloc, &token.client));
    fields.add(true, Word::Scopes, scopes(alloc, token.scopes.as_slice()));
}

fn user_of(alloc: Global, owner: &Owner) -> Result<Body, AllocError>
    ensures { IfOk result (λ body. body_tokens body ≡ spec.user_of owner.now) }
{
    match owner {
        Owner::User(user) => line(alloc, user.as_str()),
        Owner::Service(_) => Ok(Body::Null),
    }
}

/// All of a role.
pub fn role_body(alloc: Global, role: &Role) -> Result<Body, AllocError>
    ensures { IfOk result (λ body. body_tokens body ≡ spec.role_body role.now) }
{
    let mut fields = Fields::new(alloc, 5);
    fields.add(true, Word::Groups, names(alloc, role.groups.as_slice()));
    fields.add(true, Word::Name, line(alloc, role.name.as_str()));
    fields.add(true, Word::Scopes, scopes(alloc, role.scopes.as_slice()));
    fields.add(true, Word::Services, names(alloc, role.services.as_slice()));
    fields.add(true, Word::Users, names(alloc, role.users.as_slice()));
    fields.into_body()
}

/// All of a share. Of `group` and `user` the one that isn't the recipient is null.
pub fn share_body(alloc: Global, share: &Share) -> Result<Body, AllocError>
    ensures { IfOk result (λ body. body_tokens body ≡ spec.share_body share.now) }
{
    let mut fields = Fields::new(alloc, 5);
    fields.add(true, Word::Created, Ok(moment(share.created)));
    fields.add(true, Word::Group, group_to(alloc, &share.key.to));
    fields.add(true, Word::Scopes, scopes(alloc, share.scopes.as_slice()));
    fields.add(true, Word::Server, key_line(alloc, &share.key.server));
    fields.add(true, Word::User, user_to(alloc, &share.key.to));
    fields.into_body()
}

fn group_to(alloc: Global, to: &Recipient) -> Result<Body, AllocError>
    ensures { IfOk result (λ body. body_tokens body ≡ spec.group_to to.now) }
{
    match to {
        Recipient::User(_) => Ok(Body::Null),
        Recipient::Group(group) => line(alloc, group.as_str()),
    }
}

fn user_to(alloc: Global, to: &Recipient) -> Result<Body, AllocError>
    ensures { IfOk result (λ body. body_tokens body ≡ spec.user_to to.now) }
{
    match to {
        Recipient::User(user) => line(alloc, user.as_str()),
        Recipient::Group(_) => Ok(Body::Null),
    }
}

/// All of a share code but its hash. `id` is a text.
pub fn code_body(alloc: Global, code: &ShareCode) -> Result<Body, AllocError>
    ensures { IfOk result (λ body. body_tokens body ≡ spec.code_body code.now) }
{
    let mut fields = Fields::new(alloc, 5);
    add_code(alloc, &mut fields, code);
    fields.into_body()
}

/// The code that was just made, with its text.
pub fn new_code_body(alloc: Global, code: &ShareCode, text: &str) -> Result<Body, AllocError>
    ensures { IfOk result (λ body. body_tokens body ≡ spec.new_code_body code.now text.now) }
{
    let mut fields = Fields::new(alloc, 6);
    fields.add(true, Word::Code, line(alloc, text));
    add_code(alloc, &mut fields, code);
    fields.into_body()
}

/// Adds the fields of a share code.
fn add_code(alloc: Global, fields: &mut Fields, code: &ShareCode)
    ensures { (before : List Member) → holds fields.old before → holds fields.new (before ++ spec.code_members code.now) }
{
    fields.add(true, Word::Created, Ok(moment(code.created)));
    fields.add(true, Word::ExpiresAt, Ok(moment(code.expires_at)));
    fields.add(true, Word::Id, digits(alloc, code.id));
    fields.add(true, Word::Scopes, scopes(alloc, code.scopes.as_slice()));
    fields.add(true, Word::Server, key_line(alloc, &code.server));
}
