//! Values of fields: texts, lists of texts and moments.
ghost use Rattle.std.specs.Prelude.{◌≡◌, ℕ, List, map, decimal, IfOk};
ghost use Rattle.hub_view.specs.Json as json;
ghost use Rattle.hub_view.specs.Body.{body_tokens};
ghost use Rattle.hub_view.specs.Servers as servers;
ghost use Rattle.hub_view.specs.Fields.{scope_lines};
ghost use Rattle.hub_view.specs.Records as records;
ghost use Rattle.hub_view.specs.Words.{word_text};

use crate::body::Body;
use crate::members::line;
use crate::word::Word;
use hub_kit::moment::Moment;
use hub_kit::names::{GroupName, RoleName, ServerKey, ServiceName, UserName, key_text};
use hub_kit::text::Text;
use scope_filters::scope::{RawScope, scope_text};
use std::alloc::{AllocError, Global};

/// A name.
pub trait Name {
    ghost text: { Self → List ℕ };

    fn text(&self) -> &str
        ensures { result.now ≡ text self.now };
}

impl Name for UserName {
    ghost text = { λ name. name };

    fn text(&self) -> &str {
        self.as_str()
    }
}

impl Name for GroupName {
    ghost text = { λ name. name };

    fn text(&self) -> &str {
        self.as_str()
    }
}

impl Name for ServiceName {
    ghost text = { λ name. name };

    fn text(&self) -> &str {
        self.as_str()
    }
}

impl Name for RoleName {
    ghost text = { λ name. name };

    fn text(&self) -> &str {
        self.as_str()
    }
}

/// True or false.
pub fn truth(value: bool) -> Body
    ensures { body_tokens result ≡ json.truth value }
{
    Body::Truth(value)
}

/// One of the hub's own words.
pub fn fixed(word: Word) -> Body
    ensures { body_tokens result ≡ json.line (word_text word) }
{
    Body::Fixed(word)
}

/// Names as a list of texts.
pub fn names<N: Name>(alloc: Global, names: &[N]) -> Result<Body, AllocError>
    ensures { IfOk result (λ body. body_tokens body ≡ json.lines (map N.text names.now)) }
{
    let mut items = Vec::with_capacity(alloc, names.len())?;
    for name in names {
        items.push(line(alloc, name.text())?)?;
    }
    Ok(Body::Items(items))
}

/// Scopes as a list of their texts.
pub fn scopes(alloc: Global, scopes: &[RawScope]) -> Result<Body, AllocError>
    ensures { IfOk result (λ body. body_tokens body ≡ scope_lines scopes.now) }
{
    let mut items = Vec::with_capacity(alloc, scopes.len())?;
    for scope in scopes {
        items.push(Body::Line(scope_text(alloc, scope)?))?;
    }
    Ok(Body::Items(items))
}

/// The text of a moment.
pub fn moment(at: Moment) -> Body
    ensures { body_tokens result ≡ servers.at at }
{
    Body::At(at)
}

/// The text of a moment, or null.
pub fn moment_or_null(at: Option<Moment>) -> Body
    ensures { body_tokens result ≡ json.maybe servers.at at }
{
    match at {
        Some(at) => moment(at),
        None => Body::Null,
    }
}

/// A text, or null.
pub fn line_or_null(alloc: Global, text: &Option<Text>) -> Result<Body, AllocError>
    ensures { IfOk result (λ body. body_tokens body ≡ json.maybe json.line text.now) }
{
    match text {
        Some(text) => line(alloc, text.as_str()),
        None => Ok(Body::Null),
    }
}

/// A number as a text of its digits.
pub fn digits(alloc: Global, number: u64) -> Result<Body, AllocError>
    ensures { IfOk result (λ body. body_tokens body ≡ json.line (decimal number)) }
{
    let text = format!(in alloc; "{number}")?;
    Ok(Body::Line(Text::from_string(text)))
}

/// `USER/SERVER`.
pub fn key_line(alloc: Global, key: &ServerKey) -> Result<Body, AllocError>
    ensures { IfOk result (λ body. body_tokens body ≡ records.key_line key.now) }
{
    Ok(Body::Line(key_text(alloc, key)?))
}
