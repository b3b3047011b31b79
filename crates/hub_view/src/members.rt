//! Parts of bodies: texts, lists of texts, and objects whose members stand there where they are shown.
ghost use Rattle.std.specs.Prelude.{◌≡◌, ◌++◌, OnOk, OnErr, IfOk};
ghost use Rattle.hub_view.specs.Json.{member};
ghost use Rattle.hub_view.specs.Json as json;
ghost use Rattle.hub_view.specs.Body.{body_tokens, members};

use crate::body::Body;
use crate::fields::Fields;
use crate::word::Word;
use hub_kit::text::Text;
use std::alloc::{AllocError, Global};

/// A text as a body.
pub fn line(alloc: Global, text: &str) -> Result<Body, AllocError>
    ensures { IfOk result (λ body. body_tokens body ≡ json.line text.now) }
{
    Ok(Body::Line(Text::from_str(alloc, text)?))
}

/// Adds a member where it is shown. Keys have to come in the order of their bytes.
pub fn add_member(
    alloc: Global,
    fields: &mut Vec<(Text, Body)>,
    shown: bool,
    key: &str,
    value: Body,
) -> Result<(), AllocError>
    ensures ok { OnOk result (members fields.new.items ≡ members fields.old.items ++ member shown key.now (body_tokens value)) }
    ensures err { OnErr result (fields.new.items ≡ fields.old.items) }
{
    if shown {
        let key = Text::from_str(alloc, key)?;
        fields.push((key, value))?;
    }
    Ok(())
}

/// The body of a refusal: its message and its status.
pub fn message_body(alloc: Global, status: u16, message: &str) -> Result<Body, AllocError>
    ensures { IfOk result (λ body. body_tokens body ≡ json.message_body status message.now) }
{
    let mut fields = Fields::new(alloc, 2);
    fields.add(true, Word::Message, line(alloc, message));
    fields.add(true, Word::Status, Ok(Body::Number(status as u64)));
    fields.into_body()
}
