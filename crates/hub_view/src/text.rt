//! The text of a body.
ghost use Rattle.std.specs.Prelude.{◌≡◌, ◌++◌, OnOk, IfOk};
ghost use Rattle.json.specs.Print.{print};
ghost use Rattle.hub_view.specs.Body.{body_tokens, items_tokens, pairs_tokens};

use crate::body::Body;
use crate::dates::write_moment;
use crate::word::MemberKey;
use hub_kit::bytes::Bytes;
use hub_kit::text::Text;
use json::Writer;
use std::alloc::{AllocError, Global};

/// The bytes that a text has room for at first, which the body of one object seldom passes.
const ROOM: usize = 1024;

#[cycle(write)]
fn write(body: &Body, out: &mut Writer) -> Result<(), AllocError>
    ensures ok { OnOk result (out.new.tokens ≡ out.old.tokens ++ body_tokens body.now) }
    ensures before { out.new.before ≡ out.old.before }
{
    match body {
        Body::Nothing => Ok(()),
        Body::Null => out.null(),
        Body::Truth(b) => out.boolean(*b),
        Body::Number(n) => out.u64(*n),
        Body::Fixed(word) => out.string(word.as_str()),
        Body::At(at) => write_moment(*at, out),
        Body::Line(text) => out.string(text.as_str()),
        Body::Items(items) => {
            out.begin_array()?;
            write_items(items, out)
        }
        Body::Pairs(pairs) => {
            out.begin_object()?;
            write_pairs(pairs, out)
        }
        Body::Record(fields) => {
            out.begin_object()?;
            write_record(fields, out)
        }
    }
}

#[cycle(write)]
fn write_items(items: &[Body], out: &mut Writer) -> Result<(), AllocError>
    ensures ok { OnOk result (out.new.tokens ≡ out.old.tokens ++ items_tokens items.now) }
    ensures before { out.new.before ≡ out.old.before }
{
    for item in items {
        write(item, out)?;
    }
    out.end_array()
}

#[cycle(write)]
fn write_pairs(pairs: &[(Text, Body)], out: &mut Writer) -> Result<(), AllocError>
    ensures ok { OnOk result (out.new.tokens ≡ out.old.tokens ++ pairs_tokens pairs.now) }
    ensures before { out.new.before ≡ out.old.before }
{
    for (key, value) in pairs {
        out.key(key.as_str())?;
        write(value, out)?;
    }
    out.end_object()
}

#[cycle(write)]
fn write_record(fields: &[(MemberKey, Body)], out: &mut Writer) -> Result<(), AllocError>
    ensures ok { OnOk result (out.new.tokens ≡ out.old.tokens ++ pairs_tokens fields.now) }
    ensures before { out.new.before ≡ out.old.before }
{
    for (key, value) in fields {
        out.key(key.as_str())?;
        write(value, out)?;
    }
    out.end_object()
}

/// The body as compact JSON, in UTF-8. Nothing is no bytes.
pub fn body_text(alloc: Global, body: &Body) -> Result<Bytes, AllocError>
    ensures { IfOk result (λ text. text ≡ print (body_tokens body.now)) }
{
    let mut out = Writer::new(Vec::with_capacity(alloc, ROOM)?);
    write(body, &mut out)?;
    Ok(Bytes::from_vec(out.into_inner()))
}
