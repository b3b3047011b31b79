//! The data of a chunked body that is whole.
ghost use Rattle.std.specs.Prelude.{◌≡◌, ◌++◌, take, IfOk, OnOk};
ghost use Rattle.chunk_parts.specs.Parts.{IsAt};
ghost use Rattle.hub_link.specs.Chunked.{IsDataOf, IsStep, data_part};

use chunk_parts::parts::{At, Part, is_done, next_part};
use hub_kit::bytes::Bytes;
use std::alloc::{AllocError, Global};

/// How many bytes a size line, and how many a trailer may have.
const PART_LIMIT: usize = 16384;

/// As many of the bytes as a part may have.
fn window_of(rest: &[u8]) -> &[u8]
    ensures { result.now ≡ take 16384 rest.now }
{
    if rest.len() > PART_LIMIT {
        &rest[..PART_LIMIT]
    } else {
        rest
    }
}

/// The part that stands next, and what comes behind it. Where there is none, no body is whole in these bytes.
fn step_at(at: At, rest: &[u8]) -> Option<(usize, At)>
    requires { IsAt at }
    ensures { IsStep at rest.now result }
{
    let window = window_of(rest);
    match next_part(at, window) {
        Part::Whole(len, next) => Some((len, next)),
        Part::Open => None,
        Part::Bad => None,
    }
}

/// Adds what of a part is data.
fn push_part(content: &mut Bytes, at: At, piece: &[u8]) -> Result<(), AllocError>
    ensures { OnOk result (content.new ≡ content.old ++ data_part at piece.now) }
{
    match at {
        At::Line => Ok(()),
        At::Data(_) => content.push_all(piece),
        At::LineEnd => Ok(()),
        At::Trailer => Ok(()),
        At::Done => Ok(()),
    }
}

/// What the chunks have, one after the other, exactly where the bytes are one whole chunked body and nothing behind it. Extensions and
/// trailers are read and dropped.
pub(crate) fn chunked_data(alloc: Global, bytes: &[u8]) -> Result<Option<Bytes>, AllocError>
    ensures { IfOk result (IsDataOf bytes.now) }
{
    let mut content = Bytes::new(alloc);
    let mut at = At::Line;
    let mut count = 0;
    'parts: while !is_done(at) {
        let rest = &bytes[count..];
        let Some((len, next)) = step_at(at, rest) else {
            return Ok(None);
        };
        push_part(&mut content, at, &rest[..len])?;
        count += len;
        at = next;
    }
    if count == bytes.len() {
        Ok(Some(content))
    } else {
        Ok(None)
    }
}
