//! The segments of a path: its parts between slashes.
ghost use Rattle.std.specs.Prelude.{◌≡◌, IfOk};
ghost use Rattle.request_parts.specs.Paths as spec;

use crate::from_text::FromText;
use percent_encoding::{DecodeError, percent_decode};
use std::alloc::{AllocError, Global};

/// The part of a path after n slashes and before the next, or nothing where it has fewer.
#[tactic(auto, using(crate::proofs::Segments::one_more, crate::proofs::Segments::at_last))]
fn segment(path: &str, n: usize) -> &str
    ensures { result.now ≡ spec.segment n path.now }
{
    let mut rest = path;
    for passed in 0..n {
        rest = after_slash(rest);
    }
    before_slash(rest)
}

/// The number of the segment of a text in which a name first stands: the slashes before it are counted.
pub fn segment_number(text: &str, name: &str) -> usize
    ensures { result ≡ spec.segment_number name.now text.now }
{
    let bytes = text.as_bytes();
    let mut slashes = 0;
    for at in 0..bytes.len() {
        if bytes[at..].starts_with(name.as_bytes()) {
            return slashes;
        }
        if bytes[at] == b'/' {
            slashes += 1;
        }
    }
    slashes
}

/// What stands before the first slash of a text, or all where it has none.
fn before_slash(text: &str) -> &str
    ensures { result.now ≡ spec.before_slash text.now }
{
    match text.split_once('/') {
        Some((first, _)) => first,
        None => text,
    }
}

/// What stands after the first slash of a text, or nothing where it has none.
fn after_slash(text: &str) -> &str
    ensures { result.now ≡ spec.after_slash text.now }
{
    match text.split_once('/') {
        Some((_, rest)) => rest,
        None => "",
    }
}

/// The value that segment n of a path is, percent-decoded (RFC 3986, 2.1), or nothing where it is none. A path that begins
/// with a slash has the empty segment 0.
pub fn read_in_path<N: FromText>(
    alloc: Global,
    path: &str,
    n: usize,
) -> Result<Option<N>, AllocError>
    ensures { IfOk result (λ value. value ≡ spec.read_in_path N.reads n path.now) }
{
    match percent_decode(segment(path, n).as_bytes()).decode_utf8(alloc) {
        Ok(text) => N::from_text(alloc, text.as_str()),
        Err(DecodeError::Utf8(_)) => Ok(None),
        Err(DecodeError::OutOfMemory) => Err(AllocError),
    }
}
