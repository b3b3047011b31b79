//! What stands at the front of bytes.
ghost use Rattle.http_wire.specs.Front.{IsFront};

use crate::place::ends_in_target;
use httparse::spans::{HeaderSpan, RequestSpans, parse_request};
use httparse::{Error, Status};

/// A whole head, the beginning of one, neither, or more headers than the spans have room for.
#[derive(Clone, Copy)]
pub(crate) enum Front {
    Whole(RequestSpans),
    Open,
    Bad,
    Crowded,
}

/// Looks for a head.
pub(crate) fn find_front(bytes: &[u8], spans: &mut [HeaderSpan]) -> Front
    ensures { IsFront bytes.now spans.new result }
{
    match parse_request(bytes, spans) {
        Ok(Status::Complete(head)) => Front::Whole(head),
        Ok(Status::Partial) => Front::Open,
        Err(error) => match error {
            Error::TooManyHeaders => Front::Crowded,
            _ if ends_in_target(bytes) => Front::Open,
            _ => Front::Bad,
        },
    }
}
