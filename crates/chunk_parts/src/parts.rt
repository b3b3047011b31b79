//! What stands next in a chunked body.
ghost use Rattle.std.specs.Prelude.{◌≡◌, ◌≢◌, ◌*◌, ◌<◌, ◌≤◌, ◌-◌, ℕ, List, length};
ghost use Rattle.chunk_parts.specs.Parts.{IsAt, IsPart, IsNoLine, is_done, after_line, after_data};

use httparse::spans::{EMPTY_HEADER_SPAN, HeaderSpan, parse_headers};
use httparse::{Status, parse_chunk_size};

/// How many bytes a size line, and how many a trailer may have.
const PART_LIMIT: usize = 16384;

/// From so many bytes on a trailer may have more than 64 headers, since each has at least three bytes.
const LONG_TRAILER: usize = 192;

/// Where a chunked body stands: what comes next.
#[derive(Clone, Copy, Debug, PartialEq, Eq)]
pub enum At {
    Line,
    Data(u64),
    LineEnd,
    Trailer,
    Done,
}

/// What stands there: so many bytes and what comes behind them, the beginning of a part, or neither.
#[derive(Clone, Copy, Debug, PartialEq, Eq)]
pub enum Part {
    Whole(usize, At),
    Open,
    Bad,
}

/// The body is whole.
pub fn is_done(at: At) -> bool
    ensures { result ≡ is_done at }
{
    match at {
        At::Line => false,
        At::Data(_) => false,
        At::LineEnd => false,
        At::Trailer => false,
        At::Done => true,
    }
}

fn after_line(size: u64) -> At
    ensures { result ≡ after_line size }
{
    match size {
        0 => At::Trailer,
        n => At::Data(n),
    }
}

fn after_data(rest: u64) -> At
    ensures { result ≡ after_data rest }
{
    match rest {
        0 => At::LineEnd,
        n => At::Data(n),
    }
}

/// Bytes that don't end are open as long as there may be more of them.
fn unended(count: usize) -> Part
    ensures { IsNoLine count result }
{
    if count < PART_LIMIT {
        return Part::Open;
    }
    Part::Bad
}

fn line_part(bytes: &[u8]) -> Part
    requires { length bytes.now ≤ 16384 }
    ensures { IsPart At.Line bytes.now result }
{
    match parse_chunk_size(bytes) {
        Ok(Status::Complete((len, size))) => Part::Whole(len, after_line(size)),
        Ok(Status::Partial) => unended(bytes.len()),
        Err(_) => Part::Bad,
    }
}

fn data_part(bytes: &[u8], count: u64) -> Part
    requires { 0 < count }
    ensures { IsPart (At.Data count) bytes.now result }
{
    if bytes.is_empty() {
        return Part::Open;
    }
    let len = count.min(bytes.len() as u64);
    Part::Whole(len as usize, after_data(count - len))
}

fn end_part(bytes: &[u8]) -> Part
    ensures { IsPart At.LineEnd bytes.now result }
{
    if bytes.is_empty() {
        return Part::Open;
    }
    if bytes[0] != 13 {
        return Part::Bad;
    }
    if bytes.len() == 1 {
        return Part::Open;
    }
    if bytes[1] != 10 {
        return Part::Bad;
    }
    Part::Whole(2, At::Line)
}

fn trailer_part(bytes: &[u8], spans: &mut [HeaderSpan]) -> Part
    requires short { length bytes.now ≤ 16384 }
    requires room { length bytes.now < 3 * length spans.old }
    ensures part { IsPart At.Trailer bytes.now result }
    ensures kept { length spans.new ≡ length spans.old }
{
    match parse_headers(bytes, spans) {
        Ok(Status::Complete((len, _))) => Part::Whole(len, At::Done),
        Ok(Status::Partial) => unended(bytes.len()),
        Err(_) => Part::Bad,
    }
}

/// A trailer that has few headers.
fn short_trailer(bytes: &[u8]) -> Part
    requires { length bytes.now < 192 }
    ensures { IsPart At.Trailer bytes.now result }
{
    let mut spans = [EMPTY_HEADER_SPAN; 64];
    trailer_part(bytes, &mut spans)
}

/// A trailer that may have many headers. Its room is 170 KiB of the stack, so it stays a function of its own: in line it would stand in the
/// frame of every caller. Hardly a trailer is so long.
#[inline(never)]
fn long_trailer(bytes: &[u8]) -> Part
    requires { length bytes.now ≤ 16384 }
    ensures { IsPart At.Trailer bytes.now result }
{
    let mut spans = [EMPTY_HEADER_SPAN; 5462];
    trailer_part(bytes, &mut spans)
}

/// A trailer, with room for as many headers as the bytes can have.
fn any_trailer(bytes: &[u8]) -> Part
    requires { length bytes.now ≤ 16384 }
    ensures { IsPart At.Trailer bytes.now result }
{
    if bytes.len() < LONG_TRAILER {
        short_trailer(bytes)
    } else {
        long_trailer(bytes)
    }
}

/// What stands next. Room for a trailer's headers is taken of the stack.
pub fn next_part(at: At, bytes: &[u8]) -> Part
    requires sane { IsAt at }
    requires short { length bytes.now ≤ 16384 }
    ensures { IsPart at bytes.now result }
{
    match at {
        At::Line => line_part(bytes),
        At::Data(count) => data_part(bytes, count),
        At::LineEnd => end_part(bytes),
        At::Trailer => any_trailer(bytes),
        At::Done => unreachable!(),
    }
}
