//! Heads of requests and replies as they are passed on.
ghost use Rattle.std.specs.Prelude.{◌≡◌, ◌<◌, ◌≤◌, [], ◌++◌, length, take, map, not, All, IfOk, IfSome, OnOk};
ghost use Rattle.httparse.specs.Spans.{IsHeaderWithin, IsResponseWithin, span_bytes};
ghost use Rattle.http_wire.specs.Head.{header_at};
ghost use Rattle.proxy_wire.specs.Heads.{is_hop, is_switched, last_line, header_line, header_lines, request_line, status_line};
ghost use Rattle.proxy_wire.specs.Heads as spec;

use http_wire::head::{Head, Header};
use httparse::spans::{HeaderSpan, ResponseSpans};
use hub_kit::bytes::Bytes;
use std::alloc::{AllocError, Global};

pub(crate) const CONNECTION: &[u8] = b"connection";

const KEEP_ALIVE: &[u8] = b"keep-alive";

const PROXY_CONNECTION: &[u8] = b"proxy-connection";

pub(crate) const UPGRADE: &[u8] = b"upgrade";

const VERSION: &[u8] = b"HTTP/1.";

/// What stands between a header's name and its value.
const COLON: &[u8] = b": ";

const LINE_END: &[u8] = b"\r\n";

/// The last line of a head, and the empty line behind it.
const CLOSE_AND_END: &[u8] = b"Connection: close\r\n\r\n";

/// The same of an upgrade, and of the reply that switches over.
const UPGRADE_AND_END: &[u8] = b"Connection: Upgrade\r\n\r\n";

/// How many bytes a head's text has room for at the start. Most heads have fewer.
const HEAD_ROOM: usize = 1024;

/// Whether the header speaks to the next hop alone, and isn't passed on. An upgrade keeps `Upgrade`.
fn is_hop(upgrade: bool, name: &[u8]) -> bool
    ensures { result ≡ is_hop upgrade name.now }
{
    name.eq_ignore_ascii_case(CONNECTION)
        || name.eq_ignore_ascii_case(KEEP_ALIVE)
        || name.eq_ignore_ascii_case(PROXY_CONNECTION)
        || (!upgrade && name.eq_ignore_ascii_case(UPGRADE))
}

/// The last line of a head, and the empty line behind it.
fn last_line(upgrade: bool) -> &'static [u8]
    ensures { result.now ≡ last_line upgrade }
{
    if upgrade {
        UPGRADE_AND_END
    } else {
        CLOSE_AND_END
    }
}

/// Whether the connection is switched over to another protocol.
pub(crate) fn is_switched(status: u16) -> bool
    ensures { result ≡ is_switched status }
{
    status == 101
}

/// No bytes yet, with room for the text of most heads.
fn empty_text(alloc: Global) -> Result<Bytes, AllocError>
    ensures { IfOk result (λ text. text ≡ []) }
{
    Ok(Bytes::from_vec(Vec::with_capacity(alloc, HEAD_ROOM)?))
}

fn push_header(text: &mut Bytes, name: &[u8], value: &[u8]) -> Result<(), AllocError>
    ensures { OnOk result (text.new ≡ text.old ++ header_line (record { name = name.now; value = value.now })) }
{
    text.push_all(name)?;
    text.push_all(COLON)?;
    text.push_all(value)?;
    text.push_all(LINE_END)
}

/// The line of a header as it stands in the bytes, where it is written there as it is passed on: with one space behind the colon.
fn line_at<'a>(bytes: &'a [u8], span: HeaderSpan) -> Option<&'a [u8]>
    requires { IsHeaderWithin (length bytes.now) span }
    ensures { IfSome result (λ line. line.now ≡ header_line (header_at bytes.now span)) }
{
    let end = span.value.end;
    if span.value.start < span.name.end || bytes.len() - end < 2 {
        return None;
    }
    if &bytes[span.name.end..span.value.start] == COLON && &bytes[end..end + 2] == LINE_END {
        return Some(&bytes[span.name.start..end + 2]);
    }
    None
}

/// The line of a header of a reply, in one piece where it stands so in the bytes, as most do.
fn push_line(text: &mut Bytes, bytes: &[u8], span: HeaderSpan) -> Result<(), AllocError>
    requires { IsHeaderWithin (length bytes.now) span }
    ensures { OnOk result (text.new ≡ text.old ++ header_line (header_at bytes.now span)) }
{
    match line_at(bytes, span) {
        Some(line) => text.push_all(line),
        None => push_header(text, span.name.of(bytes), span.value.of(bytes)),
    }
}

/// The lines of a request's headers.
fn push_headers(text: &mut Bytes, upgrade: bool, headers: &[Header]) -> Result<(), AllocError>
    ensures { OnOk result (text.new ≡ text.old ++ header_lines upgrade headers.now) }
{
    'lines: for header in headers {
        if !is_hop(upgrade, header.name.as_bytes()) {
            push_header(text, header.name.as_bytes(), header.value.as_slice())?;
        }
    }
    Ok(())
}

/// The lines of a reply's headers, which stand in the bytes where the spans say.
fn push_spans(
    text: &mut Bytes,
    upgrade: bool,
    bytes: &[u8],
    spans: &[HeaderSpan],
) -> Result<(), AllocError>
    requires { All (IsHeaderWithin (length bytes.now)) spans.now }
    ensures { OnOk result (text.new ≡ text.old ++ header_lines upgrade (map (header_at bytes.now) spans.now)) }
{
    'lines: for span in spans {
        if !is_hop(upgrade, span.name.of(bytes)) {
            push_line(text, bytes, *span)?;
        }
    }
    Ok(())
}

fn push_request_line(text: &mut Bytes, head: &Head) -> Result<(), AllocError>
    requires { head.now.minor ≤ 1 }
    ensures { OnOk result (text.new ≡ text.old ++ request_line head.now.method head.now.target head.now.minor) }
{
    text.push_all(head.method.as_bytes())?;
    text.push_all(b" ")?;
    text.push_all(head.target.as_slice())?;
    text.push_all(b" ")?;
    text.push_all(VERSION)?;
    text.push_all(&[48 + head.minor, 13, 10])
}

/// The head of a request as it is sent on, as an upgrade or not.
pub fn request_text(alloc: Global, upgrade: bool, head: &Head) -> Result<Bytes, AllocError>
    requires { head.now.minor ≤ 1 }
    ensures { IfOk result (λ text. text ≡ spec.request_text upgrade head.now) }
{
    let mut text = empty_text(alloc)?;
    push_request_line(&mut text, head)?;
    push_headers(&mut text, upgrade, head.headers.as_slice())?;
    text.push_all(last_line(upgrade))?;
    Ok(text)
}

fn push_status_line(
    text: &mut Bytes,
    minor: u8,
    status: u16,
    reason: &[u8],
) -> Result<(), AllocError>
    requires { minor ≤ 1 }
    ensures { OnOk result (text.new ≡ text.old ++ status_line minor status reason.now) }
{
    let hundreds = 48 + (status / 100 % 10) as u8;
    let tens = 48 + (status / 10 % 10) as u8;
    let ones = 48 + (status % 10) as u8;
    text.push_all(VERSION)?;
    text.push_all(&[48 + minor, 32, hundreds, tens, ones, 32])?;
    text.push_all(reason)?;
    text.push_all(b"\r\n")?;
    Ok(())
}

/// The head of a reply as it is passed back, of the parts that the spans cover.
pub(crate) fn reply_text(
    alloc: Global,
    bytes: &[u8],
    spans: &[HeaderSpan],
    r: ResponseSpans,
) -> Result<Bytes, AllocError>
    requires { IsResponseWithin bytes.now spans.now r }
    ensures { IfOk result (λ text. text ≡ spec.reply_text r.version r.code (span_bytes bytes.now r.reason)
        (map (header_at bytes.now) (take r.headers spans.now))) }
{
    let mut text = empty_text(alloc)?;
    let switched = is_switched(r.code);
    push_status_line(&mut text, r.version, r.code, r.reason.of(bytes))?;
    push_spans(&mut text, switched, bytes, &spans[..r.headers])?;
    text.push_all(last_line(switched))?;
    Ok(text)
}
