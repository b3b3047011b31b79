//! A request's head as a value.
ghost use Rattle.std.specs.Prelude.{◌≡◌, map, length, IfOk, All, IsUtf8};
ghost use Rattle.httparse.specs.Spans.{IsRequestWithin, IsRequestOf, IsHeaderWithin, span_bytes};
ghost use Rattle.http_wire.specs.Head.{header_at, head_at};

use httparse::spans::{HeaderSpan, RequestSpans};
use hub_kit::bytes::Bytes;
use hub_kit::list::List;
use hub_kit::text::Text;
use std::alloc::{AllocError, Global};

/// A header, its value without the blanks around it.
pub struct Header {
    pub name: Text,
    pub value: Bytes,
}

impl Drop for Header {
    fn drop(self) {
        let Header { name: _, value: _ } = self;
    }
}

/// A request's head. `minor` is 0 for HTTP/1.0 and 1 for HTTP/1.1.
#[derive(Drop)]
pub struct Head {
    pub method: Text,
    pub target: Bytes,
    pub minor: u8,
    pub headers: List<Header>,
}

/// The text of bytes that are text.
pub(crate) fn text_of(alloc: Global, bytes: &[u8]) -> Result<Text, AllocError>
    requires { IsUtf8 bytes.now }
    ensures { IfOk result (λ text. text ≡ bytes.now) }
{
    match str::from_utf8(bytes) {
        Ok(text) => Text::from_str(alloc, text),
        Err(_) => unreachable!(),
    }
}

fn headers_of(alloc: Global, bytes: &[u8], spans: &[HeaderSpan]) -> Result<List<Header>, AllocError>
    requires within { All (IsHeaderWithin (length bytes.now)) spans.now }
    requires texts { All (λ span. IsUtf8 (span_bytes bytes.now span.name)) spans.now }
    ensures { IfOk result (λ headers. headers ≡ map (header_at bytes.now) spans.now) }
{
    let mut headers = List::new(alloc);
    for span in spans {
        let header = Header {
            name: text_of(alloc, span.name.of(bytes))?,
            value: Bytes::from_slice(alloc, span.value.of(bytes))?,
        };
        headers.push(header)?;
    }
    Ok(headers)
}

/// Copies the parts that the spans cover.
pub(crate) fn head_of(
    alloc: Global,
    bytes: &[u8],
    spans: &[HeaderSpan],
    r: RequestSpans,
) -> Result<Head, AllocError>
    requires within { IsRequestWithin bytes.now spans.now r }
    requires head { IsRequestOf bytes.now spans.now r }
    ensures { IfOk result (λ head. head ≡ head_at bytes.now spans.now r) }
{
    Ok(Head {
        method: text_of(alloc, r.method.of(bytes))?,
        target: Bytes::from_slice(alloc, r.path.of(bytes))?,
        minor: r.version,
        headers: headers_of(alloc, bytes, &spans[..r.headers])?,
    })
}
