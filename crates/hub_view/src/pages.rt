//! Lists in pages.
ghost use Rattle.std.specs.Prelude.{◌≡◌, IfOk};
ghost use Rattle.hub_view.specs.Body.{body_tokens, bodies};
ghost use Rattle.hub_view.specs.Pages as spec;

use crate::body::Body;
use crate::fields::Fields;
use crate::word::Word;
use hub_kit::text::Text;
use std::alloc::{AllocError, Global};

/// How many objects stand in a page at most.
const MOST: u64 = 200;

/// Which part of a list is asked for: at most `limit` objects from the place `offset` on, counted from 0. A limit above 200
/// counts as 200. `paged` tells whether the reply says which part it is.
#[derive(Clone, Copy, Debug, PartialEq, Eq)]
pub struct Page {
    pub offset: u64,
    pub limit: u64,
    pub paged: bool,
}

/// The body of a page of a list of `total` objects, of which `part` are those that stand in the page. `path` begins behind `/hub/api`.
/// Where the page is asked for as one, `_pagination` has `limit`, `offset`, `total` and `next`, which is null on the last page; else
/// the body is the list of the part.
pub fn page_body(
    alloc: Global,
    path: &str,
    page: Page,
    total: u64,
    part: Vec<Body>,
) -> Result<Body, AllocError>
    ensures { IfOk result (λ body. body_tokens body ≡ spec.page_body path.now page total (bodies part.items)) }
{
    if !page.paged {
        return Ok(Body::Items(part));
    }
    let mut fields = Fields::new(alloc, 2);
    let place = pagination(alloc, path, page, total);
    fields.add(true, Word::Pagination, place);
    fields.add(true, Word::Items, Ok(Body::Items(part)));
    fields.into_body()
}

fn pagination(alloc: Global, path: &str, page: Page, total: u64) -> Result<Body, AllocError>
    ensures { IfOk result (λ body. body_tokens body ≡ spec.pagination path.now page total) }
{
    let next = match next_offset(page, total) {
        Some(offset) => next_page(alloc, path, page, offset),
        None => Ok(Body::Null),
    };
    let mut fields = Fields::new(alloc, 4);
    fields.add(true, Word::Limit, Ok(Body::Number(limit_of(page))));
    fields.add(true, Word::Next, next);
    fields.add(true, Word::Offset, Ok(Body::Number(page.offset)));
    fields.add(true, Word::Total, Ok(Body::Number(total)));
    fields.into_body()
}

/// How many objects stand in the page at most.
pub fn limit_of(page: Page) -> u64
    ensures { result ≡ spec.most page }
{
    page.limit.min(MOST)
}

/// Where the next page begins, if objects are left. A place past the list is never added up.
fn next_offset(page: Page, total: u64) -> Option<u64>
    ensures { result ≡ spec.next_offset page total }
{
    let limit = limit_of(page);
    if page.offset < total && limit < total - page.offset {
        Some(page.offset + limit)
    } else {
        None
    }
}

fn next_page(alloc: Global, path: &str, page: Page, offset: u64) -> Result<Body, AllocError>
    ensures { IfOk result (λ body. body_tokens body ≡ spec.page_at path.now page offset) }
{
    let limit = limit_of(page);
    let url = page_url(alloc, path, limit, offset)?;
    let mut fields = Fields::new(alloc, 3);
    fields.add(true, Word::Limit, Ok(Body::Number(limit)));
    fields.add(true, Word::Offset, Ok(Body::Number(offset)));
    fields.add(true, Word::Url, Ok(Body::Line(url)));
    fields.into_body()
}

fn page_url(alloc: Global, path: &str, limit: u64, offset: u64) -> Result<Text, AllocError>
    ensures { IfOk result (λ text. text ≡ spec.page_url path.now limit offset) }
{
    let text = format!(in alloc; "/hub/api{path}?limit={limit}&offset={offset}")?;
    Ok(Text::from_string(text))
}
