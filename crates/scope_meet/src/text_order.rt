//! The order of filters by their texts, which isn't that of filters: `a-b/` stands before `a/x`, and the user `a` before `a-b`.
ghost use Rattle.std.specs.Prelude.{◌≡◌, ◌≤◌, ◌⊎◌, length, slice_get};
ghost use Rattle.hub_kit.specs.KeyOrder.{name_cmp};
ghost use Rattle.scope_meet.specs.FilterTexts as spec;

use hub_kit::names::ServerKey;
use scope_filters::filter::Filter;
use std::cmp::Ordering;

/// Compares the texts of two filters byte by byte, without writing them.
pub fn text_cmp(f: &Filter, g: &Filter) -> Ordering
    ensures { result ≡ spec.text_cmp f.now g.now }
{
    kind_text(f).cmp(kind_text(g)).then(value_cmp(f, g))
}

/// What the text of a filter begins with.
fn kind_text(filter: &Filter) -> &'static str
    ensures { result.now ≡ spec.kind_text filter.now }
{
    match filter {
        Filter::All | Filter::OwnerOf(_) => "",
        Filter::Group(_) => "!group=",
        Filter::Server(_) => "!server=",
        Filter::Service(_) => "!service=",
        Filter::User(_) => "!user=",
    }
}

/// Compares what follows where two texts begin alike.
fn value_cmp(f: &Filter, g: &Filter) -> Ordering
    ensures { result ≡ spec.value_cmp f.now g.now }
{
    match f {
        Filter::User(u) => match g {
            Filter::User(w) => u.as_bytes().cmp(w.as_bytes()),
            _ => Ordering::Equal,
        },
        Filter::Group(u) => match g {
            Filter::Group(w) => u.as_bytes().cmp(w.as_bytes()),
            _ => Ordering::Equal,
        },
        Filter::Service(u) => match g {
            Filter::Service(w) => u.as_bytes().cmp(w.as_bytes()),
            _ => Ordering::Equal,
        },
        Filter::Server(k) => match g {
            Filter::Server(l) => key_text_cmp(k, l),
            _ => Ordering::Equal,
        },
        _ => Ordering::Equal,
    }
}

/// Compares two servers as `USER/SERVER` is written. No name has a slash.
fn key_text_cmp(k: &ServerKey, l: &ServerKey) -> Ordering
    ensures { result ≡ name_cmp (spec.key_text k.now) (spec.key_text l.now) }
{
    let first = k.user.as_str().as_bytes();
    let second = l.user.as_str().as_bytes();
    let shared = lesser_len(first, second);
    let begun = first[..shared].cmp(&second[..shared]);
    begun.then(end_cmp(byte_at(first, shared), byte_at(second, shared), k, l))
}

/// The length of the shorter of two texts.
fn lesser_len(first: &[u8], second: &[u8]) -> usize
    ensures in_first { result ≤ length first.now }
    ensures in_second { result ≤ length second.now }
    ensures whole { (result ≡ length first.now) ⊎ (result ≡ length second.now) }
{
    if first.len() < second.len() {
        first.len()
    } else {
        second.len()
    }
}

fn byte_at(text: &[u8], at: usize) -> Option<u8>
    ensures { result ≡ slice_get text.now at }
{
    text.get(at).copied()
}

/// Compares what follows where one user's name begins the other's: its next byte with the slash, or the servers' names.
fn end_cmp(first: Option<u8>, second: Option<u8>, k: &ServerKey, l: &ServerKey) -> Ordering
    ensures { result ≡ spec.end_cmp first second k.now.server l.now.server }
{
    match first {
        None => match second {
            None => k.server.as_bytes().cmp(l.server.as_bytes()),
            Some(b) => b'/'.cmp(&b),
        },
        Some(a) => match second {
            None => a.cmp(&b'/'),
            Some(b) => a.cmp(&b),
        },
    }
}
