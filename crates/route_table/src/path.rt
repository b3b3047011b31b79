//! Paths of routes.
ghost use Rattle.std.specs.Prelude.{◌≡◌, ◌==◌, ◌∷◌, [], if◌then◌else◌, ◌<◌, ◌+◌, ◌++◌, map, None, IfOk, OnOk, length, slice_index};
ghost use Rattle.std.specs.Prelude.{MatchOption};
ghost use Rattle.std.specs.String.{string_bytes};
ghost use Rattle.std.specs.Ordering.{nat_cmp};
ghost use Rattle.std.specs.Cmp.Lexicographic.{slice_cmp};
ghost use Rattle.percent_encoding.specs.Percent.{percent_decode};
ghost use Rattle.route_table.specs.Path.{rank, begins_slash_escape, slash_escape, bad_place, trimmed, HasNoSlashFrom, IsKey, decoded_parts};
ghost use Rattle.route_table.specs.Path.{is_plain, written_byte, parts, behind_slashes, ends_empty, listed_path};

use hub_kit::bytes::Bytes;
use hub_kit::text::Text;
use percent_encoding::{percent_decode, percent_encode_byte};
use std::alloc::{AllocError, Global};
use std::cmp::Ordering;

/// A slash ranks before every byte of a segment.
fn rank(b: u8) -> u16
    ensures { result ≡ rank b }
{
    if b == b'/' { 0 } else { b as u16 + 1 }
}

/// Orders a key and a path as their segments are ordered. The path's escapes are decoded as they are compared.
pub(crate) fn compare(key: &[u8], path: &[u8]) -> Ordering
    ensures { result ≡ slice_cmp nat_cmp (map rank key.now) (map rank (percent_decode path.now)) }
{
    let mut theirs = percent_decode(path);
    'bytes: for b in key {
        match theirs.next() {
            None => return Ordering::Greater,
            Some(other) => match rank(*b).cmp(&rank(other)) {
                Ordering::Equal => {}
                Ordering::Less => return Ordering::Less,
                Ordering::Greater => return Ordering::Greater,
            },
        }
    }
    match theirs.next() {
        None => Ordering::Equal,
        Some(_) => Ordering::Less,
    }
}

fn begins_slash_escape(bytes: &[u8]) -> bool
    ensures { result ≡ begins_slash_escape bytes.now }
{
    match bytes.first() {
        Some(b'%') => match percent_decode(bytes).next() {
            Some(b) => b == b'/',
            None => false,
        },
        _ => false,
    }
}

/// The place of the first escape of a slash.
fn slash_escape(path: &[u8]) -> Option<usize>
    ensures { result ≡ slash_escape path.now }
{
    let mut at = 0;
    'places: while at < path.len() {
        if begins_slash_escape(&path[at..]) {
            return Some(at);
        }
        at += 1;
    }
    None
}

/// Where the path breaks the rules.
pub(crate) fn bad_place(path: &[u8]) -> Option<usize>
    ensures { result ≡ bad_place path.now }
{
    match path.first() {
        Some(b'/') => slash_escape(path),
        _ => Some(0),
    }
}

/// The path without one slash at its end.
pub(crate) fn trimmed(path: &[u8]) -> &[u8]
    ensures { result.now ≡ trimmed path.now }
{
    match path.split_last() {
        Some((last, front)) => if *last == b'/' { front } else { path },
        None => path,
    }
}

/// The place of the last slash.
pub(crate) fn last_slash(path: &[u8]) -> Option<usize>
    ensures { MatchOption result (HasNoSlashFrom path.now 0)
        (λ at. (at < length path.now) × (slice_index path.now at ≡ 47) × HasNoSlashFrom path.now (at + 1)) }
{
    let mut end = path.len();
    'places: while end > 0 {
        let at = end - 1;
        if path[at] == b'/' {
            return Some(at);
        }
        end = at;
    }
    None
}

fn decoded_bytes(alloc: Global, path: &[u8]) -> Result<Bytes, AllocError>
    ensures { IfOk result (λ bytes. bytes ≡ percent_decode path.now) }
{
    // what is decoded is no longer than what was written
    let mut bytes = Vec::with_capacity(alloc, path.len())?;
    percent_decode(path).append_to(&mut bytes)?;
    Ok(Bytes::from_vec(bytes))
}

/// The path's bytes, decoded: its decoded segments, each behind a slash.
pub(crate) fn decoded(alloc: Global, path: &[u8]) -> Result<Bytes, AllocError>
    requires key { IsKey path.now }
    requires clear { slash_escape path.now ≡ None }
    ensures key { IfOk result (λ bytes. IsKey bytes) }
    ensures parts { IfOk result (λ bytes. parts bytes ≡ decoded_parts path.now) }
{
    let bytes = decoded_bytes(alloc, path)?;
    Ok(bytes)
}

/// Whether a listed path has the byte as it is.
fn is_plain(b: u8) -> bool
    ensures { result ≡ is_plain b }
{
    b.is_ascii_alphanumeric() || b == b'-' || b == b'.' || b == b'_' || b == b'~' || b == b'@'
}

/// Writes a byte of a decoded path.
fn push_byte(text: &mut String, b: u8) -> Result<(), AllocError>
    ensures { OnOk result (string_bytes text.new ≡ string_bytes text.old ++ (if b == 47 then 47 ∷ [] else written_byte b)) }
{
    if b == b'/' {
        text.push('/')
    } else if is_plain(b) {
        text.push(b as char)
    } else {
        text.push_str(percent_encode_byte(b))
    }
}

/// Whether a decoded path is empty or its last segment is.
fn ends_empty(key: &[u8]) -> bool
    requires { IsKey key.now }
    ensures { result ≡ ends_empty (parts key.now) }
{
    match key.split_last() {
        Some((last, _)) => *last == b'/',
        None => true,
    }
}

/// The decoded bytes, as they are listed.
fn written(alloc: Global, key: &[u8]) -> Result<String, AllocError>
    requires { IsKey key.now }
    ensures { IfOk result (λ text. string_bytes text ≡ behind_slashes (parts key.now)) }
{
    let mut text = String::with_capacity(alloc, key.len())?;
    'bytes: for b in key {
        push_byte(&mut text, *b)?;
    }
    Ok(text)
}

/// The path as it is listed, of its decoded bytes.
#[tactic(auto, using(crate::proofs::ListedLemmas::listed_more, crate::proofs::ListedLemmas::listed_whole))]
pub(crate) fn listed_text(alloc: Global, key: &[u8]) -> Result<Text, AllocError>
    requires { IsKey key.now }
    ensures { IfOk result (λ text. text ≡ listed_path (parts key.now)) }
{
    let mut text = written(alloc, key)?;
    if ends_empty(key) {
        push_byte(&mut text, b'/')?;
        return Ok(Text::from_string(text));
    }
    Ok(Text::from_string(text))
}
