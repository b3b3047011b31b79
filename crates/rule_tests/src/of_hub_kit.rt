//! What no clause says: values from outside, and that each public call succeeds where there is memory.
use crate::check::{check, text};
use hub_kit::hashes::{hash_of, token_text};
use hub_kit::moment::Moment;
use hub_kit::moments::{MomentError, moment_text, read_moment};
use hub_kit::names::{NameError, read_key, read_user};
use hub_kit::targets::read_target;
use hub_kit::text::Text;
use std::alloc::{AllocError, Global};
use std::process::Abort;

const USERS: [(&str, Option<NameError>); 6] = [
    ("ann", None),
    (
        "abcdefghijklmnopqrstuvwxyz0123456789abcdefghijklmnopqrstuvwxyz01",
        None,
    ),
    (
        "abcdefghijklmnopqrstuvwxyz0123456789abcdefghijklmnopqrstuvwxyz012",
        Some(NameError::TooLong),
    ),
    ("", Some(NameError::Empty)),
    (".a", Some(NameError::BadByte(0))),
    ("aB", Some(NameError::BadByte(1))),
];

const KEYS: [(&str, Option<NameError>); 4] = [
    ("ann/", None),
    ("ann", Some(NameError::BadByte(3))),
    ("", Some(NameError::BadByte(0))),
    ("ann/lab/x", Some(NameError::BadByte(7))),
];

#[test]
fn names_and_keys(rt: HostRuntime) {
    for (text, error) in &USERS {
        check(&rt, read_user(text.as_bytes()).err() == *error, text);
    }
    for (text, error) in &KEYS {
        check(&rt, read_key(text.as_bytes()).err() == *error, text);
    }
}

/// Whether it is a text, and this one.
fn is_text(rt: &impl Abort, text: Result<Text, AllocError>, wanted: &str) -> bool {
    let text = text.expect(rt, "there is memory");
    let holds = text.as_str() == wanted;
    drop(text);
    holds
}

fn is_target(rt: &impl Abort, alloc: Global, text: &str, wanted: &str) -> bool {
    let target = read_target(alloc, text.as_bytes()).expect(rt, text);
    let holds = target.as_text().as_str() == wanted;
    drop(target);
    holds
}

#[test]
fn printed_texts(rt: HostRuntime) {
    let alloc = rt.alloc();
    let hash = "ba7816bf8f01cfea414140de5dae2223b00361a396177a9cb410ff61f20015ad";
    let draw = [0, 1, 2, 3, 4, 5, 6, 7, 8, 9, 10, 11, 12, 13, 254, 255];
    let token = "000102030405060708090a0b0c0dfeff";
    let moment = "1970-01-01T00:00:00Z";
    check(&rt, is_text(&rt, hash_of(alloc, b"abc"), hash), hash);
    check(&rt, is_text(&rt, token_text(alloc, draw), token), token);
    check(
        &rt,
        is_text(&rt, moment_text(alloc, Moment::zero()), moment),
        moment,
    );
    check(
        &rt,
        is_target(&rt, alloc, "http://h", "http://h:80"),
        "a target",
    );
    check(
        &rt,
        read_target(alloc, b"http://h:0").is_err(),
        "a port of 0",
    );
}

/// Texts, and their seconds where they are those of moments.
const MOMENTS: [(&str, Option<u64>); 4] = [
    ("2023-11-14T23:13:20.9+01:00", Some(1_700_000_000)),
    ("1969-12-31T23:59:59Z", Some(0)),
    ("9999-01-01T00:00:00Z", Some(250_000_000_000)),
    ("2023-11-14T22:13:20", None),
];

fn is_moment(rt: &impl Abort, alloc: Global, line: &str, seconds: Option<u64>) -> bool {
    let text = text(rt, alloc, line);
    let moment = read_moment(&text);
    drop(text);
    match moment {
        Ok(moment) => seconds == Some(moment.seconds()),
        Err(error) => seconds.is_none() & (error == MomentError::BadText),
    }
}

#[test]
fn moments(rt: HostRuntime) {
    let alloc = rt.alloc();
    for (text, seconds) in &MOMENTS {
        check(&rt, is_moment(&rt, alloc, text, *seconds), text);
    }
}
