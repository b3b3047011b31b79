//! The parts of a request's target, and a text in a body.
ghost use Rattle.std.specs.Prelude.{◌≡◌, ◌==◌, ◌<◌, length, position, IfSome};
ghost use Rattle.std.specs.Option.{option_copied};
ghost use Rattle.serde_json.specs.View.{view};
ghost use Rattle.http_wire.specs.Target as targets;
ghost use Rattle.guard_login.specs.Queries as spec;

use serde_json::Value;

/// Where the first question mark stands.
fn first_mark(target: &[u8]) -> Option<usize>
    ensures value { result ≡ position (λ b. b == 63) target.now }
    ensures within { IfSome result (λ at. at < length target.now) }
{
    target.iter().position(|b| *b == b'?')
}

/// The path and the query, which is empty where there is none.
pub fn parts_of(target: &[u8]) -> (&[u8], &[u8])
    ensures path { result.0.now ≡ targets.path_of target.now }
    ensures query { result.1.now ≡ targets.query_of target.now }
{
    match first_mark(target) {
        Some(at) => (&target[..at], &target[at + 1..]),
        None => (target, &[]),
    }
}

/// The text at a key, or nothing where the key is absent or anything else stands there.
#[tactic(auto, unfolding(crate::specs::Queries::text_at))]
pub fn text_at<'a>(body: &'a Value, key: &str) -> Option<&'a str>
    ensures { option_copied result ≡ spec.text_at key.now (view body.now) }
{
    match body.get(key) {
        Some(value) => value.as_str(),
        None => None,
    }
}
