//! The two parts of a request's target.
ghost use Rattle.std.specs.Prelude.{◌≡◌};
ghost use Rattle.http_wire.specs.Target.{path_of, query_of};

/// The path and the query, which is empty where there is none.
pub(crate) fn cut_target(target: &str) -> (&str, &str)
    ensures path { result.0.now ≡ path_of target.now }
    ensures query { result.1.now ≡ query_of target.now }
{
    match target.split_once('?') {
        Some((path, query)) => (path, query),
        None => (target, ""),
    }
}
