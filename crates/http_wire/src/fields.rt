//! The headers of a name.
ghost use Rattle.std.specs.Prelude.{◌≡◌, ◌<◌, List, [], ◌∷◌, length, MatchOption, IfSome};
ghost use Rattle.http_wire.specs.Fields as spec;
ghost use Rattle.http_wire.specs.Fields.{values_of};

use crate::head::Header;

/// Whether the header has this name, without regard to ASCII case.
pub(crate) fn is_named(header: &Header, name: &[u8]) -> bool
    ensures { result ≡ spec.is_named name.now header.now }
{
    header.name.as_bytes().eq_ignore_ascii_case(name)
}

/// The value of the first header of that name, and the headers behind it.
pub(crate) fn first_named<'a>(
    headers: &'a [Header],
    name: &[u8],
) -> Option<(&'a [u8], &'a [Header])>
    ensures values { MatchOption result (values_of name.now headers.now ≡ [])
        (λ found. values_of name.now headers.now ≡ found.0.now ∷ values_of name.now found.1.now) }
    ensures shorter { IfSome result (λ found. length found.1.now < length headers.now) }
{
    for (i, header) in headers.iter().enumerate() {
        if is_named(header, name) {
            return Some((header.value.as_slice(), &headers[i + 1..]));
        }
    }
    None
}
