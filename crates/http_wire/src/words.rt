//! The words of a header's value.
ghost use Rattle.std.specs.Prelude.{◌≡◌, ◌<◌, ◌==◌, ◌^◌, ℕ, List, [], ◌∷◌, length, MatchOption, IfSome, position};
ghost use Rattle.http_wire.specs.Words.{words, comma_parts};
ghost use Rattle.http_wire.specs.Words as spec;

/// Whether the byte is a space or a tab.
fn is_blank(b: u8) -> bool
    ensures { result ≡ spec.is_blank b }
{
    b == b' ' || b == b'\t'
}

/// Where the first blank stands.
fn first_blank(bytes: &[u8]) -> Option<usize>
    ensures value { result ≡ position spec.is_blank bytes.now }
    ensures within { IfSome result (λ i. i < length bytes.now) }
    ensures fits { length bytes.now < 2 ^ 64 }
{
    bytes.iter().position(|b| is_blank(*b))
}

/// The first word, and the bytes behind it.
pub(crate) fn next_word(bytes: &[u8]) -> Option<(&[u8], &[u8])>
    ensures { MatchOption result (words bytes.now ≡ [])
        (λ found. words bytes.now ≡ found.0.now ∷ words found.1.now) }
{
    let mut rest = bytes;
    'parts: loop {
        match first_blank(rest) {
            Some(0) => rest = &rest[1..],
            Some(end) => return Some((&rest[..end], &rest[end + 1..])),
            None if rest.is_empty() => return None,
            None => return Some((rest, &[])),
        }
    }
}

/// Where the first comma stands.
fn first_comma(bytes: &[u8]) -> Option<usize>
    ensures value { result ≡ position (λ b. b == 44) bytes.now }
    ensures within { IfSome result (λ i. i < length bytes.now) }
{
    bytes.iter().position(|b| *b == b',')
}

/// The bytes before the first comma, and those behind it.
pub(crate) fn next_part(bytes: &[u8]) -> (&[u8], Option<&[u8]>)
    ensures parts { MatchOption result.1 (comma_parts bytes.now ≡ result.0.now ∷ [])
        (λ rest. comma_parts bytes.now ≡ result.0.now ∷ comma_parts rest.now) }
    ensures shorter { IfSome result.1 (λ rest. length rest.now < length bytes.now) }
{
    match first_comma(bytes) {
        Some(end) => (&bytes[..end], Some(&bytes[end + 1..])),
        None => (bytes, None),
    }
}
