//! The values of the headers of a name: none, one or several.
ghost use Rattle.std.specs.Prelude.{◌≡◌, ◌∷◌, ◌++◌, [], ℕ, List, length, map, All};
ghost use Rattle.std.specs.Str.{str_eq_ignore_ascii_case};
ghost use Rattle.httparse.specs.Spans.{IsHeaderWithin};
ghost use Rattle.http_wire.specs.Due as due;
ghost use Rattle.http_wire.specs.Fields.{values_of};
ghost use Rattle.http_wire.specs.Head.{header_at};
ghost use Rattle.proxy_wire.specs.Framing.{IsGiven};

use http_wire::decimal::{Decimal, number_in};
use http_wire::head::Header;
use httparse::spans::HeaderSpan;

/// The values of the headers of a name.
#[derive(Clone, Copy)]
pub(crate) enum Given<'a> {
    Nothing,
    One(&'a [u8]),
    Several,
}

/// With one value more.
fn another<'a>(found: Given<'a>, value: &'a [u8]) -> Given<'a>
    ensures { (values : List (List ℕ)) → IsGiven values found.entry → IsGiven (values ++ value.now ∷ []) result }
{
    match found {
        Given::Nothing => Given::One(value),
        Given::One(_) => Given::Several,
        Given::Several => Given::Several,
    }
}

fn is_same(name: &[u8], wanted: &[u8]) -> bool
    ensures { result ≡ str_eq_ignore_ascii_case name.now wanted.now }
{
    name.eq_ignore_ascii_case(wanted)
}

/// With the value of a header, if it has the name, without regard to ASCII case.
fn with_header<'a>(found: Given<'a>, name: &[u8], value: &'a [u8], wanted: &[u8]) -> Given<'a>
    ensures { (values : List (List ℕ)) → IsGiven values found.entry
        → IsGiven (values ++ values_of wanted.now (record { name = name.now; value = value.now } ∷ [])) result }
{
    if is_same(name, wanted) {
        another(found, value)
    } else {
        found
    }
}

/// The values of a name in a request's headers.
pub(crate) fn given_in<'a>(headers: &'a [Header], name: &[u8]) -> Given<'a>
    ensures { IsGiven (values_of name.now headers.now) result }
{
    let mut found = Given::Nothing;
    'all: for header in headers {
        found = with_header(found, header.name.as_bytes(), header.value.as_slice(), name);
    }
    found
}

/// The values of a name in headers that stand in the bytes where the spans say.
pub(crate) fn given_at<'a>(bytes: &'a [u8], spans: &[HeaderSpan], name: &[u8]) -> Given<'a>
    requires { All (IsHeaderWithin (length bytes.now)) spans.now }
    ensures { IsGiven (values_of name.now (map (header_at bytes.now) spans.now)) result }
{
    let mut found = Given::Nothing;
    'all: for span in spans {
        found = with_header(found, span.name.of(bytes), span.value.of(bytes), name);
    }
    found
}

/// The one number that the values say; several are no number.
pub(crate) fn number_given(given: Given) -> Option<Decimal>
    ensures { (values : List (List ℕ)) → IsGiven values given.entry → result ≡ due.number_said values }
{
    match given {
        Given::Nothing => None,
        Given::One(value) => Some(number_in(value)),
        Given::Several => Some(Decimal::Other),
    }
}
