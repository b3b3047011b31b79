//! Moments of numbers and of texts, and their texts.
ghost use Rattle.std.specs.Prelude.{◌≡◌, ◌≤◌, pos, ◌*ℤ◌, length, IsOk, IfOk};
ghost use Rattle.jiff.specs.Words.{parse_timestamp, civil_nanos};
ghost use Rattle.hub_kit.specs.Moments.{greatest, moment_of};
ghost use Rattle.hub_kit.specs.MomentReads.{moment_read};
ghost use Rattle.hub_kit.specs.MomentTexts as spec;

use crate::moment::Moment;
use crate::text::Text;
use jiff::civil::DateTime;
use jiff::tz::Offset;
use jiff::{Error, Timestamp};
use std::alloc::{AllocError, Global};

/// Why a text is no moment.
#[derive(Clone, Copy, Debug, PartialEq, Eq)]
pub enum MomentError {
    BadText,
    Memory,
}

/// The moment of a number of seconds, unless it is past 250,000,000,000.
pub fn moment(seconds: u64) -> Option<Moment>
    ensures { result ≡ moment_of seconds }
{
    Moment::from_seconds(seconds)
}

/// The date and time in UTC of a moment, as `YYYY-MM-DDTHH:MM:SSZ` (RFC 3339).
pub fn moment_text(alloc: Global, at: Moment) -> Result<Text, AllocError>
    ensures text { IfOk result (λ text. text ≡ spec.moment_text at) }
    ensures len { IfOk result (λ text. length text ≡ 20) }
{
    let shown = match civil_of(at.seconds()) {
        Ok(shown) => shown,
        Err(_) => return Err(AllocError),
    };
    let text = format!(in alloc; "{shown}Z")?;
    Ok(Text::from_string(text))
}

/// The date and time in UTC of a number of seconds.
fn civil_of(seconds: u64) -> Result<DateTime, Error>
    requires { seconds ≤ greatest }
    ensures ok { IsOk result }
    ensures value { IfOk result (λ shown. civil_nanos shown ≡ pos seconds *ℤ pos 1_000_000_000) }
{
    let instant = Timestamp::from_second(seconds as i64)?;
    Ok(Offset::UTC.to_datetime(instant))
}

/// The moment of an instant's text (RFC 3339 and its relatives, with an offset or `Z`). The fraction of a second is
/// dropped, an instant before 1970 is 0, and one past the greatest moment is the greatest.
pub fn read_moment(text: &Text) -> Result<Moment, MomentError>
    ensures { result ≡ moment_read (parse_timestamp text.now) }
{
    let nanos = match read_instant(text.as_str()) {
        Ok(nanos) => nanos,
        Err(_) => return Err(MomentError::BadText),
    };
    if nanos < 0 {
        return Ok(Moment::zero());
    }
    let seconds = nanos / 1_000_000_000;
    if seconds > 250_000_000_000 {
        return Ok(Moment::greatest());
    }
    Ok(Moment::up_to(seconds as u64))
}

/// The nanoseconds since 1970-01-01T00:00:00Z of an instant's text.
fn read_instant(text: &str) -> Result<i128, Error>
    ensures { result ≡ parse_timestamp text.now }
{
    let read: Result<Timestamp, Error> = text.parse();
    match read {
        Ok(instant) => Ok(instant.as_nanosecond()),
        Err(error) => Err(error),
    }
}
