//! The text of a moment, made digit by digit, so that it takes no memory.
ghost use Rattle.std.specs.Prelude.{◌≡◌, ◌+◌, ◌/◌, ◌%◌, ◌<◌, ◌≤◌, ◌++◌, IsUtf8, OnOk};
ghost use Rattle.hub_kit.specs.Moments.{greatest};
ghost use Rattle.hub_kit.specs.MomentTexts as spec;
ghost use Rattle.hub_view.specs.Servers as servers;

use hub_kit::moment::Moment;
use json::Writer;
use std::alloc::AllocError;

/// A date.
#[derive(Clone, Copy)]
struct Date {
    year: u64,
    month: u64,
    day: u64,
}

/// The date of a day that is counted from 1 March of the year 0. The years begin on 1 March here, so that a leap day comes last in them:
/// 400 of them have 146,097 days, four have 1,461, and five months from March on have 153.
fn date_of(days: u64) -> Date
    requires { days ≤ 3612986 }
    ensures year { result.year ≡ spec.year days }
    ensures month { result.month ≡ spec.month days }
    ensures day { result.day ≡ spec.day_in_month days }
    ensures years { result.year < 10000 }
    ensures months { result.month < 100 }
    ensures days { result.day < 100 }
{
    let quarters = 4 * days + 3;
    let century = quarters / 146_097;
    let quarters = quarters % 146_097 / 4 * 4 + 3;
    let year = 100 * century + quarters / 1461;
    let day_in_year = quarters % 1461 / 4;
    let months = 5 * day_in_year + 461;
    let month = months / 153;
    let day = months % 153 / 5 + 1;
    if 12 < month {
        Date {
            year: year + 1,
            month: month - 12,
            day,
        }
    } else {
        Date { year, month, day }
    }
}

fn tens(number: u64) -> u8
    requires { number < 100 }
    ensures { result ≡ 48 + number / 10 }
{
    b'0' + (number / 10) as u8
}

fn ones(number: u64) -> u8
    ensures { result ≡ 48 + number % 10 }
{
    b'0' + (number % 10) as u8
}

/// The date and time in UTC of a number of seconds, as `YYYY-MM-DDTHH:MM:SSZ`.
fn cells_of(seconds: u64) -> [u8; 20]
    requires { seconds ≤ greatest }
    ensures text { result ≡ spec.moment_text seconds }
    ensures utf8 { IsUtf8 result }
{
    let date = date_of(seconds / 86_400 + 719_468);
    let century = date.year / 100;
    let year = date.year % 100;
    let hour = seconds / 3600 % 24;
    let minute = seconds / 60 % 60;
    let second = seconds % 60;
    [
        tens(century),
        ones(century),
        tens(year),
        ones(year),
        b'-',
        tens(date.month),
        ones(date.month),
        b'-',
        tens(date.day),
        ones(date.day),
        b'T',
        tens(hour),
        ones(hour),
        b':',
        tens(minute),
        ones(minute),
        b':',
        tens(second),
        ones(second),
        b'Z',
    ]
}

fn as_text(cells: &[u8]) -> &str
    requires { IsUtf8 cells.now }
    ensures { result.now ≡ cells.now }
{
    match std::str::from_utf8(cells) {
        Ok(text) => text,
        Err(_) => "",
    }
}

/// Writes the text of a moment.
pub fn write_moment(at: Moment, out: &mut Writer) -> Result<(), AllocError>
    ensures ok { OnOk result (out.new.tokens ≡ out.old.tokens ++ servers.at at) }
    ensures before { out.new.before ≡ out.old.before }
{
    let cells = cells_of(at.seconds());
    out.string(as_text(&cells))
}
