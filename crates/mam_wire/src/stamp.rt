//! Moments as they are written (XEP-0082, 3.2).
ghost use Rattle.std.specs.Prelude.{◌≡◌, ◌+◌, ◌<◌, ◌/◌, ◌%◌, ◌^◌, pos, unsigned_abs, ◌≤ℤ◌};
ghost use Rattle.jiff.specs.Words.{epoch_day};
ghost use Rattle.mam_wire.specs.Stamps.{IsStamp, counted, digit, stamp_of, stamp_text};

use jiff::ToSpan;
use jiff::civil::{Date, date};

/// The end of the year 9999, in milliseconds since 1970.
pub(crate) const LAST_MOMENT: u64 = 253_402_300_799_999;

/// The milliseconds of a day.
pub(crate) const DAY: u64 = 86_400_000;

/// The date of a day that is counted from the first of 1970 on.
fn date_of(days: u32) -> Date
    requires { days < 2932897 }
    ensures day { epoch_day result ≡ pos days }
    ensures year { pos 1970 ≤ℤ result.year }
{
    match date(1970, 1, 1).checked_add((days as i64).days()) {
        Ok(date) => date,
        Err(_) => unreachable!(),
    }
}

fn year_of(date: Date) -> u64
    ensures { result ≡ unsigned_abs date.year }
{
    date.year().unsigned_abs() as u64
}

fn month_of(date: Date) -> u64
    ensures { result ≡ date.month }
{
    date.month() as u64
}

fn day_of(date: Date) -> u64
    ensures { result ≡ date.day }
{
    date.day() as u64
}

fn digit(n: u64) -> u8
    ensures { result ≡ digit n }
{
    b'0' + (n % 10) as u8
}

/// `YYYY-MM-DDThh:mm:ss.mmmZ`, of a date and the milliseconds since its beginning.
fn stamp_of(year: u64, month: u64, day: u64, of_day: u64) -> [u8; 24]
    ensures { result ≡ stamp_of year month day of_day }
{
    let hour = of_day / 3_600_000;
    let minute = of_day / 60_000 % 60;
    let second = of_day / 1_000 % 60;
    let milli = of_day % 1_000;
    [
        digit(year / 1_000),
        digit(year / 100),
        digit(year / 10),
        digit(year),
        b'-',
        digit(month / 10),
        digit(month),
        b'-',
        digit(day / 10),
        digit(day),
        b'T',
        digit(hour / 10),
        digit(hour),
        b':',
        digit(minute / 10),
        digit(minute),
        b':',
        digit(second / 10),
        digit(second),
        b'.',
        digit(milli / 100),
        digit(milli / 10),
        digit(milli),
        b'Z',
    ]
}

/// A moment in milliseconds since 1970 as it is written (XEP-0082, 3.2), in UTC and with three digits of the second. What is past the year 9999 counts as
/// its end.
pub fn write_stamp(moment: u64) -> [u8; 24]
    ensures stamp { IsStamp moment result }
    ensures text { result ≡ stamp_text moment }
{
    let moment = moment.min(LAST_MOMENT);
    let date = date_of((moment / DAY) as u32);
    stamp_of(year_of(date), month_of(date), day_of(date), moment % DAY)
}
