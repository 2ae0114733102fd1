//! Moments as they are read (XEP-0082, 3.2).
ghost use Rattle.std.specs.Prelude.{◌≡◌, ◌≤◌, ◌<◌, ◌^◌, length, IfSome};
ghost use Rattle.mam_wire.specs.Moments.{clock, day_in, day_number, digit_at, fits_in, four_at, has_form, in_utc, is_behind, is_clock, is_fraction};
ghost use Rattle.mam_wire.specs.Moments.{is_front, is_offset, is_stamp, is_zone, local, offset, since_1970, stamp_by, stamp_value, thousandths};
ghost use Rattle.mam_wire.specs.Moments.{two_at, zone_length, zone_place};

use crate::make::are_digits;
use crate::stamp::{DAY, LAST_MOMENT};
use jiff_core::civil::Date;

/// The bytes of a date and a time up to its seconds.
const FRONT: usize = 19;

/// The days from the first of the year -10000 to the first of -9999, with which jiff's days begin.
const FIRST_DAY: u64 = 366;

/// The days from the first of the year -10000 to the first of 1970.
const EPOCH: u64 = 4_371_953;

fn digit_at(text: &[u8], place: usize) -> u64
    ensures value { result ≡ digit_at text.now place }
    ensures small { result ≤ 9 }
{
    match text.get(place) {
        Some(byte) => byte.saturating_sub(b'0').min(9) as u64,
        None => 0,
    }
}

fn two_at(text: &[u8], place: usize) -> u64
    requires { place < 100 }
    ensures value { result ≡ two_at text.now place }
    ensures small { result ≤ 99 }
{
    digit_at(text, place) * 10 + digit_at(text, place + 1)
}

fn four_at(text: &[u8], place: usize) -> u64
    requires { place < 90 }
    ensures value { result ≡ four_at text.now place }
    ensures small { result ≤ 9999 }
{
    two_at(text, place) * 100 + two_at(text, place + 2)
}

fn fits_in(form: u8, byte: u8) -> bool
    ensures { result ≡ fits_in form byte }
{
    if form == b'0' {
        byte.is_ascii_digit()
    } else {
        byte == form
    }
}

fn has_form(form: &[u8], text: &[u8]) -> bool
    ensures { result ≡ has_form form.now text.now }
{
    if form.len() != text.len() {
        return false;
    }
    for (i, byte) in text.iter().enumerate() {
        if !fits_in(form[i], *byte) {
            return false;
        }
    }
    true
}

/// The days from the first of the year -10000 to a date, where the calendar has it.
fn day_number(year: u64, month: u64, day: u64) -> Option<u64>
    requires year { year ≤ 9999 }
    requires month { month ≤ 99 }
    requires day { day ≤ 99 }
    ensures value { result ≡ day_number year month day }
    ensures small { IfSome result (λ days. days ≤ 7304849) }
{
    match Date::new(year as i16, month as i8, day as i8) {
        Ok(date) => Some(date.days_since_min() as u64 + FIRST_DAY),
        Err(_) => None,
    }
}

fn day_in(front: &[u8]) -> Option<u64>
    ensures value { result ≡ day_in front.now }
    ensures small { IfSome result (λ days. days ≤ 7304849) }
{
    day_number(four_at(front, 0), two_at(front, 5), two_at(front, 8))
}

fn is_clock(hour: u64, minute: u64) -> bool
    ensures { result ≡ is_clock hour minute }
{
    hour < 24 && minute < 60
}

fn is_front(front: &[u8]) -> bool
    ensures { result ≡ is_front front.now }
{
    has_form(b"0000-00-00T00:00:00", front)
        && is_clock(two_at(front, 11), two_at(front, 14))
        && two_at(front, 17) < 60
}

/// In milliseconds.
fn clock(hour: u64, minute: u64) -> u64
    requires hour { hour ≤ 99 }
    requires minute { minute ≤ 99 }
    ensures value { result ≡ clock hour minute }
    ensures small { result ≤ 362340000 }
{
    hour * 3_600_000 + minute * 60_000
}

/// Whether this is nothing, or a point and 1 to 9 digits.
fn is_fraction(fraction: &[u8]) -> bool
    ensures { result ≡ is_fraction fraction.now }
{
    match fraction.split_first() {
        Some((point, digits)) => {
            *point == b'.' && digits.len() >= 1 && digits.len() <= 9 && are_digits(digits)
        }
        None => true,
    }
}

/// In milliseconds; digits past them are cut.
fn thousandths(fraction: &[u8]) -> u64
    ensures value { result ≡ thousandths fraction.now }
    ensures small { result ≤ 999 }
{
    digit_at(fraction, 1) * 100 + digit_at(fraction, 2) * 10 + digit_at(fraction, 3)
}

fn is_behind(zone: &[u8]) -> bool
    ensures { result ≡ is_behind zone.now }
{
    has_form(b"-00:00", zone)
}

fn is_offset(zone: &[u8]) -> bool
    ensures { result ≡ is_offset zone.now }
{
    (has_form(b"+00:00", zone) || is_behind(zone)) && is_clock(two_at(zone, 1), two_at(zone, 4))
}

fn is_zone(zone: &[u8]) -> bool
    ensures { result ≡ is_zone zone.now }
{
    zone == b"Z".as_slice() || is_offset(zone)
}

fn offset(zone: &[u8]) -> u64
    ensures value { result ≡ offset zone.now }
    ensures small { result ≤ 362340000 }
{
    clock(two_at(zone, 1), two_at(zone, 4))
}

/// What is so many milliseconds by a zone's clocks, in UTC.
fn in_utc(zone: &[u8], local: u64) -> u64
    requires { local ≤ 10 ^ 15 }
    ensures { result ≡ in_utc zone.now local }
{
    if is_behind(zone) {
        local + offset(zone)
    } else {
        local.saturating_sub(offset(zone))
    }
}

fn is_stamp(front: &[u8], fraction: &[u8], zone: &[u8]) -> bool
    ensures { result ≡ is_stamp front.now fraction.now zone.now }
{
    is_front(front) && is_fraction(fraction) && is_zone(zone)
}

/// Milliseconds from the first of the year -10000 on, by the zone's clocks.
fn local(front: &[u8], fraction: &[u8], days: u64) -> u64
    requires { days ≤ 7304849 }
    ensures value { result ≡ local front.now fraction.now days }
    ensures small { result ≤ 10 ^ 15 }
{
    let clock = clock(two_at(front, 11), two_at(front, 14));
    days * DAY + clock + two_at(front, 17) * 1_000 + thousandths(fraction)
}

fn since_1970(moment: u64) -> u64
    ensures { result ≡ since_1970 moment }
{
    moment.saturating_sub(EPOCH * DAY).min(LAST_MOMENT)
}

fn stamp_by(front: &[u8], fraction: &[u8], zone: &[u8]) -> Option<u64>
    ensures { result ≡ stamp_by front.now fraction.now zone.now }
{
    if !is_stamp(front, fraction, zone) {
        return None;
    }
    match day_in(front) {
        Some(days) => Some(since_1970(in_utc(zone, local(front, fraction, days)))),
        None => None,
    }
}

/// The length of the zone: a `Z` at the end, or else an offset.
fn zone_length(rest: &[u8]) -> usize
    ensures { result ≡ zone_length rest.now }
{
    let (_, last) = rest.split_at(rest.len().saturating_sub(1));
    if last == b"Z".as_slice() { 1 } else { 6 }
}

fn zone_place(rest: &[u8]) -> usize
    ensures place { result ≡ zone_place rest.now }
    ensures within { result ≤ length rest.now }
{
    rest.len().saturating_sub(zone_length(rest))
}

/// The moment that a stamp says, in milliseconds since 1970 (XEP-0082, 3.2): `YYYY-MM-DDThh:mm:ss`, a point and 1 to 9 digits of the second or nothing,
/// and `Z` or an offset of hours and minutes. Digits past milliseconds are cut. What is before 1970 counts as 0, and what is past the year 9999 as its end.
pub fn read_stamp(text: &[u8]) -> Option<u64>
    ensures { result ≡ stamp_value text.now }
{
    let (front, rest) = text.split_at(FRONT.min(text.len()));
    let (fraction, zone) = rest.split_at(zone_place(rest));
    stamp_by(front, fraction, zone)
}
