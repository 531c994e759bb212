//! The clock's seconds as date-times of twelve octets.

ghost use Rattle.std.specs.Prelude.{◌≡◌, ◌↔◌, ℕ, ◌+◌, ◌*◌, ◌<◌, ◌≤◌, length, pos, slice_index, IfSome, IfNone, IsTrue};
ghost use Rattle.jiff_core.specs.Calendar.{IsCivilDate, days_from_civil};
ghost use Rattle.jiff.specs.Words.{epoch_day, IsBetween, IsYmd};
ghost use Rattle.dlms_data.specs.DateTime.{second_at, IsDeviation, NamesSecond, IsPlainlyWritten};

use jiff::ToSpan;
use jiff::civil::{Date, date};

/// The last second of the clock: the end of 2099.
pub const LAST_SECOND: u32 = 3_155_759_999;

/// How many days after 2000-01-01 it ends.
const LAST_DAY: u32 = 36_524;

const SECONDS_A_DAY: u32 = 86_400;

/// The day on which the clock begins.
fn first_day() -> Date
    ensures { epoch_day result ≡ days_from_civil (pos 2000) 1 1 }
{
    date(2000, 1, 1)
}

/// The date that many days after 2000-01-01.
fn date_after(days: u32) -> Date
    requires { days ≤ LAST_DAY }
    ensures day { epoch_day result ≡ pos (10957 + days) }
    ensures year { IsBetween (pos 2000) (pos 2099) result.year }
{
    first_day() + i64::from(days).days()
}

/// The date's year in two octets, high one first.
fn year_octets(date: Date) -> [u8; 2]
    requires { IsBetween (pos 2000) (pos 2099) date.year }
    ensures size { length result ≡ 2 }
    ensures value { pos (256 * slice_index result 0 + slice_index result 1) ≡ date.year }
{
    (date.year() as u16).to_be_bytes()
}

/// The date-time of a second, counted from 2000-01-01 00:00:00: year (2 octets), month, day, day of the
/// week (1 for Monday), hour, minute, second, hundredths, deviation (2 octets) and status, the last
/// four of them zeros.
pub fn octets(secs: u32) -> [u8; 12]
    requires { secs ≤ LAST_SECOND }
    ensures second { NamesSecond result secs }
    ensures plain { IsPlainlyWritten result }
{
    let date = date_after(secs / SECONDS_A_DAY);
    let time = secs % SECONDS_A_DAY;
    let [high, low] = year_octets(date);
    let month = date.month() as u8;
    let day = date.day() as u8;
    let weekday = date.weekday().to_monday_one_offset() as u8;
    let hour = (time / 3600) as u8;
    let minute = (time / 60 % 60) as u8;
    let second = (time % 60) as u8;
    [
        high, low, month, day, weekday, hour, minute, second, 0, 0, 0, 0,
    ]
}

/// The date of a year, a month and a day, if the calendar has it.
fn date_of(year: u16, month: u8, day: u8) -> Option<Date>
    ensures some { IfSome result (IsYmd (pos year) (pos month) (pos day)) }
    ensures none { IfNone result (¬ (IsCivilDate (pos year) month day)) }
{
    if year > 9999 || month > 12 || day > 31 {
        return None;
    }
    Date::new(year as i16, month as i8, day as i8).ok()
}

/// The clock's second at that second of a day, if the clock has it.
fn second_of(date: Date, time: u32) -> Option<u32>
    requires { time < SECONDS_A_DAY }
    ensures some { IfSome result (λ s. (s ≤ LAST_SECOND)
        × (pos s ≡ second_at (epoch_day date) time)) }
    ensures none { IfNone result ((s : ℕ) → s ≤ LAST_SECOND
        → ¬ (pos s ≡ second_at (epoch_day date) time)) }
{
    let year = date.year();
    if year < 2000 || year > 2099 {
        return None;
    }
    let midnight = date.duration_since(first_day()).as_secs();
    Some(midnight as u32 + time)
}

/// Whether the deviation is 0 or left open.
fn is_deviation(high: u8, low: u8) -> bool
    ensures { IsTrue result ↔ IsDeviation high low }
{
    (high == 0 || high == 0x80) && low == 0
}

/// The second that a date-time names, counted from 2000-01-01 00:00:00, if it is one of the clock's. The
/// day of the week, hundredths and status are not looked at; the deviation is 0 or left open (8000).
pub fn secs(bytes: &[u8]) -> Option<u32>
    ensures some { IfSome result (NamesSecond bytes.now) }
    ensures none { IfNone result ((s : ℕ) → ¬ (NamesSecond bytes.now s)) }
{
    let [
        high,
        low,
        month,
        day,
        _,
        hour,
        minute,
        second,
        _,
        deviation,
        rest,
        _,
    ] = bytes
    else {
        return None;
    };
    if *hour > 23 || *minute > 59 || *second > 59 {
        return None;
    }
    if !is_deviation(*deviation, *rest) {
        return None;
    }
    let year = u16::from(*high) * 256 + u16::from(*low);
    let date = date_of(year, *month, *day)?;
    let time = u32::from(*hour) * 3600 + u32::from(*minute) * 60 + u32::from(*second);
    second_of(date, time)
}
