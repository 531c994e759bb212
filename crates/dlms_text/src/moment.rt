//! Times with their offset from UTC, as ISO 8601 writes them.

use jiff_core::civil::{Date, Time};
use jiff_fmt::temporal::{Pieces, parse_pieces};

/// The deviation that is not said (IEC 62056-6-2, date and time formats).
const NO_DEVIATION: i16 = i16::MIN;

/// The deviation that a text says, UTC minus its time in minutes; not said if the text has neither `Z` nor an offset. None for an
/// offset with seconds.
fn deviation_of(pieces: &Pieces<'_>) -> Option<i16> {
    let Some(offset) = pieces.offset else {
        return Some(NO_DEVIATION);
    };
    let seconds = offset.to_numeric_offset().seconds;
    if seconds % 60 != 0 {
        return None;
    }
    i16::try_from(0i32.saturating_sub(seconds / 60)).ok()
}

/// The date-time of a date, a time and a deviation: year (2 octets), month, day, day of the week (1 for Monday), hour, minute, second,
/// hundredths, deviation (2 octets) and status.
fn date_time(date: Date, time: Time, deviation: i16) -> Option<[u8; 12]> {
    let [high, low] = u16::try_from(date.year).ok()?.to_be_bytes();
    let weekday = date.weekday().to_monday_one_offset() as u8;
    let [first, second] = deviation.to_be_bytes();
    Some([
        high,
        low,
        date.month,
        date.day,
        weekday,
        time.hour,
        time.minute,
        time.second,
        0,
        first,
        second,
        0,
    ])
}

/// The date-time that a text says, as `2026-01-31T12:00:00Z`, `2026-01-31T12:00:00+01:00`, or without an offset, whose deviation is
/// not said then (0x8000). None for a text with the name of a time zone.
pub fn date_time_in(text: &str) -> Option<[u8; 12]> {
    let pieces = parse_pieces(text.as_bytes()).ok()?;
    if pieces.time_zone_annotation.is_some() {
        return None;
    }
    date_time(pieces.date, pieces.time?, deviation_of(&pieces)?)
}
