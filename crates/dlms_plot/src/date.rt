//! Seconds of the clock as dates.
ghost use Rattle.std.specs.Prelude.{◌<◌, ◌↔◌, IfSome, IsNone};
ghost use Rattle.dlms_data.specs.DateTime.{NamesSecond};

use dlms_data::{LAST_SECOND, octets};
use std::fmt;

/// A second of the clock as a day and a time, as `2000-01-01 00:15:00`; a number past the clock's range stands as such.
#[derive(Clone, Copy, PartialEq, Eq)]
pub struct Date(pub u32);

/// The day of a second of the clock, as `2000-01-01`.
#[derive(Clone, Copy, PartialEq, Eq)]
pub struct Day(pub u32);

/// The minute of a second of the clock within its day, as `00:15`; nothing past the clock's range.
#[derive(Clone, Copy, PartialEq, Eq)]
pub struct Minute(pub u32);

/// A second of the clock as a day and a time of ISO 8601, as `2000-01-01T00:15:00`; a number past the clock's range as such.
#[derive(Clone, Copy, PartialEq, Eq)]
pub struct Iso(pub u32);

/// The date-time of a second of the clock, counted from 2000-01-01 00:00:00. None past the clock's range.
fn date_time(second: u32) -> Option<[u8; 12]>
    ensures some { IfSome result (λ octets. NamesSecond octets second) }
    ensures none { IsNone result ↔ (LAST_SECOND < second) }
{
    if second > LAST_SECOND {
        return None;
    }
    Some(octets(second))
}

impl fmt::Display for Day {
    fn fmt<W: fmt::Write>(&self, f: &mut fmt::Formatter<W>) -> fmt::Result {
        let second = self.0;
        let Some(octets) = date_time(second) else {
            return write!(f, "second {second}");
        };
        let [high, low, month, day, ..] = octets;
        let year = u16::from_be_bytes([high, low]);
        write!(f, "{year:04}-{month:02}-{day:02}")
    }
}

impl fmt::Display for Minute {
    fn fmt<W: fmt::Write>(&self, f: &mut fmt::Formatter<W>) -> fmt::Result {
        let Some(octets) = date_time(self.0) else {
            return Ok(());
        };
        let [_, _, _, _, _, hour, minute, ..] = octets;
        write!(f, "{hour:02}:{minute:02}")
    }
}

impl fmt::Display for Date {
    fn fmt<W: fmt::Write>(&self, f: &mut fmt::Formatter<W>) -> fmt::Result {
        let day = Day(self.0);
        let minute = Minute(self.0);
        let Some(octets) = date_time(self.0) else {
            return write!(f, "{day}");
        };
        let [_, _, _, _, _, _, _, second, ..] = octets;
        write!(f, "{day} {minute}:{second:02}")
    }
}

impl fmt::Display for Iso {
    fn fmt<W: fmt::Write>(&self, f: &mut fmt::Formatter<W>) -> fmt::Result {
        let day = Day(self.0);
        let minute = Minute(self.0);
        let Some(octets) = date_time(self.0) else {
            return write!(f, "{day}");
        };
        let [_, _, _, _, _, _, _, second, ..] = octets;
        write!(f, "{day}T{minute}:{second:02}")
    }
}
