//! Octets that are a date-time.

ghost use Rattle.std.specs.Prelude.{◌≡◌};
ghost use Rattle.dlms_dissect.specs.Dates.{is_date_time, is_day, is_deviation, is_hour, is_within};

/// Whether a field of a date or a time is within these bounds, or is one of those from this on, which name no number.
fn is_within(least: u8, most: u8, names: u8, field: u8) -> bool
    ensures { result ≡ is_within least most names field }
{
    (least <= field && field <= most) || names <= field
}

/// Whether two octets are minutes from UTC: -720 to 840, or left open.
fn is_deviation(high: u8, low: u8) -> bool
    ensures { result ≡ is_deviation high low }
{
    let minutes = u32::from(high) * 256 + u32::from(low);
    minutes <= 840 || minutes == 0x8000 || 0x1_0000 - 720 <= minutes
}

/// Whether these are a month, a day of it and a day of the week.
fn is_day(month: u8, day: u8, weekday: u8) -> bool
    ensures { result ≡ is_day month day weekday }
{
    is_within(1, 12, 0xfd, month) && is_within(1, 31, 0xfd, day) && is_within(1, 7, 0xff, weekday)
}

/// Whether these are an hour, a minute, a second and hundredths of one.
fn is_hour(hour: u8, minute: u8, second: u8, hundredths: u8) -> bool
    ensures { result ≡ is_hour hour minute second hundredths }
{
    is_within(0, 23, 0xff, hour)
        && is_within(0, 59, 0xff, minute)
        && is_within(0, 59, 0xff, second)
        && is_within(0, 99, 0xff, hundredths)
}

/// Whether octets are a date-time (IEC 62056-6-2, 4.1.6.1), with parts left open or without.
pub fn is_date_time(octets: &[u8]) -> bool
    ensures { result ≡ is_date_time octets.now }
{
    match octets {
        [
            _,
            _,
            month,
            day,
            weekday,
            hour,
            minute,
            second,
            hundredths,
            high,
            low,
            _,
        ] => {
            is_day(*month, *day, *weekday)
                && is_hour(*hour, *minute, *second, *hundredths)
                && is_deviation(*high, *low)
        }
        _ => false,
    }
}
