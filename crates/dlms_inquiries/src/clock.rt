//! A meter's clock beside the system's, and what corrects it.

ghost use Rattle.std.specs.Prelude.{◌≡◌, ◌+◌, ◌<◌, ◌≤◌, ◌⊎◌, ◌^◌, ℤ, IfNone, IfSome, MatchOption, length, unsigned_abs};
ghost use Rattle.dlms_data.specs.declared.date_time.TheConstants.{LAST_SECOND};
ghost use Rattle.dlms_inquiries.specs.Clocks.{IsAhead, IsMoment, IsShown, IsSystem, IsSystemNow, IsTimeNow, IsTimeToSet, NamesMoment, deviation_of, is_off, nearest, shift_for};
ghost use Rattle.dlms_inquiries.specs.declared.clock.TheConstants.{BEGINNING};

use dlms_data::{LAST_SECOND, octets, secs};

/// The second of the system's clock, counted from 1970-01-01 00:00:00, at which the meter's begins.
const BEGINNING: u64 = 946_684_800;

/// The tags of an octet-string and of a date-time (A-XDR, IEC 62056-6-2, common data types).
const OCTET_STRING: u8 = 9;

const DATE_TIME: u8 = 25;

/// By how many seconds a clock is shifted at most (IEC 62056-6-2, Clock, shift_time).
const MOST_SHIFT: u64 = 900;

/// The greatest deviation, in minutes, and the bit of a date-time's status that says daylight saving (IEC 62056-6-2, date and time
/// formats).
const MOST_DEVIATION: u16 = 720;

const DAYLIGHT_SAVING: u8 = 0x80;

/// The second of a meter's clock, counted from 2000-01-01 00:00:00, at this second of the system's; `None` if no meter's clock can
/// show it, before 2000 or after 2099.
pub fn second_of(seconds: u64) -> Option<u32>
    ensures { MatchOption result ((seconds < BEGINNING)
        ⊎ (BEGINNING + LAST_SECOND < seconds)) (λ second. (second ≤ LAST_SECOND)
        × (BEGINNING + second ≡ seconds)) }
{
    let second = u32::try_from(seconds.checked_sub(BEGINNING)?).ok()?;
    if second <= LAST_SECOND {
        Some(second)
    } else {
        None
    }
}

/// Twelve octets, if they are twelve.
pub fn twelve(bytes: &[u8]) -> Option<[u8; 12]>
    ensures some { IfSome result (λ octets. octets ≡ bytes.now) }
    ensures none { IfNone result (length bytes.now ≡ 12 → ⊥) }
{
    let mut octets = [0; 12];
    if bytes.len() != 12 {
        return None;
    }
    octets.copy_from_slice(bytes);
    Some(octets)
}

/// The octets of a date-time that an encoding spells, as an octet-string or as a date-time.
pub fn clock_in(bytes: &[u8]) -> Option<[u8; 12]>
    ensures { IsShown bytes.now result }
{
    match bytes {
        [DATE_TIME, octets @ ..] => twelve(octets),
        [OCTET_STRING, 12, octets @ ..] => twelve(octets),
        _ => None,
    }
}

/// The deviation of a date-time, UTC minus its time, in minutes; 0 if it is left open.
fn deviation_of(clock: &[u8; 12]) -> i16
    ensures value { result ≡ deviation_of clock.now }
    ensures most { unsigned_abs result ≤ 720 }
{
    let deviation = i16::from_be_bytes([clock[9], clock[10]]);
    if deviation.unsigned_abs() <= MOST_DEVIATION {
        deviation
    } else {
        0
    }
}

/// The second of UTC that a date-time names.
fn second_in(clock: &[u8; 12]) -> Option<i64>
    ensures some { IfSome result (NamesMoment clock.now) }
    ensures none { IfNone result ((moment : ℤ) → NamesMoment clock.now moment → ⊥) }
    ensures bound { IfSome result (λ moment. unsigned_abs moment < 2 ^ 32) }
{
    let mut local = *clock;
    local[9] = 0;
    local[10] = 0;
    let second = secs(&local)?;
    Some(i64::from(second) + i64::from(deviation_of(clock)) * 60)
}

/// The nearest second that a clock can show.
fn nearest(second: i64) -> u32
    ensures value { result ≡ nearest second }
    ensures bound { result ≤ LAST_SECOND }
{
    if second < 0 {
        0
    } else if second > i64::from(LAST_SECOND) {
        LAST_SECOND
    } else {
        second as u32
    }
}

/// The date-time to set a clock that shows this to this second of UTC: with the clock's deviation and daylight saving, or in UTC if it
/// shows none.
pub fn time_to_set(shown: Option<[u8; 12]>, moment: i64) -> [u8; 12]
    requires { unsigned_abs moment < 2 ^ 40 }
    ensures { IsTimeToSet shown moment result }
{
    let Some(shown) = shown else {
        return octets(nearest(moment));
    };
    let mut time = octets(nearest(moment - i64::from(deviation_of(&shown)) * 60));
    time[9] = shown[9];
    time[10] = shown[10];
    time[11] = shown[11] & DAYLIGHT_SAVING;
    time
}

/// The time of a meter's clock, and the second of the system's clock then, counted from 2000-01-01 00:00:00.
#[derive(Clone, Copy)]
pub struct Comparison {
    pub shown: Option<[u8; 12]>,
    pub system: u32,
}

/// The second of UTC that a clock shows, if it shows one.
fn moment_of(shown: Option<[u8; 12]>) -> Option<i64>
    ensures value { IsMoment shown result }
    ensures bound { IfSome result (λ moment. unsigned_abs moment < 2 ^ 32) }
{
    second_in(&shown?)
}

impl Comparison {
    /// What this encoding of a clock's time shows, and this second of the system's clock, counted from 1970 on. One that no meter's clock
    /// can show is taken for the first second of 2000.
    pub fn of(encoding: &[u8], second: u64) -> Self
        ensures shown { IsShown encoding.now result.shown }
        ensures system { IsSystem second result.system }
    {
        Comparison {
            shown: clock_in(encoding),
            system: second_of(second).unwrap_or(0),
        }
    }

    /// By how many seconds the meter's clock is ahead of the system's, if it shows a time.
    pub fn ahead(&self) -> Option<i64>
        ensures value { IsAhead self.now result }
        ensures bound { IfSome result (λ ahead. unsigned_abs ahead < 2 ^ 33) }
    {
        Some(moment_of(self.shown)? - i64::from(self.system))
    }

    /// The second of the system's clock as a clock has it that shows this now, and was found so before. If one of the two shows no time,
    /// it is this second.
    fn system_now(&self, shown: Option<[u8; 12]>, second: u32) -> i64
        ensures value { IsSystemNow self.now shown second result }
        ensures bound { unsigned_abs result < 2 ^ 40 }
    {
        match (moment_of(shown), self.ahead()) {
            (Some(moment), Some(ahead)) => moment - ahead,
            _ => i64::from(second),
        }
    }

    /// The date-time to set a clock to that was found so before, and has this encoding now: the time that it shows less the seconds by
    /// which it was ahead. If it shows or showed no time, it is set to this second of the system's clock.
    pub fn time_now(&self, encoding: &[u8], second: u32) -> [u8; 12]
        ensures { IsTimeNow self.now encoding.now second result }
    {
        let shown = clock_in(encoding);
        time_to_set(shown, self.system_now(shown, second))
    }
}

/// Whether a clock that is ahead by this is off by more than this many seconds, or shows no time.
pub fn is_off(ahead: Option<i64>, threshold: u32) -> bool
    ensures { result ≡ is_off threshold ahead }
{
    match ahead {
        Some(ahead) => ahead.unsigned_abs() > u64::from(threshold),
        None => true,
    }
}

/// The shift that corrects a clock that is ahead by this, if it can be shifted so far.
pub fn shift_for(ahead: Option<i64>) -> Option<i16>
    ensures { result ≡ shift_for ahead }
{
    let ahead = ahead?;
    if ahead.unsigned_abs() > MOST_SHIFT {
        return None;
    }
    Some(-ahead as i16)
}
