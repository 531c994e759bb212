//! Clocks as text.

ghost use Rattle.std.specs.Prelude.{◌≡◌, ◌+◌, ◌*◌, ◌++◌, ◌<◌, ◌≤◌, ℕ, List, OnOk, IfOk, IfSome, IfNone, IfErr, MatchBool, length, ◌∷◌};
ghost use Rattle.dlms_data.specs.DateTime.{NamesSecond};
ghost use Rattle.dlms_data.specs.declared.date_time.TheConstants.{LAST_SECOND};
ghost use Rattle.dlms_buffer.specs.Clock.{two_digits, digits_and, iso_of, hours_of, offset_of, deviation_of, local, IsClock, IsClockText};

use dlms_data::{LAST_SECOND, octets, secs};
use std::alloc::{AllocError, Allocator};

/// The last two digits of a number.
#[tactic(auto, unfolding(crate::specs::Clock::two_digits))]
fn two_digits(number: u16) -> [u8; 2]
    ensures { result ≡ two_digits number }
{
    [b'0' + (number / 10 % 10) as u8, b'0' + (number % 10) as u8]
}

/// Appends the last two digits of a number.
fn append_digits<A: Allocator>(text: &mut Vec<u8, A>, number: u16) -> Result<(), AllocError>
    ensures { OnOk result (text.new.items ≡ text.old.items ++ two_digits number) }
{
    text.extend_from_slice(&two_digits(number))
}

/// Appends the last two digits of a number, and a separator.
fn append_part<A: Allocator>(
    text: &mut Vec<u8, A>,
    number: u16,
    separator: u8,
) -> Result<(), AllocError>
    ensures { OnOk result (text.new.items ≡ text.old.items ++ digits_and number separator) }
{
    append_digits(text, number)?;
    text.push(separator)?;
    Ok(())
}

/// Appends a date and a time as ISO 8601.
fn append_iso<A: Allocator>(text: &mut Vec<u8, A>, octets: &[u8; 12]) -> Result<(), AllocError>
    ensures { OnOk result (text.new.items ≡ text.old.items ++ iso_of octets.now) }
{
    let year = 256 * u16::from(octets[0]) + u16::from(octets[1]);
    append_digits(text, year / 100)?;
    append_part(text, year % 100, b'-')?;
    append_part(text, u16::from(octets[2]), b'-')?;
    append_part(text, u16::from(octets[3]), b'T')?;
    append_part(text, u16::from(octets[5]), b':')?;
    append_part(text, u16::from(octets[6]), b':')?;
    append_digits(text, u16::from(octets[7]))?;
    Ok(())
}

/// Appends hours and minutes after a sign.
fn append_hours<A: Allocator>(
    text: &mut Vec<u8, A>,
    sign: u8,
    minutes: u16,
) -> Result<(), AllocError>
    ensures { OnOk result (text.new.items ≡ text.old.items ++ sign ∷ hours_of minutes) }
{
    text.push(sign)?;
    append_part(text, minutes / 60, b':')?;
    append_digits(text, minutes % 60)
}

/// Appends the offset from UTC of a deviation, if it has one.
fn append_offset<A: Allocator>(text: &mut Vec<u8, A>, deviation: u16) -> Result<(), AllocError>
    ensures { OnOk result (text.new.items ≡ text.old.items ++ offset_of deviation) }
{
    match deviation {
        0 => append_hours(text, b'+', 0),
        1..721 => append_hours(text, b'-', deviation),
        64816.. => append_hours(text, b'+', u16::MAX - deviation + 1),
        _ => Ok(()),
    }
}

/// The second of the local time of a date-time.
fn second_of(octets: &[u8]) -> Option<u32>
    ensures some { IfSome result (IsClock octets.now) }
    ensures none { IfNone result ((s : ℕ) → ¬ (IsClock octets.now s)) }
{
    let [a, b, c, d, e, f, g, h, i, _, _, l] = octets else {
        return None;
    };
    secs(&[*a, *b, *c, *d, *e, *f, *g, *h, *i, 0x80, 0, *l])
}

/// The second of the local time of a date-time, moved on by `later` seconds, unless it is after 2099.
fn second_after(clock: &[u8], later: u64) -> Option<u32>
    ensures some { IfSome result (λ after. (after ≤ LAST_SECOND)
        × ((second : ℕ) × IsClock clock.now second × (after ≡ second + later))) }
    ensures none { IfNone result ((second : ℕ) → IsClock clock.now second
        → LAST_SECOND < second + later) }
{
    let second = second_of(clock)?;
    let after = u64::from(second).saturating_add(later);
    if after > u64::from(LAST_SECOND) {
        return None;
    }
    Some(after as u32)
}

/// Appends a date-time as ISO 8601, moved on by `later` seconds, with its offset from UTC if it has one. Returns `false`, and appends
/// nothing, if the octets are not a date-time from 2000 to 2099, or if the result is after 2099.
pub fn append_clock<A: Allocator>(
    text: &mut Vec<u8, A>,
    clock: &[u8],
    later: u64,
) -> Result<bool, AllocError>
    ensures { IfOk result (λ b. MatchBool b
        ((more : List ℕ) × IsClockText clock.now later more
        × (text.new.items ≡ text.old.items ++ more))
        ((text.new ≡ text.old)
        × ((second : ℕ) → IsClock clock.now second → LAST_SECOND < second + later))) }
{
    let Some(after) = second_after(clock, later) else {
        return Ok(false);
    };
    append_iso(text, &octets(after))?;
    append_offset(text, 256 * u16::from(clock[9]) + u16::from(clock[10]))?;
    Ok(true)
}
