//! A day of a household, so that a new meter has something to show.

use crate::Fault;
use dlms_data::LAST_SECOND;
use dlms_meter::Meter;
use dlms_pages::Pages;
use dlms_store::AddFault;
use dlms_words::FormatOptions;
use std::time::Clock;

/// The quarters of an hour of a day, and the seconds of one.
pub const QUARTERS: u32 = 96;

const QUARTER_SECONDS: u32 = 900;

/// The seconds of a day, and the second of the system's clock, counted from 1970-01-01, at which the meter's begins.
const DAY_SECONDS: u64 = 86_400;

const BEGINNING: u64 = 946_684_800;

/// The channel that counts what is taken in, and the one that counts what is fed in; a pulse is a watt-hour.
const IMPORT: u8 = 0;

const EXPORT: u8 = 1;

/// The watt-hours of the quarter of an hour that begins at each full hour, and of the one after the day: a morning, and an evening.
const TAKEN_IN: [u16; 25] = [
    45, 38, 34, 32, 32, 36, 60, 130, 150, 95, 60, 35, 20, 15, 20, 40, 75, 120, 190, 230, 200, 160,
    110, 70, 45,
];

/// The same for exported energy: a sunny noon.
const FED_IN: [u16; 25] = [
    0, 0, 0, 0, 0, 0, 0, 0, 15, 60, 125, 185, 220, 215, 175, 110, 45, 5, 0, 0, 0, 0, 0, 0, 0,
];

/// The watt-hours of a quarter: between two full hours they go straight from one to the other.
fn watt_hours(hours: &[u16; 25], quarter: u32) -> u32 {
    let hour = (quarter / 4) as usize;
    let part = quarter % 4;
    let here = hours.get(hour).copied().unwrap_or(0);
    let next = hours.get(hour + 1).copied().unwrap_or(0);
    (u32::from(here) * (4 - part) + u32::from(next) * part) / 4
}

/// Gives the meter the pulses of a quarter, if there are any.
fn count<P: Pages>(meter: &mut Meter<P>, channel: u8, pulses: u32) -> Result<(), AddFault> {
    if pulses == 0 {
        return Ok(());
    }
    meter.pulses(channel, pulses)
}

/// Tells a new meter of a day that begins at this second, counted from 2000-01-01 00:00:00. The meter captures each quarter of an hour,
/// and its beginning unless that is the second 0, at which a meter is made.
pub fn pass<P: Pages>(meter: &mut Meter<P>, begins: u32) -> Result<(), AddFault> {
    if begins > 0 {
        meter.moment(begins)?;
    }
    for quarter in 0..QUARTERS {
        count(meter, IMPORT, watt_hours(&TAKEN_IN, quarter))?;
        count(meter, EXPORT, watt_hours(&FED_IN, quarter))?;
        meter.moment(begins.saturating_add((quarter + 1) * QUARTER_SECONDS))?;
    }
    Ok(())
}

/// How many rows a meter has captured after a day that begins at this second.
pub fn rows_of(begins: u32) -> u32 {
    if begins > 0 { QUARTERS + 1 } else { QUARTERS }
}

/// The second at which the day begins that ended at the last midnight (UTC) of the system's clock, if a meter's clock can show it.
fn yesterday<'a, H: Clock>(host: &H) -> Result<u32, Fault<'a>> {
    let Ok(since) = host.since_1970() else {
        return Err(Fault::Now);
    };
    let days = since.as_secs().saturating_sub(BEGINNING) / DAY_SECONDS;
    match u32::try_from(days.saturating_sub(1).saturating_mul(DAY_SECONDS)) {
        Ok(second) if second > 0 && second <= LAST_SECOND => Ok(second),
        _ => Err(Fault::Now),
    }
}

/// The second at which the day begins that a new meter gets, if one is asked for.
pub fn day_of<'a, H: Clock>(
    host: &H,
    options: &FormatOptions<'a>,
) -> Result<Option<u32>, Fault<'a>> {
    if options.demo_day {
        Ok(Some(yesterday(host)?))
    } else if options.demo {
        Ok(Some(0))
    } else {
        Ok(None)
    }
}
