//! What protects an association with a meter, and the meter's counter that is kept after it.

use crate::connection::Calls;
use crate::counter::last_counter;
use dlms_faults::Fault;
use dlms_guards::{Protection, heed, keep, protection_of};
use dlms_keys::StoredCounters;
use dlms_secured::Guard;
use dlms_words::MeterOptions;
use std::alloc::Global;
use std::fs::{File, Files};
use std::net::Net;
use std::random::RandomSource;
use std::time::Clock;

/// The guard and the counters of a protection.
pub fn parted(protection: Option<Protection>) -> (Option<Box<Guard>>, Option<Box<StoredCounters>>) {
    match protection {
        Some(Protection { guard, counters }) => (Some(guard), Some(counters)),
        None => (None, None),
    }
}

/// The file of settings that protects the association; empty if none does.
fn settings_file<'a>(meter: &MeterOptions<'a>) -> &'a str {
    meter.security.unwrap_or("")
}

/// What protects an association for which this many counters are reserved. They come after the last one that the meter accepted, if that
/// is given.
#[inline(never)]
fn protection_for<'a, H: Files<File = File> + AllocGlobal + RandomSource>(
    host: &H,
    meter: &MeterOptions<'a>,
    last: Option<u32>,
    count: u32,
) -> Result<Protection, Fault<'a>> {
    let file = settings_file(meter);
    match protection_of(host, file, last, count) {
        Ok(protection) => Ok(protection),
        Err(fault) => Err(Fault::of_guard(host.alloc(), meter.place, file, fault)),
    }
}

/// What protects an association for which this many counters are reserved, if it is to be protected. The last counter that the meter
/// accepted is read from it if an option asks for that.
pub fn protection_with<'a, H: Net + Files<File = File> + Clock + AllocGlobal + RandomSource>(
    host: &H,
    meter: &MeterOptions<'a>,
    count: u32,
) -> Result<Option<Protection>, Fault<'a>> {
    if meter.security.is_none() {
        return Ok(None);
    }
    let last = match meter.counter_from {
        Some(name) => Some(last_counter(host, meter, name)?),
        None => None,
    };
    match protection_for(host, meter, last, count) {
        Ok(protection) => Ok(Some(protection)),
        Err(fault) => Err(fault),
    }
}

/// Keeps the meter's last counter, if the association is protected.
pub fn keep_counter<'a, C: Calls>(
    meter: &MeterOptions<'a>,
    counters: &mut Option<Box<StoredCounters>>,
    calls: &C,
) -> Result<(), Fault<'a>> {
    let Some(counters) = counters else {
        return Ok(());
    };
    match keep(counters, calls.peer(), calls.last_accepted()) {
        Ok(()) => Ok(()),
        Err(fault) => Err(Fault::Stored(settings_file(meter), fault)),
    }
}

/// Refuses an association whose first message is not newer than those of earlier ones, and keeps its counter.
pub fn heed_counter<'a, C: Calls>(
    alloc: Global,
    meter: &MeterOptions<'a>,
    counters: &mut Option<Box<StoredCounters>>,
    calls: &C,
) -> Result<(), Fault<'a>> {
    let Some(counters) = counters else {
        return Ok(());
    };
    let counter = calls.last_accepted();
    match heed(counters, calls.peer(), counter, counter) {
        Ok(()) => Ok(()),
        Err(fault) => Err(Fault::of_guard(alloc, meter.place, settings_file(meter), fault)),
    }
}
