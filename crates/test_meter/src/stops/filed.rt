//! The scenario on a meter in a file of slots in memory: after each number of its calls one fails, or the power stops.

use crate::seen::{Seen, seen_in};
use crate::stops::FORMATS;
use crate::stops::stops::{CALLS, Fault, is_between, played_on, whole};
use dlms_meter::Meter;
use dlms_pages::{FilePages, MemorySlots, SlotTear, SlotTears};
use dlms_store::PAGES;
use std::alloc::{AllocError, Global};

/// Pages in a file of slots in memory.
type SlotPages = FilePages<MemorySlots>;

/// The calls by which pages are opened: a read and a write of each slot, and a sync.
const OPENS: u64 = 2 * PAGES as u64 + 1;

/// The state of the meter that pages held, if one is recovered.
fn found_on(alloc: Global, pages: SlotPages) -> Option<Seen> {
    match Meter::recover(alloc, pages) {
        Ok(meter) => Some(seen_in(&meter)),
        Err(_) => None,
    }
}

/// The state of it if the power stopped, and the file is opened again.
fn found_behind_a_stop(alloc: Global, pages: SlotPages, tear: SlotTear) -> Option<Seen> {
    let left = pages.into_slots().cut(SlotTears::All(tear));
    match FilePages::over(alloc, left, PAGES) {
        Ok(pages) => found_on(alloc, pages),
        Err(_) => None,
    }
}

/// A new file with this failure, after this many calls of a formatted meter.
fn file_of(
    alloc: Global,
    fault: Fault,
    calls: u64,
    tear: SlotTear,
) -> Result<Option<SlotPages>, AllocError> {
    let mut slots = MemorySlots::new(alloc, PAGES)?;
    slots.fail_as(tear);
    let calls = (OPENS + FORMATS).saturating_add(calls);
    match fault {
        Fault::Fuse => slots.fuse(calls),
        Fault::Once => slots.fail_once(calls),
    }
    Ok(FilePages::over(alloc, slots, PAGES).ok())
}

/// Whether the outcome of a run is allowed: if the file failed once the same program recovers, and otherwise the power stops.
fn is_right(
    alloc: Global,
    fault: Fault,
    calls: u64,
    tear: SlotTear,
    trace: &[Seen],
) -> Result<bool, AllocError> {
    let Some(pages) = file_of(alloc, fault, calls, tear)? else {
        return Ok(false);
    };
    let Ok(mut meter) = Meter::format(alloc, pages) else {
        return Ok(false);
    };
    let mut scratch = Vec::new(alloc);
    let Some(played) = played_on(&mut meter, &mut scratch)? else {
        return Ok(false);
    };
    let last = seen_in(&meter);
    let pages = meter.close();
    let found = match fault {
        Fault::Fuse => found_behind_a_stop(alloc, pages, tear),
        Fault::Once => found_on(alloc, pages),
    };
    let between = match found {
        Some(found) => is_between(trace, played.answered, found, last),
        None => false,
    };
    Ok(played.failed && played.is_right && between)
}

/// How many runs there were, one for each number of calls that pass, and how many came out otherwise than they may.
pub fn stopped_in_a_file(
    alloc: Global,
    fault: Fault,
    tear: SlotTear,
) -> Result<(u32, u32), AllocError> {
    let Some(trace) = whole(alloc)? else {
        return Ok((0, 1));
    };
    let mut differ = 0u32;
    for calls in 0..CALLS {
        if !is_right(alloc, fault, u64::from(calls), tear, trace.as_slice())? {
            differ = differ.saturating_add(1);
        }
    }
    Ok((CALLS, differ))
}
