//! The power stops, or the device fails, at each call of the scenario, and again at each call of the recovery.

use crate::client::associated_by;
use crate::seen::{Seen, seen_in};
use crate::stops::acts::SIZE;
use crate::stops::play::{Played, play};
use crate::stops::{FORMATS, formatted, recovered};
use dlms_frame::Client;
use dlms_meter::Meter;
use dlms_pages::{MemoryPages, Pages, Pick};
use dlms_store::PAGES;
use std::alloc::{AllocError, Global};

/// How the device fails after this many calls.
#[derive(Clone, Copy, Debug)]
pub enum Fault {
    /// Every later call fails.
    Fuse,
    /// The next call fails.
    Once,
}

/// What a stop leaves of the pages in flight.
#[derive(Clone, Copy, Debug)]
pub enum Left {
    Old,
    New,
    Damaged,
    /// There is no stop: the meter is recovered from the device as it is.
    AsItIs,
}

/// The outcome of the scenario on a device with this failure, with the expected state at its end, and the device.
#[derive(Drop)]
struct Ended {
    played: Played,
    last: Seen,
    device: MemoryPages,
}

/// A new device with this failure, after this many calls of a formatted meter.
pub fn device_of(alloc: Global, fault: Fault, calls: u64) -> Result<MemoryPages, AllocError> {
    let mut device = MemoryPages::new(alloc, PAGES)?;
    let calls = FORMATS.saturating_add(calls);
    match fault {
        Fault::Fuse => device.fuse(calls),
        Fault::Once => device.fail_once(calls),
    }
    Ok(device)
}

/// Plays the scenario for a client that associates first.
pub fn played_on<P: Pages>(
    meter: &mut Meter<P>,
    trace: &mut Vec<Seen>,
) -> Result<Option<Played>, AllocError> {
    match associated_by(meter, Client::Management, SIZE) {
        Some(mut link) => Ok(Some(play(meter, &mut link, trace)?)),
        None => Ok(None),
    }
}

fn end_of(
    alloc: Global,
    fault: Fault,
    calls: u64,
    trace: &mut Vec<Seen>,
) -> Result<Option<Ended>, AllocError> {
    let device = device_of(alloc, fault, calls)?;
    let Some(mut meter) = formatted(alloc, device) else {
        return Ok(None);
    };
    let played = played_on(&mut meter, trace);
    let last = seen_in(&meter);
    let device = meter.close();
    match played? {
        Some(played) => Ok(Some(Ended {
            played,
            last,
            device,
        })),
        None => Ok(None),
    }
}

/// The device after a stop.
pub fn after_stop(device: MemoryPages, left: Left) -> MemoryPages {
    match left {
        Left::Old => device.cut(Pick::AllOld),
        Left::New => device.cut(Pick::AllNew),
        Left::Damaged => device.cut(Pick::AllDamaged),
        Left::AsItIs => device,
    }
}

/// The state found if the power stops in each call of the recovery in turn, until it ends.
pub fn found_after_stops(alloc: Global, device: MemoryPages, pick: Left) -> Option<Seen> {
    let mut device = device;
    for calls in 0..RECOVERY {
        device.fuse(calls);
        match recovered(alloc, device) {
            Ok(meter) => return Some(seen_in(&meter)),
            Err(back) => device = after_stop(back, pick),
        }
    }
    None
}

/// Whether what is found is a beginning of the events, with every answered one: it was seen on the way, between those places.
pub fn is_between(trace: &[Seen], answered: Seen, found: Seen, last: Seen) -> bool {
    let place = |what: Seen| trace.iter().position(|one| *one == what);
    match (place(answered), place(found), place(last)) {
        (Some(least), Some(here), Some(most)) => least <= here && here <= most,
        _ => false,
    }
}

/// The state found on a device, if there is a meter.
pub fn found_on(alloc: Global, device: MemoryPages) -> Option<Seen> {
    match recovered(alloc, device) {
        Ok(meter) => Some(seen_in(&meter)),
        Err(_) => None,
    }
}

/// The state found if the power stops after this many calls of a recovery.
pub fn found_behind(alloc: Global, device: MemoryPages, calls: u64, pick: Left) -> Option<Seen> {
    let mut device = device;
    device.fuse(calls);
    let device = match recovered(alloc, device) {
        Ok(meter) => meter.close(),
        Err(device) => device,
    };
    found_on(alloc, after_stop(device, pick))
}

/// Whether two equal runs come out as they may: the second is recovered with stops in its recovery.
fn are_right(alloc: Global, first: Ended, second: Ended, pick: Left, trace: &[Seen]) -> bool {
    let found = found_on(alloc, after_stop(first.device, pick));
    let again = found_after_stops(alloc, after_stop(second.device, pick), pick);
    let between = match found {
        Some(found) => is_between(trace, first.played.answered, found, first.last),
        None => false,
    };
    first.played.failed && first.played.is_right && between && again == found
}

/// Whether a run comes out as it may.
fn is_right(
    alloc: Global,
    fault: Fault,
    calls: u64,
    pick: Left,
    trace: &[Seen],
) -> Result<bool, AllocError> {
    let mut scratch = Vec::new(alloc);
    let first = end_of(alloc, fault, calls, &mut scratch)?;
    let second = end_of(alloc, fault, calls, &mut scratch)?;
    match (first, second) {
        (Some(first), Some(second)) => Ok(are_right(alloc, first, second, pick, trace)),
        _ => Ok(false),
    }
}

/// How often the device is called in the scenario.
pub const CALLS: u32 = 101;

/// More calls than a recovery makes: a sync, two gates, two bodies, eight ring pages and sixteen of the journal, and a checkpoint.
const RECOVERY: u64 = 64;

/// The expected states in the scenario, call by call, if the device never fails; None if a call answers otherwise.
pub fn whole(alloc: Global) -> Result<Option<Vec<Seen>>, AllocError> {
    let mut trace = Vec::new(alloc);
    match end_of(alloc, Fault::Fuse, u64::from(CALLS), &mut trace)? {
        Some(end) if end.played.is_right && !end.played.failed => Ok(Some(trace)),
        _ => Ok(None),
    }
}

/// How many runs there were, one for each number of calls that pass, and how many came out otherwise than they may.
pub fn stopped_everywhere(
    alloc: Global,
    fault: Fault,
    pick: Left,
) -> Result<(u32, u32), AllocError> {
    let Some(trace) = whole(alloc)? else {
        return Ok((0, 1));
    };
    let mut differ = 0u32;
    for calls in 0..CALLS {
        if !is_right(alloc, fault, u64::from(calls), pick, trace.as_slice())? {
            differ = differ.saturating_add(1);
        }
    }
    Ok((CALLS, differ))
}
