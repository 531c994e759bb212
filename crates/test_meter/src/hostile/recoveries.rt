//! Meters that are made and recovered on heaps of rising sizes: what is refused gives the device back with its events.

use crate::hostile::life::{MemoryMeter, counted};
use crate::seen::{Seen, seen_in};
use crate::tally::{Tally, Verdict};
use dlms_meter::Meter;
use dlms_pages::{MemoryPages, Pages};
use dlms_store::{OpenFault, PAGES};
use linked_list_allocator::LocalHeap;
use std::alloc::{AllocError, Global};

/// The state of the meter after its recovery, if there is one.
fn found<P: Pages + Drop>(alloc: Global, device: P) -> Option<Seen> {
    match Meter::recover(alloc, device) {
        Ok(meter) => Some(seen_in(&meter)),
        Err(_) => None,
    }
}

/// Whether a device with events is recovered on a heap, or given back with all of them for want of memory: whether it was.
fn recovered_on(alloc: Global, heap: &LocalHeap, meter: MemoryMeter) -> Option<bool> {
    let seen = seen_in(&meter);
    let (device, is_refused) = match Meter::recover(heap, meter.close()) {
        Ok(meter) if seen_in(&meter) == seen => (meter.close(), false),
        Err((device, OpenFault::Memory)) => (device, true),
        _ => return None,
    };
    (found(alloc, device) == Some(seen)).then_some(is_refused)
}

/// Whether a meter is made on a heap, or its device given back for want of memory: whether it was.
fn formatted_on(alloc: Global, heap: &LocalHeap, device: MemoryPages) -> Option<bool> {
    let (device, is_refused) = match Meter::format(heap, device) {
        Ok(meter) => (meter.close(), false),
        Err((device, OpenFault::Memory)) => (device, true),
        Err(_) => return None,
    };
    Meter::format(alloc, device).is_ok().then_some(is_refused)
}

/// Whether a meter is made over pages in a heap of which so much is left for what they write; or its device is given back as
/// failed, and the meter is made once the memory is there: whether it was.
fn formatted_over(alloc: Global, heap: &LocalHeap, left: usize) -> Option<bool> {
    let Ok(device) = MemoryPages::new(heap, PAGES) else {
        return None;
    };
    let taken = heap.free().saturating_sub(left);
    let Ok(ballast) = Vec::<u8, &LocalHeap>::with_capacity(heap, taken) else {
        return None;
    };
    let made = Meter::format(alloc, device);
    drop(ballast);
    match made {
        Ok(_) => Some(false),
        Err((device, OpenFault::Device)) => Meter::format(alloc, device).is_ok().then_some(true),
        Err(_) => None,
    }
}

/// Counts a case: the first one is to be refused, and the last one is not.
fn count(tally: &mut Tally, refused: Option<bool>, is_clean: bool, case: usize, cases: usize) {
    let is_right = match refused {
        Some(true) => case.saturating_add(1) < cases,
        Some(false) => case > 0,
        None => false,
    };
    tally.count(Verdict {
        is_noted: refused == Some(true),
        is_right: is_right && is_clean,
    });
}

/// Recoveries, and meters that are made, on heaps each larger by a step.
pub fn recoveries(alloc: Global, step: usize, cases: usize) -> Result<Tally, AllocError> {
    let mut tally = Tally::new();
    for case in 0..cases {
        let heap = LocalHeap::new(alloc, case.saturating_mul(step))?;
        if let Some(meter) = counted(alloc, alloc)? {
            let refused = recovered_on(alloc, &heap, meter);
            count(&mut tally, refused, heap.used() == 0, case, cases);
        }
        let device = MemoryPages::new(alloc, PAGES)?;
        let refused = formatted_on(alloc, &heap, device);
        count(&mut tally, refused, heap.used() == 0, case, cases);
    }
    Ok(tally)
}

/// The heap of a device, ample for its pages and for its writes.
const HEAP: usize = 524_288;

/// Meters over a device with more and more memory for its writes.
pub fn devices(alloc: Global, step: usize, cases: usize) -> Result<Tally, AllocError> {
    let mut tally = Tally::new();
    for case in 0..cases {
        let heap = LocalHeap::new(alloc, HEAP)?;
        let refused = formatted_over(alloc, &heap, case.saturating_mul(step));
        count(&mut tally, refused, heap.used() == 0, case, cases);
    }
    Ok(tally)
}
