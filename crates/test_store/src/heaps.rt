//! Memory that is refused: the record of a device in memory, and the rows of a store, on heaps of rising sizes.

use crate::asked::{Ask, Came, asked, get};
use crate::report::Report;
use dlms_pages::{MemoryPages, Pages};
use dlms_store::{OpenFault, PAGES, Store};
use linked_list_allocator::LocalHeap;
use std::alloc::{AllocError, Allocator, Global};

/// How many heaps there are.
const HEAPS: usize = 128;

/// How much larger each is than the one before, from 0 on.
const STEP: usize = 64;

/// The outcomes of a write of page 0 and one of page 1, the content of the two then, and the faults.
type Two = [Came; 5];

/// The pages were refused, both writes, the second one, none.
const ENDS: [Option<Two>; 4] = [
    None,
    Some([
        Came::Fault,
        Came::Fault,
        Came::Full(0),
        Came::Full(0),
        Came::Number(2),
    ]),
    Some([
        Came::Done,
        Came::Fault,
        Came::Full(1),
        Came::Full(0),
        Came::Number(1),
    ]),
    Some([
        Came::Done,
        Came::Done,
        Came::Full(1),
        Came::Full(2),
        Came::Number(0),
    ]),
];

/// Two writes with this much memory; None if there is none for the pages.
fn two_writes<A: Allocator + Copy>(alloc: A) -> Option<Two> {
    let Ok(mut device) = MemoryPages::new(alloc, 2) else {
        return None;
    };
    let first = asked(&mut device, Ask::Put(0, 1));
    let second = asked(&mut device, Ask::Put(1, 2));
    Some([
        first,
        second,
        get(&mut device, 0),
        get(&mut device, 1),
        Came::Number(device.faults()),
    ])
}

/// Which of the ends it is.
fn end_of(two: Option<Two>) -> Option<usize> {
    ENDS.iter().position(|end| *end == two)
}

/// The outcomes of the writes on a heap of this size, and the memory left on it.
fn on_heap(report: &Report<'_>, size: usize) -> Result<(Option<usize>, usize), AllocError> {
    let heap = LocalHeap::new(report.alloc(), size)?;
    let end = end_of(two_writes(&heap));
    Ok((end, heap.used()))
}

/// The writes on a heap of this size come to an end, and all memory is given back. Returns which end.
fn play_heap(report: &mut Report<'_>, size: usize) -> Result<Option<usize>, AllocError> {
    let (end, kept) = on_heap(report, size)?;
    report.compare((size, "an end"), end.is_some(), true);
    report.compare((size, "kept"), kept, 0);
    Ok(end)
}

/// How often each end came, on a heap of each size.
fn play_heaps(report: &mut Report<'_>) -> Result<[u32; 4], AllocError> {
    let mut counts = [0u32; 4];
    for heap in 0..HEAPS {
        let end = play_heap(report, heap.saturating_mul(STEP))?;
        if let Some(count) = end.and_then(|end| counts.get_mut(end)) {
            *count = count.saturating_add(1);
        }
    }
    Ok(counts)
}

/// On a heap of each size the pages are refused, or a write is refused as a fault and does nothing, or all passes; all memory
/// is given back, and each of these comes.
pub fn play_writes(report: &mut Report<'_>) -> anyhow::Result<()> {
    report.begin("refused writes");
    let [no_pages, none, one, both] = play_heaps(report)?;
    report.compare(("pages refused", no_pages), 8 < no_pages, true);
    let refused = none.saturating_add(one);
    report.compare(("writes refused", refused), 2 < refused, true);
    report.compare(("passed", both), 8 < both, true);
    report.end();
    Ok(())
}

/// A store's rows take 24 bytes each, 23,040 in all: they have room from 23 KiB on.
static ROWS: [(usize, Option<OpenFault>); 4] = [
    (0, Some(OpenFault::Memory)),
    (22, Some(OpenFault::Memory)),
    (23, None),
    (32, None),
];

/// Why a device was not opened, and what is pending in its store if it is opened with enough memory.
type Found = (Option<OpenFault>, Option<usize>);

/// The device of a new store.
fn formatted(alloc: Global) -> Result<Option<MemoryPages>, AllocError> {
    let device = MemoryPages::new(alloc, PAGES)?;
    match Store::format(alloc, device) {
        Ok(store) => Ok(Some(store.close())),
        Err(refused) => {
            drop(refused);
            Ok(None)
        }
    }
}

/// The pending events in the store of a device.
fn pending_on(alloc: Global, device: MemoryPages) -> Option<usize> {
    match Store::open(alloc, device) {
        Ok(store) => {
            let pending = store.pending();
            drop(store);
            Some(pending)
        }
        Err(refused) => {
            drop(refused);
            None
        }
    }
}

/// The result for a device that is opened on a heap, and then with enough memory.
fn found_on(alloc: Global, heap: &LocalHeap, device: MemoryPages) -> Found {
    match Store::open(heap, device) {
        Ok(store) => (None, pending_on(alloc, store.close())),
        Err((device, fault)) => (Some(fault), pending_on(alloc, device)),
    }
}

/// The result for the device of a new store, opened on a heap of this many KiB.
fn found_on_heap(alloc: Global, kilobytes: usize) -> Result<Option<Found>, AllocError> {
    let heap = LocalHeap::new(alloc, kilobytes.saturating_mul(1024))?;
    let found = match formatted(alloc) {
        Ok(Some(device)) => Ok(Some(found_on(alloc, &heap, device))),
        Ok(None) => Ok(None),
        Err(refused) => Err(refused),
    };
    drop(heap);
    found
}

/// A device opened on a heap of this many KiB comes to this; it comes back, and opens with enough memory.
fn play_recovery(
    report: &mut Report<'_>,
    kilobytes: usize,
    fault: Option<OpenFault>,
) -> Result<(), AllocError> {
    match found_on_heap(report.alloc(), kilobytes)? {
        Some((found, pending)) => {
            report.compare((kilobytes, "opened"), found, fault);
            report.compare((kilobytes, "opened with room"), pending, Some(0));
        }
        None => report.compare((kilobytes, "formatted"), false, true),
    }
    Ok(())
}

/// Memory for the rows is requested once, and refused if the heap is too small; the device comes back.
pub fn play_recoveries(report: &mut Report<'_>) -> anyhow::Result<()> {
    report.begin("refused rows");
    for (kilobytes, fault) in &ROWS {
        play_recovery(report, *kilobytes, *fault)?;
    }
    report.end();
    Ok(())
}
