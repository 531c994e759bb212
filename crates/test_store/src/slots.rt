//! Pages over slots in memory, which keep the rules of a file: a slot torn at each octet; and the scenario of the stops, with a call
//! of the file that fails, or the power that stops, at each of them, and again while the file is opened.

use crate::asked::{Ask, Came, asked, get};
use crate::report::Report;
use crate::scripts::FORMATS;
use crate::stops::{accepted, settled_in};
use dlms_pages::{FilePages, MemorySlots, SLOT_BYTES, SlotTear, SlotTears};
use dlms_store::{PAGES, Store};
use std::alloc::{AllocError, Global};

/// Pages over slots in memory.
type SlotPages = FilePages<MemorySlots>;

/// The calls by which pages are opened: a read and a write of each slot, and a sync.
const OPENS: u64 = 2 * PAGES as u64 + 1;

/// The calls of the scenario, and of the store that is closed after it.
const CALLS: u64 = 16;

/// How the file fails after this many calls.
#[derive(Clone, Copy, Debug, PartialEq, Eq)]
enum Fault {
    /// Every later call fails, and then the power stops.
    Stop,
    /// The next call fails, and the same program goes on.
    GoesOn,
    /// The next call fails, and another program opens the file.
    Another,
}

static FAULTS: [Fault; 3] = [Fault::Stop, Fault::GoesOn, Fault::Another];

/// What is left of a slot that is being written: of the failed call's, and of all if the power stops.
static TEARS: [SlotTear; 6] = [
    SlotTear::Old,
    SlotTear::New,
    SlotTear::Front(272),
    SlotTear::Front(540),
    SlotTear::Back(512),
    SlotTear::EverySecond,
];

/// The pages of slots in memory, if they can be opened.
fn opened(alloc: Global, slots: MemorySlots) -> Option<SlotPages> {
    FilePages::over(alloc, slots, PAGES).ok()
}

/// Slots with this failure, after this many calls of a formatted store.
fn slots_of(
    alloc: Global,
    fault: Fault,
    calls: u64,
    tear: SlotTear,
) -> Result<MemorySlots, AllocError> {
    let mut slots = MemorySlots::new(alloc, PAGES)?;
    slots.fail_as(tear);
    let calls = (OPENS + FORMATS).saturating_add(calls);
    match fault {
        Fault::Stop => slots.fuse(calls),
        Fault::GoesOn | Fault::Another => slots.fail_once(calls),
    }
    Ok(slots)
}

/// Pages with a failed call, with the least and the most pulses that they may represent.
#[derive(Drop)]
struct Failed {
    pages: SlotPages,
    settled: u32,
    most: u32,
}

/// The scenario, up to the first fault.
fn played(
    alloc: Global,
    fault: Fault,
    calls: u64,
    tear: SlotTear,
) -> Result<Option<Failed>, AllocError> {
    let Some(pages) = opened(alloc, slots_of(alloc, fault, calls, tear)?) else {
        return Ok(None);
    };
    let Ok(mut store) = Store::format(alloc, pages) else {
        return Ok(None);
    };
    let settled = settled_in(&mut store);
    let most = accepted(&store);
    Ok(Some(Failed {
        pages: store.close(),
        settled,
        most,
    }))
}

/// The number of pulses found on pages, and the slots afterwards.
fn found_on(alloc: Global, pages: SlotPages) -> (Option<u32>, MemorySlots) {
    match Store::open(alloc, pages) {
        Ok(store) => (Some(accepted(&store)), store.close().into_slots()),
        Err((pages, _)) => (None, pages.into_slots()),
    }
}

/// The number found when the slots are opened.
fn found_in(alloc: Global, slots: MemorySlots) -> Option<u32> {
    found_on(alloc, opened(alloc, slots)?).0
}

/// The number found after a fault: by this program or another one, or after a stop.
fn found_behind(alloc: Global, fault: Fault, pages: SlotPages, tear: SlotTear) -> Option<u32> {
    match fault {
        Fault::Stop => found_in(alloc, pages.into_slots().cut(SlotTears::All(tear))),
        Fault::Another => found_in(alloc, pages.into_slots()),
        Fault::GoesOn => {
            let (found, slots) = found_on(alloc, pages);
            let again = found_in(alloc, slots.cut(SlotTears::All(tear)));
            if found == again { found } else { None }
        }
    }
}

/// What is left of slots if the power stops after this many calls of their opening or of the recovery.
fn stopped_again(alloc: Global, slots: MemorySlots, calls: u64, tear: SlotTear) -> MemorySlots {
    let mut slots = slots;
    slots.fuse(calls);
    let slots = match FilePages::over(alloc, slots, PAGES) {
        Ok(pages) => found_on(alloc, pages).1,
        Err((slots, _)) => slots,
    };
    slots.cut(SlotTears::All(tear))
}

/// The calls of an opening and a recovery after which the power stops again: at its first and last slots, at its sync, and in the
/// recovery.
static AGAIN: [u64; 12] = [
    0,
    1,
    2,
    3,
    62,
    63,
    123,
    OPENS - 1,
    OPENS,
    OPENS + 1,
    OPENS + 14,
    OPENS + 20,
];

/// The number found after a stop and a second one.
fn found_again(
    alloc: Global,
    calls: u64,
    tear: SlotTear,
    again: u64,
) -> Result<Option<Option<u32>>, AllocError> {
    match played(alloc, Fault::Stop, calls, tear)? {
        Some(failed) => {
            let left = failed.pages.into_slots().cut(SlotTears::All(tear));
            let also = found_in(alloc, stopped_again(alloc, left, again, tear));
            Ok(Some(also))
        }
        None => Ok(None),
    }
}

/// The same number is found after a second stop.
fn play_second_stops(
    report: &mut Report<'_>,
    calls: u64,
    tear: SlotTear,
    found: Option<u32>,
) -> Result<(), AllocError> {
    let alloc = report.alloc();
    for again in &AGAIN {
        if let Some(also) = found_again(alloc, calls, tear, *again)? {
            report.compare((calls, tear, *again), also, found);
        }
    }
    Ok(())
}

/// The number found after a fault, and whether it is no less than was settled and no more than was accepted.
fn found_after(
    alloc: Global,
    fault: Fault,
    calls: u64,
    tear: SlotTear,
) -> Result<Option<(Option<u32>, bool)>, AllocError> {
    let Some(failed) = played(alloc, fault, calls, tear)? else {
        return Ok(None);
    };
    let (settled, most) = (failed.settled, failed.most);
    let found = found_behind(alloc, fault, failed.pages, tear);
    let is_between = match found {
        Some(found) => settled <= found && found <= most,
        None => false,
    };
    Ok(Some((found, is_between)))
}

/// A call that fails, or a stop after a call, at each place of the scenario: every settled pulse is found, and none that was not
/// accepted.
fn play_faults(report: &mut Report<'_>, fault: Fault, tear: SlotTear) -> Result<(), AllocError> {
    let alloc = report.alloc();
    for calls in 0..CALLS {
        let Some((found, is_between)) = found_after(alloc, fault, calls, tear)? else {
            report.compare((fault, tear, calls), false, true);
            continue;
        };
        report.compare((fault, tear, calls, found), is_between, true);
        if fault == Fault::Stop {
            play_second_stops(report, calls, tear, found)?;
        }
    }
    Ok(())
}

/// Three pages of which the middle one is written anew, and torn so by a stop.
fn torn(alloc: Global, tear: SlotTear) -> Result<Option<[Came; 3]>, AllocError> {
    let Ok(mut pages) = FilePages::over(alloc, MemorySlots::new(alloc, 3)?, 3) else {
        return Ok(None);
    };
    for index in 0..3u16 {
        let _written = asked(&mut pages, Ask::Put(index, 0x11));
    }
    let _synced = asked(&mut pages, Ask::Sync);
    let _written = asked(&mut pages, Ask::Put(1, 0xee));
    let left = pages.into_slots().cut(SlotTears::All(tear));
    let Ok(mut pages) = FilePages::over(alloc, left, 3) else {
        return Ok(None);
    };
    Ok(Some([get(&mut pages, 0), get(&mut pages, 1), get(&mut pages, 2)]))
}

/// The expected middle page: the old one if no octet arrived, the new one if all did, and otherwise damaged.
fn page_of(octets: usize) -> Came {
    match octets {
        0 => Came::Full(0x11),
        SLOT_BYTES => Came::Full(0xee),
        _ => Came::Damaged,
    }
}

/// A slot torn so, of which so many octets arrived.
fn play_tear(report: &mut Report<'_>, tear: SlotTear, octets: usize) -> Result<(), AllocError> {
    let left = torn(report.alloc(), tear)?;
    let pages = [Came::Full(0x11), page_of(octets), Came::Full(0x11)];
    report.compare(tear, left, Some(pages));
    Ok(())
}

/// A slot torn at each octet, from either end; its neighbours stay.
fn play_torn(report: &mut Report<'_>) -> Result<(), AllocError> {
    for octets in 0..=SLOT_BYTES {
        let place = octets as u16;
        play_tear(report, SlotTear::Front(place), octets)?;
        play_tear(report, SlotTear::Back(place), SLOT_BYTES - octets)?;
    }
    Ok(())
}

/// A fault at each place, with each tear.
fn play_tears(report: &mut Report<'_>, fault: Fault) -> Result<(), AllocError> {
    for tear in &TEARS {
        play_faults(report, fault, *tear)?;
    }
    Ok(())
}

/// Calls of a file that fail, and stops of its machine.
fn play_file(report: &mut Report<'_>) -> Result<(), AllocError> {
    report.begin("faults and stops of a file");
    for fault in &FAULTS {
        play_tears(report, *fault)?;
    }
    report.end();
    Ok(())
}

/// Slots that are torn, calls of a file that fail, and stops of its machine.
pub fn play_slots(report: &mut Report<'_>) -> anyhow::Result<()> {
    report.begin("torn slots");
    play_torn(report)?;
    report.end();
    Ok(play_file(report)?)
}
