//! The power stops in each call of a scenario on a store, and again in each call of the recovery.

use crate::report::Report;
use crate::scripts::FORMATS;
use dlms_pages::{MemoryPages, PageChoice, Pages, Pick};
use dlms_state::Event;
use dlms_store::{PAGES, Store};
use std::alloc::{AllocError, Global};

/// An act of the scenario: so many pulses, each an event of its own, or a call that settles them.
#[derive(Clone, Copy)]
enum Act {
    Pulses(u32),
    Commit,
    Checkpoint,
}

/// Its device is called 14 times, twice of them when the 83 records fill a page.
const SCENARIO: [Act; 9] = [
    Act::Pulses(3),
    Act::Commit,
    Act::Pulses(83),
    Act::Commit,
    Act::Pulses(2),
    Act::Checkpoint,
    Act::Pulses(5),
    Act::Commit,
    Act::Pulses(1),
];

/// More calls than the scenario makes.
const CALLS: u64 = 18;

/// More calls than a recovery makes.
const RECOVERY: u64 = 16;

/// What a stop leaves of the pages in flight.
#[derive(Clone, Copy, Debug)]
pub enum Left {
    Old,
    New,
    Damaged,
    /// The first page new, the second torn, all others old.
    Each,
}

impl Left {
    /// The pick for each page.
    pub fn pick(self) -> Pick<'static> {
        match self {
            Left::Old => Pick::AllOld,
            Left::New => Pick::AllNew,
            Left::Damaged => Pick::AllDamaged,
            Left::Each => Pick::Each(&[PageChoice::New, PageChoice::Torn, PageChoice::Old]),
        }
    }
}

/// Each of them.
pub static LEFT: [Left; 4] = [Left::Old, Left::New, Left::Damaged, Left::Each];

/// How many pulses the store has, each an event that it accepted.
pub fn accepted<P: Pages>(store: &Store<P>) -> u32 {
    let [pulses, _, _] = store.state().registers();
    pulses
}

/// The outcome of a part of the scenario: the number of settled pulses, and whether the device still works.
#[derive(Clone, Copy)]
struct Went {
    settled: u32,
    works: bool,
}

/// Adds so many pulses, of which some are settled on the way.
fn add_pulses<P: Pages>(store: &mut Store<P>, count: u32, settled: u32) -> Went {
    let mut settled = settled;
    for _ in 0..count {
        let (before, waiting) = (accepted(store), store.pending());
        if store.add(Event::Pulses(0, 1)).is_err() {
            return Went {
                settled,
                works: false,
            };
        }
        if store.pending() <= waiting {
            settled = before;
        }
    }
    Went {
        settled,
        works: true,
    }
}

/// The outcome of a call that settles all pulses.
fn settles<P: Pages>(store: &Store<P>, works: bool, settled: u32) -> Went {
    Went {
        settled: if works { accepted(store) } else { settled },
        works,
    }
}

/// Plays an act, and says what came of it.
fn play_act<P: Pages>(store: &mut Store<P>, act: Act, settled: u32) -> Went {
    match act {
        Act::Pulses(count) => add_pulses(store, count, settled),
        Act::Commit => {
            let works = store.commit().is_ok();
            settles(store, works, settled)
        }
        Act::Checkpoint => {
            let works = store.checkpoint().is_ok();
            settles(store, works, settled)
        }
    }
}

/// Plays the scenario up to the first fault, and gives how many pulses were settled.
pub fn settled_in<P: Pages>(store: &mut Store<P>) -> u32 {
    let mut settled = 0;
    for act in SCENARIO {
        let went = play_act(store, act, settled);
        settled = went.settled;
        if !went.works {
            return settled;
        }
    }
    settled
}

/// A device whose power stopped, with the least and the most pulses that it may represent.
#[derive(Drop)]
struct Stopped {
    device: MemoryPages,
    settled: u32,
    most: u32,
}

/// The device of a scenario whose power stopped after this many calls of a formatted store.
fn stopped_behind(alloc: Global, calls: u64, left: Left) -> Result<Option<Stopped>, AllocError> {
    let mut device = MemoryPages::new(alloc, PAGES)?;
    device.fuse(FORMATS.saturating_add(calls));
    let Ok(mut store) = Store::format(alloc, device) else {
        return Ok(None);
    };
    let settled = settled_in(&mut store);
    let most = accepted(&store);
    Ok(Some(Stopped {
        device: store.close().cut(left.pick()),
        settled,
        most,
    }))
}

/// How many pulses are found on a device.
fn found_on(alloc: Global, device: MemoryPages) -> Option<u32> {
    match Store::open(alloc, device) {
        Ok(store) => {
            let pulses = accepted(&store);
            drop(store);
            Some(pulses)
        }
        Err(refused) => {
            drop(refused);
            None
        }
    }
}

/// The number found if the power stops again after this many calls of the recovery.
fn found_behind(alloc: Global, device: MemoryPages, calls: u64, left: Left) -> Option<u32> {
    let mut device = device;
    device.fuse(calls);
    let device = match Store::open(alloc, device) {
        Ok(store) => store.close(),
        Err((device, _)) => device,
    };
    found_on(alloc, device.cut(left.pick()))
}

/// The number of pulses found after one stop, and whether it is no less than was settled and no more than was accepted.
fn found_after(alloc: Global, calls: u64, left: Left) -> Result<(Option<u32>, bool), AllocError> {
    let Some(stopped) = stopped_behind(alloc, calls, left)? else {
        return Ok((None, false));
    };
    let found = found_on(alloc, stopped.device);
    let is_between = match found {
        Some(found) => stopped.settled <= found && found <= stopped.most,
        None => false,
    };
    Ok((found, is_between))
}

/// The number of pulses found after a stop and a second one.
fn found_again(
    alloc: Global,
    calls: u64,
    left: Left,
    again: u64,
    second: Left,
) -> Result<Option<u32>, AllocError> {
    match stopped_behind(alloc, calls, left)? {
        Some(stopped) => Ok(found_behind(alloc, stopped.device, again, second)),
        None => Ok(None),
    }
}

/// Stops the power again, leaving this, wherever it can stop in the recovery: as much is found each time.
fn play_second_stops(
    report: &mut Report<'_>,
    (left, calls): (Left, u64),
    second: Left,
    found: Option<u32>,
) -> Result<(), AllocError> {
    for again in 0..RECOVERY {
        let also = found_again(report.alloc(), calls, left, again, second)?;
        report.compare((left, calls, second, again), also, found);
    }
    Ok(())
}

/// Stops the power again behind a stop, leaving each.
fn play_behind(report: &mut Report<'_>, calls: u64, left: Left) -> Result<(), AllocError> {
    let (found, _) = found_after(report.alloc(), calls, left)?;
    for second in &LEFT {
        play_second_stops(report, (left, calls), *second, found)?;
    }
    Ok(())
}

/// Stops the power wherever it can stop, leaving this.
fn play_left(report: &mut Report<'_>, left: Left) -> Result<(), AllocError> {
    for calls in 0..CALLS {
        let (found, is_between) = found_after(report.alloc(), calls, left)?;
        report.compare((left, calls, found), is_between, true);
    }
    Ok(())
}

/// Stops the power again behind each such stop.
fn play_left_again(report: &mut Report<'_>, left: Left) -> Result<(), AllocError> {
    for calls in 0..CALLS {
        play_behind(report, calls, left)?;
    }
    Ok(())
}

/// Wherever the power stops: what is found has every pulse that was settled, and none that was not accepted.
pub fn play_stops(report: &mut Report<'_>) -> anyhow::Result<()> {
    report.begin("stops");
    for left in &LEFT {
        play_left(report, *left)?;
    }
    report.end();
    Ok(())
}

/// Wherever it stops again in the recovery: the same is found.
pub fn play_stops_again(report: &mut Report<'_>) -> anyhow::Result<()> {
    report.begin("second stops");
    for left in &LEFT {
        play_left_again(report, *left)?;
    }
    report.end();
    Ok(())
}
