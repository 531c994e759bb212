//! A device in memory: its calls, the calls that fail, and what a stop leaves.

use crate::asked::{Ask, Came, asked, get, play};
use crate::report::Report;
use anyhow::Result;
use dlms_pages::{MemoryPages, PageChoice, Pages, Pick};

/// Each call of a device of three pages of zeros.
const CALLS: [(Ask, Came); 9] = [
    (Ask::Get(2), Came::Full(0)),
    (Ask::Put(1, 7), Came::Done),
    (Ask::Get(1), Came::Full(7)),
    (Ask::Sync, Came::Done),
    (Ask::Get(1), Came::Full(7)),
    (Ask::Get(0), Came::Full(0)),
    (Ask::Get(3), Came::NoPage),
    (Ask::Count, Came::Number(3)),
    (Ask::Faults, Came::Number(0)),
];

/// Each call, and how many pages a device of none has.
pub fn play_calls(report: &mut Report<'_>) -> Result<()> {
    report.begin("calls in memory");
    let mut device = MemoryPages::new(report.alloc(), 3)?;
    play(report, "three pages", &mut device, &CALLS);
    drop(device);
    let none = MemoryPages::new(report.alloc(), 0)?;
    let count = none.count();
    drop(none);
    report.compare("no page", count, 0);
    report.end();
    Ok(())
}

/// Which calls fail, counted from 0.
#[derive(Clone, Copy, Debug)]
enum Fails {
    /// This one and every later one.
    From(u64),
    /// This one alone.
    Once(u64),
}

impl Fails {
    /// Whether a call is to fail.
    fn is_due(self, call: u64) -> bool {
        match self {
            Fails::From(first) => first <= call,
            Fails::Once(one) => call == one,
        }
    }
}

/// How many of six calls fail.
static FAULTS: [(Fails, u64); 16] = [
    (Fails::From(0), 6),
    (Fails::From(1), 5),
    (Fails::From(2), 4),
    (Fails::From(3), 3),
    (Fails::From(4), 2),
    (Fails::From(5), 1),
    (Fails::From(6), 0),
    (Fails::From(7), 0),
    (Fails::Once(0), 1),
    (Fails::Once(1), 1),
    (Fails::Once(2), 1),
    (Fails::Once(3), 1),
    (Fails::Once(4), 1),
    (Fails::Once(5), 1),
    (Fails::Once(6), 0),
    (Fails::Once(7), 0),
];

/// The six calls.
const SIX: [Ask; 6] = [
    Ask::Put(0, 1),
    Ask::Put(1, 2),
    Ask::Get(0),
    Ask::Sync,
    Ask::Put(0, 3),
    Ask::Sync,
];

/// Whether a call passes on this device.
fn passes(device: &mut MemoryPages, ask: Ask) -> bool {
    !matches!(asked(device, ask), Came::Fault | Came::NoPage)
}

/// The six calls and a seventh where these fail: each that is to pass does, and each fault is counted.
fn play_failing(report: &mut Report<'_>, device: &mut MemoryPages, fails: Fails, faults: u64) {
    let mut call = 0u64;
    for ask in SIX {
        report.compare((fails, call), passes(device, ask), !fails.is_due(call));
        call = call.saturating_add(1);
    }
    report.compare((fails, "faults"), device.faults(), faults);
    report.compare(
        (fails, call),
        passes(device, Ask::Get(0)),
        !fails.is_due(call),
    );
}

/// Has the calls of a device fail so.
fn fail_so(device: &mut MemoryPages, fails: Fails) {
    match fails {
        Fails::From(first) => device.fuse(first),
        Fails::Once(one) => device.fail_once(one),
    }
}

/// A fuse of each length fails every call after it, and one fault fails one call.
pub fn play_faults(report: &mut Report<'_>) -> Result<()> {
    report.begin("faults");
    for (fails, faults) in &FAULTS {
        let mut device = MemoryPages::new(report.alloc(), 2)?;
        fail_so(&mut device, *fails);
        play_failing(report, &mut device, *fails, *faults);
        drop(device);
    }
    report.end();
    Ok(())
}

/// The pages synced before a call fails.
const SYNCED: [(Ask, Came); 2] = [(Ask::Put(0, 1), Came::Done), (Ask::Sync, Came::Done)];

/// A write that fails.
const UNWRITTEN: [(Ask, Came); 2] = [(Ask::Put(0, 2), Came::Fault), (Ask::Get(0), Came::Full(1))];

/// A sync that fails.
const UNSYNCED: [(Ask, Came); 3] = [
    (Ask::Put(0, 3), Came::Done),
    (Ask::Sync, Came::Fault),
    (Ask::Get(0), Came::Full(3)),
];

/// What a stop leaves then, if it leaves the synced content.
const LEFT: [(Ask, Came); 2] = [(Ask::Get(0), Came::Full(1)), (Ask::Faults, Came::Number(2))];

/// A write that fails, and a sync, after one that succeeded.
fn play_two_faults(report: &mut Report<'_>, device: &mut MemoryPages) {
    play(report, "synced", device, &SYNCED);
    device.fail_once(0);
    play(report, "a write fails", device, &UNWRITTEN);
    device.fail_once(1);
    play(report, "a sync fails", device, &UNSYNCED);
}

/// A call that fails changes nothing.
pub fn play_failed_calls(report: &mut Report<'_>) -> Result<()> {
    report.begin("failed calls");
    let mut device = MemoryPages::new(report.alloc(), 1)?;
    play_two_faults(report, &mut device);
    let mut left = device.cut(Pick::AllOld);
    play(report, "stopped", &mut left, &LEFT);
    drop(left);
    report.end();
    Ok(())
}

/// Page 0 is synced, 1 is synced and written again, 2 was never written, 3 is written and not synced.
const WRITTEN: [(Ask, Came); 5] = [
    (Ask::Put(0, 1), Came::Done),
    (Ask::Put(1, 2), Came::Done),
    (Ask::Sync, Came::Done),
    (Ask::Put(1, 3), Came::Done),
    (Ask::Put(3, 4), Came::Done),
];

/// What a stop leaves of them.
static PICKS: [(Pick<'static>, [Came; 4]); 5] = [
    (
        Pick::AllOld,
        [Came::Full(1), Came::Full(2), Came::Full(0), Came::Full(0)],
    ),
    (
        Pick::AllNew,
        [Came::Full(1), Came::Full(3), Came::Full(0), Came::Full(4)],
    ),
    (
        Pick::AllDamaged,
        [Came::Full(1), Came::Damaged, Came::Full(0), Came::Damaged],
    ),
    (
        Pick::Each(&[
            PageChoice::Torn,
            PageChoice::Torn,
            PageChoice::Torn,
            PageChoice::New,
        ]),
        [Came::Full(1), Came::Damaged, Came::Full(0), Came::Full(4)],
    ),
    (
        Pick::Each(&[PageChoice::New, PageChoice::New]),
        [Came::Full(1), Came::Full(3), Came::Full(0), Came::Full(0)],
    ),
];

/// What the four pages read as.
fn four(device: &mut MemoryPages) -> [Came; 4] {
    [
        get(device, 0),
        get(device, 1),
        get(device, 2),
        get(device, 3),
    ]
}

/// What a pick leaves of the pages of a device, and what is left after a second stop.
fn stopped_twice(device: MemoryPages, pick: Pick<'static>) -> [[Came; 4]; 2] {
    let mut device = device.cut(pick);
    let once = four(&mut device);
    let mut device = device.cut(Pick::AllDamaged);
    let twice = four(&mut device);
    drop(device);
    [once, twice]
}

/// What each pick leaves, and that a second stop changes none of it. The fuse is gone with the stop.
pub fn play_picks(report: &mut Report<'_>) -> Result<()> {
    report.begin("picks");
    for (pick, pages) in &PICKS {
        let mut device = MemoryPages::new(report.alloc(), 4)?;
        play(report, "written", &mut device, &WRITTEN);
        device.fuse(0);
        let [once, twice] = stopped_twice(device, *pick);
        report.compare((*pick, 1), once, *pages);
        report.compare((*pick, 2), twice, *pages);
    }
    report.end();
    Ok(())
}
