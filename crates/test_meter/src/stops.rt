//! Stops a meter's power and fails its device at each of its device's calls, and says how often what it answers, or what a
//! recovery finds, is other than it may be.

mod acts;
mod filed;
mod heaps;
mod play;
mod replays;
mod rounds;
mod stops;

use crate::client::{associated_by, exchange};
use crate::seen::Seen;
use crate::stops::acts::{SET_A, SIZE};
use crate::stops::filed::stopped_in_a_file;
use crate::stops::heaps::{GET_LIST, GET_REGISTER, is_refused_in_turn, is_transfer_left};
use crate::stops::replays::{is_refused_at_recovery, replays};
use crate::stops::rounds::rounds;
use crate::stops::stops::{Fault, Left, after_stop, found_behind, found_on, stopped_everywhere};
use anyhow::Result;
use dlms_frame::Client;
use dlms_meter::Meter;
use dlms_pages::{MemoryPages, SlotTear};
use dlms_store::PAGES;
use std::alloc::{AllocError, Global};

/// A meter over pages in memory.
type MemoryMeter<A = Global> = Meter<MemoryPages, A>;

/// The calls of a format: the 62 pages and a sync; a body and a sync; a gate and a sync.
const FORMATS: u64 = 67;

/// A new meter.
fn formatted(alloc: Global, device: MemoryPages) -> Option<MemoryMeter> {
    Meter::format(alloc, device).ok()
}

/// The meter that a device held, or the device if it is not found.
fn recovered(alloc: Global, device: MemoryPages) -> Result<MemoryMeter, MemoryPages> {
    match Meter::recover(alloc, device) {
        Ok(meter) => Ok(meter),
        Err((device, _)) => Err(device),
    }
}

/// Sets the text, and then counts five pulses.
fn set_and_count(meter: &mut MemoryMeter) {
    if let Some(mut link) = associated_by(meter, Client::Management, SIZE) {
        let _answer = exchange(meter, &mut link, SET_A.apdu);
        let _counted = meter.pulses(0, 5);
    }
}

/// The device of a meter whose text was set, and which then counted five pulses, if this many of its calls succeed.
fn set_and_pulses(alloc: Global, calls: u64) -> Result<Option<MemoryPages>, AllocError> {
    let mut device = MemoryPages::new(alloc, PAGES)?;
    device.fuse(FORMATS.saturating_add(calls));
    match formatted(alloc, device) {
        Some(mut meter) => {
            set_and_count(&mut meter);
            Ok(Some(meter.close()))
        }
        None => Ok(None),
    }
}

/// The expected state after an answered SET: its text, and no pulse.
const TEXT_ALONE: Seen = Seen {
    registers: [0; 3],
    clock: 0,
    period: 900,
    rows: 0,
    next: 0,
    text_len: 1,
    text: Some(b'A'),
};

/// Whether the text is found, and no pulse, if the power stops before the pulses' page is written.
fn is_found_behind_a_set(alloc: Global) -> Result<bool, AllocError> {
    match set_and_pulses(alloc, 2)? {
        Some(device) => Ok(found_on(alloc, after_stop(device, Left::Old)) == Some(TEXT_ALONE)),
        None => Ok(false),
    }
}

/// The same if the pulses' page is torn, and the power stops again after this many calls of the recovery.
fn is_found_behind_a_torn_page(alloc: Global, calls: u64, pick: Left) -> Result<bool, AllocError> {
    match set_and_pulses(alloc, 3)? {
        Some(device) => {
            let torn = after_stop(device, Left::Damaged);
            Ok(found_behind(alloc, torn, calls, pick) == Some(TEXT_ALONE))
        }
        None => Ok(false),
    }
}

/// More calls than a recovery makes.
const RECOVERY: u32 = 16;

/// How often something else is found.
fn others_behind_a_torn_page(alloc: Global, pick: Left) -> Result<u32, AllocError> {
    let mut differ = 0u32;
    for calls in 0..RECOVERY {
        if !is_found_behind_a_torn_page(alloc, u64::from(calls), pick)? {
            differ = differ.saturating_add(1);
        }
    }
    Ok(differ)
}

/// The stops and faults at each call of the scenario.
const RUNS: [(Fault, Left); 5] = [
    (Fault::Fuse, Left::Old),
    (Fault::Fuse, Left::New),
    (Fault::Fuse, Left::Damaged),
    (Fault::Once, Left::AsItIs),
    (Fault::Once, Left::Damaged),
];

/// Runs all of it. The outcomes are printed.
pub fn run(rt: &HostRuntime) -> Result<()> {
    let alloc = rt.alloc();
    let found = is_found_behind_a_set(alloc)?;
    println!(rt; "behind a set: {found}")?;
    for pick in [Left::Old, Left::New, Left::Damaged] {
        let differ = others_behind_a_torn_page(alloc, pick)?;
        println!(rt; "behind a torn page, {pick:?}: {RECOVERY} recoveries, {differ} differ")?;
    }
    let is_refused = is_refused_in_turn(alloc, &GET_REGISTER, 16)?
        && is_refused_in_turn(alloc, &GET_LIST, 512)?;
    println!(rt; "each growth refused in turn: {is_refused}")?;
    let is_left = is_transfer_left(alloc)?;
    println!(rt; "a transfer left by a refusal: {is_left}")?;
    let (runs, differ) = replays(alloc)?;
    println!(rt; "replays: {runs} runs, {differ} differ")?;
    let is_refused = is_refused_at_recovery(alloc)?;
    println!(rt; "a recovery in a replay refused memory: {is_refused}")?;
    for (fault, pick) in RUNS {
        let (runs, differ) = stopped_everywhere(alloc, fault, pick)?;
        println!(rt; "{fault:?}, {pick:?}: {runs} runs, {differ} differ")?;
        let (runs, differ) = rounds(alloc, fault, pick)?;
        println!(rt; "{fault:?}, {pick:?}, rows replayed: {runs} runs, {differ} differ")?;
    }
    for fault in [Fault::Fuse, Fault::Once] {
        for tear in [SlotTear::Old, SlotTear::New, SlotTear::EverySecond] {
            let (runs, differ) = stopped_in_a_file(alloc, fault, tear)?;
            println!(rt; "in a file, {fault:?}, {tear:?}: {runs} runs, {differ} differ")?;
        }
    }
    Ok(())
}
