//! Stops a meter at each call of its device, after a first poll and in a second one of the same readings file, recovers it and
//! polls again: the file then has each row that the meter holds, once, and no other.

use crate::polls::poll::{MemoryMeter, polled};
use anyhow::{Result, anyhow};
use dlms_headend::Readings;
use dlms_meter::Meter;
use dlms_pages::{MemoryPages, Pick};
use dlms_store::PAGES;
use std::alloc::Global;

/// The calls of the device after which it fails, one of them in each run: from fewer than a first poll needs to more than there
/// are in a run.
const CALLS: u64 = 190;

/// The outcome of a run.
#[derive(Clone, Copy)]
enum Outcome {
    /// The power stopped before the first poll was done.
    Early,
    /// The file agrees with the meter.
    Agrees,
    /// It does not.
    Differs,
}

/// Pulses and captures, and a moment that captures nothing. Where the device fails they are not accepted.
fn lives(meter: &mut MemoryMeter, from: u32, to: u32) {
    for period in from..to {
        for _ in 0..20u8 {
            let _accepted = meter.pulses((period % 3) as u8, period).is_ok();
        }
        let _accepted = meter.moment(period.saturating_mul(900)).is_ok();
    }
}

/// The text of a readings file that has each row of the meter's buffer.
fn text_of(meter: &MemoryMeter, alloc: Global) -> Result<String> {
    let mut text = String::new(alloc);
    for row in meter.state().rows().iter() {
        let [clock, first, second, third] = row.values.as_slice() else {
            return Ok(String::new(alloc));
        };
        text.push_str(format!(in alloc; "{clock},{first},{second},{third}\n")?.as_str())?;
    }
    Ok(text)
}

/// Polls, and merges the rows of a poll that is done. Whether it is done.
fn reads(meter: &mut MemoryMeter, file: &mut Readings, alloc: Global) -> Result<bool> {
    match polled(meter, file.last(), alloc) {
        Some(poller) => {
            file.merge(poller.rows())?;
            Ok(true)
        }
        None => Ok(false),
    }
}

/// Whether the file has each row of the meter's buffer, once, and no other.
fn agrees(meter: &MemoryMeter, file: &Readings, alloc: Global) -> Result<bool> {
    let expected = text_of(meter, alloc)?;
    let text = file.text()?;
    Ok(text.as_str() == expected.as_str())
}

/// A new meter whose device fails after this many calls; none if it fails within `format`.
fn new_meter(alloc: Global, calls: u64) -> Result<Option<MemoryMeter>> {
    let mut pages = MemoryPages::new(alloc, PAGES)?;
    pages.fuse(calls);
    Ok(Meter::format(alloc, pages).ok())
}

/// The life up to the stop, with two polls. Whether the first one was done.
fn first_life(meter: &mut MemoryMeter, file: &mut Readings, alloc: Global) -> Result<bool> {
    lives(meter, 1, 12);
    if !reads(meter, file, alloc)? {
        return Ok(false);
    }
    lives(meter, 12, 40);
    let _is_done = reads(meter, file, alloc)?;
    lives(meter, 40, 52);
    Ok(true)
}

/// One more poll after the stop.
fn second_life(meter: &mut MemoryMeter, file: &mut Readings, alloc: Global) -> Result<Outcome> {
    if reads(meter, file, alloc)? && agrees(meter, file, alloc)? {
        Ok(Outcome::Agrees)
    } else {
        Ok(Outcome::Differs)
    }
}

/// The outcome of a stop of this meter, and of its recovery.
fn outcome_of_stop(
    meter: MemoryMeter,
    file: &mut Readings,
    alloc: Global,
    pick: Pick<'_>,
) -> Result<Outcome> {
    match Meter::recover(alloc, meter.close().cut(pick)) {
        Ok(mut meter) => second_life(&mut meter, file, alloc),
        Err(_) => Ok(Outcome::Differs),
    }
}

/// A meter whose device fails after this many calls, polled into this file while it lives and once when it comes back from a stop.
fn outcome_in(file: &mut Readings, alloc: Global, calls: u64, pick: Pick<'_>) -> Result<Outcome> {
    let Some(mut meter) = new_meter(alloc, calls)? else {
        return Ok(Outcome::Early);
    };
    if first_life(&mut meter, file, alloc)? {
        outcome_of_stop(meter, file, alloc, pick)
    } else {
        Ok(Outcome::Early)
    }
}

/// The same with a new file.
fn outcome_of(alloc: Global, calls: u64, pick: Pick<'_>) -> Result<Outcome> {
    match Readings::open(alloc, "") {
        Ok(mut file) => outcome_in(&mut file, alloc, calls, pick),
        Err(_) => Err(anyhow!("an empty file is refused")),
    }
}

/// Each stop with each of three outcomes of the unsynced content: how many differ.
pub fn run<R: Print + AllocGlobal>(rt: &R) -> Result<u32> {
    let mut agreeing = 0u32;
    let mut differing = 0u32;
    for calls in 0..CALLS {
        for pick in [Pick::AllOld, Pick::AllNew, Pick::AllDamaged] {
            match outcome_of(rt.alloc(), calls, pick)? {
                Outcome::Early => {}
                Outcome::Agrees => agreeing = agreeing.saturating_add(1),
                Outcome::Differs => {
                    differing = differing.saturating_add(1);
                    println!(rt; "after {calls} calls: {pick:?}")?;
                }
            }
        }
    }
    println!(rt; "{agreeing} stops agree, {differing} differ")?;
    Ok(differing)
}
