//! A replay of rows that go round the ring, whose device fails at each of its calls: its output, and what a recovery finds.

use crate::stops::stops::{Fault, Left, after_stop, device_of, found_after_stops, found_on};
use crate::stops::{MemoryMeter, formatted};
use dlms_pages::MemoryPages;
use dlms_program::replay;
use std::alloc::{AllocError, Global};

/// How many moments are replayed, each at the end of a period: one row more than the ring takes before a checkpoint, and a few.
const ROWS: u32 = 250;

/// The most rows whose records are pending: 99 of five bytes fill a page.
const PENDING: u32 = 99;

/// How often the device is called: for two pages, a checkpoint with eight ring pages, and the page that closing writes.
const CALLS: u32 = 21;

/// The output for the line at which the device fails, and for each after it.
const FAILED: &[u8] = b"fault 2\n";

const STOPPED: &[u8] = b"fault 3\n";

/// The lines.
fn text_of(alloc: Global) -> Result<String, AllocError> {
    let mut text = String::new(alloc);
    for period in 1..=ROWS {
        let second = period.saturating_mul(900);
        text.push_str(format!(in alloc; "M {second}\n")?.as_str())?;
    }
    Ok(text)
}

/// The number of lines that were not accepted: none, or the one at which the device failed and all after it. None if anything else
/// is printed.
fn lost_in(printed: &[u8]) -> Option<u32> {
    if printed.is_empty() {
        return Some(0);
    }
    if !printed.starts_with(FAILED) {
        return None;
    }
    let mut rest = printed.get(FAILED.len()..)?;
    let mut lost = 1u32;
    for _ in 0..ROWS {
        if !rest.starts_with(STOPPED) {
            break;
        }
        rest = rest.get(STOPPED.len()..)?;
        lost = lost.saturating_add(1);
    }
    rest.is_empty().then_some(lost)
}

/// A replay on a meter whose device fails so: how many lines were taken, and the device.
fn replayed(
    alloc: Global,
    fault: Fault,
    calls: u32,
    text: &str,
) -> Result<Option<(u32, MemoryPages)>, AllocError> {
    let Some(meter) = formatted(alloc, device_of(alloc, fault, u64::from(calls))?) else {
        return Ok(None);
    };
    let mut meter: Option<MemoryMeter> = Some(meter);
    let mut reader = text.as_bytes();
    let mut writer = Vec::new(alloc);
    if replay(alloc, &mut reader, &mut writer, &mut meter).is_err() {
        return Ok(None);
    }
    match (lost_in(writer.as_slice()), meter) {
        (Some(lost), Some(meter)) => Ok(Some((ROWS.saturating_sub(lost), meter.close()))),
        _ => Ok(None),
    }
}

/// Whether a replay comes out as it may: what is found has each settled row, and no other than those that were taken.
fn is_right(
    alloc: Global,
    fault: Fault,
    left: Left,
    calls: u32,
    text: &str,
) -> Result<bool, AllocError> {
    let first = replayed(alloc, fault, calls, text)?;
    let second = replayed(alloc, fault, calls, text)?;
    let (Some((taken, device)), Some((_, again))) = (first, second) else {
        return Ok(false);
    };
    let found = found_on(alloc, after_stop(device, left));
    let also = found_after_stops(alloc, after_stop(again, left), left);
    let least = u128::from(taken.saturating_sub(PENDING));
    let is_between = match found {
        Some(seen) => least <= seen.next && seen.next <= u128::from(taken),
        None => false,
    };
    Ok(is_between && also == found)
}

/// How many replays there were, one for each number of calls that pass, and how many came out otherwise than they may.
pub fn rounds(alloc: Global, fault: Fault, left: Left) -> Result<(u32, u32), AllocError> {
    let text = text_of(alloc)?;
    let mut differ = 0u32;
    for calls in 0..CALLS {
        if !is_right(alloc, fault, left, calls, text.as_str())? {
            differ = differ.saturating_add(1);
        }
    }
    Ok((CALLS, differ))
}
