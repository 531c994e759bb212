//! A meter with so many captures, polled over a line.
use crate::plan::managements_plan;
use crate::polls::poll::MemoryMeter;
use crate::polls::wire::{Fate, Pieces, Wire};
use anyhow::{Result, anyhow};
use dlms_ends::{RunFault, poll};
use dlms_headend::{Columns, PollFault, Poller, Row};
use dlms_meter::Meter;
use dlms_pages::MemoryPages;
use dlms_store::PAGES;
use std::alloc::Global;

/// The most rows that a meter keeps.
const KEPT: u32 = 960;

/// The seconds of a capture period.
const PERIOD: u32 = 900;

/// How a poll ended.
#[derive(Clone, Copy, PartialEq, Eq)]
pub enum Ended {
    /// It was done, with the rows that were captured, and the meter still has these.
    Done,
    /// Nobody answered.
    Line,
    /// In another way.
    Other,
}

/// A meter with a capture after each of this many periods, each with one pulse more in it than the one before.
fn meter_with(alloc: Global, rows: u32) -> Result<MemoryMeter> {
    let Ok(mut meter) = Meter::format(alloc, MemoryPages::new(alloc, PAGES)?) else {
        return Err(anyhow!("no meter"));
    };
    for period in 1..=rows {
        meter.pulses(0, period)?;
        meter.moment(period.saturating_mul(PERIOD))?;
    }
    Ok(meter)
}

/// Whether this is the capture after a period.
fn is_capture(period: u32, clock: u32, registers: [u32; 3]) -> bool {
    let sum = period.saturating_mul(period.saturating_add(1)) / 2;
    clock == period.saturating_mul(PERIOD) && registers == [sum, 0, 0]
}

/// Whether these are the captures that a meter keeps of this many periods.
fn are_captures(rows: u32, polled: &[Row]) -> bool {
    let mut period = rows.saturating_sub(KEPT);
    for row in polled {
        period = period.saturating_add(1);
        if !is_capture(period, row.clock, row.registers) {
            return false;
        }
    }
    period == rows
}

/// Whether the meter has them.
fn has_captures(meter: &MemoryMeter, rows: u32) -> bool {
    let mut period = rows.saturating_sub(KEPT);
    for row in meter.state().rows().iter() {
        period = period.saturating_add(1);
        let is_as_captured = match row.values.as_slice() {
            [clock, first, second, third] => is_capture(period, *clock, [*first, *second, *third]),
            _ => false,
        };
        if !is_as_captured {
            return false;
        }
    }
    period == rows
}

/// Whether the line did to a frame what it was to do.
fn has_met(fate: Fate, sent: u32) -> bool {
    match fate {
        Fate::Lost(first, _) => first < sent,
        Fate::Cut(number) | Fate::Twice(number) => number < sent,
        Fate::Whole => true,
    }
}

/// A poll of a meter with this many captures over such a line; none if the poll has fewer frames than the line was to lose.
pub fn ended_by(alloc: Global, rows: u32, fate: Fate, pieces: Pieces) -> Result<Option<Ended>> {
    let mut meter = meter_with(alloc, rows)?;
    let wire = Wire::new(alloc, fate, pieces);
    let poller = Poller::new(alloc, managements_plan(None, Columns::Asked));
    let ended = match poll(&mut wire.head(), &mut wire.tail(), &mut meter, poller) {
        Ok(done) if are_captures(rows, done.rows()) => Ended::Done,
        Err(RunFault::Poll(PollFault::Line)) => Ended::Line,
        _ => Ended::Other,
    };
    let ended = if has_captures(&meter, rows) {
        ended
    } else {
        Ended::Other
    };
    Ok(has_met(fate, wire.sent()).then_some(ended))
}
